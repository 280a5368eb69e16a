// What a port answers.

/// What a port answers.
#[derive(Clone, Copy, Debug, PartialEq, Eq)]
pub enum Answer {
    /// The processor holds the lock, or has freed it.
    Done,
    /// A call for the lock waits.
    Waits,
    /// A call for the lock has halted, until its processor is kicked.
    Halts,
    /// Others came to the lock at each try to free it. The processor holds it as before.
    Again,
    /// The lock was not taken: somebody has it, or was faster.
    Busy,
    /// The domain has no such lock.
    NoLock,
    /// The lock is of the other kind.
    WrongKind,
    /// The processor holds the lock already.
    Held,
    /// The processor does not hold the lock.
    NotHeld,
    /// The processor holds the lock in the other manner: as its writer, or as a reader.
    WrongManner,
    /// A call of the processor waits. It has to end first.
    Pending,
    /// No call of the processor waits.
    Idle,
}

/// What freeing a spinlock comes to.
#[derive(Clone, Copy)]
pub struct Freed {
    /// Whether it is free now.
    pub answer: Answer,
    /// The number of the processor that was kicked, if one was.
    pub kicked: Option<u32>,
}
