// What a history tells.

/// What happened.
#[derive(Clone, Copy, Debug, PartialEq, Eq)]
pub enum OsqWhat {
    /// It acquired the free lock.
    TakeFree,
    /// It joined the queue behind another processor.
    Arrive,
    /// It acquired the lock, which its predecessor had handed off to it.
    TakeHanded,
    /// It gave up and left the queue.
    Quit,
    /// It released the lock, and handed it off if `to` names a processor.
    Release {
        /// The successor that gets the lock; none if nobody waits.
        to: Option<u32>,
    },
}

/// One event of a history of the optimistic spin queue.
#[derive(Clone, Copy, Debug, PartialEq, Eq)]
pub struct OsqEvent {
    /// The processor that acted.
    pub cpu: u32,
    /// What happened.
    pub what: OsqWhat,
}
