// What a machine is made of.

use lk_names::{Format, Kind, List, Mode, Topology};

/// What an operation does to its lock.
#[derive(Clone, Copy, Debug, PartialEq, Eq)]
pub enum Verb {
    /// Acquires a spinlock (`queued_spin_lock`).
    Lock,
    /// Tries to acquire a spinlock, and does not wait (`queued_spin_trylock`).
    Try,
    /// Releases a spinlock (`queued_spin_unlock`).
    Unlock,
    /// Acquires a reader-writer lock as a reader (`queued_read_lock`).
    Read,
    /// Tries to acquire a reader-writer lock as a reader, and does not wait
    /// (`queued_read_trylock`).
    TryRead,
    /// Releases a reader-writer lock as a reader (`queued_read_unlock`).
    RUnlock,
    /// Acquires a reader-writer lock as the writer (`queued_write_lock`).
    Write,
    /// Tries to acquire a reader-writer lock as the writer, and does not wait
    /// (`queued_write_trylock`).
    TryWrite,
    /// Releases a reader-writer lock as the writer (`queued_write_unlock`).
    WUnlock,
}

/// One operation of a program.
#[derive(Clone, Copy, Debug, PartialEq, Eq)]
pub struct Op {
    /// What it does.
    pub verb: Verb,
    /// The number of its lock, from 0.
    pub lock: u32,
}

/// What a machine is made of. It never changes.
#[derive(Drop)]
pub struct Setup {
    /// The format. It says how the words are laid out, and which waiters a queue head of mode
    /// `cna` may move aside.
    pub format: Format,
    /// The lock family of all spinlocks.
    pub mode: Mode,
    /// The processors, and the socket of each.
    pub topology: Topology,
    /// The CNA threshold: the most handoffs that a lock makes while its secondary queue is not
    /// empty.
    pub threshold: u32,
    /// The spin bound, in polls: how many a paravirtual waiter makes before it halts (Linux's
    /// `SPIN_THRESHOLD`).
    pub spins: u32,
    /// The kind of each declared lock, by its number.
    pub locks: List<Kind>,
    /// The task's program of each processor.
    pub progs: List<List<Op>>,
    /// The interrupt handlers of each processor, in the order in which they are used.
    pub irqs: List<List<List<Op>>>,
}

impl Setup {
    ghost use Rattle.std.specs.Prelude.{◌≡◌, ◌≤◌};
    ghost use Rattle.lk_rows.specs.Programs.{HasPrograms, program_at, handlers_of};

    /// A program of a processor: 0 is its task's, h is that of its h-th handler.
    #[tactic(auto, unfolding(crate::specs::Programs::program_at, crate::specs::Programs::handlers_of))]
    pub fn program(&self, cpu: u32, number: u32) -> &List<Op>
        requires programs { HasPrograms self.now cpu }
        requires number { number ≤ handlers_of self.now cpu }
        ensures { result.now.items ≡ program_at self.now cpu number }
    {
        if number == 0 {
            self.progs.get(cpu as usize)
        } else {
            self.irqs.get(cpu as usize).get(number as usize - 1)
        }
    }
}
