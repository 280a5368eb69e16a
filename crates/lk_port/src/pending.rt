// The call of a port that waits.

use lk_pvdomain::PvWaiter;
use lk_run::{ReadWaiter, Waiter, WriteWaiter};

/// The call of a port that waits, if there is one.
#[derive(Clone, Copy)]
pub enum Pending {
    /// None waits.
    Free,
    /// One for a spinlock.
    Spins(Waiter),
    /// A reader's.
    Reads(ReadWaiter),
    /// A writer's.
    Writes(WriteWaiter),
    /// One for a spinlock of a family whose waiters halt. It may have halted.
    Halts(PvWaiter),
}
