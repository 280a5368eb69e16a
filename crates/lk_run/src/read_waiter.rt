// A call of a reader that waits, as a value.

use crate::rest::Rest;
use lk_domain::LockId;
use lk_rows::Pc;

// Where a reader rests.
#[derive(Clone, Copy)]
pub(crate) enum ReadPlace {
    // On its way to the wait lock.
    Queues(Rest),
    // R5: it has the wait lock, and looks until no writer is in.
    Watches,
    // R2: it has interrupted another call, and looks until no writer is in.
    Spins,
}

impl ReadPlace {
    // The row that it makes next.
    pub(crate) fn row(&self) -> Pc {
        match *self {
            ReadPlace::Queues(rest) => rest.row(),
            ReadPlace::Watches => Pc::R5,
            ReadPlace::Spins => Pc::R2,
        }
    }
}

/// A call of `read_lock` that waits, and where it rests.
#[derive(Clone, Copy)]
pub struct ReadWaiter {
    /// The lock for which it waits.
    pub lock: LockId,
    pub(crate) place: ReadPlace,
}
