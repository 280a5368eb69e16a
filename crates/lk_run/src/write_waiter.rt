// A call of a writer that waits, as a value.

use crate::rest::Rest;
use lk_domain::LockId;
use lk_rows::Pc;

// Where a writer rests.
#[derive(Clone, Copy)]
pub(crate) enum WritePlace {
    // On its way to the wait lock.
    Queues(Rest),
    // Wr5: it has the wait lock, keeps new readers out, and looks until nobody is inside.
    Watches,
}

impl WritePlace {
    // The row that it makes next.
    pub(crate) fn row(&self) -> Pc {
        match *self {
            WritePlace::Queues(rest) => rest.row(),
            WritePlace::Watches => Pc::Wr5,
        }
    }
}

/// A call of `write_lock` that waits, and where it rests.
#[derive(Clone, Copy)]
pub struct WriteWaiter {
    /// The lock for which it waits.
    pub lock: LockId,
    pub(crate) place: WritePlace,
}
