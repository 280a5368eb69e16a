// A call that waits, as a value.

use crate::rest::Rest;
use lk_domain::LockId;

/// A call of `lock` that has made its first row and found its lock not free.
#[derive(Clone, Copy)]
pub struct Arrival {
    // the word that the row met
    pub(crate) met: u64,
}

/// A call of `lock` that waits, and where it rests.
#[derive(Clone, Copy)]
pub struct Waiter {
    /// The lock for which it waits.
    pub lock: LockId,
    pub(crate) rest: Rest,
}
