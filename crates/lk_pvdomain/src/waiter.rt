// A call of `pv_lock` that waits, as a value, and what a turn of it comes to.

use crate::rest::PvRest;
use lk_domain::LockId;

/// A call of `pv_lock` that waits, and where it rests.
#[derive(Clone, Copy)]
pub struct PvWaiter {
    /// The lock for which it waits.
    pub lock: LockId,
    pub(crate) rest: PvRest,
}

/// What a turn of a call of `pv_lock` comes to.
#[derive(Clone, Copy)]
pub enum PvTurn {
    /// The processor holds the lock, and the call is over.
    Has,
    /// The call waits, and its processor runs: the next turn may be made at once.
    Waits(PvWaiter),
    /// The processor has halted, until it is kicked. A turn before that changes nothing.
    Halts(PvWaiter),
}
