// Locking: the rows of `osq_lock` up to the turn. Pictures have the queue from its first to its
// last, and `t` for the tail.
ghost use Rattle.std.specs.Prelude.{◌≡◌};
ghost use Rattle.lk_osq.specs.Rows.{enters, arrives, links, waits};

use crate::events::OsqWhat;
use crate::outcomes::{Lead, Outcome, Store};
use crate::places::Place;

/// O1: resets its node.
///
/// The node stands in no queue. So no other processor names it or stores into it.
pub(crate) fn enters(cpu: u32) -> Outcome
    ensures { result ≡ enters cpu }
{
    Outcome::writes(Some(cpu), Store::Reset, Place::O2)
}

/// O2: exchanges the tail with itself.
///
/// `t = none` becomes `t = p`, and p acquires the lock. A processor that leaves the queue stores
/// none into the tail only as its last (X1, X5). So there is no holder, and the lock was handed
/// off to nobody.
///
/// `.. a, t = a` becomes `.. a  p, t = p`, and p has arrived behind a. The link from a to p is
/// *still to come*, and nobody else will store it. The node of p was reset, so p does not acquire
/// the lock before a predecessor hands it off.
pub(crate) fn arrives(cpu: u32, tail: Option<u32>) -> Outcome
    ensures { result ≡ arrives cpu tail }
{
    match tail {
        None => Outcome {
            tail: Some(Some(cpu)),
            node: None,
            leads: Lead::Goes(Place::X1),
            tells: Some(OsqWhat::TakeFree),
        },
        Some(before) => Outcome {
            tail: Some(Some(cpu)),
            node: None,
            leads: Lead::Knows(Place::O3, Some(before)),
            tells: Some(OsqWhat::Arrive),
        },
    }
}

/// O4: links its node behind its predecessor. (O3, before it, stores the predecessor into the own
/// node.)
///
/// `a  p` becomes `a -> p`. The predecessor is still a. It can leave only past the link behind
/// itself, which p has not stored yet, or as the last of the queue, which it is not.
pub(crate) fn links(cpu: u32, prev: Option<u32>) -> Outcome
    ensures { result ≡ links cpu prev }
{
    Outcome::writes(prev, Store::Next(Some(cpu)), Place::O5)
}

/// O5: polls its own flag. Where the flag is not set and p was asked to give up, it begins to give
/// up.
///
/// Only a holder that leaves sets the flag (X3), and that holder was the predecessor of p. So
/// where the flag is set p is the first of the queue, and nobody holds the lock.
pub(crate) fn waits(flag: bool, request: bool) -> Outcome
    ensures { result ≡ waits flag request }
{
    if flag {
        Outcome::takes()
    } else if request {
        Outcome::looks(Place::Q1)
    } else {
        Outcome::looks(Place::O5)
    }
}
