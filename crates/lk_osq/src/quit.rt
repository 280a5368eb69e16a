// Giving up: the rows of `osq_lock`'s unqueue, but for its wait for the next, which it has in
// common with the release (`next.rt`).
ghost use Rattle.std.specs.Prelude.{◌≡◌};
ghost use Rattle.lk_osq.specs.Rows.{cuts, sees_flag, sees_prev, withdraws, unlinks};

use crate::events::OsqWhat;
use crate::outcomes::{Lead, Outcome, Store, is_cpu};
use crate::places::Place;

/// Q1: swaps the link to itself from `a -> p` to none. Here a is the predecessor that p believes
/// in, and `next` is a's next.
///
/// `a -> p` becomes `a x p`: the link is *cut*, and p alone can store it again. Only now is it
/// certain that a is the predecessor: a node names nobody but the processor directly behind it,
/// and what p believes may be long out of date. While the link is cut, a can neither hand the lock
/// off to p (X3 wants the link) nor leave the queue. A plain store would not do, since it could
/// cut a link of others.
pub(crate) fn cuts(cpu: u32, prev: Option<u32>, next: Option<u32>) -> Outcome
    ensures { result ≡ cuts cpu prev next }
{
    if is_cpu(next, cpu) {
        Outcome::writes(prev, Store::Next(None), Place::Q4)
    } else {
        Outcome::looks(Place::Q2)
    }
}

/// Q2: reads its own flag once more.
///
/// The link was not there: the predecessor has grabbed it in order to leave, or has left. If that
/// was the holder, it hands the lock off to p. Then p can no longer give up, and acquires the
/// lock.
pub(crate) fn sees_flag(flag: bool) -> Outcome
    ensures { result ≡ sees_flag flag }
{
    if flag {
        Outcome::takes()
    } else {
        Outcome::looks(Place::Q3)
    }
}

/// Q3: reads from its own node who its predecessor is, since another may stand there now. It tries
/// the cut with that one.
pub(crate) fn sees_prev(prev: Option<u32>) -> Outcome
    ensures { result ≡ sees_prev prev }
{
    Outcome {
        tail: None,
        node: None,
        leads: Lead::Knows(Place::Q1, prev),
        tells: None,
    }
}

/// Q5: swaps the tail from itself to its predecessor: the last waiter gives up.
///
/// `.. a x p, t = p` becomes `.. a, t = a`. Nobody stands behind p. The next of a is none since
/// the cut, as that of the last has to be.
pub(crate) fn withdraws(cpu: u32, prev: Option<u32>, tail: Option<u32>) -> Outcome
    ensures { result ≡ withdraws cpu prev tail }
{
    if is_cpu(tail, cpu) {
        Outcome::swaps(prev, OsqWhat::Quit)
    } else {
        Outcome::looks(Place::Q6)
    }
}

/// Q9: links its predecessor to its successor. (Q8, before it, stores the predecessor into the
/// node of the successor.)
///
/// `a x p = b` becomes `a -> b`. Until now p owned both links: the one from a was cut and the one
/// to b grabbed, so neither a nor b could leave. From now on nobody names p.
pub(crate) fn unlinks(prev: Option<u32>, y: Option<u32>) -> Outcome
    ensures { result ≡ unlinks prev y }
{
    Outcome {
        leads: Lead::Ends,
        tells: Some(OsqWhat::Quit),
        ..Outcome::writes(prev, Store::Next(y), Place::Q9)
    }
}
