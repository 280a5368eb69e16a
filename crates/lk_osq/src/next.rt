// The one behind: the rows of `osq_wait_next`, by which one that gives up (Q) and one that releases
// (X) find it, or find that there is none.
ghost use Rattle.std.specs.Prelude.{◌≡◌};
ghost use Rattle.lk_osq.specs.Rows.{sees_tail, sees_next, grabs};

use crate::outcomes::{Lead, Outcome, Store, is_cpu};
use crate::places::Place;

/// Q4, X4: reads the tail, to see whether it is the last.
pub(crate) fn sees_tail(cpu: u32, tail: Option<u32>, last: Place, other: Place) -> Outcome
    ensures { result ≡ sees_tail cpu tail last other }
{
    if is_cpu(tail, cpu) {
        Outcome::looks(last)
    } else {
        Outcome::looks(other)
    }
}

/// Q6, X6: reads the link to its successor. The link is not there while it is still to come, or
/// while the successor has cut it.
pub(crate) fn sees_next(next: Option<u32>, there: Place, missing: Place) -> Outcome
    ensures { result ≡ sees_next next there missing }
{
    if next.is_some() {
        Outcome::looks(there)
    } else {
        Outcome::looks(missing)
    }
}

/// Q7, X2, X7: exchanges its own next with none.
///
/// `p -> b` becomes `p = b`: the link is *grabbed*. From now on b cannot cut it, and so cannot
/// leave. And b stands directly behind p, since a node names nobody else. If there is no link,
/// nothing changes: the successor may have cut it since p saw it.
pub(crate) fn grabs(cpu: u32, next: Option<u32>, without: Place, with: Place) -> Outcome
    ensures { result ≡ grabs cpu next without with }
{
    Outcome {
        tail: None,
        node: Some((cpu, Store::Next(None))),
        leads: match next {
            Some(y) => Lead::Meets(with, y),
            None => Lead::Goes(without),
        },
        tells: None,
    }
}
