// The release: the rows of `osq_unlock`, but for its wait for the next (`next.rt`).
ghost use Rattle.std.specs.Prelude.{◌≡◌};
ghost use Rattle.lk_osq.specs.Rows.{frees, hands};

use crate::events::OsqWhat;
use crate::outcomes::{Lead, Outcome, Store, is_cpu};
use crate::places::Place;

/// X1, X5: swaps the tail from itself to none.
///
/// `p, t = p` becomes `t = none`. Here p is the first and the last of the queue, so nobody waits.
pub(crate) fn frees(cpu: u32, tail: Option<u32>, other: Place) -> Outcome
    ensures { result ≡ frees cpu tail other }
{
    if is_cpu(tail, cpu) {
        Outcome::swaps(None, OsqWhat::Release { to: None })
    } else {
        Outcome::looks(other)
    }
}

/// X3: sets the flag of its successor, to which it no longer has the link.
///
/// `p = b ..` becomes `b ..`, and b is the first. It waits: if it had cut the link, p could not
/// have grabbed it, and now that p has grabbed it b cannot cut it. So b reads its flag (O5, Q2)
/// before it can leave.
pub(crate) fn hands(y: Option<u32>) -> Outcome
    ensures { result ≡ hands y }
{
    Outcome {
        tail: None,
        node: match y {
            Some(y) => Some((y, Store::Flag(true))),
            None => None,
        },
        leads: Lead::Ends,
        tells: Some(OsqWhat::Release { to: y }),
    }
}
