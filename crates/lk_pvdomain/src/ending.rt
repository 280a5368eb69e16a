// The end of a domain whose waiters halt.
ghost use Rattle.std.specs.Prelude.{◌≡◌, Err, IfOk, length};
ghost use Rattle.lk_names.specs.Journal.{balances_after};
ghost use Rattle.lk_domain.specs.Ends.{IsFinal};
ghost use Rattle.lk_domain.specs.Plans.{cpus_of};
ghost use Rattle.lk_domain.specs.Values.{AreLaid};
ghost use Rattle.lk_pvdomain.specs.PvSeats.{AllRest};

use crate::domain::{PvCpu, PvDomain};
use lk_domain::{CloseBack, Closed, close};
use lk_names::List;
use std::alloc::Global;

/// What a domain leaves when it is closed.
pub type PvClosed = Closed;

/// There was not enough memory to close the domain. The domain and its processors are as they were
/// before the call.
#[derive(Drop)]
pub struct PvBack {
    /// The domain.
    pub domain: PvDomain,
    /// All its processors, in the order in which they were given.
    pub cpus: List<PvCpu>,
}

/// Closes a domain. It takes all its processors back, in the order of their numbers. None of them
/// may hold a lock or be in a call.
///
/// # Errors
///
/// There is not enough memory for the balances or the keys. [`PvBack`] gives the domain and the
/// processors back.
pub fn pv_close(alloc: Global, domain: PvDomain, cpus: List<PvCpu>) -> Result<PvClosed, PvBack>
    requires all { length cpus.items ≡ cpus_of domain.domain.plan }
    requires rest { AllRest domain cpus.items }
    ensures back { (b : PvBack) → result ≡ Err b → (b.domain ≡ domain) × (b.cpus ≡ cpus) }
    ensures cpus { IfOk result (λ closed. closed.cpus.value ≡ cpus) }
    ensures balances { IfOk result (λ closed. closed.balances.items
        ≡ balances_after domain.domain.plan.balances.items closed.journal.items) }
    ensures keys { IfOk result (λ closed. AreLaid domain.domain.plan closed.keys.items) }
    ensures ends { IfOk result (λ closed. IsFinal domain.domain.plan cpus.items closed.journal.items) }
{
    let PvDomain { domain } = domain;
    match close(alloc, domain, cpus) {
        Ok(closed) => Ok(closed),
        Err(CloseBack { domain, cpus }) => {
            let domain = PvDomain { domain };
            Err(PvBack { domain, cpus })
        }
    }
}
