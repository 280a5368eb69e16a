// A new domain, and its processors.
ghost use Rattle.std.specs.Prelude.{◌≡◌, IfOk, length};
ghost use Rattle.lk_pvdomain.specs.PvPlans.{IsLawful, IsPlanOf};
ghost use Rattle.lk_pvdomain.specs.PvSeats.{AreDealt};

use crate::domain::{PvCpu, PvDomain};
use crate::plan::PvPlan;
use lk_domain::Domain;
use lk_names::{List, Memory};
use std::alloc::Global;

impl PvDomain {
    /// A new domain, in which nobody holds a lock, and its processors in the order of their
    /// numbers.
    ///
    /// # Errors
    ///
    /// There is not enough memory.
    pub fn new(alloc: Global, plan: &PvPlan) -> Result<(PvDomain, List<PvCpu>), Memory>
        requires { IsLawful plan.now }
        ensures plan { IfOk result (λ made. IsPlanOf plan.now made.0.domain.plan) }
        ensures many { IfOk result (λ made. length made.1.items ≡ length plan.now.shares.items) }
        ensures cpus { IfOk result (λ made. AreDealt made.0 made.1.items) }
    {
        let keys = List::new(alloc, 0)?;
        let whole = plan.whole(alloc)?;
        let (domain, cpus) = Domain::open(alloc, whole, keys)?;
        Ok((PvDomain { domain }, cpus))
    }
}
