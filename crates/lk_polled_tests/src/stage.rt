// A domain of one lock and two processors.
ghost use Rattle.std.specs.Prelude.{◌≡◌, ◌+◌, ◌<◌, false, IfOk, length};
ghost use Rattle.lk_law.specs.Agree.{halts};
ghost use Rattle.lk_domain.specs.Ends.{AllRest};
ghost use Rattle.lk_domain.specs.Plans.{IsLawfulPlan, cpus_of, kind_at, locks_of};
ghost use Rattle.lk_domain.specs.Seated.{HoldsNothing};
ghost use Rattle.lk_domain.specs.Seats.{IsOf, view_of};

use lk_domain::{Cpu, Domain, LockId, Plan};
use lk_names::{Format, Kind, List, Memory, Mode, Topology};
use std::alloc::Global;

/// Its lock.
pub(crate) const LOCK: LockId = LockId { index: 0 };

// The plan of such a domain.
fn plan_of(alloc: Global, mode: Mode, kind: Kind) -> Result<Plan, Memory>
    requires awake { halts mode ≡ false }
    ensures lawful { IfOk result (λ plan. IsLawfulPlan plan) }
    ensures cpus { IfOk result (λ plan. cpus_of plan ≡ 2) }
    ensures locks { IfOk result (λ plan. locks_of plan ≡ 1) }
    ensures kind { IfOk result (λ plan. kind_at plan 0 ≡ kind) }
{
    Ok(Plan {
        format: Format::One,
        mode,
        topology: Topology {
            sockets: List::filled(alloc, 0, 2)?,
        },
        threshold: 0,
        locks: List::filled(alloc, kind, 1)?,
        balances: List::new(alloc, 0)?,
        shares: List::filled(alloc, 0, 2)?,
        cells: None,
    })
}

/// Such a domain, with a lock of this kind, and its processors.
pub(crate) fn open(alloc: Global, mode: Mode, kind: Kind) -> Result<(Domain, List<Cpu>), Memory>
    requires awake { halts mode ≡ false }
    ensures awake { IfOk result (λ made. halts made.0.plan.mode ≡ false) }
    ensures locks { IfOk result (λ made. locks_of made.0.plan ≡ 1) }
    ensures kind { IfOk result (λ made. kind_at made.0.plan 0 ≡ kind) }
    ensures many { IfOk result (λ made. length made.1.items ≡ 2) }
    ensures rest { IfOk result (λ made. AllRest made.0 made.1.items) }
{
    let plan = plan_of(alloc, mode, kind)?;
    let made = Domain::new(alloc, &plan)?;
    Ok(made)
}

/// The last processor of a domain.
pub(crate) fn last(cpus: &mut List<Cpu>, domain: &Domain) -> Cpu
    requires awake { halts domain.now.plan.mode ≡ false }
    requires some { 0 < length cpus.old.items }
    requires rest { AllRest domain.now cpus.old.items }
    ensures domain { IsOf result domain.now }
    ensures idle { HoldsNothing (view_of result) }
    ensures less { length cpus.new.items + 1 ≡ length cpus.old.items }
    ensures rest { AllRest domain.now cpus.new.items }
{
    cpus.pop()
}
