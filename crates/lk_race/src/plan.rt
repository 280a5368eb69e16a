// The plans of the domains.
ghost use Rattle.std.specs.Prelude.{◌≡◌, IfOk, false, length};
ghost use Rattle.lk_law.specs.Agree.{halts};
ghost use Rattle.lk_domain.specs.Plans.{IsLawfulPlan, cpus_of, kind_at, locks_of};
ghost use Rattle.lk_pvdomain.specs.PvPlans.{IsLawful};

use crate::bare_race::BareRace;
use lk_domain::{LockId, Plan};
use lk_names::{Format, List, Memory, Topology};
use lk_pvdomain::PvPlan;
use std::alloc::Global;

/// The one lock of each plan.
pub const LOCK: LockId = LockId { index: 0 };

// The most handoffs that may pass a waiter that was moved aside.
const THRESHOLD: u32 = 16;

/// Two sockets: processors with even numbers are on one, and those with odd numbers on the other.
///
/// # Errors
///
/// There is not enough memory.
pub fn two_sockets(alloc: Global, threads: u32) -> Result<Topology, Memory>
    ensures { IfOk result (λ topology. length topology.sockets.items ≡ threads) }
{
    let mut sockets = List::new(alloc, threads as usize)?;
    for cpu in 0..threads {
        sockets.push(cpu % 2);
    }
    Ok(Topology { sockets })
}

/// A plan with the lock of a race, and a processor for each thread, on two sockets. The ledger has no
/// accounts, and no processor may write an entry.
///
/// # Errors
///
/// There is not enough memory.
pub fn plan_of(alloc: Global, race: &BareRace) -> Result<Plan, Memory>
    requires awake { halts race.now.mode ≡ false }
    ensures lawful { IfOk result (λ plan. IsLawfulPlan plan) }
    ensures cpus { IfOk result (λ plan. cpus_of plan ≡ race.now.course.threads) }
    ensures locks { IfOk result (λ plan. locks_of plan ≡ 1) }
    ensures kind { IfOk result (λ plan. kind_at plan 0 ≡ race.now.kind) }
{
    Ok(Plan {
        format: Format::One,
        mode: race.mode,
        topology: two_sockets(alloc, race.course.threads)?,
        threshold: THRESHOLD,
        locks: List::filled(alloc, race.kind, 1)?,
        balances: List::new(alloc, 0)?,
        shares: List::filled(alloc, 0, race.course.threads as usize)?,
        cells: None,
    })
}

/// A plan with one paravirtual lock of the race's spin bound, and a processor for each thread. The
/// ledger has no accounts, and no processor may write an entry.
///
/// # Errors
///
/// There is not enough memory.
pub fn pv_plan_of(alloc: Global, race: &BareRace) -> Result<PvPlan, Memory>
    ensures lawful { IfOk result (λ plan. IsLawful plan) }
    ensures cpus { IfOk result (λ plan. length plan.shares.items ≡ race.now.course.threads) }
    ensures locks { IfOk result (λ plan. plan.locks ≡ 1) }
    ensures spins { IfOk result (λ plan. plan.spins ≡ race.now.spins) }
{
    Ok(PvPlan {
        format: Format::One,
        spins: u32::from(race.spins),
        locks: 1,
        balances: List::new(alloc, 0)?,
        shares: List::filled(alloc, 0, race.course.threads as usize)?,
    })
}
