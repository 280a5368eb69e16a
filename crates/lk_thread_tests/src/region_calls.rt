// Writes and reads of a ledger under its lock, by two processors of one thread.
ghost use Rattle.std.specs.Prelude.{◌≡◌, false, IfOk};
ghost use Rattle.lk_law.specs.Agree.{halts};
ghost use Rattle.lk_domain.specs.Plans.{IsLawfulPlan, accounts_of, cpus_of, kind_at, locks_of};
ghost use Rattle.lk_domain.specs.Plans.{share_of};
ghost use Rattle.lk_domain.specs.Seats.{IsOf, ledger_of};
ghost use Rattle.lk_guard.specs.Idle.{IsIdle};

use lk_domain::{Cpu, Domain, Plan};
use lk_guard::Region;
use lk_names::{Format, Job, Kind, List, Memory, Mode, Reply, Topology};
use lk_run::NoIrq;
use std::alloc::Global;
use std::process::Abort;
use std::sync::Wait;
use std::test::Fail;

// The plan of a ledger of two accounts, with 5 on each, for two processors that may write two
// entries each.
fn plan_of(alloc: Global, mode: Mode, kind: Kind) -> Result<Plan, Memory>
    requires awake { halts mode ≡ false }
    ensures lawful { IfOk result (λ plan. IsLawfulPlan plan) }
    ensures mode { IfOk result (λ plan. plan.mode ≡ mode) }
    ensures cpus { IfOk result (λ plan. cpus_of plan ≡ 2) }
    ensures locks { IfOk result (λ plan. (locks_of plan ≡ 1) × (kind_at plan 0 ≡ kind)) }
    ensures accounts { IfOk result (λ plan. accounts_of plan ≡ 2) }
    ensures shares { IfOk result (λ plan. (share_of plan 0 ≡ 2) × (share_of plan 1 ≡ 2)) }
{
    Ok(Plan {
        format: Format::One,
        mode,
        topology: Topology {
            sockets: List::filled(alloc, 0, 2)?,
        },
        threshold: 0,
        locks: List::filled(alloc, kind, 1)?,
        balances: List::filled(alloc, 5, 2)?,
        shares: List::filled(alloc, 2, 2)?,
        cells: None,
    })
}

/// Such a ledger, and its two processors.
pub fn open(alloc: Global, mode: Mode, kind: Kind) -> Result<(Region, Cpu, Cpu), Memory>
    requires awake { halts mode ≡ false }
    ensures mode { IfOk result (λ made. made.0.domain.plan.mode ≡ mode) }
    ensures locks { IfOk result (λ made. (locks_of made.0.domain.plan ≡ 1)
        × (kind_at made.0.domain.plan 0 ≡ kind)) }
    ensures accounts { IfOk result (λ made. accounts_of made.0.domain.plan ≡ 2) }
    ensures first { IfOk result (λ made. IsOf made.1 made.0.domain × IsIdle made.1
        × ((ledger_of made.1).share ≡ 2)) }
    ensures second { IfOk result (λ made. IsOf made.2 made.0.domain × IsIdle made.2
        × ((ledger_of made.2).share ≡ 2)) }
{
    let plan = plan_of(alloc, mode, kind)?;
    let (domain, mut cpus) = Domain::new(alloc, &plan)?;
    let second = cpus.pop();
    let first = cpus.pop();
    Ok((Region::new(domain, kind), first, second))
}

// Each write, each read, and what they answer: a write that was done, one of more than there is, and
// one of more than fits; and reads by the processor that wrote last and by the other one.
fn play_all(rt: &(impl Abort + AllocGlobal + Wait), mode: Mode, kind: Kind) -> Result<(), Fail>
    requires awake { halts mode ≡ false }
{
    let Ok((region, mut first, mut second)) = open(rt.alloc(), mode, kind) else {
        return Err("no memory".into());
    };
    let no = &mut NoIrq;
    let moved = Job::Move {
        from: 0,
        to: 1,
        amount: 3,
    };
    let added = Job::Add {
        account: 0,
        amount: 1 << 63,
    };
    assert_eq!(rt;
        region.read(&mut first, rt, no, Job::Sum),
        (0, Reply::Amount(10))
    );
    assert_eq!(rt; region.write(&mut first, rt, no, 1, moved), Reply::Done);
    assert_eq!(rt;
        region.read(&mut second, rt, no, Job::Get { account: 1 }),
        (1, Reply::Amount(8))
    );
    assert_eq!(rt; region.write(&mut second, rt, no, 1, moved), Reply::Short);
    assert_eq!(rt; region.write(&mut first, rt, no, 2, added), Reply::Full);
    assert_eq!(rt;
        region.read(&mut first, rt, no, Job::Get { account: 0 }),
        (3, Reply::Amount(2))
    );
    assert_eq!(rt;
        region.read(&mut second, rt, no, Job::Sum),
        (3, Reply::Amount(10))
    );
    Ok(())
}

#[test]
fn each_job_has_its_answer(rt: HostRuntime) -> Result<(), Fail> {
    for kind in [Kind::Spin, Kind::Rw] {
        play_all(&rt, Mode::Virt, kind)?;
        play_all(&rt, Mode::Native, kind)?;
        play_all(&rt, Mode::Cna, kind)?;
    }
    Ok(())
}
