// Four processors whose waiters halt at once write to one ledger under its lock, each on a thread of
// its own. No write is lost: a read behind them sees an entry of each, and their sum.
ghost use Rattle.std.specs.Prelude.{◌≡◌, IfOk, length};
ghost use Rattle.lk_domain.specs.Plans.{accounts_of};
ghost use Rattle.lk_thread_tests.specs.Halting.{AllMayWrite, MayWrite};

use lk_guard::{Guarded, PvRegion};
use lk_names::{Format, Job, List, Memory, Reply};
use lk_pvdomain::{PvCpu, PvDomain, PvPlan};
use std::alloc::Global;
use std::process::Abort;
use std::sync::Wait;
use std::test::Fail;
use std::thread;
use std::thread::Threads;

/// One empty account, and four processors that may write 1,000 entries each.
pub fn open(alloc: Global) -> Result<(PvRegion, List<PvCpu>), Memory>
    ensures accounts { IfOk result (λ made. accounts_of made.0.domain.domain.plan ≡ 1) }
    ensures many { IfOk result (λ made. length made.1.items ≡ 4) }
    ensures ready { IfOk result (λ made. AllMayWrite made.0.domain 1000 made.1.items) }
{
    let plan = PvPlan {
        format: Format::One,
        spins: 1,
        locks: 1,
        balances: List::filled(alloc, 0, 1)?,
        shares: List::filled(alloc, 1_000, 4)?,
    };
    let (domain, cpus) = PvDomain::new(alloc, &plan)?;
    Ok((PvRegion::new(domain), cpus))
}

// What a thread does.
fn add_all<R: Wait>(rt: &R, region: &PvRegion, cpu: &mut PvCpu)
    requires account { accounts_of region.now.domain.domain.plan ≡ 1 }
    requires ready { MayWrite region.now.domain 1000 cpu.old }
    ensures ready { MayWrite region.now.domain 0 cpu.new }
{
    for done in 0..1_000 {
        region.write(
            cpu,
            rt,
            done + 1,
            Job::Add {
                account: 0,
                amount: 1,
            },
        );
    }
}

// Those of a slice at once.
fn add_each<R: Threads + Wait + Sync>(rt: &R, region: &PvRegion, cpus: &mut [PvCpu])
    requires account { accounts_of region.now.domain.domain.plan ≡ 1 }
    requires ready { AllMayWrite region.now.domain 1000 cpus.old }
    ensures many { length cpus.new ≡ length cpus.old }
    ensures ready { AllMayWrite region.now.domain 0 cpus.new }
{
    thread::for_each_mut(
        rt,
        cpus,
        4,
        &|_: usize, cpu: &mut PvCpu|
            requires { (accounts_of region.now.domain.domain.plan ≡ 1)
                × MayWrite region.now.domain 1000 cpu.now }
            ensures { MayWrite region.entry.now.domain 0 cpu.exit.now }
        { add_all(rt, region, cpu) },
    );
}

// All of them at once.
fn add_at_once<R: Threads + Wait + Sync>(rt: &R, region: &PvRegion, cpus: &mut List<PvCpu>)
    requires account { accounts_of region.now.domain.domain.plan ≡ 1 }
    requires ready { AllMayWrite region.now.domain 1000 cpus.old.items }
    ensures many { length cpus.new.items ≡ length cpus.old.items }
    ensures ready { AllMayWrite region.now.domain 0 cpus.new.items }
{
    add_each(rt, region, cpus.as_mut_slice());
}

#[test]
fn four_writers_lose_no_entry(rt: HostRuntime) -> Result<(), Fail> {
    let Ok((region, mut cpus)) = open(rt.alloc()) else {
        return Err("no memory".into());
    };
    add_at_once(&rt, &region, &mut cpus);
    let mut reader = cpus.pop();
    assert_eq!(rt;
        region.read(&mut reader, &rt, Job::Get { account: 0 }),
        (4_000, Reply::Amount(4_000))
    );
    Ok(())
}
