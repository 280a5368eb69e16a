// The calls on the words of the ledger, each once, by a processor of either family that holds lock 0; and
// what the end of a domain says of that lock.
ghost use Rattle.std.specs.Prelude.{◌≡◌, ◌<◌, None, false};
ghost use Rattle.lk_names.specs.declared.holder.Manner.TheVariants.{Spins};
ghost use Rattle.lk_names.specs.declared.names.Kind.TheVariants.{Spin};
ghost use Rattle.lk_law.specs.Agree.{halts};
ghost use Rattle.lk_domain.specs.Plans.{accounts_of, kind_at, locks_of};
ghost use Rattle.lk_domain.specs.Seats.{IsIn, IsOf, IsSame, KeepsCalls, calls_of, ledger_of};
ghost use Rattle.lk_guard.specs.Holding.{IsHolding};
ghost use Rattle.lk_guard.specs.Idle.{IsFree, IsIdle};
ghost use Rattle.lk_pvdomain.specs.PvCalls.{IsResting};
ghost use Rattle.lk_pvdomain.specs.PvSeats.{IsOf as PvIsOf};

use crate::region_calls::open;
use crate::{pv_region, stage};
use lk_domain::{
    Cpu, Domain, HasDomain, LockId, close, journal_home, journal_out, load, store, version,
};
use lk_guard::Guarded;
use lk_names::{Job, Kind, Mode, Reply};
use lk_pvdomain::{PvDomain, pv_lock, pv_unlock};
use lk_run::{NoIrq, lock, unlock};
use std::process::Abort;
use std::sync::Wait;
use std::test::Fail;

/// The lock of the ledger.
const FIRST: LockId = LockId { index: 0 };

/// What is written.
const ADDED: Job = Job::Add {
    account: 0,
    amount: 2,
};

// Acquires the lock.
fn hold<R: Wait>(cpu: &mut Cpu, rt: &R, domain: &Domain)
    requires domain { IsOf cpu.old domain.now }
    requires kind { (locks_of domain.now.plan ≡ 1) × (kind_at domain.now.plan 0 ≡ Spin) }
    requires idle { IsIdle cpu.old }
    ensures same { IsSame cpu.old cpu.new }
    ensures holding { IsHolding Spins cpu.new }
    ensures home { (ledger_of cpu.new).out ≡ None }
{
    lock(cpu, rt, domain, FIRST, &mut NoIrq);
}

// Acquires a lock whose waiters halt.
fn pv_hold<R: Wait>(cpu: &mut Cpu, rt: &R, domain: &PvDomain)
    requires domain { PvIsOf cpu.old domain.now }
    requires free { IsFree cpu.old }
    ensures same { IsSame cpu.old cpu.new }
    ensures rests { IsResting (calls_of cpu.new) }
    ensures holding { IsHolding Spins cpu.new }
    ensures home { (ledger_of cpu.new).out ≡ None }
{
    pv_lock(cpu, rt, domain, FIRST);
}

// Takes the journal out, stores the balance of account 0 as it is, and brings the journal home as
// it was.
fn bring_back<D: HasDomain>(cpu: &mut Cpu, domain: &D)
    requires domain { IsIn cpu.old (D.inside domain.now) }
    requires account { 0 < accounts_of (D.inside domain.now).plan }
    requires holding { IsHolding Spins cpu.old }
    requires home { (ledger_of cpu.old).out ≡ None }
    ensures rest { KeepsCalls cpu.old cpu.new }
    ensures home { (ledger_of cpu.new).out ≡ None }
{
    let journal = journal_out(cpu, domain);
    let held = load(cpu, domain, 0);
    store(cpu, domain, 0, held);
    journal_home(cpu, domain, journal);
}

// The version of the ledger, and the balance of account 0 before and after that.
fn look_held<D: HasDomain>(cpu: &mut Cpu, domain: &D) -> (u64, u64, u64)
    requires domain { IsIn cpu.old (D.inside domain.now) }
    requires account { 0 < accounts_of (D.inside domain.now).plan }
    requires holding { IsHolding Spins cpu.old }
    requires home { (ledger_of cpu.old).out ≡ None }
    ensures rest { KeepsCalls cpu.old cpu.new }
    ensures home { (ledger_of cpu.new).out ≡ None }
{
    let count = version(cpu, domain);
    let before = load(cpu, domain, 0);
    bring_back(cpu, domain);
    let after = load(cpu, domain, 0);
    (count, before, after)
}

// The same by a processor that acquires the lock for it.
fn look<R: Wait>(cpu: &mut Cpu, rt: &R, domain: &Domain) -> (u64, u64, u64)
    requires domain { IsOf cpu.old domain.now }
    requires kind { (locks_of domain.now.plan ≡ 1) × (kind_at domain.now.plan 0 ≡ Spin) }
    requires account { 0 < accounts_of domain.now.plan }
    requires idle { IsIdle cpu.old }
{
    hold(cpu, rt, domain);
    let seen = look_held(cpu, domain);
    unlock(cpu, domain, FIRST);
    seen
}

// The same of a lock whose waiters halt.
fn pv_look<R: Wait>(cpu: &mut Cpu, rt: &R, domain: &PvDomain) -> (u64, u64, u64)
    requires domain { PvIsOf cpu.old domain.now }
    requires account { 0 < accounts_of domain.now.domain.plan }
    requires free { IsFree cpu.old }
{
    pv_hold(cpu, rt, domain);
    let seen = look_held(cpu, domain);
    pv_unlock(cpu, rt, domain, FIRST);
    seen
}

// One processor writes an entry, and the other looks.
fn write_and_look(rt: &(impl Abort + AllocGlobal + Wait), mode: Mode) -> Result<(), Fail>
    requires awake { halts mode ≡ false }
{
    let Ok((region, mut first, mut second)) = open(rt.alloc(), mode, Kind::Spin) else {
        return Err("no memory".into());
    };
    assert_eq!(rt;
        region.write(&mut first, rt, &mut NoIrq, 1, ADDED),
        Reply::Done
    );
    assert_eq!(rt; look(&mut second, rt, &region.into_domain()), (1, 7, 7));
    Ok(())
}

#[test]
fn ledger_has_what_was_written(rt: HostRuntime) -> Result<(), Fail> {
    write_and_look(&rt, Mode::Virt)?;
    write_and_look(&rt, Mode::Native)?;
    write_and_look(&rt, Mode::Cna)
}

#[test]
fn ledger_of_those_that_halt_has_what_was_written(rt: HostRuntime) -> Result<(), Fail> {
    let Ok((region, mut cpus)) = pv_region::open(rt.alloc()) else {
        return Err("no memory".into());
    };
    let mut cpu = cpus.pop();
    assert_eq!(rt; region.write(&mut cpu, &rt, 1, ADDED), Reply::Done);
    assert_eq!(rt; pv_look(&mut cpu, &rt, &region.into_domain()), (1, 2, 2));
    Ok(())
}

#[test]
fn a_closed_domain_tells_the_kind_of_its_lock(rt: HostRuntime) -> Result<(), Fail> {
    for kind in [Kind::Spin, Kind::Rw] {
        let Ok((domain, cpus)) = stage::open(rt.alloc(), Mode::Native, kind, 2) else {
            return Err("no memory".into());
        };
        let Ok(closed) = close(rt.alloc(), domain, cpus) else {
            return Err("no memory".into());
        };
        assert_eq!(rt; closed.guard(), kind);
    }
    Ok(())
}
