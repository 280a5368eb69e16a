// Processors that halt take one lock in turn, each on a thread of its own, and count while they hold it.
// Where a kick is lost, or a front halts that nobody will kick, a thread sleeps for ever, and so does the
// test.
ghost use Rattle.std.specs.Prelude.{◌≡◌, ◌<◌, IfOk, length, true, false};
ghost use Rattle.lk_domain.specs.Plans.{cpus_of, locks_of};
ghost use Rattle.lk_pvdomain.specs.PvSeats.{AreDealt};
ghost use Rattle.lk_thread_tests.specs.Halting.{HasOne, IsReady};

use lk_domain::LockId;
use lk_names::{Format, List, Memory};
use lk_pvdomain::{PvCpu, PvDomain, PvPlan, pv_lock, pv_try_lock, pv_unlock};
use std::alloc::Global;
use std::process::Abort;
use std::sync::Wait;
use std::sync::atomic::{AtomicU64, Ordering};
use std::test::Fail;
use std::thread;
use std::thread::Threads;

/// The lock that all of them take: not lock 0, under which the ledger is.
pub const LOCK: LockId = LockId { index: 1 };

/// How often each of them takes it.
const TURNS: u32 = 20_000;

/// A domain of two locks with four processors, whose waiters spin for so many turns.
pub fn open(alloc: Global, spins: u32) -> Result<(PvDomain, List<PvCpu>), Memory>
    requires some { 0 < spins }
    requires few { spins < 65536 }
    ensures locks { IfOk result (λ made. locks_of made.0.domain.plan ≡ 2) }
    ensures cpus { IfOk result (λ made. cpus_of made.0.domain.plan ≡ 4) }
    ensures many { IfOk result (λ made. length made.1.items ≡ 4) }
    ensures dealt { IfOk result (λ made. AreDealt made.0 made.1.items) }
{
    let plan = PvPlan {
        format: Format::One,
        spins,
        locks: 2,
        balances: List::new(alloc, 0)?,
        shares: List::filled(alloc, 0, 4)?,
    };
    let made = PvDomain::new(alloc, &plan)?;
    Ok(made)
}

// In one turn of four it tries the lock first: whether it has it.
fn try_first(cpu: &mut PvCpu, domain: &PvDomain, turn: u32) -> bool
    requires locks { locks_of domain.now.domain.plan ≡ 2 }
    requires ready { IsReady domain.now cpu.old }
    ensures has { result ≡ true → HasOne domain.now cpu.new }
    ensures ready { result ≡ false → IsReady domain.now cpu.new }
{
    if turn % 4 != 0 {
        return false;
    }
    pv_try_lock(cpu, domain, LOCK)
}

/// Takes the lock. In one turn of four it tries it first.
pub fn take<R: Wait>(cpu: &mut PvCpu, rt: &R, domain: &PvDomain, turn: u32)
    requires locks { locks_of domain.now.domain.plan ≡ 2 }
    requires ready { IsReady domain.now cpu.old }
    ensures has { HasOne domain.now cpu.new }
{
    if try_first(cpu, domain, turn) {
        return;
    }
    pv_lock(cpu, rt, domain, LOCK);
}

/// Frees it.
pub fn give_back<R: Wait>(cpu: &mut PvCpu, rt: &R, domain: &PvDomain)
    requires locks { locks_of domain.now.domain.plan ≡ 2 }
    requires has { HasOne domain.now cpu.old }
    ensures ready { IsReady domain.now cpu.new }
{
    pv_unlock(cpu, rt, domain, LOCK);
}

// What a thread does: the number is read and stored in two steps, so that no other may come between.
fn take_turns<R: Wait>(cpu: &mut PvCpu, rt: &R, domain: &PvDomain, number: &AtomicU64)
    requires locks { locks_of domain.now.domain.plan ≡ 2 }
    requires ready { IsReady domain.now cpu.old }
    ensures ready { IsReady domain.now cpu.new }
{
    for turn in 0..TURNS {
        take(cpu, rt, domain, turn);
        let met = number.load(Ordering::SeqCst);
        number.store(met.wrapping_add(1), Ordering::SeqCst);
        give_back(cpu, rt, domain);
    }
}

// Four threads, whose waiters spin for so many turns.
fn count(rt: &(impl Abort + AllocGlobal + Threads + Wait + Sync), spins: u32) -> Result<(), Fail>
    requires some { 0 < spins }
    requires few { spins < 65536 }
{
    let Ok((domain, mut cpus)) = open(rt.alloc(), spins) else {
        return Err("no memory".into());
    };
    let number = AtomicU64::new(0);
    thread::for_each_mut(
        rt,
        cpus.as_mut_slice(),
        4,
        &|_, cpu| { take_turns(cpu, rt, &domain, &number) },
    );
    assert_eq!(rt; number.load(Ordering::SeqCst), 4 * u64::from(TURNS));
    Ok(())
}

#[test]
fn waiters_that_halt_at_once_are_kicked(rt: HostRuntime) -> Result<(), Fail> {
    count(&rt, 1)
}

#[test]
fn waiters_that_spin_first_are_kicked(rt: HostRuntime) -> Result<(), Fail> {
    count(&rt, 32_768)
}
