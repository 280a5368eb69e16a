// Calls of `pv_lock` that are polled: one thread sees its second processor halt, be kicked by the release
// of the first, and have the lock at its next turn; and threads that make turns take one lock in turn.
ghost use Rattle.std.specs.Prelude.{◌≡◌, ◌<◌, ◌+◌, length};
ghost use Rattle.lk_domain.specs.Plans.{locks_of};
ghost use Rattle.lk_thread_tests.specs.Halting.{AllReady, HasOne, IsReady, IsWaiting, StandsAt};

use crate::pv_calls::{LOCK, give_back, open, take};
use lk_names::List;
use lk_pvdomain::{PvCpu, PvDomain, PvRelease, PvTurn, PvWaiter, pv_begin, pv_poll, pv_try_unlock};
use std::process::Abort;
use std::sync::Wait;
use std::sync::atomic::{AtomicU64, Ordering};
use std::test::Fail;
use std::thread;
use std::thread::Threads;

/// How often each thread takes the lock.
const TURNS: u32 = 5_000;

// The last of these processors.
fn last(cpus: &mut List<PvCpu>, domain: &PvDomain) -> PvCpu
    requires some { 0 < length cpus.old.items }
    requires ready { AllReady domain.now cpus.old.items }
    ensures cpu { IsReady domain.now result }
    ensures less { length cpus.new.items + 1 ≡ length cpus.old.items }
    ensures ready { AllReady domain.now cpus.new.items }
{
    cpus.pop()
}

// Begins a call.
fn begins(cpu: &mut PvCpu, domain: &PvDomain) -> PvTurn
    requires locks { locks_of domain.now.domain.plan ≡ 2 }
    requires ready { IsReady domain.now cpu.old }
    ensures { StandsAt domain.now result cpu.new }
{
    pv_begin(cpu, domain, LOCK)
}

// Makes its next turn.
fn polls(cpu: &mut PvCpu, domain: &PvDomain, waiter: PvWaiter) -> PvTurn
    requires { IsWaiting domain.now waiter cpu.old }
    ensures { StandsAt domain.now result cpu.new }
{
    pv_poll(cpu, domain, waiter)
}

// Frees the lock, without waiting.
fn frees(cpu: &mut PvCpu, domain: &PvDomain) -> PvRelease
    requires locks { locks_of domain.now.domain.plan ≡ 2 }
    requires has { HasOne domain.now cpu.old }
{
    pv_try_unlock(cpu, domain, LOCK)
}

// Whether the second processor halts while the first has the lock, until that frees it, and says whom
// it has kicked.
fn halts<R: Wait>(rt: &R, domain: &PvDomain, first: &mut PvCpu, second: &mut PvCpu) -> bool
    requires locks { locks_of domain.now.domain.plan ≡ 2 }
    requires first { IsReady domain.now first.old }
    requires second { IsReady domain.now second.old }
{
    take(first, rt, domain, 1);
    let number = second.number();
    let PvTurn::Halts(waiter) = begins(second, domain) else {
        return false;
    };
    if !domain.is_halted(number) || domain.is_kicked(number) {
        return false;
    }
    let PvTurn::Halts(waiter) = polls(second, domain, waiter) else {
        return false;
    };
    let PvRelease::Kicked(kicked) = frees(first, domain) else {
        return false;
    };
    if kicked != number || !domain.is_kicked(number) {
        return false;
    }
    matches!(polls(second, domain, waiter), PvTurn::Has) && !domain.is_kicked(number)
}

// Takes the lock by turns. Where its processor has halted it asks again and again, and sleeps nowhere.
fn take_by_turns<R: Wait>(cpu: &mut PvCpu, rt: &R, domain: &PvDomain)
    requires locks { locks_of domain.now.domain.plan ≡ 2 }
    requires ready { IsReady domain.now cpu.old }
    ensures { HasOne domain.now cpu.new }
{
    let mut turn = begins(cpu, domain);
    for _ in rt.forever() {
        match turn {
            PvTurn::Has => return,
            PvTurn::Waits(waiter) | PvTurn::Halts(waiter) => {
                thread::yield_now();
                turn = polls(cpu, domain, waiter);
            }
        }
    }
    unreachable!()
}

// What a thread does: the number is read and stored in two steps, so that no other may come between.
fn take_turns<R: Wait>(cpu: &mut PvCpu, rt: &R, domain: &PvDomain, number: &AtomicU64)
    requires locks { locks_of domain.now.domain.plan ≡ 2 }
    requires ready { IsReady domain.now cpu.old }
    ensures ready { IsReady domain.now cpu.new }
{
    for _ in 0..TURNS {
        take_by_turns(cpu, rt, domain);
        let met = number.load(Ordering::SeqCst);
        number.store(met.wrapping_add(1), Ordering::SeqCst);
        give_back(cpu, rt, domain);
    }
}

// Four threads, each with a processor.
fn count(rt: &(impl Abort + AllocGlobal + Threads + Wait + Sync)) -> Result<(), Fail> {
    let Ok((domain, mut cpus)) = open(rt.alloc(), 2) else {
        return Err("no memory".into());
    };
    let number = AtomicU64::new(0);
    thread::for_each_mut(
        rt,
        cpus.as_mut_slice(),
        4,
        &|_, cpu| { take_turns(cpu, rt, &domain, &number) },
    );
    assert_eq!(rt; number.load(Ordering::SeqCst), 4 * u64::from(TURNS));
    Ok(())
}

#[test]
fn polled_call_halts_until_its_kick(rt: HostRuntime) -> Result<(), Fail> {
    let Ok((domain, mut cpus)) = open(rt.alloc(), 1) else {
        return Err("no memory".into());
    };
    let mut first = last(&mut cpus, &domain);
    let mut second = last(&mut cpus, &domain);
    assert!(rt; halts(&rt, &domain, &mut first, &mut second));
    Ok(())
}

#[test]
fn threads_take_the_lock_by_turns(rt: HostRuntime) -> Result<(), Fail> {
    count(&rt)
}
