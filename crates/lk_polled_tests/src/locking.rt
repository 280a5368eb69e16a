// A call of `lock` that is polled, by two processors of one thread: one has the lock while the other
// waits, and the other has it at its first poll behind the release.
ghost use Rattle.std.specs.Prelude.{◌≡◌, Some, false};
ghost use Rattle.lk_names.specs.declared.holder.Manner.TheVariants.{Spins};
ghost use Rattle.lk_names.specs.declared.names.Kind.TheVariants.{Spin};
ghost use Rattle.lk_law.specs.Agree.{halts};
ghost use Rattle.lk_domain.specs.Seats.{IsOf};
ghost use Rattle.lk_run.specs.declared.waiter.Waiter.{Waiter};
ghost use Rattle.lk_polled_tests.specs.Stages.{Has, Locking, MayBegin};

use crate::stage::{LOCK, last, open};
use lk_domain::{Cpu, Domain};
use lk_names::{Kind, Mode};
use lk_run::{NoIrq, Waiter, begin, lock, poll, unlock};
use std::process::Abort;
use std::sync::Wait;
use std::test::Fail;

// Takes the free lock.
fn takes<R: Wait>(cpu: &mut Cpu, rt: &R, domain: &Domain)
    requires { MayBegin Spin domain.now cpu.old }
    ensures { Has Spin Spins domain.now cpu.new }
{
    lock(cpu, rt, domain, LOCK, &mut NoIrq);
}

// Frees it.
fn frees(cpu: &mut Cpu, domain: &Domain)
    requires { Has Spin Spins domain.now cpu.old }
{
    unlock(cpu, domain, LOCK);
}

// Begins a call.
fn begins(cpu: &mut Cpu, domain: &Domain) -> Option<Waiter>
    requires { MayBegin Spin domain.now cpu.old }
    ensures { (w : Waiter) → result ≡ Some w → Locking domain.now w cpu.new }
{
    begin(cpu, domain, LOCK)
}

// Goes on with it.
fn polls(cpu: &mut Cpu, domain: &Domain, waiter: Waiter) -> Option<Waiter>
    requires { Locking domain.now waiter cpu.old }
    ensures domain { IsOf cpu.new domain.now }
    ensures waits { (w : Waiter) → result ≡ Some w → Locking domain.now w cpu.new }
{
    poll(cpu, domain, waiter)
}

// Whether the second processor waits for the first, and then has the lock.
fn waits<R: Wait>(rt: &R, domain: &Domain, first: &mut Cpu, second: &mut Cpu) -> bool
    requires first { MayBegin Spin domain.now first.old }
    requires second { MayBegin Spin domain.now second.old }
{
    takes(first, rt, domain);
    let Some(waiter) = begins(second, domain) else {
        return false;
    };
    let Some(waiter) = polls(second, domain, waiter) else {
        return false;
    };
    frees(first, domain);
    polls(second, domain, waiter).is_none() && second.holds(LOCK)
}

// It does in this family.
fn play(rt: &(impl Abort + AllocGlobal + Wait), mode: Mode) -> Result<(), Fail>
    requires awake { halts mode ≡ false }
{
    let Ok((domain, mut cpus)) = open(rt.alloc(), mode, Kind::Spin) else {
        return Err("no memory".into());
    };
    let mut second = last(&mut cpus, &domain);
    let mut first = last(&mut cpus, &domain);
    assert!(rt; waits(rt, &domain, &mut first, &mut second));
    Ok(())
}

#[test]
fn polled_call_has_the_lock_when_it_is_free(rt: HostRuntime) -> Result<(), Fail> {
    play(&rt, Mode::Virt)?;
    play(&rt, Mode::Native)?;
    play(&rt, Mode::Cna)
}
