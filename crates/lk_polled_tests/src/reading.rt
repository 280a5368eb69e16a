// A call of `read_lock` that is polled: a reader waits for the writer.
ghost use Rattle.std.specs.Prelude.{◌≡◌, Some, false};
ghost use Rattle.lk_names.specs.declared.holder.Manner.TheVariants.{Writes};
ghost use Rattle.lk_names.specs.declared.names.Kind.TheVariants.{Rw};
ghost use Rattle.lk_law.specs.Agree.{halts};
ghost use Rattle.lk_domain.specs.Seats.{IsOf};
ghost use Rattle.lk_run.specs.declared.read_waiter.ReadWaiter.{ReadWaiter};
ghost use Rattle.lk_polled_tests.specs.Stages.{Has, MayBegin, Reading};

use crate::stage::{LOCK, last, open};
use lk_domain::{Cpu, Domain};
use lk_names::{Kind, Mode};
use lk_run::{NoIrq, ReadWaiter, begin_read, poll_read, write_lock, write_unlock};
use std::process::Abort;
use std::sync::Wait;
use std::test::Fail;

// Takes the free lock as its writer.
fn takes<R: Wait>(cpu: &mut Cpu, rt: &R, domain: &Domain)
    requires { MayBegin Rw domain.now cpu.old }
    ensures { Has Rw Writes domain.now cpu.new }
{
    write_lock(cpu, rt, domain, LOCK, &mut NoIrq);
}

// Frees it.
fn frees(cpu: &mut Cpu, domain: &Domain)
    requires { Has Rw Writes domain.now cpu.old }
{
    write_unlock(cpu, domain, LOCK);
}

// Begins a call.
fn begins(cpu: &mut Cpu, domain: &Domain) -> Option<ReadWaiter>
    requires { MayBegin Rw domain.now cpu.old }
    ensures { (w : ReadWaiter) → result ≡ Some w → Reading domain.now w cpu.new }
{
    begin_read(cpu, domain, LOCK)
}

// Goes on with it.
fn polls(cpu: &mut Cpu, domain: &Domain, waiter: ReadWaiter) -> Option<ReadWaiter>
    requires { Reading domain.now waiter cpu.old }
    ensures domain { IsOf cpu.new domain.now }
    ensures waits { (w : ReadWaiter) → result ≡ Some w → Reading domain.now w cpu.new }
{
    poll_read(cpu, domain, waiter)
}

// Whether the second processor waits for the first, and then has the lock.
fn waits<R: Wait>(rt: &R, domain: &Domain, first: &mut Cpu, second: &mut Cpu) -> bool
    requires first { MayBegin Rw domain.now first.old }
    requires second { MayBegin Rw domain.now second.old }
{
    takes(first, rt, domain);
    let Some(waiter) = begins(second, domain) else {
        return false;
    };
    let Some(waiter) = polls(second, domain, waiter) else {
        return false;
    };
    frees(first, domain);
    polls(second, domain, waiter).is_none() && second.holds(LOCK)
}

// It does in this family.
fn play(rt: &(impl Abort + AllocGlobal + Wait), mode: Mode) -> Result<(), Fail>
    requires awake { halts mode ≡ false }
{
    let Ok((domain, mut cpus)) = open(rt.alloc(), mode, Kind::Rw) else {
        return Err("no memory".into());
    };
    let mut second = last(&mut cpus, &domain);
    let mut first = last(&mut cpus, &domain);
    assert!(rt; waits(rt, &domain, &mut first, &mut second));
    Ok(())
}

#[test]
fn polled_reader_comes_in_behind_the_writer(rt: HostRuntime) -> Result<(), Fail> {
    play(&rt, Mode::Virt)?;
    play(&rt, Mode::Native)?;
    play(&rt, Mode::Cna)
}
