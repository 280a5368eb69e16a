// A call of `write_lock` that is polled: a writer waits for a reader.
ghost use Rattle.std.specs.Prelude.{◌≡◌, Some, false};
ghost use Rattle.lk_names.specs.declared.holder.Manner.TheVariants.{Reads};
ghost use Rattle.lk_names.specs.declared.names.Kind.TheVariants.{Rw};
ghost use Rattle.lk_law.specs.Agree.{halts};
ghost use Rattle.lk_domain.specs.Seats.{IsOf};
ghost use Rattle.lk_run.specs.declared.write_waiter.WriteWaiter.{WriteWaiter};
ghost use Rattle.lk_polled_tests.specs.Stages.{Has, MayBegin, Writing};

use crate::stage::{LOCK, last, open};
use lk_domain::{Cpu, Domain};
use lk_names::{Kind, Mode};
use lk_run::{NoIrq, WriteWaiter, begin_write, poll_write, read_lock, read_unlock};
use std::process::Abort;
use std::sync::Wait;
use std::test::Fail;

// Takes the free lock as a reader.
fn takes<R: Wait>(cpu: &mut Cpu, rt: &R, domain: &Domain)
    requires { MayBegin Rw domain.now cpu.old }
    ensures { Has Rw Reads domain.now cpu.new }
{
    read_lock(cpu, rt, domain, LOCK, &mut NoIrq);
}

// Frees it.
fn frees(cpu: &mut Cpu, domain: &Domain)
    requires { Has Rw Reads domain.now cpu.old }
{
    read_unlock(cpu, domain, LOCK);
}

// Begins a call.
fn begins(cpu: &mut Cpu, domain: &Domain) -> Option<WriteWaiter>
    requires { MayBegin Rw domain.now cpu.old }
    ensures { (w : WriteWaiter) → result ≡ Some w → Writing domain.now w cpu.new }
{
    begin_write(cpu, domain, LOCK)
}

// Goes on with it.
fn polls(cpu: &mut Cpu, domain: &Domain, waiter: WriteWaiter) -> Option<WriteWaiter>
    requires { Writing domain.now waiter cpu.old }
    ensures domain { IsOf cpu.new domain.now }
    ensures waits { (w : WriteWaiter) → result ≡ Some w → Writing domain.now w cpu.new }
{
    poll_write(cpu, domain, waiter)
}

// Whether the second processor waits for the first, and then has the lock.
fn waits<R: Wait>(rt: &R, domain: &Domain, first: &mut Cpu, second: &mut Cpu) -> bool
    requires first { MayBegin Rw domain.now first.old }
    requires second { MayBegin Rw domain.now second.old }
{
    takes(first, rt, domain);
    let Some(waiter) = begins(second, domain) else {
        return false;
    };
    let Some(waiter) = polls(second, domain, waiter) else {
        return false;
    };
    frees(first, domain);
    polls(second, domain, waiter).is_none() && second.holds(LOCK)
}

// It does in this family.
fn play(rt: &(impl Abort + AllocGlobal + Wait), mode: Mode) -> Result<(), Fail>
    requires awake { halts mode ≡ false }
{
    let Ok((domain, mut cpus)) = open(rt.alloc(), mode, Kind::Rw) else {
        return Err("no memory".into());
    };
    let mut second = last(&mut cpus, &domain);
    let mut first = last(&mut cpus, &domain);
    assert!(rt; waits(rt, &domain, &mut first, &mut second));
    Ok(())
}

#[test]
fn polled_writer_comes_in_behind_the_reader(rt: HostRuntime) -> Result<(), Fail> {
    play(&rt, Mode::Virt)?;
    play(&rt, Mode::Native)?;
    play(&rt, Mode::Cna)
}
