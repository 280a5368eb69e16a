// The calls on a reader-writer lock, by three processors of one thread.
ghost use Rattle.std.specs.Prelude.{◌≡◌, true, false};
ghost use Rattle.lk_names.specs.declared.holder.Manner.TheVariants.{Reads, Writes};
ghost use Rattle.lk_law.specs.Agree.{halts};
ghost use Rattle.lk_thread_tests.specs.Stages.{HasEntered, MayEnter};

use crate::stage::{open, take_last};
use lk_domain::{Cpu, Domain, LockId};
use lk_names::{Kind, Mode};
use lk_run::{NoIrq, read_lock, read_unlock, try_read, try_write, write_lock, write_unlock};
use std::process::Abort;
use std::sync::Wait;
use std::test::Fail;

/// The lock that all of them take.
const LOCK: LockId = LockId { index: 0 };

// Tries to read, and says whether it holds the lock.
fn tries_to_read(cpu: &mut Cpu, domain: &Domain) -> bool
    requires { MayEnter domain.now cpu.old }
    ensures entered { result ≡ true → HasEntered Reads domain.now cpu.new }
    ensures missed { result ≡ false → MayEnter domain.now cpu.new }
{
    try_read(cpu, domain, LOCK)
}

// Tries to write.
fn tries_to_write(cpu: &mut Cpu, domain: &Domain) -> bool
    requires { MayEnter domain.now cpu.old }
    ensures entered { result ≡ true → HasEntered Writes domain.now cpu.new }
    ensures missed { result ≡ false → MayEnter domain.now cpu.new }
{
    try_write(cpu, domain, LOCK)
}

// Takes the lock to read.
fn reads<R: Wait>(cpu: &mut Cpu, rt: &R, domain: &Domain)
    requires { MayEnter domain.now cpu.old }
    ensures { HasEntered Reads domain.now cpu.new }
{
    read_lock(cpu, rt, domain, LOCK, &mut NoIrq);
}

// Takes the lock to write.
fn writes<R: Wait>(cpu: &mut Cpu, rt: &R, domain: &Domain)
    requires { MayEnter domain.now cpu.old }
    ensures { HasEntered Writes domain.now cpu.new }
{
    write_lock(cpu, rt, domain, LOCK, &mut NoIrq);
}

// Frees the lock after it has read.
fn ends_reading(cpu: &mut Cpu, domain: &Domain)
    requires { HasEntered Reads domain.now cpu.old }
    ensures { MayEnter domain.now cpu.new }
{
    read_unlock(cpu, domain, LOCK);
}

// Frees the lock after it has written.
fn ends_writing(cpu: &mut Cpu, domain: &Domain)
    requires { HasEntered Writes domain.now cpu.old }
    ensures { MayEnter domain.now cpu.new }
{
    write_unlock(cpu, domain, LOCK);
}

// Two read at once, and a third may write when both are through, and then alone.
fn play_tries(rt: &impl Abort, domain: &Domain, first: &mut Cpu, second: &mut Cpu, third: &mut Cpu)
    requires first { MayEnter domain.now first.old }
    requires second { MayEnter domain.now second.old }
    requires third { MayEnter domain.now third.old }
    ensures first { MayEnter domain.now first.new }
    ensures second { MayEnter domain.now second.new }
{
    assert!(rt; tries_to_read(first, domain));
    assert!(rt; tries_to_read(second, domain));
    assert!(rt; !tries_to_write(third, domain));
    ends_reading(first, domain);
    assert!(rt; !tries_to_write(third, domain));
    ends_reading(second, domain);
    assert!(rt; tries_to_write(third, domain));
    assert!(rt; !tries_to_read(first, domain));
    assert!(rt; !tries_to_write(second, domain));
    ends_writing(third, domain);
}

// The calls that may wait, where none of them has to.
fn play_locks(rt: &(impl Abort + Wait), domain: &Domain, first: &mut Cpu, second: &mut Cpu)
    requires first { MayEnter domain.now first.old }
    requires second { MayEnter domain.now second.old }
{
    writes(first, rt, domain);
    assert!(rt; !tries_to_read(second, domain));
    ends_writing(first, domain);
    reads(second, rt, domain);
    reads(first, rt, domain);
    ends_reading(second, domain);
    assert!(rt; !tries_to_write(second, domain));
    ends_reading(first, domain);
    assert!(rt; tries_to_write(second, domain));
}

// Both in this mode.
fn play_all(rt: &(impl Abort + AllocGlobal + Wait), mode: Mode) -> Result<(), Fail>
    requires awake { halts mode ≡ false }
{
    let Ok((domain, mut cpus)) = open(rt.alloc(), mode, Kind::Rw, 3) else {
        return Err("no memory".into());
    };
    let mut third = take_last(&mut cpus, &domain);
    let mut second = take_last(&mut cpus, &domain);
    let mut first = take_last(&mut cpus, &domain);
    play_tries(rt, &domain, &mut first, &mut second, &mut third);
    play_locks(rt, &domain, &mut first, &mut second);
    Ok(())
}

#[test]
fn readers_share_and_a_writer_is_alone(rt: HostRuntime) -> Result<(), Fail> {
    play_all(&rt, Mode::Virt)?;
    play_all(&rt, Mode::Native)?;
    play_all(&rt, Mode::Cna)
}
