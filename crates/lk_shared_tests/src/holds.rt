// That a seat tells which locks its processor holds, also one that it took by a call of `lk_run`.
ghost use Rattle.std.specs.Prelude.{◌≡◌};
ghost use Rattle.lk_names.specs.declared.names.Kind.TheVariants.{Rw as sharing};
ghost use Rattle.lk_lock.specs.Cells.{names_of};
ghost use Rattle.lk_lock.specs.Standing.{IsSharedUnder, IsUnder, Rests};

use lk_domain::LockId;
use lk_lock::{Cpu, Domain, Locks, Open, Rw, Seat, Shared};
use lk_lock_tests::last;
use lk_names::{Memory, Mode};
use lk_run::{NoIrq, read_lock, write_lock};
use std::sync::Wait;

// The first lock that was made.
const FIRST: LockId = LockId { index: 0 };

// Whether the lock is seen held, once its writer has come in.
fn is_held_to_write<R: Wait>(rt: &R, domain: &Domain, cpu: &mut Cpu, rw: &Rw<u64>) -> bool
    requires rests { Rests domain.now 0 cpu.old }
    requires lock { IsUnder domain.now.plan sharing rw.now.id.index
        rw.now.cell.table.shared.table_id }
    requires first { rw.now.id.index ≡ 0 }
{
    write_lock(cpu, rt, domain, FIRST, &mut NoIrq);
    let seat = Seat::new(rt, domain, cpu);
    seat.holds_rw(rw)
}

// Whether the lock is seen held, once a reader has come in.
fn is_held_to_read<R: Wait>(rt: &R, domain: &Domain, cpu: &mut Cpu, shared: &Shared<u64>) -> bool
    requires rests { Rests domain.now 0 cpu.old }
    requires lock { IsSharedUnder domain.now.plan shared.now.id.index
        (names_of shared.now.cells.items) }
    requires first { shared.now.id.index ≡ 0 }
{
    read_lock(cpu, rt, domain, FIRST, &mut NoIrq);
    let seat = Seat::new(rt, domain, cpu);
    seat.holds_shared(shared)
}

#[test]
fn writer_is_seen_to_hold(rt: HostRuntime) -> Result<(), Memory> {
    let mut locks = Locks::new(rt.alloc(), 1)?;
    let rw = locks.rw(7u64)?;
    let Open { domain, mut cpus } = locks.open(Mode::Native)?;
    let mut cpu = last(&domain, &mut cpus);
    assert!(rt; is_held_to_write(&rt, &domain, &mut cpu, &rw));
    Ok(())
}

#[test]
fn reader_is_seen_to_hold(rt: HostRuntime) -> Result<(), Memory> {
    let mut locks = Locks::new(rt.alloc(), 1)?;
    let shared = locks.shared(7u64)?;
    let Open { domain, mut cpus } = locks.open(Mode::Virt)?;
    let mut cpu = last(&domain, &mut cpus);
    assert!(rt; is_held_to_read(&rt, &domain, &mut cpu, &shared));
    Ok(())
}
