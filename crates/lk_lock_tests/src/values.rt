// What no clause says: that a value is the one that was left, that a try which fails calls nothing,
// and what is shown of a lock.
ghost use Rattle.std.specs.Prelude.{◌≡◌};
ghost use Rattle.lk_names.specs.declared.names.Kind.TheVariants.{Rw as shared, Spin as spinning};
ghost use Rattle.lk_lock.specs.Standing.{IsUnder, Rests};

use crate::processors::last;
use lk_lock::{Cpu, Domain, Held, Locks, Open, Rw, Seat, Spin};
use lk_names::{Memory, Mode};
use std::alloc::AllocError;
use std::sync::Wait;

#[test]
fn writer_works_on_the_value(rt: HostRuntime) -> Result<(), Memory> {
    let mut locks = Locks::new(rt.alloc(), 1)?;
    let number = locks.rw(7u64)?;
    let Open { domain, mut cpus } = locks.open(Mode::Cna)?;
    let mut cpu = last(&domain, &mut cpus);
    let mut seat = Seat::new(&rt, &domain, &mut cpu);
    seat.write(&number, |number: &mut u64| {
        *number = number.wrapping_add(2);
    });
    let left = seat.try_write(&number, |number: &mut u64| -> u64 { *number });
    assert_eq!(rt; left, Some(9));
    Ok(())
}

// Whether a guard gives the value back, and frees the lock inside which it took another.
fn guards<R: Wait + AllocGlobal>(rt: &R, mode: Mode) -> Result<bool, Memory> {
    let mut locks = Locks::new(rt.alloc(), 2)?;
    let first = locks.spin(1u64)?;
    let second = locks.spin(2u64)?;
    let Open { domain, mut cpus } = locks.open(mode)?;
    let mut next = last(&domain, &mut cpus);
    let mut cpu = last(&domain, &mut cpus);
    let mut held = Held::lock(&mut cpu, rt, &domain, &first);
    let other = held.with(&second, |number: &mut u64| -> u64 { *number });
    *held.value() = other;
    held.unlock();
    let mut seat = Seat::new(rt, &domain, &mut next);
    let freed = seat.try_turn(&second, |number: &mut u64| -> u64 { *number });
    let left = seat.try_turn(&first, |number: &mut u64| -> u64 { *number });
    Ok(freed == Some(2) && left == Some(2))
}

#[test]
fn guard_gives_the_value_back(rt: HostRuntime) -> Result<(), Memory> {
    assert!(rt; guards(&rt, Mode::Virt)?);
    assert!(rt; guards(&rt, Mode::Native)?);
    assert!(rt; guards(&rt, Mode::Cna)?);
    assert!(rt; guards(&rt, Mode::Pv)?);
    Ok(())
}

#[test]
fn try_fails_while_another_holds(rt: HostRuntime) -> Result<(), Memory> {
    let mut locks = Locks::new(rt.alloc(), 2)?;
    let number = locks.spin(7u64)?;
    let Open { domain, mut cpus } = locks.open(Mode::Native)?;
    let mut second = last(&domain, &mut cpus);
    let mut first = last(&domain, &mut cpus);
    let mut calls = 0u64;
    let held = Held::lock(&mut first, &rt, &domain, &number);
    let mut seat = Seat::new(&rt, &domain, &mut second);
    let missed = seat.try_with(&number, |_: &mut u64| {
        calls = 1;
    });
    assert!(rt; missed.is_none());
    assert_eq!(rt; calls, 0);
    drop(held);
    let found = seat.try_with(&number, |number: &mut u64| -> u64 { *number });
    assert_eq!(rt; found, Some(7));
    Ok(())
}

#[test]
fn guard_is_refused_while_another_holds(rt: HostRuntime) -> Result<(), Memory> {
    let mut locks = Locks::new(rt.alloc(), 2)?;
    let number = locks.spin(7u64)?;
    let Open { domain, mut cpus } = locks.open(Mode::Native)?;
    let mut second = last(&domain, &mut cpus);
    let mut first = last(&domain, &mut cpus);
    {
        let _held = Held::lock(&mut first, &rt, &domain, &number);
        if let Some(_held) = Held::try_lock(&mut second, &rt, &domain, &number) {
            panic!(rt; "two hold the lock");
        }
    }
    let Some(mut held) = Held::try_lock(&mut second, &rt, &domain, &number) else {
        return Err(Memory);
    };
    assert_eq!(rt; *held.value(), 7);
    Ok(())
}

// Leaves a value under each lock.
fn leave<R: Wait>(rt: &R, domain: &Domain, cpu: &mut Cpu, number: &Spin<u64>, other: &Rw<u32>)
    requires rests { Rests domain.now 0 cpu.old }
    requires number { IsUnder domain.now.plan spinning number.now.id.index
        number.now.cell.table.shared.table_id }
    requires other { IsUnder domain.now.plan shared other.now.id.index
        other.now.cell.table.shared.table_id }
    ensures rests { Rests domain.now 0 cpu.new }
{
    let mut seat = Seat::new(rt, domain, cpu);
    seat.with(number, |number: &mut u64| {
        *number = 3;
    });
    seat.write(other, |other: &mut u32| {
        *other = 4;
    });
}

#[test]
fn values_come_back_as_they_were_left(rt: HostRuntime) -> Result<(), Memory> {
    let mut locks = Locks::new(rt.alloc(), 1)?;
    let number = locks.spin(1u64)?;
    let other = locks.rw(2u32)?;
    let mut open = locks.open(Mode::Virt)?;
    leave(&rt, &open.domain, open.cpus.get_mut(0), &number, &other);
    let Ok(mut keys) = open.close(rt.alloc()) else {
        return Err(Memory);
    };
    assert_eq!(rt; other.into_value(&mut keys), 4);
    assert_eq!(rt; number.into_value(&mut keys), 3);
    Ok(())
}

#[test]
fn locks_are_shown_without_their_values(rt: HostRuntime) -> Result<(), AllocError> {
    let mut locks = Locks::new(rt.alloc(), 1).map_err(|_| AllocError)?;
    let number = locks.spin(7u64).map_err(|_| AllocError)?;
    let shown = format!(in rt.alloc(); "{number:?} {locks:?}")?;
    assert_eq!(rt;
        shown.as_str(),
        "Spin { id: LockId { index: 0 }, .. } Locks { count: 1, .. }"
    );
    Ok(())
}
