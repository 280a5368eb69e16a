// What no clause says: that a try which fails leaves the value alone.
use crate::processors::last;
use lk_lock::{Held, Locks, Open, Seat};
use lk_names::{Memory, Mode};

#[test]
fn try_to_write_fails_while_another_writes(rt: HostRuntime) -> Result<(), Memory> {
    let mut locks = Locks::new(rt.alloc(), 2)?;
    let number = locks.rw(7u64)?;
    let Open { domain, mut cpus } = locks.open(Mode::Native)?;
    let mut second = last(&domain, &mut cpus);
    let mut first = last(&domain, &mut cpus);
    let mut inner = Seat::new(&rt, &domain, &mut second);
    let mut outer = Seat::new(&rt, &domain, &mut first);
    let missed = outer.write(&number, |mine: &mut u64| -> bool {
        *mine = 8;
        let tried = inner.try_write(&number, |other: &mut u64| {
            *other = 9;
        });
        tried.is_none()
    });
    assert!(rt; missed);
    let left = outer.try_write(&number, |number: &mut u64| -> u64 { *number });
    assert_eq!(rt; left, Some(8));
    Ok(())
}

#[test]
fn turn_fails_while_another_holds(rt: HostRuntime) -> Result<(), Memory> {
    let mut locks = Locks::new(rt.alloc(), 2)?;
    let number = locks.spin(7u64)?;
    let Open { domain, mut cpus } = locks.open(Mode::Pv)?;
    let mut second = last(&domain, &mut cpus);
    let mut first = last(&domain, &mut cpus);
    let mut inner = Seat::new(&rt, &domain, &mut second);
    let mut outer = Seat::new(&rt, &domain, &mut first);
    let missed = outer.with(&number, |mine: &mut u64| -> bool {
        *mine = 8;
        let tried = inner.try_turn(&number, |other: &mut u64| {
            *other = 9;
        });
        tried.is_none()
    });
    assert!(rt; missed);
    let left = outer.try_turn(&number, |number: &mut u64| -> u64 { *number });
    assert_eq!(rt; left, Some(8));
    Ok(())
}

#[test]
fn paravirtual_guard_is_refused_while_another_holds(rt: HostRuntime) -> Result<(), Memory> {
    let mut locks = Locks::new(rt.alloc(), 2)?;
    let number = locks.spin(7u64)?;
    let Open { domain, mut cpus } = locks.open(Mode::Pv)?;
    let mut second = last(&domain, &mut cpus);
    let mut first = last(&domain, &mut cpus);
    let mut held = Held::lock(&mut first, &rt, &domain, &number);
    let mut seat = Seat::new(&rt, &domain, &mut second);
    assert!(rt; seat.try_turn(&number, |_: &mut u64| {}).is_none());
    *held.value() = 8;
    held.unlock();
    let Some(mut held) = Held::try_lock(&mut second, &rt, &domain, &number) else {
        return Err(Memory);
    };
    assert_eq!(rt; *held.value(), 8);
    held.unlock();
    Ok(())
}
