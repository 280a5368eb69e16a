// That the domain of each family is the one that was asked for, and that its locks serve.

use crate::processors::last;
use lk_lock::{Domain, Locks, Open, Seat};
use lk_names::{Format, List, Memory, Mode, Topology};
use std::sync::Wait;

// How many turns a waiter of a paravirtual lock spins.
const TURNS: u16 = 3;

// Whether a domain of two processors has them on these sockets, is of format one, and has this bound.
fn has(domain: &Domain, sockets: &[u32], bound: u32) -> bool {
    let plan = &domain.plan;
    plan.topology.sockets.as_slice() == sockets
        && plan.format == Format::One
        && plan.threshold == bound
}

// Two processors, the first on socket 1 and the second on socket 0: whether the domain is of this
// family and has them there, and its lock serves.
fn serves<R: Wait + AllocGlobal>(rt: &R, mode: Mode) -> Result<bool, Memory> {
    let mut locks = Locks::new(rt.alloc(), 2)?;
    let count = locks.spin(7u64)?;
    let mut sockets = List::new(rt.alloc(), 2)?;
    sockets.push(1);
    sockets.push(0);
    let Open { domain, mut cpus } = locks.open_on(mode, Topology { sockets }, TURNS)?;
    let bound = match mode {
        Mode::Pv => 3,
        Mode::Virt | Mode::Native | Mode::Cna => 16,
    };
    let right = has(&domain, &[1, 0], bound);
    let mut cpu = last(&domain, &mut cpus);
    let mut seat = Seat::new(rt, &domain, &mut cpu);
    let found = seat.with(&count, |count: &mut u64| -> u64 { *count });
    Ok(found == 7 && right && domain.mode() == mode)
}

#[test]
fn each_family_is_the_one_asked_for(rt: HostRuntime) -> Result<(), Memory> {
    assert!(rt; serves(&rt, Mode::Virt)?);
    assert!(rt; serves(&rt, Mode::Native)?);
    assert!(rt; serves(&rt, Mode::Cna)?);
    assert!(rt; serves(&rt, Mode::Pv)?);
    Ok(())
}

#[test]
fn paravirtual_waiters_spin_as_usual(rt: HostRuntime) -> Result<(), Memory> {
    let mut locks = Locks::new(rt.alloc(), 2)?;
    let _count = locks.spin(7u64)?;
    let Open { domain, cpus } = locks.open(Mode::Pv)?;
    assert!(rt; has(&domain, &[0, 0], 32_768));
    let first = cpus.get(0).number();
    assert_eq!(rt; (first, cpus.get(1).number()), (0, 1));
    Ok(())
}

#[test]
fn locks_tell_whether_all_are_spinlocks(rt: HostRuntime) -> Result<(), Memory> {
    let mut locks = Locks::new(rt.alloc(), 1)?;
    let _count = locks.spin(7u64)?;
    assert!(rt; locks.are_spins());
    let _limit = locks.rw(7u64)?;
    assert!(rt; !locks.are_spins());
    Ok(())
}
