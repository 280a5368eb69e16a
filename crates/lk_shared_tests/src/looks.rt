// What no clause says: what a look at a lock tells, of each kind, while it is held and while it is free.
ghost use Rattle.std.specs.Prelude.{◌≡◌, ◌<◌, length};
ghost use Rattle.lk_names.specs.declared.names.Kind.TheVariants.{Rw as sharing, Spin as spinning};
ghost use Rattle.lk_lock.specs.Cells.{names_of};
ghost use Rattle.lk_lock.specs.Standing.{AllRest, IsSharedUnder, IsUnder, Rests};

use lk_lock::{Cpu, Domain, Locks, Open, Rw, Seat, Shared, Spin};
use lk_lock_tests::last;
use lk_names::{List, Memory, Mode};
use std::sync::Wait;
use std::thread;
use std::thread::Threads;

#[test]
fn lock_is_seen_held(rt: HostRuntime) -> Result<(), Memory> {
    let mut locks = Locks::new(rt.alloc(), 1)?;
    let spin = locks.spin(7u64)?;
    let rw = locks.rw(7u64)?;
    let Open { domain, mut cpus } = locks.open(Mode::Native)?;
    let mut cpu = last(&domain, &mut cpus);
    let mut seat = Seat::new(&rt, &domain, &mut cpu);
    assert!(rt; !seat.holds(&spin) && !seat.holds_rw(&rw));
    let seen = seat.with(&spin, |_: &mut u64| -> bool {
        spin.is_locked(&domain) && !spin.is_contended(&domain) && !rw.is_locked(&domain)
    });
    assert!(rt; seen);
    let seen = seat.write(&rw, |_: &mut u64| -> bool {
        rw.is_locked(&domain) && !rw.is_contended(&domain) && !spin.is_locked(&domain)
    });
    assert!(rt; seen);
    assert!(rt; !spin.is_locked(&domain) && !rw.is_locked(&domain));
    Ok(())
}

#[test]
fn readers_and_writers_are_seen(rt: HostRuntime) -> Result<(), Memory> {
    let mut locks = Locks::new(rt.alloc(), 1)?;
    let shared = locks.shared(7u64)?;
    let Open { domain, mut cpus } = locks.open(Mode::Virt)?;
    let mut cpu = last(&domain, &mut cpus);
    let mut seat = Seat::new(&rt, &domain, &mut cpu);
    assert!(rt; !seat.holds_shared(&shared));
    let seen = seat.read(&shared, |_: &u64| -> bool {
        shared.is_locked(&domain) && !shared.is_contended(&domain)
    });
    assert!(rt; seen);
    let seen = seat.update(&shared, |_: &mut u64| -> bool {
        shared.is_locked(&domain) && !shared.is_contended(&domain)
    });
    assert!(rt; seen);
    assert!(rt; !shared.is_locked(&domain) && !shared.is_contended(&domain));
    Ok(())
}

// A lock of each kind. The value is how many threads have come.
#[derive(Drop)]
struct Doors<'a> {
    domain: &'a Domain,
    spin: &'a Spin<u32>,
    rw: &'a Rw<u32>,
    shared: &'a Shared<u32>,
    ghost spins: { IsUnder domain.now.plan spinning spin.now.id.index
        spin.now.cell.table.shared.table_id },
    ghost writes: { IsUnder domain.now.plan sharing rw.now.id.index
        rw.now.cell.table.shared.table_id },
    ghost shares: { IsSharedUnder domain.now.plan shared.now.id.index
        (names_of shared.now.cells.items) },
}

// One of them.
#[derive(Clone, Copy)]
enum Door {
    Spin,
    Rw,
    Shared,
}

impl<'a> Doors<'a> {
    // Whether somebody waits for the lock.
    fn is_contended(&self, door: Door) -> bool {
        match door {
            Door::Spin => self.spin.is_contended(self.domain),
            Door::Rw => self.rw.is_contended(self.domain),
            Door::Shared => self.shared.is_contended(self.domain),
        }
    }

    // Returns when somebody does.
    fn wait_for_company(&self, door: Door) {
        for _ in 0..u64::MAX {
            if self.is_contended(door) {
                return;
            }
        }
    }
}

// A thread comes to each lock. The first to come holds it until the second waits for it.
fn come<R: Wait>(rt: &R, cpu: &mut Cpu, doors: &Doors<'_>)
    requires rests { Rests doors.now.domain.now cpu.old.number cpu.old }
    ensures rests { Rests doors.now.domain.now cpu.old.number cpu.new }
{
    let mut seat = Seat::new(rt, doors.domain, cpu);
    seat.with(doors.spin, |came: &mut u32| {
        if *came == 0 {
            doors.wait_for_company(Door::Spin);
        }
        *came = came.wrapping_add(1);
    });
    seat.write(doors.rw, |came: &mut u32| {
        if *came == 0 {
            doors.wait_for_company(Door::Rw);
        }
        *came = came.wrapping_add(1);
    });
    seat.update(doors.shared, |came: &mut u32| {
        if *came == 0 {
            doors.wait_for_company(Door::Shared);
        }
        *came = came.wrapping_add(1);
    });
}

// Two threads come, each with a processor.
fn come_together<R: Threads + Wait + Sync>(rt: &R, cpus: &mut List<Cpu>, doors: &Doors<'_>)
    requires rest { AllRest doors.now.domain.now cpus.old.items }
    ensures many { length cpus.new.items ≡ length cpus.old.items }
    ensures rest { AllRest doors.now.domain.now cpus.new.items }
{
    thread::for_each_mut(
        rt,
        cpus.as_mut_slice(),
        2,
        &|_, cpu| { come(rt, cpu, doors) },
    );
}

#[test]
fn waiter_is_seen(rt: HostRuntime) -> Result<(), Memory> {
    let mut locks = Locks::new(rt.alloc(), 2)?;
    let spin = locks.spin(0u32)?;
    let rw = locks.rw(0u32)?;
    let shared = locks.shared(0u32)?;
    let Open { domain, mut cpus } = locks.open(Mode::Native)?;
    let doors = Doors {
        domain: &domain,
        spin: &spin,
        rw: &rw,
        shared: &shared,
    };
    come_together(&rt, &mut cpus, &doors);
    let mut cpu = last(&domain, &mut cpus);
    let mut seat = Seat::new(&rt, &domain, &mut cpu);
    let by_spin = seat.with(&spin, |came: &mut u32| -> u32 { *came });
    let by_rw = seat.write(&rw, |came: &mut u32| -> u32 { *came });
    let by_shared = seat.read(&shared, |came: &u32| -> u32 { *came });
    assert_eq!(rt; (by_spin, by_rw, by_shared), (2, 2, 2));
    Ok(())
}
