// What no clause says, in each family: that no addition to a value under a spinlock is lost, and that the
// value comes back as it was left.
ghost use Rattle.std.specs.Prelude.{◌≡◌, length};
ghost use Rattle.lk_names.specs.declared.names.Kind.TheVariants.{Spin as spinning};
ghost use Rattle.lk_lock.specs.Standing.{AllRest, IsUnder, Rests};

use lk_lock::{Cpu, Domain, Locks, Seat, Spin};
use lk_names::{List, Memory, Mode, Topology};
use std::sync::Wait;
use std::thread;
use std::thread::Threads;

// How often each of the threads adds one.
const TURNS: u32 = 1_000;

// How many turns a waiter of a paravirtual lock spins: it halts at once.
const SPINS: u16 = 1;

// All turns of a processor. Each adds one, at a try if nobody has the lock.
fn take_turns<R: Wait>(rt: &R, domain: &Domain, cpu: &mut Cpu, count: &Spin<u64>)
    requires rests { Rests domain.now cpu.old.number cpu.old }
    requires count { IsUnder domain.now.plan spinning count.now.id.index
        count.now.cell.table.shared.table_id }
    ensures rests { Rests domain.now cpu.old.number cpu.new }
{
    for _ in 0..TURNS {
        let mut seat = Seat::new(rt, domain, cpu);
        let added = seat.try_turn(count, |count: &mut u64| *count = count.wrapping_add(1));
        if added.is_none() {
            seat.with(count, |count: &mut u64| *count = count.wrapping_add(1));
        }
    }
}

// The turns of all processors, each on a thread of its own.
fn take_all_turns<R: Threads + Wait + Sync>(
    rt: &R,
    domain: &Domain,
    cpus: &mut List<Cpu>,
    count: &Spin<u64>,
)
    requires rest { AllRest domain.now cpus.old.items }
    requires count { IsUnder domain.now.plan spinning count.now.id.index
        count.now.cell.table.shared.table_id }
    ensures many { length cpus.new.items ≡ length cpus.old.items }
    ensures rest { AllRest domain.now cpus.new.items }
{
    thread::for_each_mut(
        rt,
        cpus.as_mut_slice(),
        4,
        &|_, cpu| { take_turns(rt, domain, cpu, count) },
    );
}

// What four threads have counted.
fn counted<R: Threads + Wait + Sync + AllocGlobal>(rt: &R, mode: Mode) -> Result<u64, Memory> {
    let mut locks = Locks::new(rt.alloc(), 4)?;
    let count = locks.spin(0u64)?;
    let sockets = List::filled(rt.alloc(), 0, 4)?;
    let mut open = locks.open_on(mode, Topology { sockets }, SPINS)?;
    take_all_turns(rt, &open.domain, &mut open.cpus, &count);
    let Ok(mut keys) = open.close(rt.alloc()) else {
        return Err(Memory);
    };
    Ok(count.into_value(&mut keys))
}

#[test]
fn four_threads_count_in_each_family(rt: HostRuntime) -> Result<(), Memory> {
    assert_eq!(rt; counted(&rt, Mode::Virt)?, 4 * u64::from(TURNS));
    assert_eq!(rt; counted(&rt, Mode::Native)?, 4 * u64::from(TURNS));
    assert_eq!(rt; counted(&rt, Mode::Cna)?, 4 * u64::from(TURNS));
    assert_eq!(rt; counted(&rt, Mode::Pv)?, 4 * u64::from(TURNS));
    Ok(())
}
