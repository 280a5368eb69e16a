// What no clause says: that updates at once leave one value in all copies, and that none of them is lost.
ghost use Rattle.std.specs.Prelude.{◌≡◌, length};
ghost use Rattle.lk_names.specs.declared.names.Kind.TheVariants.{Spin as spinning};
ghost use Rattle.lk_lock.specs.Cells.{names_of};
ghost use Rattle.lk_lock.specs.Standing.{AllRest, IsSharedUnder, IsUnder, Rests};

use lk_lock::{Cpu, Domain, Locks, Seat, Shared, Spin};
use lk_names::{List, Memory, Mode};
use std::sync::Wait;
use std::thread;
use std::thread::Threads;

// How often each of the threads adds one.
const TURNS: u64 = 20_000;

// A value that all threads add to, and how often one of them read less than it had left.
#[derive(Drop)]
struct Board<'a> {
    domain: &'a Domain,
    count: &'a Shared<u64>,
    stale: &'a Spin<u64>,
    ghost counts: { IsSharedUnder domain.now.plan count.now.id.index
        (names_of count.now.cells.items) },
    ghost stales: { IsUnder domain.now.plan spinning stale.now.id.index
        stale.now.cell.table.shared.table_id },
}

// A thread adds one, and then reads.
fn take_turn<R: Wait>(rt: &R, cpu: &mut Cpu, board: &Board<'_>)
    requires rests { Rests board.now.domain.now cpu.old.number cpu.old }
    ensures number { cpu.new.number ≡ cpu.old.number }
    ensures rests { Rests board.now.domain.now cpu.old.number cpu.new }
{
    let mut seat = Seat::new(rt, board.domain, cpu);
    let left = seat.update(board.count, |count: &mut u64| -> u64 {
        *count = count.wrapping_add(1);
        *count
    });
    let found = seat.read(board.count, |count: &u64| -> u64 { *count });
    if found < left {
        seat.with(board.stale, |stale: &mut u64| {
            *stale = stale.wrapping_add(1);
        });
    }
}

// All turns of a thread.
fn take_turns<R: Wait>(rt: &R, cpu: &mut Cpu, board: &Board<'_>)
    requires rests { Rests board.now.domain.now cpu.old.number cpu.old }
    ensures rests { Rests board.now.domain.now cpu.old.number cpu.new }
{
    for _ in 0..TURNS {
        take_turn(rt, cpu, board);
    }
}

// The turns of all threads, each with a processor.
fn take_all_turns<R: Threads + Wait + Sync>(rt: &R, cpus: &mut List<Cpu>, board: &Board<'_>)
    requires rest { AllRest board.now.domain.now cpus.old.items }
    ensures many { length cpus.new.items ≡ length cpus.old.items }
    ensures rest { AllRest board.now.domain.now cpus.new.items }
{
    thread::for_each_mut(
        rt,
        cpus.as_mut_slice(),
        3,
        &|_, cpu| { take_turns(rt, cpu, board) },
    );
}

#[test]
fn updates_at_once_leave_one_value(rt: HostRuntime) -> Result<(), Memory> {
    let mut locks = Locks::new(rt.alloc(), 3)?;
    let count = locks.shared(0u64)?;
    let stale = locks.spin(0u64)?;
    let mut open = locks.open(Mode::Native)?;
    let board = Board {
        domain: &open.domain,
        count: &count,
        stale: &stale,
    };
    take_all_turns(&rt, &mut open.cpus, &board);
    let Ok(mut keys) = open.close(rt.alloc()) else {
        return Err(Memory);
    };
    assert_eq!(rt; stale.into_value(&mut keys), 0);
    assert_eq!(rt; count.into_value(&mut keys), 3 * TURNS);
    Ok(())
}
