// What each thread does: it draws a number under one lock, inside the other, under which it puts it into the
// queue.
ghost use Rattle.std.specs.Prelude.{◌≡◌, ◌<◌, length};
ghost use Rattle.lk_names.specs.declared.names.Kind.TheVariants.{Spin as spinning};
ghost use Rattle.lk_lock.specs.Standing.{AllRest, IsUnder, Rests};

use lk_lock::{Cpu, Domain};
use lk_names::List;
use lk_ranks::RankedSpin;
use std::sync::Wait;
use std::thread;
use std::thread::Threads;

// How many numbers each thread draws.
const TURNS: u32 = 1000;

/// What the threads share: a queue and a counter, each under a lock of its own. The counter's ranks
/// above the queue's.
#[derive(Drop)]
pub struct Shop<'a> {
    pub domain: &'a Domain,
    pub queue: &'a RankedSpin<Vec<u64>>,
    pub count: &'a RankedSpin<u64>,
    ghost queues: { IsUnder domain.now.plan spinning queue.now.spin.id.index
        queue.now.spin.cell.table.shared.table_id },
    ghost counts: { IsUnder domain.now.plan spinning count.now.spin.id.index
        count.now.spin.cell.table.shared.table_id },
    ghost order: { queue.now.spin.id.index < count.now.spin.id.index },
}

// One number.
fn take_turn<R: Wait>(rt: &R, cpu: &mut Cpu, shop: &Shop<'_>)
    requires rests { Rests shop.now.domain.now cpu.old.number cpu.old }
    ensures number { cpu.new.number ≡ cpu.old.number }
    ensures rests { Rests shop.now.domain.now cpu.old.number cpu.new }
{
    let mut held = shop.queue.lock(cpu, rt, shop.domain);
    let number = shop.count.with_inside(&mut held, |count: &mut u64| -> u64 {
        *count = count.wrapping_add(1);
        *count
    });
    // The queue has room for all numbers, so this takes no memory.
    let _ = held.value().push(number);
    held.unlock();
}

// All turns of a thread.
fn take_turns<R: Wait>(rt: &R, cpu: &mut Cpu, shop: &Shop<'_>)
    requires rests { Rests shop.now.domain.now cpu.old.number cpu.old }
    ensures rests { Rests shop.now.domain.now cpu.old.number cpu.new }
{
    for _ in 0..TURNS {
        take_turn(rt, cpu, shop);
    }
}

/// All threads take their turns, each with a processor.
pub fn take_all_turns<R: Threads + Wait + Sync>(rt: &R, cpus: &mut List<Cpu>, shop: &Shop<'_>)
    requires rest { AllRest shop.now.domain.now cpus.old.items }
    ensures all { length cpus.new.items ≡ length cpus.old.items }
    ensures rest { AllRest shop.now.domain.now cpus.new.items }
{
    let threads = cpus.len();
    if threads > 0 {
        thread::for_each_mut(
            rt,
            cpus.as_mut_slice(),
            threads,
            &|_, cpu| { take_turns(rt, cpu, shop) },
        );
    }
}
