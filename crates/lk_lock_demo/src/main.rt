//! Four threads, a queue and a counter under two locks, in each lock family.
//!
//! Each turn draws a number under one lock and puts it into the queue under the other. The counter's
//! lock ranks above the queue's, so no two threads ever wait for each other.
#![tactic(auto)]

mod turns;

use lk_names::{Memory, Mode};
use lk_ranks::Ranks;
use std::io;
use std::sync::Wait;
use std::thread::Threads;
use turns::{Shop, take_all_turns};

// The queue has room for the numbers of all threads.
const ROOM: usize = 4000;

// Whether the queue is full, and has its numbers in order.
fn is_in_order(queue: &[u64]) -> bool {
    let mut ordered = queue.len() == ROOM;
    for at in 0..queue.len() {
        ordered = ordered && queue[at] == at as u64 + 1;
    }
    ordered
}

fn run<R: Threads + Wait + Sync + AllocGlobal>(rt: &R, mode: Mode) -> Result<bool, Memory> {
    let mut ranks = Ranks::new(rt.alloc(), 4)?;
    let queue = ranks.spin(Vec::with_capacity(rt.alloc(), ROOM)?)?;
    let count = ranks.spin_above(queue.rank(), 0u64)?;
    let mut open = ranks.open(mode)?;
    let shop = Shop {
        domain: &open.domain,
        queue: &queue,
        count: &count,
    };
    take_all_turns(rt, &mut open.cpus, &shop);
    let Ok(mut keys) = open.close(rt.alloc()) else {
        return Err(Memory);
    };
    let numbers = queue.into_value(&mut keys);
    Ok(count.into_value(&mut keys) == ROOM as u64 && is_in_order(numbers.as_slice()))
}

fn run_all<R: Threads + Wait + Sync + AllocGlobal>(rt: &R) -> Result<bool, Memory> {
    let virt = run(rt, Mode::Virt)?;
    let native = run(rt, Mode::Native)?;
    let cna = run(rt, Mode::Cna)?;
    let pv = run(rt, Mode::Pv)?;
    Ok(virt && native && cna && pv)
}

fn main(rt: HostRuntime) -> io::Result<()> {
    match run_all(&rt) {
        Ok(ordered) => println!(rt; "all in order: {ordered}"),
        Err(_) => println!(rt; "there is not enough memory"),
    }
}
