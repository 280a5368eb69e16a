// The words of an answer.

use crate::check::MAX_RANKS;
use crate::claim::Claim;
use crate::orders::{Cause, Orders, Place};
use lk_rows::Verb;
use std::io;

// The word of a verb in a trace.
fn word_of(verb: Verb) -> &'static str {
    match verb {
        Verb::Lock => "lock",
        Verb::Try => "try",
        Verb::Unlock => "unlock",
        Verb::Read => "read",
        Verb::TryRead => "tryread",
        Verb::RUnlock => "runlock",
        Verb::Write => "write",
        Verb::TryWrite => "trywrite",
        Verb::WUnlock => "wunlock",
    }
}

// Writes whose program it is.
fn put_program(rt: &impl Print, program: u32) -> io::Result<()> {
    if program == 0 {
        print!(rt; "the task")
    } else {
        print!(rt; "handler {program}")
    }
}

// Writes an operation: its place, from 1, and its words.
fn put_place(rt: &impl Print, place: Place, lock: u32) -> io::Result<()> {
    let number = u64::from(place.at) + 1;
    let word = word_of(place.verb);
    print!(rt; "operation {number} ({word} {lock})")
}

// Writes why a lock must rank above another one.
fn put_cause(rt: &impl Print, lower: u32, upper: u32, cause: Cause) -> io::Result<()> {
    let cpu = cause.cpu;
    print!(rt; "lock {upper} must rank above lock {lower}: on processor {cpu} ")?;
    put_program(rt, cause.waits.program)?;
    print!(rt; " waits for lock {upper} at ")?;
    put_place(rt, cause.waits, upper)?;
    if cause.waits.program == cause.names.program {
        print!(rt; " and holds lock {lower} since ")?;
    } else {
        print!(rt; " and may interrupt ")?;
        put_program(rt, cause.names.program)?;
        print!(rt; ", which uses lock {lower} at ")?;
    }
    put_place(rt, cause.names, lower)?;
    println!(rt; "")
}

// Writes the orders of a cycle, down from one of its locks.
fn put_cycle(rt: &impl Print, orders: &Orders, ranks: &[u32], first: u32) -> io::Result<()> {
    let mut lock = first;
    for _step in 0..MAX_RANKS {
        if let Some((lower, cause)) = orders.below(ranks, lock) {
            put_cause(rt, lower, lock, cause)?;
            lock = lower;
        }
        if lock == first {
            return Ok(());
        }
    }
    Ok(())
}

// Writes the rank of each lock.
fn put_ranks(rt: &impl Print, ranks: &[u32]) -> io::Result<()> {
    for (lock, rank) in ranks.iter().enumerate() {
        println!(rt; "lock {lock} rank {rank}")?;
    }
    Ok(())
}

/// Writes what is known of a setup: a line for the claim, and behind it the ranks, or the orders of a
/// cycle.
///
/// # Errors
///
/// A write failed.
pub(crate) fn put_answer(
    rt: &impl Print,
    claim: Claim,
    orders: &Orders,
    ranks: &[u32],
) -> io::Result<()> {
    match claim {
        Claim::Finishes => {
            println!(rt; "ordered: no schedule deadlocks, and every fair schedule finishes")?;
        }
        Claim::FinishesCalm => {
            println!(rt;
                "ordered: no schedule deadlocks, and every fair schedule with finitely many nudges finishes"
            )?;
        }
        Claim::Crowded(cpu) => {
            println!(rt;
                "not covered: the locks have ranks, but processor {cpu} has more than 3 handlers"
            )?;
        }
        Claim::Unordered => println!(rt; "not ordered: the locks have no ranks")?,
    }
    match (claim, orders.in_cycle(ranks)) {
        (Claim::Unordered, Some(lock)) => put_cycle(rt, orders, ranks, lock),
        (Claim::Unordered, None) => Ok(()),
        _ => put_ranks(rt, ranks),
    }
}
