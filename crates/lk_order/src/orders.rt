// The orders that the programs ask of the locks, and ranks that fit them. Nothing is claimed of
// either: `check_ranks` judges the ranks.

ghost use Rattle.std.specs.Prelude.{◌≤◌, ◌<◌, length};
ghost use Rattle.lk_rows.specs.Programs.{HasPrograms, IsLawfulSetup, handlers_of};

use crate::check::{MAX_RANKS, held_behind, is_exempt, programs_of, rank_of, waits_for};
use lk_names::{List, Memory};
use lk_rows::{Op, Setup, Verb};
use std::alloc::Global;

/// An operation: its processor's program and its place there, both from 0. Program 0 is the task's,
/// and the h-th is that of the h-th handler.
#[derive(Clone, Copy)]
pub(crate) struct Place {
    /// The number of the program.
    pub(crate) program: u32,
    /// The place of the operation.
    pub(crate) at: u32,
    /// What it does to its lock.
    pub(crate) verb: Verb,
}

/// Why a lock must rank above another.
#[derive(Clone, Copy)]
pub(crate) struct Cause {
    /// The processor.
    pub(crate) cpu: u32,
    /// The operation that waits for the upper lock.
    pub(crate) waits: Place,
    /// The operation that acquired the lower lock; or, if it is another program's, one that names it.
    pub(crate) names: Place,
}

/// For each two locks why one must rank above the other, if it must.
#[derive(Drop)]
pub(crate) struct Orders {
    // Those of the lower lock 0 come first.
    causes: List<Option<Cause>>,
}

// How many causes there may be.
const ALL: usize = 1_024;

// Where the cause of two locks stands.
fn place_of(lower: u32, upper: u32) -> usize {
    lower as usize * MAX_RANKS as usize + upper as usize
}

impl Orders {
    /// The orders that the programs of a setup ask.
    ///
    /// # Errors
    ///
    /// There is not enough memory.
    pub(crate) fn of(alloc: Global, setup: &Setup) -> Result<Orders, Memory>
        requires { IsLawfulSetup setup.now }
    {
        let mut orders = Orders {
            causes: List::filled(alloc, None, ALL)?,
        };
        let cpus = setup.topology.sockets.len() as u32;
        for cpu in 0..cpus {
            let programs = programs_of(setup, cpu);
            for number in 0..programs {
                orders.note_nested(setup, cpu, number);
                orders.note_interrupted(setup, cpu, number);
            }
        }
        Ok(orders)
    }

    /// Why the upper lock must rank above the lower one, if it must.
    pub(crate) fn cause(&self, lower: u32, upper: u32) -> Option<Cause> {
        let at = place_of(lower, upper);
        if at < self.causes.len() {
            *self.causes.get(at)
        } else {
            None
        }
    }

    // Keeps why the upper lock must rank above the lower one, if nothing is known of it.
    fn note(&mut self, lower: u32, upper: u32, cause: Cause) {
        let at = place_of(lower, upper);
        if at < self.causes.len() && self.causes.get(at).is_none() {
            *self.causes.get_mut(at) = Some(cause);
        }
    }

    // Notes what a program asks that waits for locks while it holds this one.
    fn note_while_held(&mut self, cpu: u32, program: u32, ops: &List<Op>, lock: u32)
        requires { length ops.now.items ≤ 64 }
    {
        let mut is_held = false;
        let mut names = None;
        for at in 0..ops.len() {
            let op = *ops.get(at);
            let here = Place {
                program,
                at: at as u32,
                verb: op.verb,
            };
            if let Some(names) = names {
                if is_held && waits_for(op.verb) {
                    let waits = here;
                    self.note(lock, op.lock, Cause { cpu, waits, names });
                }
            }
            is_held = held_behind(op, lock, is_held);
            if op.lock == lock {
                names = Some(here);
            }
        }
    }

    // Notes what a program asks that waits for locks while it holds others.
    fn note_nested(&mut self, setup: &Setup, cpu: u32, number: u32)
        requires lawful { IsLawfulSetup setup.now }
        requires programs { HasPrograms setup.now cpu }
        requires number { number ≤ handlers_of setup.now cpu }
    {
        let ops = setup.program(cpu, number);
        let locks = setup.locks.len() as u32;
        for lock in 0..locks {
            self.note_while_held(cpu, number, ops, lock);
        }
    }

    // Notes what an operation of a handler asks that waits, of the locks that a program names which the
    // handler may interrupt.
    fn note_above(&mut self, cpu: u32, waits: Place, op: Op, ops: &List<Op>, program: u32)
        requires { length ops.now.items ≤ 64 }
    {
        let exempt = is_exempt(op, ops);
        for at in 0..ops.len() {
            let other = *ops.get(at);
            if !(exempt && other.lock == op.lock) {
                let names = Place {
                    program,
                    at: at as u32,
                    verb: other.verb,
                };
                self.note(other.lock, op.lock, Cause { cpu, waits, names });
            }
        }
    }

    // Notes what a handler asks of the programs that it may interrupt.
    fn note_interrupted(&mut self, setup: &Setup, cpu: u32, number: u32)
        requires lawful { IsLawfulSetup setup.now }
        requires programs { HasPrograms setup.now cpu }
        requires number { number ≤ handlers_of setup.now cpu }
    {
        let handler = setup.program(cpu, number);
        for program in 0..number {
            let ops = setup.program(cpu, program);
            for at in 0..handler.len() {
                let op = *handler.get(at);
                if waits_for(op.verb) {
                    let waits = Place {
                        program: number,
                        at: at as u32,
                        verb: op.verb,
                    };
                    self.note_above(cpu, waits, op, ops, program);
                }
            }
        }
    }

    // Whether each lock above which this one must rank has a rank below this one.
    fn is_ready(&self, ranks: &[u32], lock: u32, rank: u32) -> bool {
        for lower in 0..MAX_RANKS {
            if self.cause(lower, lock).is_some() && rank_of(ranks, lower) >= rank {
                return false;
            }
        }
        true
    }

    /// The lowest rank of each lock that the orders allow. The rank of a lock is `MAX_RANKS` if none is
    /// allowed: the lock is in a cycle, or above one.
    ///
    /// # Errors
    ///
    /// There is not enough memory.
    pub(crate) fn ranks(&self, alloc: Global, locks: usize) -> Result<List<u32>, Memory> {
        let mut ranks = List::filled(alloc, MAX_RANKS, locks)?;
        for rank in 0..MAX_RANKS {
            for lock in 0..MAX_RANKS {
                let at = lock as usize;
                if at < ranks.len()
                    && *ranks.get(at) == MAX_RANKS
                    && self.is_ready(ranks.as_slice(), lock, rank)
                {
                    *ranks.get_mut(at) = rank;
                }
            }
        }
        Ok(ranks)
    }

    // A lock without a rank above which this one must rank: itself, if there is that choice.
    fn lower_of(&self, ranks: &[u32], lock: u32) -> Option<u32> {
        if self.cause(lock, lock).is_some() {
            return Some(lock);
        }
        for lower in 0..MAX_RANKS {
            if self.cause(lower, lock).is_some() && rank_of(ranks, lower) == MAX_RANKS {
                return Some(lower);
            }
        }
        None
    }

    /// A lock that is in a cycle, if a lock has no rank. From any lock without a rank, `below` leads into
    /// a cycle.
    pub(crate) fn in_cycle(&self, ranks: &[u32]) -> Option<u32> {
        let mut lock = first_unranked(ranks)?;
        for _step in 0..MAX_RANKS {
            lock = self.lower_of(ranks, lock)?;
        }
        Some(lock)
    }

    /// The next lock of a cycle, above which this one must rank, and why.
    pub(crate) fn below(&self, ranks: &[u32], lock: u32) -> Option<(u32, Cause)> {
        let lower = self.lower_of(ranks, lock)?;
        let cause = self.cause(lower, lock)?;
        Some((lower, cause))
    }
}

// The first lock without a rank.
fn first_unranked(ranks: &[u32]) -> Option<u32> {
    for lock in 0..MAX_RANKS {
        if rank_of(ranks, lock) == MAX_RANKS {
            return Some(lock);
        }
    }
    None
}
