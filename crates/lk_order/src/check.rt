// Whether ranks are in order, which is all that the theorems ask of the programs.

ghost use Rattle.std.specs.Prelude.{◌≡◌, ◌⊎◌, ◌+◌, ◌<◌, ◌≤◌, ℕ, Option, None, is_some, true, length, slice_get};
ghost use Rattle.lk_names.specs.declared.holder.Manner.{Manner};
ghost use Rattle.lk_rows.specs.declared.setup.Verb.TheVariants.{Read};
ghost use Rattle.lk_rows.specs.Programs.{HasPrograms, IsLawfulSetup, handlers_of, op_way, program_at, way_after};
ghost use Rattle.lk_progress.specs.Ordered.{IsOrdered, only_reads, waits_for};
ghost use Rattle.lk_progress.specs.Runs.{HasRoom};
ghost use Rattle.lk_order.specs.Checked.{rank_in, Nests, ReadsOnly, RanksAbove, IsAbove, AllAbove, ProgramNests, ProgramAbove, IsInOrder};

use lk_names::{List, Mode};
use lk_rows::{Op, Setup, Verb};

/// A rank is below this bound, which is the most locks of a setup.
pub(crate) const MAX_RANKS: u32 = 32;

/// The rank of a lock: 0 if it has none.
pub(crate) fn rank_of(ranks: &[u32], lock: u32) -> u32
    ensures { result ≡ rank_in ranks.now lock }
{
    match ranks.get(lock as usize) {
        Some(rank) => *rank,
        None => 0,
    }
}

/// Whether the verb waits for its lock. A try does not.
pub(crate) fn waits_for(verb: Verb) -> bool
    ensures { result ≡ waits_for verb }
{
    matches!(verb, Verb::Lock | Verb::Read | Verb::Write)
}

// Whether the verb is a reader's.
fn only_reads(verb: Verb) -> bool
    ensures { result ≡ only_reads verb }
{
    matches!(verb, Verb::Read | Verb::TryRead | Verb::RUnlock)
}

// Whether the lock of the verb is held behind it, if it succeeds.
fn takes(verb: Verb) -> bool
    ensures { result ≡ is_some (way_after verb) }
{
    !matches!(verb, Verb::Unlock | Verb::RUnlock | Verb::WUnlock)
}

/// Whether the program holds the lock behind an operation, where `is_held` says so before it.
pub(crate) fn held_behind(op: Op, lock: u32, is_held: bool) -> bool
    ensures { (way : Option Manner) → is_held ≡ is_some way → result ≡ is_some (op_way op lock way) }
{
    if op.lock == lock {
        takes(op.verb)
    } else {
        is_held
    }
}

// Whether the operation, if it waits, is for a lock of a higher rank than the lock `below`.
fn is_higher(op: Op, below: u32, ranks: &[u32]) -> bool
    ensures { result ≡ true → waits_for op.verb ≡ true
        → rank_in ranks.now below < rank_in ranks.now op.lock }
{
    !waits_for(op.verb) || rank_of(ranks, below) < rank_of(ranks, op.lock)
}

// Whether the operation, if it waits, is for a lock of a higher rank than this one, if that is held.
fn keeps_order(op: Op, lock: u32, is_held: bool, ranks: &[u32]) -> bool
    ensures { result ≡ true → is_held ≡ true → waits_for op.verb ≡ true
        → rank_in ranks.now lock < rank_in ranks.now op.lock }
{
    !is_held || is_higher(op, lock, ranks)
}

// Whether each operation that waits while the program holds the lock is for one of a higher rank.
fn nests(ops: &List<Op>, lock: u32, ranks: &[u32]) -> bool
    ensures { result ≡ true → Nests (rank_in ranks.now) ops.now.items lock }
{
    let mut is_held = false;
    for at in 0..ops.len() {
        let op = ops.get(at);
        if !keeps_order(*op, lock, is_held, ranks) {
            return false;
        }
        is_held = held_behind(*op, lock, is_held);
    }
    true
}

// Whether the operation, if it is on this lock, is a reader's.
fn is_reader_of(op: Op, lock: u32) -> bool
    ensures { result ≡ true → op.lock ≡ lock → only_reads op.verb ≡ true }
{
    op.lock != lock || only_reads(op.verb)
}

// Whether the program uses the lock only as a reader.
fn reads_only(ops: &List<Op>, lock: u32) -> bool
    ensures { result ≡ true → ReadsOnly ops.now.items lock }
{
    for at in 0..ops.len() {
        let op = ops.get(at);
        if !is_reader_of(*op, lock) {
            return false;
        }
    }
    true
}

/// Whether an operation of a handler may wait for a lock although the program names it: both only
/// read it.
pub(crate) fn is_exempt(op: Op, ops: &List<Op>) -> bool
    ensures { result ≡ true → (op.verb ≡ Read) × ReadsOnly ops.now.items op.lock }
{
    match op.verb {
        Verb::Read => reads_only(ops, op.lock),
        _ => false,
    }
}

// Whether an operation of a handler, if it waits, is for a lock of a higher rank than that of another
// operation, or for the same lock, which both only read.
fn is_above_one(op: Op, other: Op, exempt: bool, ranks: &[u32]) -> bool
    ensures { result ≡ true → waits_for op.verb ≡ true
        → (rank_in ranks.now other.lock < rank_in ranks.now op.lock)
        ⊎ ((exempt ≡ true) × (other.lock ≡ op.lock)) }
{
    is_higher(op, other.lock, ranks) || exempt && other.lock == op.lock
}

// Whether it is so beside each operation of a program.
fn is_above(op: Op, ops: &List<Op>, ranks: &[u32]) -> bool
    ensures { result ≡ true → IsAbove (rank_in ranks.now) op ops.now.items }
{
    let exempt = is_exempt(op, ops);
    for at in 0..ops.len() {
        let other = ops.get(at);
        if !is_above_one(op, *other, exempt, ranks) {
            return false;
        }
    }
    true
}

// Whether each operation of a handler is so.
fn are_above(handler: &List<Op>, ops: &List<Op>, ranks: &[u32]) -> bool
    ensures { result ≡ true → AllAbove (rank_in ranks.now) handler.now.items ops.now.items }
{
    for at in 0..handler.len() {
        let op = handler.get(at);
        if !is_above(*op, ops, ranks) {
            return false;
        }
    }
    true
}

/// The number of a processor's programs: its task's, and those of its handlers.
#[tactic(auto, unfolding(lk_rows::specs::Programs::handlers_of))]
pub(crate) fn programs_of(setup: &Setup, cpu: u32) -> u32
    requires { HasPrograms setup.now cpu }
    ensures { result ≡ handlers_of setup.now cpu + 1 }
{
    setup.irqs.get(cpu as usize).len() as u32 + 1
}

// Whether a program nests in order.
fn program_nests(setup: &Setup, cpu: u32, number: u32, ranks: &[u32]) -> bool
    requires lawful { IsLawfulSetup setup.now }
    requires programs { HasPrograms setup.now cpu }
    requires number { number ≤ handlers_of setup.now cpu }
    ensures { result ≡ true → ProgramNests (rank_in ranks.now) setup.now cpu number }
{
    let ops = setup.program(cpu, number);
    let locks = setup.locks.len() as u32;
    for lock in 0..locks {
        if !nests(ops, lock, ranks) {
            return false;
        }
    }
    true
}

// Whether what a program waits for ranks above all that the programs name which it may interrupt.
fn program_above(setup: &Setup, cpu: u32, number: u32, ranks: &[u32]) -> bool
    requires programs { HasPrograms setup.now cpu }
    requires number { number ≤ handlers_of setup.now cpu }
    ensures { result ≡ true → ProgramAbove (rank_in ranks.now) setup.now cpu number }
{
    let handler = setup.program(cpu, number);
    for below in 0..number {
        let ops = setup.program(cpu, below);
        if !are_above(handler, ops, ranks) {
            return false;
        }
    }
    true
}

// Whether the programs of a processor are in order.
fn processor_is_ordered(setup: &Setup, cpu: u32, ranks: &[u32]) -> bool
    requires lawful { IsLawfulSetup setup.now }
    requires programs { HasPrograms setup.now cpu }
    ensures { result ≡ true → (h : ℕ) → h ≤ handlers_of setup.now cpu
        → IsInOrder (rank_in ranks.now) setup.now cpu h }
{
    let programs = programs_of(setup, cpu);
    for number in 0..programs {
        if !program_nests(setup, cpu, number, ranks) {
            return false;
        }
        if !program_above(setup, cpu, number, ranks) {
            return false;
        }
    }
    true
}

// Whether each rank is below the bound.
fn are_bounded(ranks: &[u32]) -> bool
    ensures { result ≡ true → (i : ℕ) → rank_in ranks.now i < 32 }
{
    for rank in ranks {
        if *rank >= MAX_RANKS {
            return false;
        }
    }
    true
}

/// Whether these ranks show that the setup is ordered.
pub(crate) fn check_ranks(setup: &Setup, ranks: &[u32]) -> bool
    requires { IsLawfulSetup setup.now }
    ensures { result ≡ true → IsOrdered (rank_in ranks.now) 32 setup.now }
{
    if !are_bounded(ranks) {
        return false;
    }
    let cpus = setup.topology.sockets.len() as u32;
    for cpu in 0..cpus {
        if !processor_is_ordered(setup, cpu, ranks) {
            return false;
        }
    }
    true
}

// The first processor that has more than three handlers.
fn first_crowded(setup: &Setup) -> Option<u32>
    requires { IsLawfulSetup setup.now }
    ensures { result ≡ None → (p : ℕ) → handlers_of setup.now p ≤ 3 }
{
    let cpus = setup.topology.sockets.len() as u32;
    for cpu in 0..cpus {
        let programs = programs_of(setup, cpu);
        if programs > 4 {
            return Some(cpu);
        }
    }
    None
}

/// The first processor that has more than three handlers, in a family with a queue. There the nodes
/// of a processor may not suffice.
pub(crate) fn crowded(setup: &Setup) -> Option<u32>
    requires { IsLawfulSetup setup.now }
    ensures { result ≡ None → HasRoom setup.now }
{
    match setup.mode {
        Mode::Virt => None,
        _ => first_crowded(setup),
    }
}
