// The steps of a processor in the queue of a lock: on the word of the lock, and on the words of
// nodes, by its newest call.
ghost use Rattle.std.specs.Prelude.{◌≡◌, ◌≢◌, ◌<◌, false, true, None};
ghost use Rattle.lk_rows.specs.declared.parts.Flag.TheVariants.{Unset};
ghost use Rattle.lk_law.specs.Leads.{Number, Flagged, Named};
ghost use Rattle.lk_domain.specs.Calls.{slows};
ghost use Rattle.lk_domain.specs.NodePlays.{AtPrev, AtNext, AtEntry, AtBare, LooksAt, readied_by};
ghost use Rattle.lk_domain.specs.NodePlays.{Arrives, InCall, IsFlagNode};
ghost use Rattle.lk_domain.specs.NodeSeats.{Went, FlagSeen, LinkSeen};
ghost use Rattle.lk_domain.specs.Plans.{locks_of};
ghost use Rattle.lk_domain.specs.Plays.{ActsIn, ActsAs, IsWord};
ghost use Rattle.lk_domain.specs.Rows.{soles_by, stakes_by};
ghost use Rattle.lk_domain.specs.Seats.{IsOf, KeepsRest, Made, MadeFrom, calls_of, view_of};
ghost use Rattle.lk_domain.specs.Words.{IsNode, part_index, has_part, is_last};
ghost use Rattle.lk_domain.specs.declared.part.Part.TheVariants as part_is;

use super::moves::{Arrival, WordUse};
use super::verbs::queues_up;
use super::{moves, node_moves};
use crate::cpu::Cpu;
use crate::domain::Domain;
use crate::notes::Standing;
use crate::part::{Link, Part};
use lk_names::LockName;
use lk_rows::{Flag, Verb};
use lk_word::NodeName;

// Resets the last word of the node to come: the call enters the slow path with it.
fn enter(cpu: &mut Cpu, domain: &Domain, verb: Verb, own: NodeName, part: Part)
    requires domain { IsOf cpu.old domain.now }
    requires own { IsNode domain.now.plan own }
    requires row { AtEntry own verb (view_of cpu.old) }
    requires last { is_last domain.now.plan.mode part ≡ true }
    requires part { has_part domain.now.plan.mode part ≡ true }
    requires ready { (calls_of cpu.old).ready ≡ part_index part }
    ensures rest { KeepsRest cpu.old cpu.new }
    ensures row { Went (Number (slows (calls_of cpu.old).frames)) cpu.old cpu.new }
{
    let lock = cpu.notes.newest();
    node_moves::enter(&mut cpu.seat, domain, own, part);
    let after = Standing {
        waits: true,
        slow: true,
        taken: false,
    };
    cpu.notes.step(lock, after);
}

// Resets another word of the node to come.
fn reset_other(cpu: &mut Cpu, domain: &Domain, verb: Verb, own: NodeName, part: Part)
    requires domain { IsOf cpu.old domain.now }
    requires own { IsNode domain.now.plan own }
    requires row { AtEntry own verb (view_of cpu.old) }
    requires ready { part ≢ part_is.Flag → (calls_of cpu.old).ready ≡ part_index part }
    ensures rest { KeepsRest cpu.old cpu.new }
    ensures reset { view_of cpu.new ≡ readied_by part (view_of cpu.old) }
{
    node_moves::reset(&mut cpu.seat, &domain.table, &domain.plan, own, part);
}

/// Resets a word of the node that the newest call gets next. Nobody uses what the word held. A
/// call resets the words in the order of `Part`: all four in a domain whose queue heads move
/// waiters aside, and else the flag and the link. The reset of the last word is the row G1: from
/// then on the call has the node.
pub fn reset(cpu: &mut Cpu, domain: &Domain, verb: Verb, own: NodeName, part: Part)
    requires domain { IsOf cpu.old domain.now }
    requires own { IsNode domain.now.plan own }
    requires row { AtEntry own verb (view_of cpu.old) }
    requires part { has_part domain.now.plan.mode part ≡ true }
    requires ready { part ≢ part_is.Flag → (calls_of cpu.old).ready ≡ part_index part }
    ensures rest { KeepsRest cpu.old cpu.new }
    ensures reset { is_last domain.now.plan.mode part ≡ false
        → view_of cpu.new ≡ readied_by part (view_of cpu.old) }
    ensures row { is_last domain.now.plan.mode part ≡ true
        → Went (Number (slows (calls_of cpu.old).frames)) cpu.old cpu.new }
{
    if part.is_last(domain.mode()) {
        enter(cpu, domain, verb, own, part);
    } else {
        reset_other(cpu, domain, verb, own, part);
    }
}

/// Reads the word of a lock and uses nothing of it. This is the row G1 of a call that gets no
/// node.
pub fn enter_bare(cpu: &mut Cpu, domain: &Domain, verb: Verb, lock: LockName)
    requires domain { IsOf cpu.old domain.now }
    requires lock { lock.index < locks_of domain.now.plan }
    requires row { AtBare lock verb (view_of cpu.old) }
    ensures rest { KeepsRest cpu.old cpu.new }
    ensures row { Went (Number (slows (calls_of cpu.old).frames)) cpu.old cpu.new }
{
    node_moves::enter_bare(&mut cpu.seat, domain, lock);
    let after = Standing {
        waits: true,
        slow: true,
        taken: false,
    };
    cpu.notes.step(lock.index, after);
}

/// Links the own node of the newest call behind its predecessor, which is the row G5. The mark of
/// the link says whether the call is in an interrupt. Returns the number of the link before the
/// step, which is that of no node.
pub fn link(cpu: &mut Cpu, domain: &Domain, verb: Verb, prev: NodeName, own: Link) -> u64
    requires domain { IsOf cpu.old domain.now }
    requires prev { IsNode domain.now.plan prev }
    requires own { IsNode domain.now.plan own.node }
    requires row { AtPrev prev own.node own.mark verb (view_of cpu.old) }
    ensures rest { KeepsRest cpu.old cpu.new }
    ensures met { result ≡ 0 }
    ensures row { Went (Named None) cpu.old cpu.new }
{
    node_moves::link(&mut cpu.seat, &domain.table, &domain.plan, prev, own)
}

/// Reads the flag or the link of the own node of the newest call, which is the row G6, G10 or C1.
/// Returns its number; that of a link has the mark. Before C1 the call has read the count of
/// handoffs in its node.
pub fn look_own(cpu: &mut Cpu, domain: &Domain, verb: Verb, own: NodeName, part: Part) -> u64
    requires domain { IsOf cpu.old domain.now }
    requires own { IsNode domain.now.plan own }
    requires row { LooksAt part own verb (view_of cpu.old) }
    ensures rest { KeepsRest cpu.old cpu.new }
    ensures flag { part ≡ part_is.Flag → FlagSeen cpu.old result cpu.new }
    ensures next { part ≡ part_is.Next → LinkSeen cpu.old result cpu.new }
{
    match part {
        Part::Flag => node_moves::look_flag(&mut cpu.seat, &domain.table, &domain.plan, own),
        Part::Next => node_moves::look_next(&mut cpu.seat, &domain.table, &domain.plan, own),
        Part::SecondTail | Part::Runs => unreachable!(),
    }
}

/// Hands off to the waiter of the node `to`. With this step the newest call has its lock, or its
/// wait lock. In mode `native` it is the row G11, and the flag is `Go`. In mode `cna` it is the
/// row C8, and the flag names the first node of the secondary queue, or is `Go` if that queue is
/// empty. Returns the number of the flag before the step, which is that of an unset one.
pub fn hand(cpu: &mut Cpu, domain: &Domain, verb: Verb, to: NodeName, flag: Flag) -> u64
    requires domain { IsOf cpu.old domain.now }
    requires to { IsNode domain.now.plan to }
    requires flag { IsFlagNode domain.now.plan flag }
    requires row { AtNext to flag verb (view_of cpu.old) }
    ensures rest { KeepsRest cpu.old cpu.new }
    ensures met { result ≡ 0 }
    ensures row { Went (Flagged Unset) cpu.old cpu.new }
{
    let lock = cpu.notes.newest();
    let met = node_moves::hand(&mut cpu.seat, &domain.table, &domain.plan, to, flag);
    let goes_on = queues_up(verb);
    let after = Standing {
        waits: goes_on,
        slow: false,
        taken: !goes_on,
    };
    cpu.notes.step(lock, after);
    met
}

/// Swaps the word of a lock from `met` to the same word with the own node as its tail. Returns the
/// word before the step. If that is `met`, this is the row G4. Else nothing has changed, and the
/// call tries again.
pub fn exchange_tail(cpu: &mut Cpu, domain: &Domain, lock: LockName, met: u64, own: NodeName) -> u64
    requires domain { IsOf cpu.old domain.now }
    requires lock { lock.index < locks_of domain.now.plan }
    requires own { IsNode domain.now.plan own }
    requires row { InCall (Arrives lock own) (view_of cpu.old) }
    ensures rest { KeepsRest cpu.old cpu.new }
    ensures step { result ≡ met → MadeFrom (Arrives lock own) lock.index cpu.old result cpu.new }
    ensures stands { result ≢ met → view_of cpu.new ≡ view_of cpu.old }
    ensures word { IsWord domain.now.plan result }
{
    let arrival = Arrival { expected: met, own };
    moves::exchange_tail(&mut cpu.seat, &domain.table, &domain.plan, lock, arrival)
}

/// Swaps the word of a lock from free, with the own node alone in its queue, to held without a
/// queue. This is the row G8. Returns the word before the step.
pub fn sole_claim(cpu: &mut Cpu, domain: &Domain, verb: Verb, lock: LockName, own: NodeName) -> u64
    requires domain { IsOf cpu.old domain.now }
    requires lock { lock.index < locks_of domain.now.plan }
    requires own { IsNode domain.now.plan own }
    requires row { ActsAs (soles_by verb) (view_of cpu.old) verb lock own }
    ensures rest { KeepsRest cpu.old cpu.new }
    ensures step { Made verb lock.index cpu.old result cpu.new }
{
    let alone = domain.plan.tail_of(own);
    let met = moves::sole_claim(&mut cpu.seat, domain, lock, own);
    let goes_on = queues_up(verb);
    let takes = met == alone;
    let after = Standing {
        waits: goes_on | !takes,
        slow: !takes,
        taken: !goes_on & takes,
    };
    cpu.notes.step(lock.index, after);
    met
}

/// Acquires the free lock as the queue head, and leaves the queue in the word. This is the row G9.
/// Returns the word before the step.
pub fn set_locked(cpu: &mut Cpu, domain: &Domain, verb: Verb, lock: LockName) -> u64
    requires domain { IsOf cpu.old domain.now }
    requires lock { lock.index < locks_of domain.now.plan }
    requires row { ActsIn (stakes_by verb) (view_of cpu.old) verb lock }
    ensures rest { KeepsRest cpu.old cpu.new }
    ensures step { Made verb lock.index cpu.old result cpu.new }
{
    moves::go_on(
        &mut cpu.seat,
        &domain.table,
        &domain.plan,
        lock,
        WordUse::Stakes,
    )
}
