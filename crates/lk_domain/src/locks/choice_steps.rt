// The steps by which a queue head of mode `cna` chooses its successor and keeps the secondary
// queue, on the words of nodes. They are steps of the newest call of a processor.
ghost use Rattle.std.specs.Prelude.{◌≡◌, ◌<◌, None, IfSome};
ghost use Rattle.lk_law.specs.Leads.{Number};
ghost use Rattle.lk_domain.specs.NodePlays.{AtAppend, AtCut, AtSecondTail, AtSkipped, AtOwnRuns};
ghost use Rattle.lk_domain.specs.NodePlays.{AtRuns, AtPromotion, InCall};
ghost use Rattle.lk_domain.specs.NodeSeats.{LinkMet, NameMet, LinkSeen, TailSeen, RunsSeen, Went};
ghost use Rattle.lk_domain.specs.Plans.{locks_of};
ghost use Rattle.lk_domain.specs.Seats.{IsOf, KeepsRest, MadeFrom, view_of};
ghost use Rattle.lk_domain.specs.Words.{IsNode};

use super::{moves, node_moves};
use crate::cpu::Cpu;
use crate::domain::Domain;
use crate::part::Link;
use lk_names::LockName;
use lk_rows::Verb;
use lk_word::NodeName;

/// Cuts the link of the last node that the newest call has passed over, which is the row C5.
/// Returns the number of the link before the step.
pub fn cut(cpu: &mut Cpu, domain: &Domain, verb: Verb, node: NodeName) -> u64
    requires domain { IsOf cpu.old domain.now }
    requires node { IsNode domain.now.plan node }
    requires row { AtCut node verb (view_of cpu.old) }
    ensures rest { KeepsRest cpu.old cpu.new }
    ensures met { LinkMet cpu.old result cpu.new }
{
    node_moves::cut(&mut cpu.seat, domain, node)
}

/// Links the node `next` behind the last node of the secondary queue, which is the row C4 or C9.
/// `next` is the first node that the newest call has passed over (C4), or the first of the rest of
/// the queue (C9), with the mark of the link in which the call met it. Returns the number of the
/// link before the step.
pub fn append(cpu: &mut Cpu, domain: &Domain, verb: Verb, node: NodeName, next: Link) -> u64
    requires domain { IsOf cpu.old domain.now }
    requires node { IsNode domain.now.plan node }
    requires next { IsNode domain.now.plan next.node }
    requires row { AtAppend node next.node next.mark verb (view_of cpu.old) }
    ensures rest { KeepsRest cpu.old cpu.new }
    ensures met { LinkMet cpu.old result cpu.new }
{
    node_moves::append(&mut cpu.seat, domain, node, next)
}

/// Reads or stores the last node of the secondary queue, which stands in the first. If `store` is
/// none, the call reads it, which is the row C3. Else it stores the last node that it has passed
/// over, which is the row C6. Returns the number that stood there before the step.
pub fn second_tail(
    cpu: &mut Cpu,
    domain: &Domain,
    verb: Verb,
    node: NodeName,
    store: Option<NodeName>,
) -> u64
    requires domain { IsOf cpu.old domain.now }
    requires node { IsNode domain.now.plan node }
    requires tail { IfSome store (IsNode domain.now.plan) }
    requires row { AtSecondTail node store verb (view_of cpu.old) }
    ensures rest { KeepsRest cpu.old cpu.new }
    ensures seen { store ≡ None → TailSeen cpu.old result cpu.new }
    ensures met { IfSome store (λ _. NameMet cpu.old result cpu.new) }
{
    match store {
        None => node_moves::look_tail(&mut cpu.seat, domain, node),
        Some(tail) => node_moves::set_tail(&mut cpu.seat, domain, node, tail),
    }
}

/// Reads the link of the last node that the newest call has passed over, and returns its number.
/// This is the row C2.
pub fn look_next(cpu: &mut Cpu, domain: &Domain, verb: Verb, node: NodeName) -> u64
    requires domain { IsOf cpu.old domain.now }
    requires node { IsNode domain.now.plan node }
    requires row { AtSkipped node verb (view_of cpu.old) }
    ensures rest { KeepsRest cpu.old cpu.new }
    ensures seen { LinkSeen cpu.old result cpu.new }
{
    node_moves::look_on(&mut cpu.seat, domain, node)
}

/// Reads the count of handoffs in the own node of the newest call, and returns it. This is no row
/// of its own: the rows C1 and C7 use the count.
pub fn own_runs(cpu: &mut Cpu, domain: &Domain, verb: Verb, own: NodeName) -> u64
    requires domain { IsOf cpu.old domain.now }
    requires own { IsNode domain.now.plan own }
    requires row { AtOwnRuns own verb (view_of cpu.old) }
    ensures rest { KeepsRest cpu.old cpu.new }
    ensures seen { RunsSeen cpu.old result cpu.new }
{
    node_moves::look_runs(&mut cpu.seat, domain, own)
}

/// Stores the count of handoffs into the node of the successor, which is the row C7. The count is
/// 0 if the secondary queue is empty, and else one more than that of the own node. Returns the
/// number that stood there before the step.
pub fn store_runs(cpu: &mut Cpu, domain: &Domain, verb: Verb, node: NodeName, runs: u32) -> u64
    requires domain { IsOf cpu.old domain.now }
    requires node { IsNode domain.now.plan node }
    requires row { AtRuns node runs verb (view_of cpu.old) }
    ensures rest { KeepsRest cpu.old cpu.new }
    ensures row { Went (Number result) cpu.old cpu.new }
{
    node_moves::set_runs(&mut cpu.seat, domain, node, runs)
}

/// Swaps the tail from the own node to `tail`, the last node of the secondary queue, which is the
/// row C10. If the own node was the last of the main queue, the secondary queue is then the rest
/// of it. Returns the word before the step.
pub fn tail_to_second(
    cpu: &mut Cpu,
    domain: &Domain,
    lock: LockName,
    own: NodeName,
    tail: NodeName,
) -> u64
    requires domain { IsOf cpu.old domain.now }
    requires lock { lock.index < locks_of domain.now.plan }
    requires own { IsNode domain.now.plan own }
    requires tail { IsNode domain.now.plan tail }
    requires row { InCall (AtPromotion lock own tail) (view_of cpu.old) }
    ensures rest { KeepsRest cpu.old cpu.new }
    ensures step { MadeFrom (AtPromotion lock own tail) lock.index cpu.old result cpu.new }
{
    moves::tail_to_second(&mut cpu.seat, domain, lock, own, tail)
}
