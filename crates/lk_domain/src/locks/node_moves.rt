//! The steps of a seat on the words of nodes, each one operation.
ghost use Rattle.std.specs.Prelude.{◌≡◌, ◌≢◌, ◌<◌, true};
ghost use Rattle.lk_domain.specs.NodePlays.{AtPrev, AtEntry, AtBare, InCall};
ghost use Rattle.lk_domain.specs.NodePlays.{AtAppend, AtCut, AtTail, AtNewTail, Relinks, Names};
ghost use Rattle.lk_domain.specs.NodePlays.{AtSkipped, AtOwnRuns, AtRuns, IsFlagNode, Counted, Tells, SeesTail};
ghost use Rattle.lk_domain.specs.NodePlays.{Enters, Links, Hands, readied_by, SeesFlag, SeesLink};
ghost use Rattle.lk_domain.specs.NodeUses.{HandsTo, LooksBehind, LooksFlag};
ghost use Rattle.lk_domain.specs.Plans.{locks_of};
ghost use Rattle.lk_domain.specs.Seated.{IsTableOf};
ghost use Rattle.lk_domain.specs.Views.{IsNumbered};
ghost use Rattle.lk_domain.specs.Words.{IsNode, part_index, is_last, has_part};
ghost use Rattle.lk_domain.specs.declared.part.Part.TheVariants as part_is;

use crate::cpu::Right;
use crate::domain::Domain;
use crate::ledger::steps::Words;
use crate::part::{Link, Part};
use crate::plan::Plan;
use crate::rule::{
    Counts, Entries, FlagLooks, Handovers, LinkLooks, Linkings, Namings, Relinkings, Resets,
    RunsLooks, TailLooks,
};
use lk_names::LockName;
use lk_rows::Flag;
use lk_word::NodeName;

/// Resets a word of the node to come. Nobody uses the node: no tail, no link and no other call of
/// the processor names it.
pub fn reset(seat: &mut Right, table: &Words, plan: &Plan, own: NodeName, part: Part)
    requires table { IsTableOf plan.now table.now.shared.table_id table.now.shared.key }
    requires seat { seat.old.table_id ≡ table.now.shared.table_id }
    requires number { IsNumbered seat.old.me.0 }
    requires own { IsNode plan.now own }
    requires row { InCall (AtEntry own) seat.old.me.0 }
    requires ready { part ≢ part_is.Flag → seat.old.me.0.calls.ready ≡ part_index part }
    requires plan { seat.old.me.0.who.plan ≡ plan.now }
    ensures same { (seat.new.table_id ≡ seat.old.table_id) × (seat.new.id ≡ seat.old.id) }
    ensures step { seat.new.me ≡ (readied_by part seat.old.me.0, seat.old.me.1) }
{
    let word = plan.node_of(own, part);
    table.shared.swap::<Resets>(seat, word, 0);
}

// Resets the last word of the node to come, whose other words are reset, and takes the node.
pub(crate) fn enter(seat: &mut Right, domain: &Domain, own: NodeName, part: Part)
    requires table { seat.old.table_id ≡ domain.now.table.shared.table_id }
    requires number { IsNumbered seat.old.me.0 }
    requires own { IsNode domain.now.plan own }
    requires row { InCall (AtEntry own) seat.old.me.0 }
    requires last { is_last domain.now.plan.mode part ≡ true }
    requires part { has_part domain.now.plan.mode part ≡ true }
    requires ready { seat.old.me.0.calls.ready ≡ part_index part }
    ensures same { (seat.new.table_id ≡ seat.old.table_id) × (seat.new.id ≡ seat.old.id) }
    ensures step { Enters seat.old.me 0 seat.new.me }
{
    let word = domain.plan.node_of(own, part);
    domain.table.shared.swap::<Entries>(seat, word, 0);
}

// Enters without a node, where four calls of the processor have theirs, by a look at the word of
// the lock.
pub(crate) fn enter_bare(seat: &mut Right, domain: &Domain, lock: LockName)
    requires table { seat.old.table_id ≡ domain.now.table.shared.table_id }
    requires number { IsNumbered seat.old.me.0 }
    requires lock { lock.index < locks_of domain.now.plan }
    requires row { InCall (AtBare lock) seat.old.me.0 }
    ensures same { (seat.new.table_id ≡ seat.old.table_id) × (seat.new.id ≡ seat.old.id) }
    ensures step { Enters seat.old.me 0 seat.new.me }
{
    let word = domain.plan.word_of(lock);
    domain.table.shared.load::<Entries>(seat, word);
}

/// Links the own node behind the predecessor's, whose link is none, which is the row G5: only the call
/// that met that node as the tail stores there. The mark is that of the call's context. Returns the
/// number of the link before the step.
pub fn link(seat: &mut Right, table: &Words, plan: &Plan, prev: NodeName, own: Link) -> u64
    requires table { IsTableOf plan.now table.now.shared.table_id table.now.shared.key }
    requires seat { seat.old.table_id ≡ table.now.shared.table_id }
    requires number { IsNumbered seat.old.me.0 }
    requires prev { IsNode plan.now prev }
    requires own { IsNode plan.now own.node }
    requires row { InCall (AtPrev prev own.node own.mark) seat.old.me.0 }
    ensures same { (seat.new.table_id ≡ seat.old.table_id) × (seat.new.id ≡ seat.old.id) }
    ensures step { Links seat.old.me result seat.new.me }
{
    let word = plan.node_of(prev, Part::Next);
    let name = plan.link_of(own);
    let met = table.shared.swap::<Linkings>(seat, word, name);
    met
}

/// Reads the flag of the own node, on which the call waits: the row G6, or W1 and W4 where the processor
/// may halt. Returns its number.
pub fn look_flag(seat: &mut Right, table: &Words, plan: &Plan, own: NodeName) -> u64
    requires table { IsTableOf plan.now table.now.shared.table_id table.now.shared.key }
    requires seat { seat.old.table_id ≡ table.now.shared.table_id }
    requires number { IsNumbered seat.old.me.0 }
    requires own { IsNode plan.now own }
    requires row { InCall (LooksFlag plan.now own) seat.old.me.0 }
    ensures same { (seat.new.table_id ≡ seat.old.table_id) × (seat.new.id ≡ seat.old.id) }
    ensures step { SeesFlag seat.old.me result seat.new.me }
{
    let word = plan.node_of(own, Part::Flag);
    let met = table.shared.load::<FlagLooks>(seat, word);
    met
}

/// Reads the link of the own node: the rows G10 and C1, or E14 where processors halt. Returns its number.
pub fn look_next(seat: &mut Right, table: &Words, plan: &Plan, own: NodeName) -> u64
    requires table { IsTableOf plan.now table.now.shared.table_id table.now.shared.key }
    requires seat { seat.old.table_id ≡ table.now.shared.table_id }
    requires number { IsNumbered seat.old.me.0 }
    requires own { IsNode plan.now own }
    requires row { InCall (LooksBehind own) seat.old.me.0 }
    ensures same { (seat.new.table_id ≡ seat.old.table_id) × (seat.new.id ≡ seat.old.id) }
    ensures step { SeesLink seat.old.me result seat.new.me }
{
    let word = plan.node_of(own, Part::Next);
    let met = table.shared.load::<LinkLooks>(seat, word);
    met
}

/// Hands off, to a call that waits on its flag: the rows G11 and C8, or E15 where processors halt. The
/// flag is unset: only the queue head stores there. Returns the number of the flag before the step.
pub fn hand(seat: &mut Right, table: &Words, plan: &Plan, to: NodeName, flag: Flag) -> u64
    requires table { IsTableOf plan.now table.now.shared.table_id table.now.shared.key }
    requires seat { seat.old.table_id ≡ table.now.shared.table_id }
    requires number { IsNumbered seat.old.me.0 }
    requires to { IsNode plan.now to }
    requires flag { IsFlagNode plan.now flag }
    requires row { InCall (HandsTo to flag) seat.old.me.0 }
    ensures same { (seat.new.table_id ≡ seat.old.table_id) × (seat.new.id ≡ seat.old.id) }
    ensures step { Hands seat.old.me result seat.new.me }
{
    let word = plan.node_of(to, Part::Flag);
    let told = plan.flag_of(flag);
    let met = table.shared.swap::<Handovers>(seat, word, told);
    met
}

// Cuts the link of the last waiter that was passed over.
pub(crate) fn cut(seat: &mut Right, domain: &Domain, node: NodeName) -> u64
    requires table { seat.old.table_id ≡ domain.now.table.shared.table_id }
    requires number { IsNumbered seat.old.me.0 }
    requires node { IsNode domain.now.plan node }
    requires row { InCall (AtCut node) seat.old.me.0 }
    ensures same { (seat.new.table_id ≡ seat.old.table_id) × (seat.new.id ≡ seat.old.id) }
    ensures step { Relinks seat.old.me result seat.new.me }
{
    let word = domain.plan.node_of(node, Part::Next);
    let met = domain.table.shared.swap::<Relinkings>(seat, word, 0);
    met
}

// Links a node behind the last of the secondary queue. The mark is that of the link in which the
// call met the node.
pub(crate) fn append(seat: &mut Right, domain: &Domain, node: NodeName, next: Link) -> u64
    requires table { seat.old.table_id ≡ domain.now.table.shared.table_id }
    requires number { IsNumbered seat.old.me.0 }
    requires node { IsNode domain.now.plan node }
    requires next { IsNode domain.now.plan next.node }
    requires row { InCall (AtAppend node next.node next.mark) seat.old.me.0 }
    ensures same { (seat.new.table_id ≡ seat.old.table_id) × (seat.new.id ≡ seat.old.id) }
    ensures step { Relinks seat.old.me result seat.new.me }
{
    let word = domain.plan.node_of(node, Part::Next);
    let name = domain.plan.link_of(next);
    let met = domain.table.shared.swap::<Relinkings>(seat, word, name);
    met
}

// Stores the last node of the secondary queue into the first one.
pub(crate) fn set_tail(seat: &mut Right, domain: &Domain, node: NodeName, tail: NodeName) -> u64
    requires table { seat.old.table_id ≡ domain.now.table.shared.table_id }
    requires number { IsNumbered seat.old.me.0 }
    requires node { IsNode domain.now.plan node }
    requires tail { IsNode domain.now.plan tail }
    requires row { InCall (AtNewTail node tail) seat.old.me.0 }
    ensures same { (seat.new.table_id ≡ seat.old.table_id) × (seat.new.id ≡ seat.old.id) }
    ensures step { Names seat.old.me result seat.new.me }
{
    let word = domain.plan.node_of(node, Part::SecondTail);
    let name = domain.plan.name_of(tail);
    let met = domain.table.shared.swap::<Namings>(seat, word, name);
    met
}

// Reads which node is the last of the secondary queue, in the first one.
pub(crate) fn look_tail(seat: &mut Right, domain: &Domain, node: NodeName) -> u64
    requires table { seat.old.table_id ≡ domain.now.table.shared.table_id }
    requires number { IsNumbered seat.old.me.0 }
    requires node { IsNode domain.now.plan node }
    requires row { InCall (AtTail node) seat.old.me.0 }
    ensures same { (seat.new.table_id ≡ seat.old.table_id) × (seat.new.id ≡ seat.old.id) }
    ensures step { SeesTail seat.old.me result seat.new.me }
{
    let word = domain.plan.node_of(node, Part::SecondTail);
    let met = domain.table.shared.load::<TailLooks>(seat, word);
    met
}

// Reads the link of the last waiter that was passed over.
pub(crate) fn look_on(seat: &mut Right, domain: &Domain, node: NodeName) -> u64
    requires table { seat.old.table_id ≡ domain.now.table.shared.table_id }
    requires number { IsNumbered seat.old.me.0 }
    requires node { IsNode domain.now.plan node }
    requires row { InCall (AtSkipped node) seat.old.me.0 }
    ensures same { (seat.new.table_id ≡ seat.old.table_id) × (seat.new.id ≡ seat.old.id) }
    ensures step { SeesLink seat.old.me result seat.new.me }
{
    let word = domain.plan.node_of(node, Part::Next);
    let met = domain.table.shared.load::<LinkLooks>(seat, word);
    met
}

// Reads the count of handoffs in the own node, where only the queue head before stored.
pub(crate) fn look_runs(seat: &mut Right, domain: &Domain, own: NodeName) -> u64
    requires table { seat.old.table_id ≡ domain.now.table.shared.table_id }
    requires number { IsNumbered seat.old.me.0 }
    requires own { IsNode domain.now.plan own }
    requires row { InCall (AtOwnRuns own) seat.old.me.0 }
    ensures same { (seat.new.table_id ≡ seat.old.table_id) × (seat.new.id ≡ seat.old.id) }
    ensures step { Counted seat.old.me result seat.new.me }
{
    let word = domain.plan.node_of(own, Part::Runs);
    let met = domain.table.shared.load::<RunsLooks>(seat, word);
    met
}

// Stores the count of handoffs into the successor's node.
pub(crate) fn set_runs(seat: &mut Right, domain: &Domain, to: NodeName, runs: u32) -> u64
    requires table { seat.old.table_id ≡ domain.now.table.shared.table_id }
    requires number { IsNumbered seat.old.me.0 }
    requires to { IsNode domain.now.plan to }
    requires row { InCall (AtRuns to runs) seat.old.me.0 }
    ensures same { (seat.new.table_id ≡ seat.old.table_id) × (seat.new.id ≡ seat.old.id) }
    ensures step { Tells seat.old.me result seat.new.me }
{
    let word = domain.plan.node_of(to, Part::Runs);
    let met = domain.table.shared.swap::<Counts>(seat, word, runs as u64);
    met
}
