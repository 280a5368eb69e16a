// From which states an act leads on: to one that is not the same but for what nobody reads.

ghost use Rattle.std.specs.Prelude.{◌≡◌, ◌<◌, ◌≤◌, OnOk, ℕ, Some, length, slice_get, true, false};
ghost use Rattle.lk_names.specs.declared.events.Act.{Act as ActValue};
ghost use Rattle.lk_reach.specs.Ends.{StaysAt};
ghost use Rattle.lk_reach.specs.Explored.{IsSuch, LeadsTo};
ghost use Rattle.lk_reach.specs.Sights.{AreGoing, LeadsOn, LeadsOnBy, MayTry};

use crate::book::Book;
use crate::deeds::cpu_of;
use crate::ends::sight::{differ, seen_of};
use crate::ends::{is_marked, mark};
use crate::making::make;
use crate::plan::Plan;
use crate::space::Space;
use lk_machine::Machine;
use lk_names::Memory;

// Whether an act led from a state to the number of another one.
fn is_edge(book: &Book, state: usize, act: usize) -> bool
    ensures { result ≡ false → (j : ℕ) → LeadsTo book.now state act j → j ≡ state }
{
    match book.then(state, act) {
        Some(then) => then as usize != state,
        None => false,
    }
}

// Whether no act led from a state to the number of another one.
fn stays(book: &Book, state: usize) -> bool
    ensures { result ≡ true → StaysAt book.now state }
{
    for act in 0..book.acts() {
        if is_edge(book, state, act) {
            return false;
        }
    }
    true
}

// Whether an act on a state changes what is seen of its processor. The machine is any of its setup
// afterwards.
fn leads_by(space: &Space, plan: &Plan, machine: &mut Machine, state: usize, number: usize) -> bool
    requires few { length machine.old.cpus ≤ 8 }
    requires such { IsSuch machine.old.setup machine.old }
    requires may { MayTry plan.now machine.old.setup space.now }
    requires there { state < length space.now.keys }
    requires act { number < length plan.now.acts.items }
    ensures other { result ≡ true → (a : ActValue) → slice_get plan.now.acts.items number ≡ Some a
        → LeadsOnBy plan.now machine.old.setup space.now state a }
    ensures such { IsSuch machine.old.setup machine.new }
{
    space.load(state, machine);
    let doing = plan.act(number);
    let cpu = cpu_of(doing);
    let before = seen_of(machine, cpu);
    let _ = make(machine, doing);
    let behind = seen_of(machine, cpu);
    differ(&behind, &before)
}

// Whether some act that led from a state to the number of another one changes what is seen of its
// processor.
fn leads_on(space: &Space, book: &Book, plan: &Plan, machine: &mut Machine, state: usize) -> bool
    requires few { length machine.old.cpus ≤ 8 }
    requires such { IsSuch machine.old.setup machine.old }
    requires may { MayTry plan.now machine.old.setup space.now }
    requires there { state < length space.now.keys }
    ensures on { result ≡ true → LeadsOn plan.now machine.old.setup space.now state }
    ensures such { IsSuch machine.old.setup machine.new }
{
    for number in 0..plan.acts().len() {
        if is_edge(book, state, number) && leads_by(space, plan, machine, state, number) {
            return true;
        }
    }
    false
}

// Whether a state is marked, or no act led from it to the number of another one.
fn is_settled(book: &Book, marks: &Vec<bool>, state: usize) -> bool
    ensures { result ≡ true → slice_get marks.now.items state ≡ Some false → StaysAt book.now state }
{
    is_marked(marks, state) || stays(book, state)
}

/// Marks each state from which an act leads on.
///
/// # Errors
///
/// An act led to the number of another state, and changed nothing that is seen of its processor.
pub(crate) fn mark_going(
    space: &Space,
    book: &Book,
    plan: &Plan,
    machine: &mut Machine,
    marks: &mut Vec<bool>,
) -> Result<(), Memory>
    requires few { length machine.old.cpus ≤ 8 }
    requires such { IsSuch machine.old.setup machine.old }
    requires may { MayTry plan.now machine.old.setup space.now }
    requires going { AreGoing plan.now machine.old.setup space.now marks.old.items }
    ensures going { OnOk result
        (AreGoing plan.now machine.old.setup space.now marks.new.items) }
    ensures stays { OnOk result ((k : ℕ) → slice_get marks.new.items k ≡ Some false
        → StaysAt book.now k) }
    ensures such { IsSuch machine.old.setup machine.new }
{
    for state in 0..space.len() {
        if is_settled(book, marks, state) {
            continue;
        }
        if !leads_on(space, book, plan, machine, state) {
            // Such an act changes what is seen of its processor, so it does not come to this. That no two
            // numbers have the same state is not claimed.
            return Err(Memory);
        }
        mark(marks, state);
    }
    Ok(())
}
