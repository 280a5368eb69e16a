// The exploration.

ghost use Rattle.std.specs.Prelude.{◌≡◌, ◌<◌, ◌≤◌, ◌+◌, ℕ, List, IfOk, OnOk, Some, length, slice_get, true, false};
ghost use Rattle.lk_names.specs.declared.events.Act.{Act as ActValue};
ghost use Rattle.lk_rows.specs.Acts.{next};
ghost use Rattle.lk_rows.specs.Machine.{Machine as MachineValue};
ghost use Rattle.lk_reach.specs.Reach.{AreMoves, IsBegun, IsMove, IsReached, after, state_after};
ghost use Rattle.lk_reach.specs.Folded.{IsHere, IsNoted};
ghost use Rattle.lk_reach.specs.Helped.{AreFresh, AreHelpers, IsSettled, MaySettle};
ghost use Rattle.lk_reach.specs.Space.{Folds, Keeps};
ghost use Rattle.lk_reach.specs.Steps.{AreMade};
ghost use Rattle.lk_reach.specs.Explored.{AreColumns, IsExplored, IsGood, IsNew, IsStart, IsSuch, KnowsLike, OnlyMoves};
ghost use Rattle.lk_reach.specs.Told.{IsGraph, IsWhole};

mod anew;

use crate::book::{Book, Seen};
use crate::crew::Crew;
use crate::exploring::anew::make_anew;
use crate::folding::{Here, fold, here_at};
use crate::found::Then;
use crate::graph::Graph;
use crate::helpers::Helpers;
use crate::making::make;
use crate::plan::Plan;
use crate::space::Space;
use crate::spot::remembered;
use crate::table::MOST;
use lk_core::{acts_change_little, runs_keep};
use lk_machine::Machine;
use lk_names::{Act, Event, Memory};
use std::alloc::Global;
use std::thread::Threads;

/// Who watches an exploration, and may end it.
pub trait Watch {
    /// Whether the exploration goes on. It is asked before each state is left.
    fn goes_on(&mut self, seen: Seen) -> bool;
}

// Makes an act on the state that is left, where states are folded. Returns the number of a state that
// stands for the one after it, and the event.
#[inline(never)]
fn visit_folded(
    space: &mut Space,
    machine: &mut Machine,
    plan: &Plan,
    here: &Here,
    doing: Act,
) -> Result<(u32, Option<Event>), Memory>
    requires few { length machine.old.cpus ≤ 8 }
    requires such { IsSuch machine.old.setup machine.old }
    requires here { IsHere plan.now machine.old.setup space.old here.now }
    requires folds { plan.now.folds ≡ true }
    requires moves { IsMove plan.now.extras machine.old.setup doing }
    ensures noted { IfOk result (λ found. (s : MachineValue) → Keeps space.old here.now.spot.state s
        → IsReached plan.now machine.old.setup s
        → IsNoted plan.now machine.old.setup space.old space.new here.now.spot.state
        (after s doing) found.0) }
    ensures told { IfOk result (λ found. (s : MachineValue) → Keeps space.old here.now.spot.state s
        → IsReached plan.now machine.old.setup s → found.1 ≡ (next s doing).1) }
    ensures such { OnOk result (IsSuch machine.old.setup machine.new) }
{
    space.load(here.spot.state, machine);
    let event = make(machine, doing);
    let number = fold(space, machine, plan, here, doing)?;
    Ok((number, event))
}

// Where an act leads from the state that is left, where no states are folded, and what it tells: as it
// is remembered, and else by making it.
#[inline(always)]
fn visit_plain<R: Threads + Sync>(
    space: &mut Space,
    crew: &mut Crew<'_, R>,
    plan: &Plan,
    here: &Here,
    doing: Act,
) -> Result<(u32, Option<Event>), Memory>
    requires few { length crew.old.machine.cpus ≤ 8 }
    requires such { IsSuch crew.old.machine.setup crew.old.machine }
    requires here { IsHere plan.now crew.old.machine.setup space.old here.now }
    requires plain { plan.now.folds ≡ false }
    requires moves { IsMove plan.now.extras crew.old.machine.setup doing }
    requires made { AreMade crew.old.machine.setup space.old crew.old.steps.made.items }
    ensures noted { IfOk result (λ found. (s : MachineValue) → Keeps space.old here.now.spot.state s
        → IsReached plan.now crew.old.machine.setup s
        → IsNoted plan.now crew.old.machine.setup space.old space.new here.now.spot.state
        (after s doing) found.0) }
    ensures told { IfOk result (λ found. (s : MachineValue) → Keeps space.old here.now.spot.state s
        → IsReached plan.now crew.old.machine.setup s → found.1 ≡ (next s doing).1) }
    ensures such { OnOk result (IsSuch crew.old.machine.setup crew.new.machine) }
    ensures made { OnOk result
        (AreMade crew.old.machine.setup space.new crew.new.steps.made.items) }
    ensures helpers { crew.new.helpers.list.items ≡ crew.old.helpers.list.items }
{
    let _ = plan;
    let spot = &here.spot;
    match remembered(&crew.steps, spot, doing) {
        Some(made) => {
            let mut key = spot.key;
            made.change(&mut key);
            let number = space.note_key(&key, spot.hash.wrapping_add(made.turn))?;
            Ok((number, made.event))
        }
        None => {
            let led = make_anew(space, &mut crew.machine, &mut crew.steps, spot, doing)?;
            let number = space.note_key(&led.key, led.hash)?;
            Ok((number, led.event))
        }
    }
}

// Where an act leads from the state that is left, and what it tells.
#[inline(always)]
fn visit<R: Threads + Sync>(
    space: &mut Space,
    crew: &mut Crew<'_, R>,
    plan: &Plan,
    here: &Here,
    doing: Act,
) -> Result<(u32, Option<Event>), Memory>
    requires few { length crew.old.machine.cpus ≤ 8 }
    requires such { IsSuch crew.old.machine.setup crew.old.machine }
    requires here { IsHere plan.now crew.old.machine.setup space.old here.now }
    requires moves { IsMove plan.now.extras crew.old.machine.setup doing }
    requires made { AreMade crew.old.machine.setup space.old crew.old.steps.made.items }
    ensures noted { IfOk result (λ found. (s : MachineValue)
        → Keeps space.old here.now.spot.state s → IsReached plan.now crew.old.machine.setup s
        → IsNoted plan.now crew.old.machine.setup space.old space.new here.now.spot.state
        (after s doing) found.0) }
    ensures told { IfOk result (λ found. (s : MachineValue)
        → Keeps space.old here.now.spot.state s → IsReached plan.now crew.old.machine.setup s
        → found.1 ≡ (next s doing).1) }
    ensures such { OnOk result (IsSuch crew.old.machine.setup crew.new.machine) }
    ensures made { OnOk result
        (AreMade crew.old.machine.setup space.new crew.new.steps.made.items) }
    ensures helpers { crew.new.helpers.list.items ≡ crew.old.helpers.list.items }
{
    if plan.folds {
        let found = visit_folded(space, &mut crew.machine, plan, here, doing)?;
        Ok(found)
    } else {
        let found = visit_plain(space, crew, plan, here, doing)?;
        Ok(found)
    }
}

// The number of the state to which an act led, or of one that stands for it. It gets one if there is
// none.
fn settle(space: &mut Space, then: &Then, left: usize) -> Result<u32, Memory>
    requires { MaySettle space.old left then.now }
    ensures { IfOk result (λ k. IsSettled space.old space.new left then.now k) }
{
    match then {
        Then::Known(number) => Ok(*number),
        Then::New(key) => {
            let number = space.note_unseen(key)?;
            Ok(number)
        }
        Then::Fold(key, fold) => {
            let number = space.note_folded(key, fold, left)?;
            Ok(number)
        }
    }
}

// Where an act leads from the state that is left, and what it tells: as a helper found it, and else by
// making it.
fn lead<R: Threads + Sync>(
    space: &mut Space,
    crew: &mut Crew<'_, R>,
    plan: &Plan,
    here: &Here,
    number: usize,
) -> Result<(u32, Option<Event>), Memory>
    requires few { length crew.old.machine.cpus ≤ 8 }
    requires such { IsSuch crew.old.machine.setup crew.old.machine }
    requires here { IsHere plan.now crew.old.machine.setup space.old here.now }
    requires act { number < length plan.now.acts.items }
    requires moves { OnlyMoves plan.now.extras crew.old.machine.setup plan.now.acts.items }
    requires made { AreMade crew.old.machine.setup space.old crew.old.steps.made.items }
    requires helpers { AreHelpers plan.now crew.old.machine.setup space.old
        crew.old.helpers.list.items }
    ensures noted { IfOk result (λ found. (s : MachineValue) (a : ActValue)
        → slice_get plan.now.acts.items number ≡ Some a → Keeps space.old here.now.spot.state s
        → IsReached plan.now crew.old.machine.setup s
        → IsNoted plan.now crew.old.machine.setup space.old space.new here.now.spot.state
        (after s a) found.0) }
    ensures told { IfOk result (λ found. (s : MachineValue) (a : ActValue)
        → slice_get plan.now.acts.items number ≡ Some a → Keeps space.old here.now.spot.state s
        → IsReached plan.now crew.old.machine.setup s → found.1 ≡ (next s a).1) }
    ensures such { OnOk result (IsSuch crew.old.machine.setup crew.new.machine) }
    ensures made { OnOk result
        (AreMade crew.old.machine.setup space.new crew.new.steps.made.items) }
    ensures helpers { OnOk result (AreHelpers plan.now crew.old.machine.setup space.new
        crew.new.helpers.list.items) }
{
    match crew.take(here.spot.state, number) {
        Some(finding) => {
            let then = settle(space, &finding.then, here.spot.state)?;
            Ok((then, finding.event))
        }
        None => {
            let found = visit(space, crew, plan, here, plan.act(number))?;
            Ok(found)
        }
    }
}

// Makes every act on a state.
fn leave<R: Threads + Sync>(
    space: &mut Space,
    crew: &mut Crew<'_, R>,
    plan: &Plan,
    state: usize,
    book: &mut Book,
) -> Result<(), Memory>
    requires few { length crew.old.machine.cpus ≤ 8 }
    requires begun { IsBegun plan.now crew.old.machine.setup }
    requires such { IsSuch crew.old.machine.setup crew.old.machine }
    requires made { AreMade crew.old.machine.setup space.old crew.old.steps.made.items }
    requires helpers { AreHelpers plan.now crew.old.machine.setup space.old
        crew.old.helpers.list.items }
    requires there { state < length space.old.keys }
    requires explored { IsExplored plan.now crew.old.machine.setup space.old book.old state }
    requires columns { AreColumns book.old (length plan.now.acts.items) state 0 }
    ensures explored { OnOk result
        (IsExplored plan.now crew.old.machine.setup space.new book.new (state + 1)) }
    ensures columns { OnOk result
        (AreColumns book.new (length plan.now.acts.items) (state + 1) 0) }
    ensures such { OnOk result (IsSuch crew.old.machine.setup crew.new.machine) }
    ensures setup { OnOk result (crew.new.machine.setup ≡ crew.old.machine.setup) }
    ensures made { OnOk result
        (AreMade crew.old.machine.setup space.new crew.new.steps.made.items) }
    ensures helpers { OnOk result (AreHelpers plan.now crew.old.machine.setup space.new
        crew.new.helpers.list.items) }
{
    runs_keep();
    acts_change_little();
    let wanted = crew.makes(plan, state);
    let here = here_at(plan, book, space, state, wanted)?;
    let acts = plan.acts();
    for number in 0..acts.len() {
        let (then, event) = lead(space, crew, plan, &here, number)?;
        book.write(state, number, then, event)?;
    }
    Ok(())
}

// Leaves the states, one after another, until all are left or the watcher ends it. Returns how many
// were left.
fn leave_all<W: Watch, R: Threads + Sync>(
    space: &mut Space,
    crew: &mut Crew<'_, R>,
    plan: &Plan,
    book: &mut Book,
    watch: &mut W,
) -> Result<usize, Memory>
    requires few { length crew.old.machine.cpus ≤ 8 }
    requires begun { IsBegun plan.now crew.old.machine.setup }
    requires such { IsSuch crew.old.machine.setup crew.old.machine }
    requires made { AreMade crew.old.machine.setup space.old crew.old.steps.made.items }
    requires helpers { AreHelpers plan.now crew.old.machine.setup space.old
        crew.old.helpers.list.items }
    requires explored { IsExplored plan.now crew.old.machine.setup space.old book.old 0 }
    requires columns { AreColumns book.old (length plan.now.acts.items) 0 0 }
    ensures explored { IfOk result
        (λ left. IsExplored plan.now crew.old.machine.setup space.new book.new left) }
    ensures columns { IfOk result
        (λ left. AreColumns book.new (length plan.now.acts.items) left 0) }
    ensures within { IfOk result (λ left. left ≤ length space.new.keys) }
    ensures such { OnOk result (IsSuch crew.old.machine.setup crew.new.machine) }
    ensures setup { OnOk result (crew.new.machine.setup ≡ crew.old.machine.setup) }
{
    for state in 0..MOST {
        if state == space.len() {
            return Ok(state);
        }
        let seen = book.seen(state, space.len(), space.bytes());
        if !watch.goes_on(seen) {
            return Ok(state);
        }
        crew.look_ahead(space, plan, book, state);
        leave(space, crew, plan, state, book)?;
    }
    Ok(MOST)
}

// Notes the state at which the plan begins. Where states are folded it is its own fold.
fn note_first(space: &mut Space, machine: &mut Machine, plan: &Plan) -> Result<(), Memory>
    requires few { length machine.old.cpus ≤ 8 }
    requires keys { length space.old.keys ≡ 0 }
    requires folds { length space.old.folds ≡ 0 }
    ensures count { OnOk result (length space.new.keys ≡ 1) }
    ensures keeps { OnOk result (Keeps space.new 0 machine.old) }
    ensures folds { OnOk result (plan.now.folds ≡ true → (length space.new.folds ≡ 1)
        × Folds space.new 0 machine.old) }
    ensures machine { OnOk result (machine.new ≡ machine.old) }
{
    space.note(machine, 0)?;
    if !plan.folds {
        return Ok(());
    }
    space.fold_first(machine)?;
    Ok(())
}

// What was met, and what is written down of it.
#[derive(Drop)]
struct Met {
    space: Space,
    book: Book,
}

// The state at which the plan begins, and nothing else.
fn begin(alloc: Global, machine: &mut Machine, plan: &Plan) -> Result<Met, Memory>
    requires few { length machine.old.cpus ≤ 8 }
    ensures count { IfOk result (λ met. length met.space.keys ≡ 1) }
    ensures keeps { IfOk result (λ met. Keeps met.space 0 machine.old) }
    ensures folds { IfOk result (λ met. plan.now.folds ≡ true → (length met.space.folds ≡ 1)
        × Folds met.space 0 machine.old) }
    ensures machine { OnOk result (machine.new ≡ machine.old) }
    ensures book { IfOk result (λ met. IsNew met.book (length plan.now.acts.items)) }
{
    let mut space = Space::new(alloc, machine.cpus() as usize)?;
    note_first(&mut space, machine, plan)?;
    let book = Book::new(alloc, plan.acts().len())?;
    Ok(Met { space, book })
}

/// Explores the states from the machine on at which the plan begins, level by level, until all are
/// met or the watcher ends it. Helpers try acts ahead; how many there are changes nothing else.
///
/// # Errors
///
/// There is not enough memory, or no room for more states or levels.
pub fn explore<W: Watch, R: Threads + Sync>(
    alloc: Global,
    mut machine: Machine,
    plan: Plan,
    watch: &mut W,
    helpers: Helpers<'_, R>,
) -> Result<Graph, Memory>
    requires few { length machine.cpus ≤ 8 }
    requires start { IsStart plan machine }
    requires helpers { AreFresh machine.setup helpers.list.items }

    // If the graph is whole, every state that a schedule reaches is known, or one that differs from
    // it in dead registers alone; and if the plan folds, in the numbers of processors that are alike.
    ensures all { IfOk result (λ graph. IsWhole graph → (acts : List ActValue)
        → AreMoves plan.extras machine.setup acts
        → KnowsLike plan machine.setup graph.space (state_after plan machine.setup acts)) }

    // Every state that is known is one that a schedule reaches.
    ensures only { IfOk result (λ graph. (k : ℕ) → k < length graph.space.keys
        → IsGood plan machine.setup graph.space k) }
    ensures graph { IfOk result (λ graph. IsGraph graph) }
    ensures plan { IfOk result (λ graph. graph.plan ≡ plan) }
    ensures setup { IfOk result (λ graph. graph.machine.setup ≡ machine.setup) }
{
    runs_keep();
    acts_change_little();
    let cpus = machine.cpus();
    let mut met = begin(alloc, &mut machine, &plan)?;
    let mut crew = Crew::new(alloc, machine, helpers);
    let left = leave_all(&mut met.space, &mut crew, &plan, &mut met.book, watch)?;
    let Met { space, book } = met;
    let machine = crew.machine();
    Ok(Graph {
        space,
        plan,
        book,
        machine,
        cpus,
        left,
    })
}
