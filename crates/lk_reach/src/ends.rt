// How the states of a graph end: finished, stuck or doomed.

ghost use Rattle.std.specs.Prelude.{◌≡◌, ◌≢◌, ◌<◌, ◌≤◌, ℕ, IfOk, Some, length, slice_get, true, false};
ghost use Rattle.lk_rows.specs.Machine.{Machine as MachineValue};
ghost use Rattle.lk_reach.specs.Ends.{AreDoomed, AreEnds, AreFinishing, AreStuck, AreTurned, IsClosed, IsMarkedOnly, IsPassed, IsReloaded, LeadsMarked};
ghost use Rattle.lk_reach.specs.Explored.{LeadsTo};
ghost use Rattle.lk_reach.specs.Rows.{MakesNoOther};
ghost use Rattle.lk_reach.specs.Sights.{AreGoing, LeadsOn};
ghost use Rattle.lk_reach.specs.Space.{Keeps};
ghost use Rattle.lk_reach.specs.Told.{IsGraph, IsWhole};

mod lost;
pub(crate) mod sight;
mod staying;

use crate::ends::staying::mark_going;
use crate::graph::{Graph, add_mark};
use lk_core::{acts_change_little, runs_keep};
use lk_names::Memory;
use std::alloc::Global;

/// Marks a state, or a part of one, if there is one with this number.
pub(crate) fn mark(marks: &mut Vec<bool>, state: usize)
    ensures { IsMarkedOnly marks.old.items marks.new.items state }
{
    if state < marks.len() {
        marks[state] = true;
    }
}

// Marks a state, if that is asked for.
fn mark_if(marks: &mut Vec<bool>, state: usize, on: bool)
    ensures yes { on ≡ true → IsMarkedOnly marks.old.items marks.new.items state }
    ensures no { on ≡ false → marks.new.items ≡ marks.old.items }
{
    if on {
        mark(marks, state);
    }
}

/// Whether a state, or a part of one, is marked.
pub(crate) fn is_marked(marks: &Vec<bool>, state: usize) -> bool
    ensures yes { result ≡ true → slice_get marks.now.items state ≡ Some true }
    ensures no { result ≡ false → slice_get marks.now.items state ≢ Some true }
{
    match marks.get(state) {
        Some(mark) => *mark,
        None => false,
    }
}

// Turns each mark round.
fn turn(marks: &mut Vec<bool>)
    ensures { AreTurned marks.old.items marks.new.items }
{
    for at in 0..marks.len() {
        marks[at] = !marks[at];
    }
}

impl Graph {
    /// For each state whether every processor is done there.
    ///
    /// # Errors
    ///
    /// There is not enough memory.
    pub fn finished(&self, alloc: Global) -> Result<Vec<bool>, Memory>
        requires graph { IsGraph self.now }
        ensures { IfOk result (λ marks. AreEnds self.now marks.items) }
    {
        runs_keep();
        acts_change_little();
        let overs = self.space.overs()?;
        let mut marks = Vec::with_capacity(alloc, self.states())?;
        for state in 0..self.states() {
            let is_over = self.space.are_over_at(state, self.cpus, &overs);
            add_mark(&mut marks, is_over)?;
        }
        Ok(marks)
    }

    // Whether some processor makes a row at a state that none makes at another one.
    fn makes_new(&self, state: usize, other: usize) -> bool
        requires there { state < length self.now.space.keys }
        requires other { other < length self.now.space.keys }
        requires few { self.now.cpus ≤ 8 }
        ensures { result ≡ true → (s t : MachineValue) → Keeps self.now.space state s
            → Keeps self.now.space other t → length s.cpus ≡ self.now.cpus
            → length t.cpus ≡ self.now.cpus → ¬ MakesNoOther s t }
    {
        for cpu in 0..self.cpus {
            if let Some(row) = self.space.row_at(state, cpu) {
                if !self.makes(other, row) {
                    return true;
                }
            }
        }
        false
    }

    // Whether one of two states has a row that some processor makes, and the other has not.
    fn make_others(&self, state: usize, other: usize) -> bool
        requires there { state < length self.now.space.keys }
        requires other { other < length self.now.space.keys }
        requires few { self.now.cpus ≤ 8 }
        ensures { result ≡ true → (s t : MachineValue) → Keeps self.now.space state s
            → Keeps self.now.space other t → length s.cpus ≡ self.now.cpus
            → length t.cpus ≡ self.now.cpus → MakesNoOther s t → MakesNoOther t s → ⊥ }
    {
        self.makes_new(other, state) || self.makes_new(state, other)
    }

    // Whether an act led from a state to one at which other rows are made. Where states are folded, the
    // same processors may have other numbers there. So it goes by which rows are made, and not by whom.
    fn shows_edge(&self, state: usize, act: usize) -> bool
        requires graph { IsGraph self.now }
        ensures { result ≡ true → LeadsOn self.now.plan self.now.machine.setup self.now.space state }
    {
        let Some(then) = self.book.then(state, act) else {
            return false;
        };
        let then = then as usize;
        if then == state {
            return false;
        }
        if self.plan.folds {
            self.make_others(state, then)
        } else {
            self.space.makes_other(state, then, self.cpus)
        }
    }

    // Whether some act led from a state to one at which other rows are made.
    fn shows_going(&self, state: usize) -> bool
        requires graph { IsGraph self.now }
        ensures { result ≡ true → LeadsOn self.now.plan self.now.machine.setup self.now.space state }
    {
        for act in 0..self.book.acts() {
            if self.shows_edge(state, act) {
                return true;
            }
        }
        false
    }

    // Marks each state from which an act led to one at which other rows are made. These are nearly all
    // from which one leads on.
    fn mark_shown(&self, marks: &mut Vec<bool>)
        requires graph { IsGraph self.now }
        requires going { AreGoing self.now.plan self.now.machine.setup self.now.space marks.old.items }
        ensures { AreGoing self.now.plan self.now.machine.setup self.now.space marks.new.items }
    {
        for state in 0..self.states() {
            let on = self.shows_going(state);
            mark_if(marks, state, on);
        }
    }

    // Marks each state at which every processor is done, or from which an act led to one at which other
    // rows are made.
    fn shown(&self, alloc: Global) -> Result<Vec<bool>, Memory>
        requires graph { IsGraph self.now }
        ensures { IfOk result (λ marks. AreGoing self.now.plan self.now.machine.setup self.now.space
            marks.items) }
    {
        let mut marks = self.finished(alloc)?;
        self.mark_shown(&mut marks);
        Ok(marks)
    }

    /// For each state whether it is stuck: no act leads on from it, and not every processor is done
    /// there. The graph is as before, but for the state of its machine.
    ///
    /// # Errors
    ///
    /// There is not enough memory. Or an act led to the number of another state, and changed nothing
    /// that is seen of its processor: no row does that.
    pub fn stuck(&mut self, alloc: Global) -> Result<Vec<bool>, Memory>
        requires graph { IsGraph self.old }
        requires whole { IsWhole self.old }
        ensures marks { IfOk result (λ marks. AreStuck self.old marks.items) }
        ensures graph { IsGraph self.new }
        ensures whole { IsWhole self.new }
        ensures same { IsReloaded self.old self.new }
    {
        runs_keep();
        acts_change_little();
        let mut marks = self.shown(alloc)?;
        mark_going(
            &self.space,
            &self.book,
            &self.plan,
            &mut self.machine,
            &mut marks,
        )?;
        turn(&mut marks);
        Ok(marks)
    }

    // Whether an act led from a state to a marked one.
    fn leads_marked(&self, marks: &Vec<bool>, state: usize, act: usize) -> bool
        ensures yes { result ≡ true → LeadsMarked self.now marks.now.items state }
        ensures no { result ≡ false → (j : ℕ) → LeadsTo self.now.book state act j
            → slice_get marks.now.items j ≢ Some true }
    {
        match self.book.then(state, act) {
            Some(then) => is_marked(marks, then as usize),
            None => false,
        }
    }

    // Whether some act led from a state to a marked one.
    fn leads_some(&self, marks: &Vec<bool>, state: usize) -> bool
        ensures yes { result ≡ true → LeadsMarked self.now marks.now.items state }
        ensures no { result ≡ false → (i j : ℕ) → LeadsTo self.now.book state i j
            → slice_get marks.now.items j ≢ Some true }
    {
        for act in 0..self.book.acts() {
            if self.leads_marked(marks, state, act) {
                return true;
            }
        }
        false
    }

    // Marks a state, if some act led from it to a marked one. Returns whether it was not marked
    // before.
    fn pass(&self, marks: &mut Vec<bool>, state: usize) -> bool
        ensures { IsPassed self.now marks.old.items marks.new.items state result }
    {
        if is_marked(marks, state) {
            return false;
        }
        if !self.leads_some(marks, state) {
            return false;
        }
        mark(marks, state);
        true
    }

    // Marks each state from which an act leads to a marked one, the higher ones first. Returns
    // whether it marked one.
    fn spread(&self, marks: &mut Vec<bool>) -> bool
        requires graph { IsGraph self.now }
        requires good { AreFinishing self.now marks.old.items }
        ensures good { AreFinishing self.now marks.new.items }
        ensures closed { result ≡ false → IsClosed self.now marks.new.items }
    {
        runs_keep();
        acts_change_little();
        let count = self.states();
        let mut spreads = false;
        for at in 0..count {
            let passes = self.pass(marks, count - 1 - at);
            spreads |= passes;
        }
        spreads
    }

    /// For each state whether no schedule leads from it to one at which every processor is done.
    ///
    /// # Errors
    ///
    /// There is not enough memory.
    pub fn doomed(&self, alloc: Global) -> Result<Vec<bool>, Memory>
        requires graph { IsGraph self.now }
        requires whole { IsWhole self.now }
        ensures { IfOk result (λ marks. AreDoomed self.now marks.items) }
    {
        runs_keep();
        acts_change_little();
        let mut marks = self.finished(alloc)?;
        for _made in 0..self.states() {
            if !self.spread(&mut marks) {
                turn(&mut marks);
                return Ok(marks);
            }
        }
        // One more mark is set each time, so it does not come to this.
        Err(Memory)
    }
}
