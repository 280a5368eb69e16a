// What a graph tells.

ghost use Rattle.std.specs.Prelude.{◌≡◌, ◌<◌, ◌≤◌, ◌++◌, ◌∷◌, [], ℕ, IfNone, IfOk, OnOk, IfSome, length, true, false};
ghost use Rattle.lk_rows.specs.Machine.{Machine as MachineValue};
ghost use Rattle.lk_reach.specs.Reach.{MakesRow};
ghost use Rattle.lk_reach.specs.Rows.{AreMarked, AreUsed, IsMade, IsUnmade};
ghost use Rattle.lk_reach.specs.Space.{Keeps};
ghost use Rattle.lk_reach.specs.Ends.{CountsEdges};
ghost use Rattle.lk_reach.specs.Told.{IsDeepest, IsGraph, IsWhole};

use crate::book::Book;
use crate::kinds::KINDS;
use crate::plan::Plan;
use crate::space::{Space, is_row};
use lk_core::{acts_change_little, runs_keep};
use lk_machine::Machine;
use lk_names::Memory;
use lk_rows::Pc;
use std::alloc::Global;

/// The states that an exploration met, and how the acts lead from one to the other. A state has a
/// number, and who needs fewer acts to be reached has a lower one.
#[derive(Drop)]
pub struct Graph {
    pub(crate) space: Space,
    pub(crate) plan: Plan,
    pub(crate) book: Book,
    /// A machine of the setup, in any state.
    pub(crate) machine: Machine,
    /// How many processors there are.
    pub(crate) cpus: u32,
    /// How many states were left by every act.
    pub(crate) left: usize,
}

impl Graph {
    /// Whether every state that was met was left by every act, so that a schedule reaches no other.
    pub fn is_whole(&self) -> bool
        ensures { result ≡ true → IsWhole self.now }
    {
        self.left == self.space.len()
    }

    /// Whether states were folded: one was kept of those that differ only in the numbers of
    /// processors that are alike.
    pub fn folds(&self) -> bool
        ensures { result ≡ self.now.plan.folds }
    {
        self.plan.folds
    }

    /// How many states were met.
    pub fn states(&self) -> usize
        ensures { result ≡ length self.now.space.keys }
    {
        self.space.len()
    }

    /// How many acts led from one of them to another: of all acts of the plan, on all states that
    /// were left.
    pub fn edges(&self) -> usize
        requires graph { IsGraph self.now }
        ensures { CountsEdges self.now result }
    {
        runs_keep();
        acts_change_little();
        self.book.edges
    }

    /// The deepest level: how many acts lead to the state that takes most.
    pub fn deepest(&self) -> u32
        requires graph { IsGraph self.now }
        ensures { IsDeepest self.now result }
    {
        runs_keep();
        acts_change_little();
        self.book.level(self.states().saturating_sub(1))
    }

    /// How often each kind of event was met, on all acts that were tried.
    pub fn events(&self) -> [u64; KINDS] {
        self.book.events
    }

    /// Whether a step of some processor makes this row at a state.
    pub fn makes(&self, state: usize, row: Pc) -> bool
        requires there { state < length self.now.space.keys }
        requires few { self.now.cpus ≤ 8 }
        ensures yes { result ≡ true → (s : MachineValue) → Keeps self.now.space state s
            → length s.cpus ≡ self.now.cpus → MakesRow s row }
        ensures no { result ≡ false → (s : MachineValue) → Keeps self.now.space state s
            → length s.cpus ≡ self.now.cpus → ¬ MakesRow s row }
    {
        for cpu in 0..self.cpus {
            if is_row(self.space.row_at(state, cpu), row) {
                return true;
            }
        }
        false
    }

    /// The first state at which a step of some processor makes this row, or `None` if there is
    /// none.
    pub fn first_with(&self, row: Pc) -> Option<usize>
        requires few { self.now.cpus ≤ 8 }
        ensures some { IfSome result (λ k. (k < length self.now.space.keys)
            × ((s : MachineValue) → Keeps self.now.space k s → length s.cpus ≡ self.now.cpus
            → MakesRow s row)) }
        ensures first { IfSome result (λ k. (j : ℕ) → j < k → (s : MachineValue)
            → Keeps self.now.space j s → length s.cpus ≡ self.now.cpus → ¬ MakesRow s row) }
        ensures none { IfNone result ((k : ℕ) (s : MachineValue) → Keeps self.now.space k s
            → length s.cpus ≡ self.now.cpus → ¬ MakesRow s row) }
    {
        if !self.space.has_row(row) {
            return None;
        }
        for state in 0..self.states() {
            if self.makes(state, row) {
                return Some(state);
            }
        }
        None
    }

    // Whether a step of some processor makes this row at a state that was met, where the parts are marked
    // that states have.
    fn is_made(&self, used: &Vec<bool>, row: Pc) -> bool
        requires { AreUsed self.now.space self.now.cpus (length self.now.space.keys) used.now.items }
        ensures yes { result ≡ true → IsMade self.now.space self.now.cpus row }
        ensures no { result ≡ false → IsUnmade self.now.space self.now.cpus row }
    {
        self.space.makes_used(used, row)
    }

    /// For each of these rows whether a step of some processor makes it at a state that was met.
    ///
    /// # Errors
    ///
    /// There is not enough memory.
    pub fn rows_made(&self, alloc: Global, rows: &[Pc]) -> Result<Vec<bool>, Memory>
        requires few { self.now.cpus ≤ 8 }
        ensures count { IfOk result (λ marks. length marks.items ≡ length rows.now) }
        ensures marks { IfOk result (λ marks. AreMarked self.now.space self.now.cpus
            rows.now marks.items) }
    {
        let used = self.space.used(self.cpus)?;
        let mut marks = Vec::with_capacity(alloc, rows.len())?;
        for number in 0..rows.len() {
            let is_made = self.is_made(&used, rows[number]);
            add_mark(&mut marks, is_made)?;
        }
        Ok(marks)
    }
}

/// Adds a mark.
pub(crate) fn add_mark(marks: &mut Vec<bool>, mark: bool) -> Result<(), Memory>
    ensures { OnOk result (marks.new.items ≡ marks.old.items ++ mark ∷ []) }
{
    marks.push(mark).map_err(|_| Memory)
}
