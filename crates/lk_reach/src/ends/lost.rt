// Schedules to the ends of a graph.

ghost use Rattle.std.specs.Prelude.{◌≢◌, ℕ, IfNone, IfOk, IfSome, List, Some, slice_get, true};
ghost use Rattle.lk_names.specs.declared.events.Act.{Act as ActValue};
ghost use Rattle.lk_reach.specs.Ends.{IsFirst, IsShortestToDoom, IsShortestToEnd, IsShortestToStuck, NobodyIsDoomed, NobodyIsStuck};
ghost use Rattle.lk_reach.specs.Reach.{AreMoves, AreOver, state_after};
ghost use Rattle.lk_reach.specs.Told.{IsGraph, IsWhole};

use crate::graph::Graph;
use lk_core::{acts_change_little, runs_keep};
use lk_names::{Act, Memory};
use std::alloc::Global;

// The first mark that is set.
fn first(marks: &Vec<bool>) -> Option<usize>
    ensures some { IfSome result (λ k. IsFirst marks.now.items k) }
    ensures none { IfNone result ((k : ℕ) → slice_get marks.now.items k ≢ Some true) }
{
    for at in 0..marks.len() {
        if marks[at] {
            return Some(at);
        }
    }
    None
}

impl Graph {
    /// The acts of a shortest schedule behind which every processor is done, or `None` if there is
    /// no such state among those that were met.
    ///
    /// # Errors
    ///
    /// There is not enough memory.
    pub fn acts_to_end(&self, alloc: Global) -> Result<Option<Vec<Act>>, Memory>
        requires graph { IsGraph self.now }
        ensures some { IfOk result
            (λ found. IfSome found (λ acts. IsShortestToEnd self.now acts.items)) }
        ensures none { IfOk result (λ found. IfNone found (IsWhole self.now
            → (acts : List ActValue) → AreMoves self.now.plan.extras self.now.machine.setup acts
            → ¬ AreOver (state_after self.now.plan self.now.machine.setup acts))) }
    {
        runs_keep();
        acts_change_little();
        let marks = self.finished(alloc)?;
        match first(&marks) {
            Some(state) => {
                let acts = self.acts_to(alloc, state)?;
                Ok(Some(acts))
            }
            None => Ok(None),
        }
    }

    /// The acts of a shortest schedule behind which no schedule finishes, or `None` if from every
    /// state some schedule does.
    ///
    /// # Errors
    ///
    /// There is not enough memory.
    pub fn acts_to_doom(&self, alloc: Global) -> Result<Option<Vec<Act>>, Memory>
        requires graph { IsGraph self.now }
        requires whole { IsWhole self.now }
        ensures some { IfOk result
            (λ found. IfSome found (λ acts. IsShortestToDoom self.now acts.items)) }
        ensures none { IfOk result (λ found. IfNone found (NobodyIsDoomed self.now)) }
    {
        runs_keep();
        acts_change_little();
        let marks = self.doomed(alloc)?;
        match first(&marks) {
            Some(state) => {
                let acts = self.acts_to(alloc, state)?;
                Ok(Some(acts))
            }
            None => Ok(None),
        }
    }

    /// The acts of a shortest schedule to a stuck state, or `None` if none is reached.
    ///
    /// # Errors
    ///
    /// Those of `stuck`.
    pub fn acts_to_stuck(&mut self, alloc: Global) -> Result<Option<Vec<Act>>, Memory>
        requires graph { IsGraph self.old }
        requires whole { IsWhole self.old }
        ensures some { IfOk result
            (λ found. IfSome found (λ acts. IsShortestToStuck self.old acts.items)) }
        ensures none { IfOk result (λ found. IfNone found (NobodyIsStuck self.old)) }
        ensures graph { IsGraph self.new }
    {
        runs_keep();
        acts_change_little();
        let marks = self.stuck(alloc)?;
        match first(&marks) {
            Some(state) => {
                let acts = self.acts_to(alloc, state)?;
                Ok(Some(acts))
            }
            None => Ok(None),
        }
    }
}
