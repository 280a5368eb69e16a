// Shortest schedules to what a graph tells of.

ghost use Rattle.std.specs.Prelude.{◌≡◌, ◌≢◌, ◌<◌, IfNone, IfOk, IfSome, List, Some, length, slice_get};
ghost use Rattle.lk_names.specs.declared.events.Act.{Act as ActValue};
ghost use Rattle.lk_reach.specs.declared.origin.Origin.{Origin as OriginValue};
ghost use Rattle.lk_reach.specs.Reach.{AreMoves, MakesRow, state_after};
ghost use Rattle.lk_reach.specs.Told.{IsGraph, IsNever, IsShortestToEvent, IsShortestToRow, IsWay, IsWhole};

use crate::graph::Graph;
use crate::origin::Origin;
use crate::path::path_to;
use crate::plan::add;
use lk_core::{acts_change_little, runs_keep};
use lk_names::{Act, Memory};
use lk_rows::Pc;
use std::alloc::Global;

impl Graph {
    // The act of an origin, which is one of those that are tried.
    fn act_of(&self, origin: Origin) -> Act
        requires { origin.act < length self.now.plan.acts.items }
        ensures { slice_get self.now.plan.acts.items origin.act ≡ Some result }
    {
        self.plan.act(origin.act as usize)
    }

    // How an event of this kind was first met, if one was.
    fn told(&self, kind: usize) -> Option<Origin>
        ensures some { IfSome result (λ origin. slice_get self.now.book.firsts kind
            ≡ Some (Some origin)) }
        ensures none { IfNone result ((origin : OriginValue)
            → slice_get self.now.book.firsts kind ≢ Some (Some origin)) }
    {
        match self.book.firsts.get(kind) {
            Some(Some(origin)) => Some(*origin),
            Some(None) => None,
            None => None,
        }
    }

    /// The acts of a schedule to a state.
    ///
    /// # Errors
    ///
    /// There is not enough memory.
    pub(crate) fn acts_to(&self, alloc: Global, state: usize) -> Result<Vec<Act>, Memory>
        requires graph { IsGraph self.now }
        requires there { state < length self.now.space.keys }
        ensures { IfOk result (λ acts. IsWay self.now state acts.items) }
    {
        let acts = path_to(alloc, &self.plan, &self.book, state)?;
        Ok(acts)
    }

    /// The acts of a shortest schedule behind which a step of some processor makes this row, or
    /// `None` if there is none at a state that was met.
    ///
    /// # Errors
    ///
    /// There is not enough memory.
    pub fn acts_to_row(&self, alloc: Global, row: Pc) -> Result<Option<Vec<Act>>, Memory>
        requires graph { IsGraph self.now }
        ensures some { IfOk result
            (λ found. IfSome found (λ acts. IsShortestToRow self.now row acts.items)) }
        ensures none { IfOk result (λ found. IfNone found (IsWhole self.now
            → (acts : List ActValue) → AreMoves self.now.plan.extras self.now.machine.setup acts
            → ¬ MakesRow (state_after self.now.plan self.now.machine.setup acts) row)) }
    {
        runs_keep();
        acts_change_little();
        match self.first_with(row) {
            Some(state) => {
                let acts = self.acts_to(alloc, state)?;
                Ok(Some(acts))
            }
            None => Ok(None),
        }
    }

    /// The acts of a shortest schedule whose last act tells an event of this kind, or `None` if
    /// none was met.
    ///
    /// # Errors
    ///
    /// There is not enough memory.
    pub fn acts_to_event(&self, alloc: Global, kind: usize) -> Result<Option<Vec<Act>>, Memory>
        requires graph { IsGraph self.now }
        ensures some { IfOk result
            (λ found. IfSome found (λ acts. IsShortestToEvent self.now kind acts.items)) }
        ensures none { IfOk result
            (λ found. IfNone found (IsWhole self.now → IsNever self.now kind)) }
    {
        runs_keep();
        acts_change_little();
        match self.told(kind) {
            Some(origin) => {
                let mut acts = self.acts_to(alloc, origin.state as usize)?;
                add(&mut acts, self.act_of(origin))?;
                Ok(Some(acts))
            }
            None => Ok(None),
        }
    }
}
