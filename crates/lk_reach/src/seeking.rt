// A shortest schedule to an act that is sought.

ghost use Rattle.std.specs.Prelude.{◌≡◌, ◌<◌, ◌≤◌, ℕ, IfNone, IfOk, IfSome, None, length, true, false};
ghost use Rattle.lk_rows.specs.Acts.{processor_of};
ghost use Rattle.lk_reach.specs.Deeds.{IsNeverDone, IsShortestToDeed};
ghost use Rattle.lk_reach.specs.Explored.{IsStepped, IsSuch};
ghost use Rattle.lk_reach.specs.Seeking.{DoesAt, DoesNotAt, IsDoneBy, IsFirstDeed, NameCpus, NoneAt};
ghost use Rattle.lk_reach.specs.Told.{IsGraph, IsWhole};

use crate::deeds::{Sought, is_sought};
use crate::graph::Graph;
use crate::plan::Plan;
use crate::space::Space;
use lk_core::{acts_change_little, runs_keep};
use lk_machine::Machine;
use lk_names::{Act, Memory};
use std::alloc::Global;

// Whether an act on a state is sought. The machine is any of its setup afterwards.
fn is_sought_at(
    space: &Space,
    machine: &mut Machine,
    state: usize,
    doing: Act,
    sought: Sought,
) -> bool
    requires few { length machine.old.cpus ≤ 8 }
    requires such { IsSuch machine.old.setup machine.old }
    requires stepped { IsStepped machine.old.setup space.now state }
    requires range { processor_of doing < length machine.old.cpus }
    ensures yes { result ≡ true → DoesAt machine.old.setup space.now state sought doing }
    ensures no { result ≡ false → DoesNotAt machine.old.setup space.now state sought doing }
    ensures such { IsSuch machine.old.setup machine.new }
{
    space.load(state, machine);
    is_sought(machine, doing, sought)
}

// The number of the first act that is sought on a state.
fn act_on(
    space: &Space,
    plan: &Plan,
    machine: &mut Machine,
    state: usize,
    sought: Sought,
) -> Option<usize>
    requires few { length machine.old.cpus ≤ 8 }
    requires such { IsSuch machine.old.setup machine.old }
    requires stepped { IsStepped machine.old.setup space.now state }
    requires range { NameCpus machine.old.setup plan.now.acts.items }
    ensures some { IfSome result (λ i. i < length plan.now.acts.items) }
    ensures does { IfSome result (λ i. IsDoneBy machine.old.setup space.now plan.now.acts.items
        state sought i) }
    ensures none { IfNone result
        (NoneAt machine.old.setup space.now plan.now.acts.items sought state) }
    ensures such { IsSuch machine.old.setup machine.new }
{
    for number in 0..plan.acts().len() {
        let doing = plan.act(number);
        if is_sought_at(space, machine, state, doing, sought) {
            return Some(number);
        }
    }
    None
}

// The first state on which an act is sought, and the number of the act.
fn first_deed(
    space: &Space,
    plan: &Plan,
    machine: &mut Machine,
    sought: Sought,
) -> Option<(usize, usize)>
    requires few { length machine.old.cpus ≤ 8 }
    requires such { IsSuch machine.old.setup machine.old }
    requires stepped { (k : ℕ) → k < length space.now.keys
        → IsStepped machine.old.setup space.now k }
    requires range { NameCpus machine.old.setup plan.now.acts.items }
    ensures some { IfSome result (λ found. IsFirstDeed machine.old.setup space.now
        plan.now.acts.items sought found.0 found.1) }
    ensures none { IfNone result ((k : ℕ) → k < length space.now.keys
        → NoneAt machine.old.setup space.now plan.now.acts.items sought k) }
    ensures such { IsSuch machine.old.setup machine.new }
{
    for state in 0..space.len() {
        match act_on(space, plan, machine, state, sought) {
            Some(number) => return Some((state, number)),
            None => {}
        }
    }
    None
}

impl Graph {
    /// The acts of a shortest schedule behind which an act does what is sought, and this act, or
    /// `None` if no act does at a state that was met. Where states were folded it is an act of any
    /// processor.
    ///
    /// # Errors
    ///
    /// There is not enough memory.
    pub fn acts_to_deed(
        &mut self,
        alloc: Global,
        sought: Sought,
    ) -> Result<Option<(Vec<Act>, Act)>, Memory>
        requires graph { IsGraph self.old }
        requires any { self.old.plan.folds ≡ true → sought.cpu ≡ None }
        ensures some { IfOk result (λ found. IfSome found
            (λ way. IsShortestToDeed self.old sought way.0.items way.1)) }
        ensures none { IfOk result
            (λ found. IfNone found (IsWhole self.old → IsNeverDone self.old sought)) }
        ensures graph { IsGraph self.new }
    {
        runs_keep();
        acts_change_little();
        match first_deed(&self.space, &self.plan, &mut self.machine, sought) {
            Some((state, number)) => {
                let last = self.plan.act(number);
                let acts = self.acts_to(alloc, state)?;
                Ok(Some((acts, last)))
            }
            None => Ok(None),
        }
    }
}
