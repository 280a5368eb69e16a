// Who tries the acts of an exploration: a machine, and helpers that try them ahead of it.

ghost use Rattle.std.specs.Prelude.{◌≡◌, [], IfSome, Some, slice_get};
ghost use Rattle.lk_reach.specs.Helped.{AreHelpers, HaveWays, IsOneOf, MayLook};

use crate::book::Book;
use crate::found::Finding;
use crate::helper::Helper;
use crate::helpers::{Helpers, Part};
use crate::plan::Plan;
use crate::space::Space;
use crate::steps::Steps;
use lk_machine::Machine;
use std::alloc::Global;
use std::thread::Threads;

// How many states are tried ahead at most, so that what is found of them stays in the caches of the
// processors.
const MOST_AHEAD: usize = 16_384;

// As few they become where helpers do not find much of what was tried.
const FEW_AHEAD: usize = 2_048;

// How many at least, since it takes as long as a few of them until all threads have begun.
const LEAST_AHEAD: usize = 128;

// The machine leaves at least so many states by itself before helpers look.
const LEAST_ALONE: usize = 1_024;

// They look if at least one act of so many had to be made on these states. Where most are
// remembered, one thread tries an act as quickly as it reads what a helper found of it.
const ONE_OF: usize = 8;

// Where states are folded, each act is made and costs a schedule, so helpers look at fewer states at
// once.
const FEW_FOLDED: usize = 1_024;

const LEAST_FOLDED: usize = 8;

/// Who tries the acts.
#[derive(Drop)]
pub(crate) struct Crew<'a, R> {
    pub machine: Machine,
    /// Steps that the machine made.
    pub steps: Steps,
    pub helpers: Helpers<'a, R>,
    /// The acts were tried ahead on states below this one.
    ahead: usize,
    /// Which helper found what is taken next, and where it stands.
    at: usize,
    next: usize,
    /// How many states are tried ahead at most.
    width: usize,
    /// How many acts were tried ahead last, and what of it was taken.
    tried: usize,
    taken: usize,
    /// The state from which on the acts that the machine makes are counted, and how many it had made
    /// there.
    since: usize,
    made: usize,
}

// How many states are tried ahead next, after so many of so many acts were found. A helper does not find
// what leads to a part that nobody had met when it began. So after many of these it is better to begin
// anew soon.
fn fitting(width: usize, tried: usize, taken: usize, few: usize) -> usize {
    let missed = tried.saturating_sub(taken);
    let next = if missed > tried / 32 {
        width / 2
    } else {
        width.saturating_mul(2)
    };
    next.max(few).min(MOST_AHEAD)
}

impl<'a, R: Threads + Sync> Crew<'a, R> {
    /// A machine and helpers that have not begun.
    pub(crate) fn new(alloc: Global, machine: Machine, helpers: Helpers<'a, R>) -> Crew<'a, R>
        ensures machine { result.machine ≡ machine }
        ensures steps { result.steps.made.items ≡ [] }
        ensures helpers { result.helpers.list.items ≡ helpers.entry.list.items }
    {
        Crew {
            machine,
            steps: Steps::none(alloc),
            helpers,
            ahead: 0,
            at: 0,
            next: 0,
            width: FEW_AHEAD,
            tried: 0,
            taken: 0,
            since: 0,
            made: 0,
        }
    }

    /// The machine, at the end.
    pub(crate) fn machine(self) -> Machine
        ensures { result ≡ self.entry.machine }
    {
        let Crew { machine, .. } = self;
        machine
    }

    // Whether helpers try acts ahead. A single one does not: nobody waits for it meanwhile.
    fn looks(&self) -> bool {
        self.helpers.list.len() > 1
    }

    // Whether many acts had to be made on the last states that the machine left by itself. Where states
    // are folded each is made.
    fn makes_many(&mut self, plan: &Plan, state: usize) -> bool
        ensures helpers { self.new.helpers.list.items ≡ self.old.helpers.list.items }
        ensures machine { self.new.machine ≡ self.old.machine }
        ensures steps { self.new.steps ≡ self.old.steps }
    {
        if plan.folds {
            return state >= self.since;
        }
        if state < self.since.saturating_add(LEAST_ALONE) {
            return false;
        }
        let left = state.saturating_sub(self.since);
        let made = self.steps.count.saturating_sub(self.made);
        self.since = state;
        self.made = self.steps.count;
        made >= left.saturating_mul(plan.acts().len()) / ONE_OF
    }

    /// Lets the helpers try the acts on this state and the next ones, if they have not done so, there
    /// are enough, and many acts had to be made on the last states that the machine left by itself.
    pub(crate) fn look_ahead(&mut self, space: &mut Space, plan: &Plan, book: &Book, state: usize)
        requires may { MayLook plan.now space.old self.old.machine.setup }
        requires ways { HaveWays plan.now book.now space.old self.old.machine.setup }
        requires helpers { AreHelpers plan.now self.old.machine.setup space.old
            self.old.helpers.list.items }
        ensures helpers { AreHelpers plan.now self.old.machine.setup space.new
            self.new.helpers.list.items }
        ensures space { space.new ≡ space.old }
        ensures machine { self.new.machine ≡ self.old.machine }
        ensures steps { self.new.steps ≡ self.old.steps }
    {
        if !self.looks() {
            return;
        }
        if !self.makes_many(plan, state) {
            return;
        }
        let (few, least) = if plan.folds {
            (FEW_FOLDED, LEAST_FOLDED)
        } else {
            (FEW_AHEAD, LEAST_AHEAD)
        };
        let width = fitting(self.width, self.tried, self.taken, few);
        let to = space.len().min(state.saturating_add(width));
        let count = to.saturating_sub(state);
        if count < least {
            return;
        }
        let rt = self.helpers.rt;
        space.begin_look(rt, self.helpers.list.len(), count);
        self.ahead = to;
        self.since = to;
        self.at = 0;
        self.next = 0;
        self.width = width;
        self.tried = count.saturating_mul(plan.acts().len());
        self.taken = 0;
        let part = Part { from: state, to };
        self.helpers.look_at(space, plan, book, part);
    }

    // Goes on to a helper of whose findings some are left, if there is one.
    fn turn(&mut self)
        ensures helpers { self.new.helpers.list.items ≡ self.old.helpers.list.items }
        ensures machine { self.new.machine ≡ self.old.machine }
        ensures steps { self.new.steps ≡ self.old.steps }
    {
        for _gone in 0..self.helpers.list.len() {
            let Some(helper) = self.helpers.list.get(self.at) else {
                return;
            };
            if self.next < helper.findings.len() {
                return;
            }
            self.at = self.at.saturating_add(1);
            self.next = 0;
        }
    }

    // What is taken next.
    fn found(&self) -> Option<Finding>
        ensures { IfSome result (IsOneOf self.now.helpers.list.items) }
    {
        let helper = helper_at(&self.helpers.list, self.at)?;
        let finding = finding_at(&helper.findings, self.next)?;
        Some(finding)
    }

    /// Whether the machine makes acts on a state by itself for which it takes a schedule to it: where
    /// states are folded, if helpers did not find all acts.
    pub(crate) fn makes(&self, plan: &Plan, state: usize) -> bool {
        plan.folds && !self.has_all(plan.acts().len(), state)
    }

    // Whether the next findings are those of all acts on a state, of which there are so many.
    fn has_all(&self, acts: usize, state: usize) -> bool {
        if state >= self.ahead {
            return false;
        }
        let last = self.next.saturating_add(acts).saturating_sub(1);
        match helper_at(&self.helpers.list, self.at) {
            Some(helper) => match finding_at(&helper.findings, last) {
                Some(finding) => finding.state as usize == state,
                None => false,
            },
            None => false,
        }
    }

    /// What a helper found of an act on a state, if it did. It is taken once, and in the order of the
    /// states and of the acts.
    pub(crate) fn take(&mut self, state: usize, act: usize) -> Option<Finding>
        ensures one { IfSome result (IsOneOf self.old.helpers.list.items) }
        ensures state { IfSome result (λ f. f.state ≡ state) }
        ensures act { IfSome result (λ f. f.act ≡ act) }
        ensures helpers { self.new.helpers.list.items ≡ self.old.helpers.list.items }
        ensures machine { self.new.machine ≡ self.old.machine }
        ensures steps { self.new.steps ≡ self.old.steps }
    {
        if state >= self.ahead {
            return None;
        }
        self.turn();
        let finding = self.found()?;
        if finding.state as usize != state || finding.act as usize != act {
            return None;
        }
        self.next = self.next.saturating_add(1);
        self.taken = self.taken.saturating_add(1);
        Some(finding)
    }
}

// The helper at this place.
fn helper_at(list: &Vec<Helper>, at: usize) -> Option<&Helper>
    ensures { IfSome result (λ h. slice_get list.now.items at ≡ Some h.now) }
{
    list.get(at)
}

// The finding at this place.
fn finding_at(findings: &Vec<Finding>, at: usize) -> Option<Finding>
    ensures { IfSome result (λ f. slice_get findings.now.items at ≡ Some f) }
{
    match findings.get(at) {
        Some(finding) => Some(*finding),
        None => None,
    }
}
