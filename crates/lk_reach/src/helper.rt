// A helper: it tries acts on states with a machine of its own, beside others that do so, while nobody
// writes down anything.

ghost use Rattle.std.specs.Prelude.{◌≡◌, ◌<◌, ◌≤◌, IfOk, IfSome, length, true};
ghost use Rattle.lk_rows.specs.Machine.{Machine as MachineValue};
ghost use Rattle.lk_rows.specs.Programs.{IsLawfulSetup};
ghost use Rattle.lk_reach.specs.Copies.{tight_setup};
ghost use Rattle.lk_reach.specs.declared.found.Then.TheVariants as then;
ghost use Rattle.lk_reach.specs.Explored.{IsSuch};
ghost use Rattle.lk_reach.specs.Folded.{IsBehind, IsHere};
ghost use Rattle.lk_reach.specs.Helped.{AreFound, HasLooked, IsFoldFound, IsFound, IsFresh, IsReady, IsSent, IsTriedOn, LeadsThere, MayKeep, MayLook, StaysHelper};
ghost use Rattle.lk_reach.specs.Reach.{IsMove, IsReached};
ghost use Rattle.lk_reach.specs.Space.{IsLikeKey, Keeps};

use crate::book::Book;
use crate::copies::copy_of;
use crate::folding::{Here, become_fold, here_at};
use crate::found::{Finding, Then};
use crate::helpers::Part;
use crate::key::Key;
use crate::making::make;
use crate::plan::Plan;
use crate::recent::Recent;
use crate::space::Space;
use crate::spot::{Led, lead};
use crate::steps::Steps;
use lk_machine::Machine;
use lk_names::{Act, Event, Memory};
use lk_rows::Setup;
use std::alloc::Global;

/// A helper, and what it found, in the order of the states and of the acts.
#[derive(Drop)]
pub(crate) struct Helper {
    machine: Machine,
    steps: Steps,
    /// Whether it seeks states that were met.
    seeks: bool,
    pub findings: Vec<Finding>,
    /// Where states are folded, which findings have a fold, by the hashes of their own keys.
    folds: Recent,
}

// A number, if it fits a finding.
fn number_of(count: usize) -> Option<u32>
    ensures { IfSome result (λ number. number ≡ count) }
{
    u32::try_from(count).ok()
}

// The fold of a state with this key, if that is what was found.
fn fold_in(finding: Finding, key: &Key) -> Option<Key>
    ensures { IfSome result (λ fold. finding.then ≡ then.Fold key.now fold) }
{
    match finding.then {
        Then::Fold(own, fold) if own == *key => Some(fold),
        _ => None,
    }
}

// The fold of a state with this key, if the finding of this number has it.
fn fold_at(findings: &Vec<Finding>, number: usize, key: &Key) -> Option<Key>
    ensures { IfSome result (λ fold. IsFoldFound findings.now.items key.now fold) }
{
    match findings.get(number) {
        Some(finding) => fold_in(*finding, key),
        None => None,
    }
}

// Keeps what was found, if there is room.
fn keep(findings: &mut Vec<Finding>, found: Option<Finding>)
    ensures { MayKeep findings.old.items findings.new.items found }
{
    if let Some(finding) = found {
        match findings.push(finding) {
            Ok(()) | Err(_) => {}
        }
    }
}

impl Helper {
    /// A helper for machines of a setup, which has found nothing.
    ///
    /// # Errors
    ///
    /// There is not enough memory.
    pub(crate) fn new(alloc: Global, setup: &Setup, seeks: bool) -> Result<Helper, Memory>
        requires { IsLawfulSetup setup.now }
        ensures { IfOk result (IsFresh (tight_setup setup.now)) }
    {
        let copy = copy_of(alloc, setup)?;
        let machine = Machine::new(alloc, copy)?;
        Ok(Helper {
            machine,
            steps: Steps::none(alloc),
            seeks,
            findings: Vec::new(alloc),
            folds: Recent::none(alloc),
        })
    }

    // The number of a state with this key, or of one of the same form, if it is sought and was met.
    fn seek(&self, space: &Space, led: &Led) -> Option<u32>
        ensures there { IfSome result (λ k. k < length space.now.keys) }
        ensures alike { IfSome result (λ k. IsLikeKey space.now k led.now.key) }
    {
        if self.seeks {
            space.known(&led.key, led.hash)
        } else {
            None
        }
    }

    // The fold of a state with this key, if an act on one of the last states led to it, too.
    fn fold_before(&self, key: &Key, hash: u64) -> Option<Key>
        ensures { IfSome result (λ fold. IsFoldFound self.now.findings.items key.now fold) }
    {
        let mut at = self.folds.home(hash);
        for _ in 0..self.folds.len() {
            let number = self.folds.number(at)?;
            if let Some(fold) = fold_at(&self.findings, number as usize, key) {
                return Some(fold);
            }
            at = self.folds.behind(at);
        }
        None
    }

    // Says that the next finding has a fold, by the hash of its own key.
    fn note_fold(&mut self, hash: u64)
        ensures machine { self.new.machine ≡ self.old.machine }
        ensures steps { self.new.steps ≡ self.old.steps }
        ensures findings { self.new.findings ≡ self.old.findings }
    {
        if let Ok(number) = u32::try_from(self.findings.len()) {
            self.folds.put(hash, number);
        }
    }

    // Where the act led from the state that is left, behind which the machine is, if each part of it and
    // of its fold was met.
    fn fold_seen(&mut self, space: &Space, plan: &Plan, here: &Here, doing: Act) -> Option<Then>
        requires may { MayLook plan.now space.now self.old.machine.setup }
        requires such { IsSuch self.old.machine.setup self.old.machine }
        requires found { AreFound plan.now self.old.machine.setup space.now self.old.findings.items }
        requires here { IsHere plan.now self.old.machine.setup space.now here.now }
        requires folds { plan.now.folds ≡ true }
        requires moves { IsMove plan.now.extras self.old.machine.setup doing }
        requires behind { IsBehind plan.now self.old.machine.setup space.now here.now doing
            self.old.machine }
        ensures leads { IfSome result (λ then. (s : MachineValue) → Keeps space.now here.now.spot.state s
            → IsReached plan.now self.old.machine.setup s → LeadsThere plan.now self.old.machine.setup
            space.now here.now.spot.state s self.old.machine then) }
        ensures such { IsSuch self.old.machine.setup self.new.machine }
        ensures steps { self.new.steps ≡ self.old.steps }
        ensures findings { self.new.findings ≡ self.old.findings }
    {
        let left = here.spot.state;
        let key = space.key_seen(&self.machine, left)?;
        if let Some(number) = space.like(left, &key) {
            return Some(Then::Known(number));
        }
        let hash = space.hash_of(&key);
        if let Some(fold) = self.fold_before(&key, hash) {
            return Some(Then::Fold(key, fold));
        }
        become_fold(space, &mut self.machine, plan, here, doing);
        let fold = space.key_seen(&self.machine, left)?;
        if let Some(number) = space.known_fold(&fold, left) {
            return Some(Then::Known(number));
        }
        self.note_fold(hash);
        Some(Then::Fold(key, fold))
    }

    // Where an act leads from a state, and what it tells, if each part of that was met.
    fn try_act(
        &mut self,
        space: &Space,
        plan: &Plan,
        here: &Here,
        doing: Act,
    ) -> Option<(Then, Option<Event>)>
        requires ready { IsReady plan.now space.now self.old }
        requires here { IsHere plan.now self.old.machine.setup space.now here.now }
        requires moves { IsMove plan.now.extras self.old.machine.setup doing }
        requires found { AreFound plan.now self.old.machine.setup space.now self.old.findings.items }
        ensures tried { IfSome result (λ t. IsTriedOn plan.now self.old.machine.setup space.now
            here.now.spot.state doing t.0 t.1) }
        ensures kept { StaysHelper space.now self.old self.new }
    {
        if plan.folds {
            space.load(here.spot.state, &mut self.machine);
            let event = make(&mut self.machine, doing);
            let then = self.fold_seen(space, plan, here, doing)?;
            return Some((then, event));
        }
        let led = lead(space, &mut self.machine, &mut self.steps, &here.spot, doing)?;
        match self.seek(space, &led) {
            Some(known) => Some((Then::Known(known), led.event)),
            None => Some((Then::New(led.key), led.event)),
        }
    }

    // Tries an act on a state. Returns what it led to, if each part of that was met.
    fn find(&mut self, space: &Space, plan: &Plan, here: &Here, act: usize) -> Option<Finding>
        requires ready { IsReady plan.now space.now self.old }
        requires here { IsHere plan.now self.old.machine.setup space.now here.now }
        requires act { act < length plan.now.acts.items }
        requires found { AreFound plan.now self.old.machine.setup space.now self.old.findings.items }
        ensures found { IfSome result
            (λ f. IsFound plan.now self.old.machine.setup space.now f) }
        ensures kept { StaysHelper space.now self.old self.new }
    {
        let state = number_of(here.spot.state)?;
        let by = number_of(act)?;
        let (then, event) = self.try_act(space, plan, here, plan.act(act))?;
        Some(Finding {
            state,
            act: by,
            event,
            then,
        })
    }

    // Tries every act on a state. What there is no room for is not kept.
    fn leave(&mut self, space: &Space, plan: &Plan, book: &Book, state: usize)
        requires sent { IsSent plan.now book.now space.now self.old }
        requires there { state < length space.now.keys }
        requires found { AreFound plan.now self.old.machine.setup space.now self.old.findings.items }
        ensures { HasLooked plan.now space.now self.old self.new }
    {
        let Ok(here) = here_at(plan, book, space, state, plan.folds) else {
            return;
        };
        for act in 0..plan.acts().len() {
            let found = self.find(space, plan, &here, act);
            keep(&mut self.findings, found);
        }
    }

    /// Tries every act on some states. What it found before is gone.
    pub(crate) fn look(&mut self, space: &Space, plan: &Plan, book: &Book, part: Part)
        requires sent { IsSent plan.now book.now space.now self.old }
        requires there { part.to ≤ length space.now.keys }
        ensures { HasLooked plan.now space.now self.old self.new }
    {
        self.findings.clear();
        if plan.folds {
            match self.folds.renew() {
                Ok(()) | Err(_) => {}
            }
        }
        for state in part.from..part.to {
            self.leave(space, plan, book, state);
        }
    }
}
