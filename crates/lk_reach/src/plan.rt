// The acts that are tried on each state.

ghost use Rattle.std.specs.Prelude.{◌≡◌, ◌<◌, ◌++◌, ◌∷◌, [], IfOk, OnOk, ℕ, length, slice_get, Some, true};
ghost use Rattle.lk_names.specs.declared.events.Act.TheVariants as act;
ghost use Rattle.lk_rows.specs.Acts.{processor_of};
ghost use Rattle.lk_rows.specs.Machine.{handlers_at};
ghost use Rattle.lk_rows.specs.Programs.{HasPrograms, IsLawfulSetup, handlers_of};
ghost use Rattle.lk_rows.specs.Run.{at_rest};
ghost use Rattle.lk_reach.specs.Reach.{cpus_of};
ghost use Rattle.lk_reach.specs.Space.{IsFront};
ghost use Rattle.lk_reach.specs.Explored.{Among, AreAllMoves, IsStart, OnlyMoves};
ghost use Rattle.lk_reach.specs.Peers.{AreFirsts};

use crate::making::make;
use crate::peers::Peers;
use lk_core::{acts_change_little, runs_keep};
use lk_machine::Machine;
use lk_names::{Act, Memory};
use std::alloc::Global;

/// The acts that are explored beside steps and interrupts.
#[derive(Clone, Copy)]
pub struct Extras {
    /// Whether halts end without a kick, too.
    pub nudges: bool,
    /// Whether processors are preempted, and go on.
    pub preempts: bool,
}

/// What is explored: where it begins, and what is tried on each state.
#[derive(Drop)]
pub struct Plan {
    /// The acts that come before, from rest.
    pub(crate) before: Vec<Act>,
    /// The acts that are tried, one after another.
    pub(crate) acts: Vec<Act>,
    pub(crate) extras: Extras,
    /// Whether states are folded: of those that differ only in the numbers of processors that are
    /// alike one is kept.
    pub(crate) folds: bool,
    pub(crate) peers: Peers,
}

impl Plan {
    /// A plan that begins at rest. It tries a step of each processor, an interrupt of each that has
    /// handlers, and the acts that are asked for beside them.
    ///
    /// # Errors
    ///
    /// There is not enough memory.
    pub fn new(alloc: Global, machine: &Machine, extras: Extras) -> Result<Plan, Memory>
        requires rest { machine.now ≡ at_rest machine.now.setup }
        requires lawful { IsLawfulSetup machine.now.setup }
        ensures start { IfOk result (λ plan. IsStart plan machine.now) }
        ensures extras { IfOk result (λ plan. plan.extras ≡ extras) }
    {
        let acts = moves(alloc, machine, extras)?;
        let before = Vec::new(alloc);
        Ok(Plan {
            before,
            acts,
            extras,
            folds: false,
            peers: Peers::none(),
        })
    }

    /// Folds states, if the plan begins at rest. Returns whether it does.
    pub fn fold(&mut self, machine: &Machine, peers: Peers) -> bool
        requires start { IsStart self.old machine.now }
        requires peers { AreFirsts machine.now.setup peers.firsts }
        ensures start { IsStart self.new machine.now }
        ensures extras { self.new.extras ≡ self.old.extras }
        ensures folds { self.new.folds ≡ result }
    {
        self.peers = peers;
        self.folds = self.before.is_empty();
        self.folds
    }

    /// Whether states are folded.
    pub fn is_folding(&self) -> bool
        ensures { result ≡ self.now.folds }
    {
        self.folds
    }

    /// Makes an act on the machine at which the plan begins. From there on it begins behind it, and
    /// folds nothing.
    ///
    /// # Errors
    ///
    /// There is not enough memory.
    pub fn begin(&mut self, machine: &mut Machine, doing: Act) -> Result<(), Memory>
        requires start { IsStart self.old machine.old }
        requires range { processor_of doing < cpus_of machine.old.setup }
        ensures start { OnOk result (IsStart self.new machine.new) }
        ensures extras { OnOk result (self.new.extras ≡ self.old.extras) }
        ensures setup { OnOk result (machine.new.setup ≡ machine.old.setup) }
    {
        runs_keep();
        acts_change_little();
        self.folds = false;
        add(&mut self.before, doing)?;
        let _ = make(machine, doing);
        Ok(())
    }

    /// How many processors the machine has at which the plan begins.
    pub fn cpus(&self, machine: &Machine) -> u32
        requires { IsStart self.now machine.now }
        ensures { result ≡ cpus_of machine.now.setup }
    {
        runs_keep();
        acts_change_little();
        machine.cpus()
    }

    /// The act of this number.
    pub(crate) fn act(&self, number: usize) -> Act
        requires { number < length self.now.acts.items }
        ensures { slice_get self.now.acts.items number ≡ Some result }
    {
        self.acts[number]
    }

    /// The acts that are tried.
    pub(crate) fn acts(&self) -> &[Act]
        ensures { result.now ≡ self.now.acts.items }
    {
        &self.acts
    }
}

/// Adds an act.
pub(crate) fn add(acts: &mut Vec<Act>, doing: Act) -> Result<(), Memory>
    ensures { OnOk result (acts.new.items ≡ acts.old.items ++ doing ∷ []) }
{
    acts.push(doing).map_err(|_| Memory)
}

// Adds a step of each processor.
fn add_steps(acts: &mut Vec<Act>, machine: &Machine, extras: Extras) -> Result<(), Memory>
    requires cpus { length machine.now.cpus ≡ cpus_of machine.now.setup }
    requires only { OnlyMoves extras machine.now.setup acts.old.items }
    ensures only { OnOk result (OnlyMoves extras machine.now.setup acts.new.items) }
    ensures front { OnOk result (IsFront acts.old.items acts.new.items) }
    ensures all { OnOk result ((p : ℕ) → p < cpus_of machine.now.setup
        → Among acts.new.items (act.Step p)) }
{
    let _ = extras;
    for cpu in 0..machine.cpus() {
        add(acts, Act::Step(cpu))?;
    }
    Ok(())
}

// Adds an interrupt of a processor, if it has handlers.
fn add_handler(acts: &mut Vec<Act>, machine: &Machine, cpu: u32) -> Result<(), Memory>
    requires range { cpu < length machine.now.cpus }
    requires programs { HasPrograms machine.now.setup cpu }
    requires unused { handlers_at machine.now cpu ≡ 0 }
    ensures some { OnOk result (0 < handlers_of machine.now.setup cpu
        → acts.new.items ≡ acts.old.items ++ act.Interrupt cpu ∷ []) }
    ensures none { OnOk result (handlers_of machine.now.setup cpu ≡ 0
        → acts.new.items ≡ acts.old.items) }
{
    if machine.handlers_left(cpu) > 0 {
        add(acts, Act::Interrupt(cpu))
    } else {
        Ok(())
    }
}

// Adds an interrupt of each processor that has handlers.
fn add_handlers(acts: &mut Vec<Act>, machine: &Machine, extras: Extras) -> Result<(), Memory>
    requires cpus { length machine.now.cpus ≡ cpus_of machine.now.setup }
    requires lawful { IsLawfulSetup machine.now.setup }
    requires unused { (p : ℕ) → handlers_at machine.now p ≡ 0 }
    requires only { OnlyMoves extras machine.now.setup acts.old.items }
    ensures only { OnOk result (OnlyMoves extras machine.now.setup acts.new.items) }
    ensures front { OnOk result (IsFront acts.old.items acts.new.items) }
    ensures all { OnOk result ((p : ℕ) → p < cpus_of machine.now.setup
        → 0 < handlers_of machine.now.setup p → Among acts.new.items (act.Interrupt p)) }
{
    let _ = extras;
    for cpu in 0..machine.cpus() {
        add_handler(acts, machine, cpu)?;
    }
    Ok(())
}

// Adds a nudge of each processor, where they are asked for.
fn add_nudges(acts: &mut Vec<Act>, machine: &Machine, extras: Extras) -> Result<(), Memory>
    requires cpus { length machine.now.cpus ≡ cpus_of machine.now.setup }
    requires only { OnlyMoves extras machine.now.setup acts.old.items }
    ensures only { OnOk result (OnlyMoves extras machine.now.setup acts.new.items) }
    ensures front { OnOk result (IsFront acts.old.items acts.new.items) }
    ensures all { OnOk result ((p : ℕ) → extras.nudges ≡ true → p < cpus_of machine.now.setup
        → Among acts.new.items (act.Nudge p)) }
{
    if !extras.nudges {
        return Ok(());
    }
    for cpu in 0..machine.cpus() {
        add(acts, Act::Nudge(cpu))?;
    }
    Ok(())
}

// Adds the preemption of each processor and its end, where they are asked for.
fn add_preempts(acts: &mut Vec<Act>, machine: &Machine, extras: Extras) -> Result<(), Memory>
    requires cpus { length machine.now.cpus ≡ cpus_of machine.now.setup }
    requires only { OnlyMoves extras machine.now.setup acts.old.items }
    ensures only { OnOk result (OnlyMoves extras machine.now.setup acts.new.items) }
    ensures front { OnOk result (IsFront acts.old.items acts.new.items) }
    ensures preempts { OnOk result ((p : ℕ) → extras.preempts ≡ true
        → p < cpus_of machine.now.setup → Among acts.new.items (act.Preempt p)) }
    ensures resumes { OnOk result ((p : ℕ) → extras.preempts ≡ true
        → p < cpus_of machine.now.setup → Among acts.new.items (act.Resume p)) }
{
    if !extras.preempts {
        return Ok(());
    }
    for cpu in 0..machine.cpus() {
        add(acts, Act::Preempt(cpu))?;
        add(acts, Act::Resume(cpu))?;
    }
    Ok(())
}

// The acts that are tried on each state.
fn moves(alloc: Global, machine: &Machine, extras: Extras) -> Result<Vec<Act>, Memory>
    requires lawful { IsLawfulSetup machine.now.setup }
    requires cpus { length machine.now.cpus ≡ cpus_of machine.now.setup }
    requires unused { (p : ℕ) → handlers_at machine.now p ≡ 0 }
    ensures { IfOk result (λ acts. AreAllMoves extras machine.now.setup acts.items) }
{
    let mut acts = Vec::new(alloc);
    add_steps(&mut acts, machine, extras)?;
    add_handlers(&mut acts, machine, extras)?;
    add_nudges(&mut acts, machine, extras)?;
    add_preempts(&mut acts, machine, extras)?;
    Ok(acts)
}
