// The machine, and one act.
ghost use Rattle.std.specs.Prelude.{◌≡◌, ◌<◌, ◌≤◌, None, length, IfOk, map};
ghost use Rattle.lk_osq.specs.History.{Told, nothing_told};
ghost use Rattle.lk_osq.specs.Machine.{Machine as MachineValue, cpu_at, set_cpu};
ghost use Rattle.lk_osq.specs.Rows.{row, next_of, applied, stepped, given, next, IsIdle};
ghost use Rattle.lk_osq.specs.Run.{at_rest, rest_cpu};
ghost use Rattle.lk_osq.specs.Shown.{Shows, told_on, IsLawfulIfAny};

use crate::events::OsqEvent;
use crate::nodes::Cpu;
use crate::outcomes::Outcome;
use crate::places::Place;
use crate::{lock, next, quit, unlock};
use lk_names::{List, Memory};
use std::alloc::Global;
use std::marker::Model;

/// The machine of the optimistic spin queue: its tail, and its processors.
#[derive(Drop)]
pub struct OsqMachine {
    tail: Option<u32>,
    cpus: Vec<Cpu>,
}

impl Model for OsqMachine {
    ghost Value = { MachineValue };

    ghost view = { λ m. record { tail = m.tail; cpus = m.cpus.items } };

    ghost invariant = { λ m. length m.cpus.items ≤ 64 };
}

// The processors at rest.
#[tactic(auto, using(crate::proofs::Runs::rest_more))]
fn cpus_at_rest(alloc: Global, rounds: &List<u32>) -> Result<Vec<Cpu>, Memory>
    ensures { IfOk result (λ cpus. cpus.items ≡ map rest_cpu rounds.now.items) }
{
    let mut cpus = Vec::with_capacity(alloc, rounds.len())?;
    for cpu in 0..rounds.len() {
        cpus.push(Cpu::at_rest(*rounds.get(cpu)))
            .map_err(|_| Memory)?;
    }
    Ok(cpus)
}

impl OsqMachine {
    /// The machine at rest. It has a processor for each item of `rounds`, at most 64, and the item
    /// is the number of rounds that the processor makes. It takes all its memory here.
    ///
    /// # Errors
    ///
    /// There is not enough memory.
    #[tactic(auto, using(crate::proofs::Runs::rest_shows))]
    pub fn new(alloc: Global, rounds: &List<u32>) -> Result<OsqMachine, Memory>
        requires few { length rounds.now.items ≤ 64 }
        ensures rest { IfOk result (λ machine. machine ≡ at_rest rounds.now.items) }
        ensures shows { IfOk result (λ machine. Shows machine nothing_told) }
    {
        let cpus = cpus_at_rest(alloc, rounds)?;
        Ok(OsqMachine { tail: None, cpus })
    }

    // A processor; one outside the machine reads as finished.
    #[tactic(auto, unfolding(crate::specs::Machine::cpu_at))]
    fn cpu(&self, at: u32) -> Cpu
        ensures { result ≡ cpu_at self.now at }
    {
        match self.cpus.get(at as usize) {
            Some(cpu) => *cpu,
            None => Cpu::finished(),
        }
    }

    // Stores a processor.
    #[tactic(auto, unfolding(crate::specs::Machine::set_cpu))]
    fn set_cpu(&mut self, at: u32, cpu: Cpu)
        ensures { self.new ≡ set_cpu self.old at cpu }
    {
        if (at as usize) < self.cpus.len() {
            self.cpus[at as usize] = cpu;
        }
    }

    // The next of a node, if there is one.
    fn next_of(&self, at: Option<u32>) -> Option<u32>
        ensures { result ≡ next_of self.now at }
    {
        match at {
            Some(at) => self.cpu(at).node.next,
            None => None,
        }
    }

    // The row of a processor at a place.
    fn row(&self, cpu: u32, own: Cpu, place: Place) -> Outcome
        ensures { result ≡ row self.now cpu own place }
    {
        match place {
            Place::O1 => lock::enters(cpu),
            Place::O2 => lock::arrives(cpu, self.tail),
            Place::O3 => Outcome::tells(Some(cpu), own.prev, Place::O4),
            Place::O4 => lock::links(cpu, own.prev),
            Place::O5 => lock::waits(own.node.flag, own.request),
            Place::Q1 => quit::cuts(cpu, own.prev, self.next_of(own.prev)),
            Place::Q2 => quit::sees_flag(own.node.flag),
            Place::Q3 => quit::sees_prev(own.node.prev),
            Place::Q4 => next::sees_tail(cpu, self.tail, Place::Q5, Place::Q6),
            Place::Q5 => quit::withdraws(cpu, own.prev, self.tail),
            Place::Q6 => next::sees_next(own.node.next, Place::Q7, Place::Q4),
            Place::Q7 => next::grabs(cpu, own.node.next, Place::Q4, Place::Q8),
            Place::Q8 => Outcome::tells(own.y, own.prev, Place::Q9),
            Place::Q9 => quit::unlinks(own.prev, own.y),
            Place::X1 => unlock::frees(cpu, self.tail, Place::X2),
            Place::X2 => next::grabs(cpu, own.node.next, Place::X4, Place::X3),
            Place::X3 => unlock::hands(own.y),
            Place::X4 => next::sees_tail(cpu, self.tail, Place::X5, Place::X6),
            Place::X5 => unlock::frees(cpu, self.tail, Place::X6),
            Place::X6 => next::sees_next(own.node.next, Place::X7, Place::X4),
            Place::X7 => next::grabs(cpu, own.node.next, Place::X4, Place::X3),
        }
    }

    // The machine after a row: what it stores, and then where it leads.
    fn apply(&mut self, cpu: u32, outcome: Outcome)
        ensures { self.new ≡ applied self.old cpu outcome }
    {
        if let Some(tail) = outcome.tail {
            self.tail = tail;
        }
        if let Some((at, store)) = outcome.node {
            let other = self.cpu(at);
            self.set_cpu(
                at,
                Cpu {
                    node: other.node.stored(store),
                    ..other
                },
            );
        }
        let own = self.cpu(cpu);
        self.set_cpu(cpu, own.moved(outcome.leads));
    }

    // The row of a processor, where it is not finished.
    fn step(&mut self, cpu: u32) -> Option<OsqEvent>
        ensures next { self.new ≡ (stepped self.old cpu (cpu_at self.old cpu).place).0 }
        ensures event { result ≡ (stepped self.old cpu (cpu_at self.old cpu).place).1 }
    {
        let own = self.cpu(cpu);
        let place = own.place?;
        let outcome = self.row(cpu, own, place);
        self.apply(cpu, outcome);
        let what = outcome.tells?;
        Some(OsqEvent { cpu, what })
    }

    // A processor is asked to give up, where it may be.
    fn give(&mut self, cpu: u32)
        ensures { self.new ≡ (given self.old cpu).0 }
    {
        let own = self.cpu(cpu);
        if own.gives() {
            self.set_cpu(
                cpu,
                Cpu {
                    request: true,
                    ..own
                },
            );
        }
    }

    /// The number of processors.
    pub fn cpus(&self) -> u32
        ensures { result ≡ length self.now.cpus }
    {
        self.cpus.len() as u32
    }

    /// Does one act. With `give` the processor is asked to give up, else it makes its row. Returns
    /// the event, if there is one. It takes no memory.
    pub fn act(&mut self, give: bool, cpu: u32) -> Option<OsqEvent>
        requires { cpu < length self.old.cpus }
        ensures next { self.new ≡ (next self.old give cpu).0 }
        ensures event { result ≡ (next self.old give cpu).1 }
        // An act that is idle changes nothing, and has no event.
        ensures idle { IsIdle self.old give cpu → (self.new ≡ self.old) × (result ≡ None) }
        // Whatever a history tells that the machine showed, the machine shows it with the event,
        // which is lawful after it.
        ensures keeps { (t : Told) → Shows self.old t
            → Shows self.new (told_on result t) × IsLawfulIfAny result t }
    {
        if give {
            self.give(cpu);
            None
        } else {
            self.step(cpu)
        }
    }
}
