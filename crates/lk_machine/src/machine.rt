// The machine's data, its readers and its writers.

ghost use Rattle.std.specs.Prelude.{slice_index_or, ◌≡◌, ◌<◌, ◌≤◌, ◌-◌, ◌*◌, Some, length, slice_get, position, IfSome, vec_capacity};
ghost use Rattle.std.specs.Int.{IsNextPowerOfTwo};
ghost use Rattle.lk_rows.specs.Machine.{Machine as MachineValue, CpuState as CpuValue, HasNode, queued_at, preempted_at, halted_at, kicked_at, handlers_at, word_at, rw_at, node_at, set_word, set_rw, set_node, set_queued, set_preempted, set_halted, set_kicked, set_counts};
ghost use Rattle.lk_word.specs.SpinWord.{IsPackable};
ghost use Rattle.lk_word.specs.RwWord.{IsPackableRw};
ghost use Rattle.lk_rows.specs.Layouts.{layout_of};
ghost use Rattle.lk_machine.specs.Hashed.{entries_named};
ghost use Rattle.lk_rows.specs.Programs.{HasPrograms, handlers_of};
ghost use Rattle.lk_rows.specs.Moves.{is_node, context_of, waiter_of};
ghost use Rattle.lk_names.specs.Lawful.{is_local, same_socket, stays};

mod fields;
mod hash;
mod moves;
mod number;
mod packed;
mod parts;
mod rest;
mod same;
mod shared;
mod top;
mod words;

use lk_hash::LockHash;
use lk_names::{Format, LockName, Mode, Waiter};
use lk_rows::{Counts, Frame, Node, Pc, Setup};
use lk_word::{Fields, NodeName, RwFields};
pub use shared::Shared;
use std::marker::Model;
use words::Words;

/// The most frames of a processor: one for its task, and five for nested interrupts.
pub const MAX_FRAMES: usize = 6;

/// The number of queue nodes of a processor (`MAX_NODES` in `kernel/locking/qspinlock.c`).
pub const MAX_NODES: usize = 4;

/// One processor: its frames, its nodes and its marks. The memory for its frames is taken when it is
/// made.
#[derive(Drop)]
pub struct CpuState {
    /// By context, the newest last.
    frames: Vec<Frame>,
    nodes: [Node; MAX_NODES],
    /// How many frames are in the slow path.
    queued: u32,
    preempted: bool,
    halted: bool,
    kicked: bool,
    /// How many handlers were used.
    handlers: u32,
}

impl Model for CpuState {
    ghost Value = { CpuValue };

    ghost view = { λ c. record {
      frames = c.frames.items;
      nodes = c.nodes;
      queued = c.queued;
      preempted = c.preempted;
      halted = c.halted;
      kicked = c.kicked;
      handlers = c.handlers;
    } };

    ghost invariant = { λ c. (length c.frames.items ≤ 6) × (6 ≤ vec_capacity c.frames) };
}

/// The state of a replay: what it is made of, the words of the locks, the processors with their
/// nodes and frames, the hash, and the counts.
#[derive(Drop)]
pub struct Machine {
    setup: Setup,
    words: Words,
    cpus: Vec<CpuState>,
    /// The node of each lock that is entered. It has at least four places for each processor.
    hash: LockHash,
    counts: Counts,
}

impl Model for Machine {
    ghost Value = { MachineValue };

    ghost view = { λ m. record {
      setup = m.setup;
      locks = m.words.locks;
      cpus = m.cpus.items;
      hash = entries_named m.hash.entries;
      counts = m.counts;
    } };

    ghost invariant = { λ m. (length m.cpus.items ≤ 1024) × (length m.words.locks ≤ 32)
        × (4 * length m.cpus.items ≤ m.hash.places)
        × (m.words.layout ≡ layout_of m.setup.format)
        × (IsNextPowerOfTwo (4 * length m.cpus.items) m.hash.places) };
}

// Whether a frame's own node has this name.
fn is_node(own: Option<NodeName>, name: NodeName) -> bool
    ensures { result ≡ is_node own name }
{
    match own {
        Some(own) => own.cpu == name.cpu && own.index == name.index,
        None => false,
    }
}

// The context of the frame that has the node as its own.
fn context_in(frames: &[Frame], name: NodeName) -> Option<usize>
    ensures value { result ≡ position (λ f. is_node f.me name) frames.now }
    ensures bound { IfSome result (λ ctx. ctx < length frames.now) }
{
    frames.iter().position(|frame| is_node(frame.me, name))
}

impl Machine {
    /// The fields of the word of a spinlock or a wait lock.
    #[inline]
    #[tactic(auto, unfolding(lk_rows::specs::Machine::word_at, lk_rows::specs::Machine::lock_at))]
    pub fn word(&self, lock: LockName) -> Fields
        requires { lock.index < length self.now.locks }
        ensures fields { result ≡ word_at self.now lock }
        ensures packable { IsPackable (layout_of self.now.setup.format) result }
    {
        self.words.word(lock)
    }

    /// Stores the word of a spinlock or a wait lock. A tail must fit the layout of the format.
    #[inline]
    #[tactic(auto, unfolding(lk_rows::specs::Machine::lock_at, lk_rows::specs::Machine::set_word, lk_rows::specs::Machine::set_lock))]
    pub fn set_word(&mut self, lock: LockName, fields: Fields)
        requires lock { lock.index < length self.old.locks }
        requires packable { IsPackable (layout_of self.old.setup.format) fields }
        ensures { self.new ≡ set_word self.old lock fields }
    {
        self.words.set_word(lock, fields);
    }

    /// The fields of the word of a reader-writer lock, by the number of the lock.
    #[inline]
    #[tactic(auto, unfolding(lk_rows::specs::Machine::rw_at, lk_rows::specs::Machine::lock_at))]
    pub fn rw(&self, index: u32) -> RwFields
        requires { index < length self.now.locks }
        ensures fields { result ≡ rw_at self.now index }
        ensures packable { IsPackableRw result }
    {
        self.words.rw(index)
    }

    /// Stores the word of a reader-writer lock, by the number of the lock. There must be fewer
    /// than 2^23 readers.
    #[inline]
    #[tactic(auto, unfolding(lk_rows::specs::Machine::lock_at, lk_rows::specs::Machine::set_rw, lk_rows::specs::Machine::set_lock))]
    pub fn set_rw(&mut self, index: u32, fields: RwFields)
        requires index { index < length self.old.locks }
        requires packable { IsPackableRw fields }
        ensures { self.new ≡ set_rw self.old index fields }
    {
        self.words.set_rw(index, fields);
    }

    /// A copy of a queue node.
    #[inline]
    #[tactic(auto, unfolding(lk_rows::specs::Machine::node_at, lk_rows::specs::Machine::cpu_at))]
    pub fn node(&self, name: NodeName) -> Node
        requires { HasNode self.now name }
        ensures { result ≡ node_at self.now name }
    {
        let state = &self.cpus[name.cpu as usize];
        state.nodes[name.index as usize]
    }

    /// Stores a queue node.
    #[inline]
    #[tactic(auto, unfolding(lk_rows::specs::Machine::set_node, lk_rows::specs::Machine::set_cpu, lk_rows::specs::Machine::cpu_at))]
    pub fn set_node(&mut self, name: NodeName, node: Node)
        requires { HasNode self.old name }
        ensures { self.new ≡ set_node self.old name node }
    {
        let state = &mut self.cpus[name.cpu as usize];
        state.nodes[name.index as usize] = node;
    }

    /// The context (interrupt nesting level) of the frame that has the node as its own, or `None`
    /// if no frame has it.
    #[tactic(auto, unfolding(lk_rows::specs::Moves::context_of, lk_rows::specs::Machine::cpu_at))]
    pub fn context_of(&self, name: NodeName) -> Option<u32>
        ensures { result ≡ context_of self.now name }
    {
        let state = self.cpus.get(name.cpu as usize)?;
        let ctx = context_in(&state.frames, name)?;
        Some(ctx as u32)
    }

    /// The waiter whose frame has the node as its own. If no frame has it, this is the task of the
    /// node's processor.
    #[tactic(auto, unfolding(lk_rows::specs::Moves::waiter_of))]
    pub fn waiter_of(&self, name: NodeName) -> Waiter
        ensures { result ≡ waiter_of self.now name }
    {
        Waiter {
            cpu: name.cpu,
            ctx: self.context_of(name).unwrap_or(0),
        }
    }

    /// The number of frames of a processor that are in the slow path. A frame without a node
    /// counts too.
    #[inline]
    #[tactic(auto, unfolding(lk_rows::specs::Machine::queued_at, lk_rows::specs::Machine::cpu_at))]
    pub fn queued(&self, cpu: u32) -> u32
        requires { cpu < length self.now.cpus }
        ensures { result ≡ queued_at self.now cpu }
    {
        let state = &self.cpus[cpu as usize];
        state.queued
    }

    /// Stores the number of frames of a processor that are in the slow path.
    #[inline]
    #[tactic(auto, unfolding(lk_rows::specs::Machine::set_queued, lk_rows::specs::Machine::set_cpu, lk_rows::specs::Machine::cpu_at))]
    pub fn set_queued(&mut self, cpu: u32, count: u32)
        requires { cpu < length self.old.cpus }
        ensures { self.new ≡ set_queued self.old cpu count }
    {
        let state = &mut self.cpus[cpu as usize];
        state.queued = count;
    }

    /// Whether the hypervisor has preempted a processor.
    #[inline]
    #[tactic(auto, unfolding(lk_rows::specs::Machine::preempted_at, lk_rows::specs::Machine::cpu_at))]
    pub fn preempted(&self, cpu: u32) -> bool
        requires { cpu < length self.now.cpus }
        ensures { result ≡ preempted_at self.now cpu }
    {
        let state = &self.cpus[cpu as usize];
        state.preempted
    }

    /// Stores whether the hypervisor has preempted a processor.
    #[inline]
    #[tactic(auto, unfolding(lk_rows::specs::Machine::set_preempted, lk_rows::specs::Machine::set_cpu, lk_rows::specs::Machine::cpu_at))]
    pub fn set_preempted(&mut self, cpu: u32, yes: bool)
        requires { cpu < length self.old.cpus }
        ensures { self.new ≡ set_preempted self.old cpu yes }
    {
        let state = &mut self.cpus[cpu as usize];
        state.preempted = yes;
    }

    /// Whether a processor has halted.
    #[inline]
    #[tactic(auto, unfolding(lk_rows::specs::Machine::halted_at, lk_rows::specs::Machine::cpu_at))]
    pub fn halted(&self, cpu: u32) -> bool
        requires { cpu < length self.now.cpus }
        ensures { result ≡ halted_at self.now cpu }
    {
        let state = &self.cpus[cpu as usize];
        state.halted
    }

    /// Stores whether a processor has halted.
    #[inline]
    #[tactic(auto, unfolding(lk_rows::specs::Machine::set_halted, lk_rows::specs::Machine::set_cpu, lk_rows::specs::Machine::cpu_at))]
    pub fn set_halted(&mut self, cpu: u32, yes: bool)
        requires { cpu < length self.old.cpus }
        ensures { self.new ≡ set_halted self.old cpu yes }
    {
        let state = &mut self.cpus[cpu as usize];
        state.halted = yes;
    }

    /// Whether a processor remembers a kick: one was made, and has ended no halt yet.
    #[inline]
    #[tactic(auto, unfolding(lk_rows::specs::Machine::kicked_at, lk_rows::specs::Machine::cpu_at))]
    pub fn kicked(&self, cpu: u32) -> bool
        requires { cpu < length self.now.cpus }
        ensures { result ≡ kicked_at self.now cpu }
    {
        let state = &self.cpus[cpu as usize];
        state.kicked
    }

    /// Stores whether a processor remembers a kick.
    #[inline]
    #[tactic(auto, unfolding(lk_rows::specs::Machine::set_kicked, lk_rows::specs::Machine::set_cpu, lk_rows::specs::Machine::cpu_at))]
    pub fn set_kicked(&mut self, cpu: u32, yes: bool)
        requires { cpu < length self.old.cpus }
        ensures { self.new ≡ set_kicked self.old cpu yes }
    {
        let state = &mut self.cpus[cpu as usize];
        state.kicked = yes;
    }

    /// How many interrupt handlers of a processor have not begun yet.
    #[inline]
    #[tactic(auto, unfolding(lk_rows::specs::Machine::handlers_at, lk_rows::specs::Machine::cpu_at, lk_rows::specs::Programs::handlers_of))]
    pub fn handlers_left(&self, cpu: u32) -> u32
        requires cpu { cpu < length self.now.cpus }
        requires programs { HasPrograms self.now.setup cpu }
        ensures { result ≡ handlers_of self.now.setup cpu - handlers_at self.now cpu }
    {
        let state = &self.cpus[cpu as usize];
        let handlers = self.setup.irqs.get(cpu as usize).len() as u32;
        handlers.saturating_sub(state.handlers)
    }

    /// The ten counts.
    #[inline]
    pub fn counts(&self) -> Counts
        ensures { result ≡ self.now.counts }
    {
        self.counts
    }

    /// Stores the ten counts.
    #[inline]
    #[tactic(auto, unfolding(lk_rows::specs::Machine::set_counts))]
    pub fn set_counts(&mut self, counts: Counts)
        ensures { self.new ≡ set_counts self.old counts }
    {
        self.counts = counts;
    }

    /// The number of processors.
    #[inline]
    pub fn cpus(&self) -> u32
        ensures { result ≡ length self.now.cpus }
    {
        self.cpus.len() as u32
    }

    /// The format of the trace.
    #[inline]
    pub fn format(&self) -> Format
        ensures { result ≡ self.now.setup.format }
    {
        self.setup.format
    }

    /// The lock family of all spinlocks.
    #[inline]
    pub fn mode(&self) -> Mode
        ensures { result ≡ self.now.setup.mode }
    {
        self.setup.mode
    }

    /// The CNA threshold: the most handoffs that a lock makes while its secondary queue is not
    /// empty. After that the secondary queue returns.
    #[inline]
    pub fn threshold(&self) -> u32
        ensures { result ≡ self.now.setup.threshold }
    {
        self.setup.threshold
    }

    /// The spin bound, in polls: how many a paravirtual waiter makes before it halts (Linux's
    /// `SPIN_THRESHOLD`).
    #[inline]
    pub fn spins(&self) -> u32
        ensures { result ≡ self.now.setup.spins }
    {
        self.setup.spins
    }

    /// The number of a processor's socket.
    #[inline]
    pub fn socket(&self, cpu: u32) -> u32
        requires { cpu < length self.now.setup.topology.sockets.items }
        ensures { slice_get self.now.setup.topology.sockets.items cpu ≡ Some result }
    {
        *self.setup.topology.sockets.get(cpu as usize)
    }

    // The number of a processor's socket, and 0 for a number that no processor has.
    fn socket_number(&self, cpu: u32) -> u32
        ensures { result ≡ slice_index_or self.now.setup.topology.sockets.items cpu 0 }
    {
        let sockets = &self.setup.topology.sockets;
        let at = cpu as usize;
        if at < sockets.len() {
            *sockets.get(at)
        } else {
            0
        }
    }

    // Whether two processors stand on the same socket.
    fn same_socket(&self, one: u32, other: u32) -> bool
        ensures { result ≡ same_socket self.now.setup.topology.sockets.items one other }
    {
        self.socket_number(one) == self.socket_number(other)
    }

    // Whether the waiter of a node is never moved aside, since it is in an interrupt and the
    // format is the second.
    fn stays(&self, name: NodeName) -> bool
        ensures { result ≡ stays self.now.setup.format (waiter_of self.now name).ctx }
    {
        match self.setup.format {
            Format::One => false,
            Format::Two => self.waiter_of(name).ctx > 0,
        }
    }

    /// Whether the waiter of the node `name` is local to processor `cpu`: it runs on the same
    /// socket or, in format 2, it is in an interrupt. A CNA queue head never moves a local waiter
    /// aside.
    #[tactic(auto, unfolding(lk_rows::specs::Moves::waiter_of))]
    pub fn is_local(&self, cpu: u32, name: NodeName) -> bool
        ensures { let setup = self.now.setup in
            result ≡ is_local setup.format setup.topology.sockets.items cpu
            (waiter_of self.now name) }
    {
        self.stays(name) || self.same_socket(cpu, name.cpu)
    }
}
