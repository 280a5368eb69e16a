// The machine at rest.

ghost use Rattle.std.specs.Prelude.{◌≡◌, ◌<◌, ◌≤◌, ◌*◌, [], ◌∷◌, IfOk, length, slice_get, vec_capacity};
ghost use Rattle.std.specs.Int.{IsNextPowerOfTwo};
ghost use Rattle.lk_rows.specs.Machine.{rest_node, rest_frame, rest_counts};
ghost use Rattle.lk_rows.specs.Run.{first_frame, rest_cpu, rest_cpus, at_rest};

use crate::machine::moves::started;
use crate::machine::packed::layout_of;
use crate::machine::words::Words;
use crate::machine::{CpuState, MAX_FRAMES, MAX_NODES, Machine};
use lk_hash::LockHash;
use lk_names::{List, LockName, Memory, Mode};
use lk_rows::{Counts, Flag, Frame, Node, Op, Setup, State, Why};
use std::alloc::Global;

impl Machine {
    /// A machine at rest: all locks are free, no node is used, and each task stands at the first
    /// row of its program, if it has one. All memory is taken here. There must be 1 to 1,024
    /// processors, a program for each of them, and at most 32 locks.
    ///
    /// # Errors
    ///
    /// There is not enough memory.
    #[tactic(auto, using(crate::proofs::Rested::rested))]
    pub fn new(alloc: Global, setup: Setup) -> Result<Machine, Memory>
        requires some { 0 < length setup.topology.sockets.items }
        requires few { length setup.topology.sockets.items ≤ 1024 }
        requires locks { length setup.locks.items ≤ 32 }
        requires progs { length setup.progs.items ≡ length setup.topology.sockets.items }
        ensures { IfOk result (λ machine. machine ≡ at_rest setup) }
    {
        let words = Words::new(alloc, layout_of(setup.format), setup.locks.len())?;
        let cpus = rest_cpus(alloc, &setup)?;
        let hash = empty_hash(alloc, cpus.len() as u32)?;
        Ok(Machine {
            setup,
            words,
            cpus,
            hash,
            counts: rest_counts(),
        })
    }
}

// The hash of a machine of so many processors at rest.
fn empty_hash(alloc: Global, cpus: u32) -> Result<LockHash, Memory>
    requires some { 1 ≤ cpus }
    requires few { cpus ≤ 1024 }
    ensures places { IfOk result (λ hash. IsNextPowerOfTwo (4 * cpus) hash.places) }
    ensures empty { IfOk result (λ hash. hash.entries ≡ []) }
{
    match LockHash::new(alloc, cpus) {
        Ok(hash) => Ok(hash),
        Err(_) => Err(Memory),
    }
}

// The processors at rest.
#[tactic(auto, using(crate::proofs::Rested::rested))]
fn rest_cpus(alloc: Global, setup: &Setup) -> Result<Vec<CpuState>, Memory>
    requires { length setup.now.progs.items ≡ length setup.now.topology.sockets.items }
    ensures { IfOk result
        (λ cpus. cpus.items ≡ rest_cpus setup.now 0 (length setup.now.topology.sockets.items)) }
{
    let count = setup.topology.sockets.len();
    let mut cpus = Vec::with_capacity(alloc, count)?;
    for cpu in 0..count {
        let state = rest_cpu(alloc, setup, cpu)?;
        cpus.push(state).map_err(|_| Memory)?;
    }
    Ok(cpus)
}

// A processor whose task stands at the first row of its program, or is finished where it has none.
#[tactic(auto, unfolding(lk_rows::specs::Programs::program_at))]
fn rest_cpu(alloc: Global, setup: &Setup, cpu: usize) -> Result<CpuState, Memory>
    requires { cpu < length setup.now.progs.items }
    ensures { IfOk result (λ state. state ≡ rest_cpu setup.now cpu) }
{
    let first = first_frame(setup.mode, setup.progs.get(cpu));
    let frames = lone_frame(alloc, first)?;
    Ok(CpuState {
        frames,
        nodes: [rest_node(); MAX_NODES],
        queued: 0,
        preempted: false,
        halted: false,
        kicked: false,
        handlers: 0,
    })
}

// One frame, with room for those of interrupts.
fn lone_frame(alloc: Global, frame: Frame) -> Result<Vec<Frame>, Memory>
    ensures items { IfOk result (λ frames. frames.items ≡ frame ∷ []) }
    ensures room { IfOk result (λ frames. 6 ≤ vec_capacity frames) }
{
    let mut frames = Vec::with_capacity(alloc, MAX_FRAMES)?;
    frames.push(frame).map_err(|_| Memory)?;
    Ok(frames)
}

// The frame of a task at the first row of its program, or finished where it has none.
fn first_frame(mode: Mode, program: &List<Op>) -> Frame
    ensures { result ≡ first_frame mode (slice_get program.now.items 0) }
{
    if program.len() == 0 {
        rest_frame()
    } else {
        started(mode, rest_frame(), *program.get(0))
    }
}

// A node that nobody uses.
pub(super) fn rest_node() -> Node
    ensures { result ≡ rest_node }
{
    Node {
        flag: Flag::Unset,
        next: None,
        second_tail: None,
        runs: 0,
        state: State::Running,
    }
}

// A new frame, which acts on nothing yet.
pub(super) fn rest_frame() -> Frame
    ensures { result ≡ rest_frame }
{
    Frame {
        ctx: 0,
        program: 0,
        at: 0,
        place: None,
        lock: LockName {
            index: 0,
            wait: false,
        },
        me: None,
        prev: None,
        second: None,
        y: None,
        a: None,
        b: None,
        k: 0,
        t: None,
        why: Why::Append,
        tailed: false,
        left: 0,
        hashed: false,
        target: None,
        then: None,
    }
}

// Nothing counted yet.
fn rest_counts() -> Counts
    ensures { result ≡ rest_counts }
{
    Counts {
        lock_pending: 0,
        lock_slowpath: 0,
        lock_use_node2: 0,
        lock_use_node3: 0,
        lock_use_node4: 0,
        lock_no_node: 0,
        pv_lock_stealing: 0,
        pv_wait_node: 0,
        pv_wait_head: 0,
        pv_kick_unlock: 0,
    }
}
