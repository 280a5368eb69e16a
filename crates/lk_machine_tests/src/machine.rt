// A machine at rest, as it is read and written.

ghost use Rattle.std.specs.Prelude.{◌≡◌, [], ◌∷◌, IfOk, length};
ghost use Rattle.lk_rows.specs.Machine.{HasTop};
ghost use Rattle.lk_rows.specs.Programs.{HasPrograms, handlers_of};

use lk_machine::Machine;
use lk_names::{Format, Kind, List, LockName, Memory, Mode, Topology};
use lk_rows::{Counts, Op, Pc, Setup, Verb};
use lk_word::{Fields, Locked, NodeName, RwFields};
use std::alloc::Global;
use std::test::Fail;

fn lone<T: Drop>(alloc: Global, item: T) -> Result<List<T>, Memory>
    ensures { IfOk result (λ list. list.items ≡ item ∷ []) }
{
    let mut list = List::new(alloc, 1)?;
    list.push(item);
    Ok(list)
}

fn pair(alloc: Global, first: Op, second: Op) -> Result<List<Op>, Memory>
    ensures { IfOk result (λ list. list.items ≡ first ∷ second ∷ []) }
{
    let mut list = List::new(alloc, 2)?;
    list.push(first);
    list.push(second);
    Ok(list)
}

// One processor, on socket 5, which takes and releases the one lock, and has one handler without
// operations.
#[tactic(auto, unfolding(lk_rows::specs::Programs::handlers_of))]
fn smallest(alloc: Global) -> Result<Setup, Memory>
    ensures sockets { IfOk result (λ setup. length setup.topology.sockets.items ≡ 1) }
    ensures locks { IfOk result (λ setup. length setup.locks.items ≡ 1) }
    ensures progs { IfOk result (λ setup. length setup.progs.items ≡ 1) }
    ensures irqs { IfOk result (λ setup. length setup.irqs.items ≡ 1) }
    ensures handlers { IfOk result (λ setup. handlers_of setup 0 ≡ 1) }
{
    let lock = Op {
        verb: Verb::Lock,
        lock: 0,
    };
    let unlock = Op {
        verb: Verb::Unlock,
        lock: 0,
    };
    let handler = List::new(alloc, 0)?;
    Ok(Setup {
        format: Format::One,
        mode: Mode::Virt,
        topology: Topology {
            sockets: lone(alloc, 5)?,
        },
        threshold: 65535,
        spins: 32768,
        locks: lone(alloc, Kind::Spin)?,
        progs: lone(alloc, pair(alloc, lock, unlock)?)?,
        irqs: lone(alloc, lone(alloc, handler)?)?,
    })
}

// The smallest machine at rest.
#[tactic(auto, using(lk_machine::proofs::Rested::rested))]
fn at_rest(alloc: Global) -> Result<Machine, Memory>
    ensures locks { IfOk result (λ m. length m.locks ≡ 1) }
    ensures cpus { IfOk result (λ m. length m.cpus ≡ 1) }
    ensures top { IfOk result (λ m. HasTop m 0) }
    ensures sockets { IfOk result (λ m. length m.setup.topology.sockets.items ≡ 1) }
    ensures programs { IfOk result (λ m. HasPrograms m.setup 0) }
{
    Machine::new(alloc, smallest(alloc)?)
}

const LOCK: LockName = LockName {
    index: 0,
    wait: false,
};

const WAIT: LockName = LockName {
    index: 0,
    wait: true,
};

const NODE: NodeName = NodeName { cpu: 0, index: 3 };

const FREE: Fields = Fields {
    locked: Locked::Free,
    pending: false,
    tail: None,
};

const HELD: Fields = Fields {
    locked: Locked::Held,
    pending: true,
    tail: None,
};

const NOBODY: RwFields = RwFields {
    readers: 0,
    waiting: false,
    writer: false,
};

const WAITED: RwFields = RwFields {
    readers: 3,
    waiting: true,
    writer: false,
};

const NOTHING: Counts = Counts {
    lock_pending: 0,
    lock_slowpath: 0,
    lock_use_node2: 0,
    lock_use_node3: 0,
    lock_use_node4: 0,
    lock_no_node: 0,
    pv_lock_stealing: 0,
    pv_wait_node: 0,
    pv_wait_head: 0,
    pv_kick_unlock: 0,
};

// What a machine shows of its setup and of its one processor.
fn readings(machine: &Machine) -> [u32; 11]
    requires cpus { length machine.now.cpus ≡ 1 }
    requires top { HasTop machine.now 0 }
    requires sockets { length machine.now.setup.topology.sockets.items ≡ 1 }
    requires programs { HasPrograms machine.now.setup 0 }
{
    [
        machine.cpus(),
        machine.threshold(),
        machine.spins(),
        machine.socket(0),
        machine.depth(0),
        machine.queued(0),
        machine.handlers_left(0),
        machine.frame(0).at,
        machine.frame_at(0, 0).ctx,
        machine.waiter_of(NODE).ctx,
        machine.node(NODE).runs,
    ]
}

// Whether its lock is free, and its processor stands before the first row.
fn is_idle(machine: &Machine) -> bool
    requires locks { length machine.now.locks ≡ 1 }
    requires cpus { length machine.now.cpus ≡ 1 }
    requires top { HasTop machine.now 0 }
{
    machine.word(LOCK) == FREE
        && machine.format() == Format::One
        && machine.context_of(NODE).is_none()
        && machine.rw(0) == NOBODY
        && machine.place(0) == Some(Pc::F1)
        && !machine.preempted(0)
        && !machine.halted(0)
        && !machine.kicked(0)
}

#[test]
fn shows_its_rest(rt: HostRuntime) -> Result<(), Fail> {
    let machine = at_rest(rt.alloc())?;
    assert!(rt; readings(&machine) == [1, 65535, 32768, 5, 1, 0, 1, 0, 0, 0, 0]);
    assert!(rt; is_idle(&machine));
    assert!(rt; machine.mode() == Mode::Virt && machine.counts() == NOTHING);
    // The one processor stands on socket 5, and one that there is not on socket 0.
    assert!(rt; machine.is_local(0, NODE) && !machine.is_local(1, NODE));
    assert!(rt; machine.is_local(1, NodeName { cpu: 2, index: 0 }));
    Ok(())
}

// Writes the words of the one lock, of which each keeps its own.
#[tactic(auto, using(lk_machine::proofs::Kept::kept))]
fn keeps_words(machine: &mut Machine) -> bool
    requires { length machine.old.locks ≡ 1 }
{
    machine.set_rw(0, WAITED);
    machine.set_word(WAIT, HELD);
    machine.word(WAIT) == HELD && machine.word(LOCK) == FREE && machine.rw(0) == WAITED
}

// Takes the wait lock by the rows of a spinlock, and frees it by their release.
#[tactic(auto, using(lk_machine::proofs::Kept::kept))]
fn frees_what_it_takes(machine: &mut Machine) -> bool
    requires { HasTop machine.old 0 }
{
    machine.take_wait(0, Pc::R4);
    let frame = machine.frame(0);
    let goes_on = frame.lock == WAIT && frame.then == Some(Pc::R4);
    let takes = machine.place(0) == Some(Pc::F1);
    machine.free_wait(0);
    let frees = machine.place(0) == Some(Pc::U1) && machine.frame(0).lock == WAIT;
    goes_on && takes && frees
}

#[test]
fn shows_what_is_written(rt: HostRuntime) -> Result<(), Fail> {
    assert!(rt; keeps_words(&mut at_rest(rt.alloc())?));
    assert!(rt; frees_what_it_takes(&mut at_rest(rt.alloc())?));
    Ok(())
}

// A lock that is entered into the hash is found there, and removed.
#[test]
#[tactic(auto, using(lk_machine::proofs::Rested::rested), unfolding(lk_rows::specs::Machine::entry_at, lk_rows::specs::Machine::set_entry))]
fn finds_what_is_entered(rt: HostRuntime) -> Result<(), Fail> {
    let mut machine = Machine::new(rt.alloc(), smallest(rt.alloc())?)?;
    machine.hash_enter(LOCK, NODE);
    assert!(rt; machine.hashed(LOCK) == Some(NODE));
    assert!(rt; machine.hash_remove(LOCK) == NODE);
    Ok(())
}
