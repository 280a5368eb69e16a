// The part of the machine on which a row operates.

ghost use Rattle.std.specs.Prelude.{◌≤◌, length};

use crate::text::Text;
use lk_machine::{MAX_NODES, Machine};
use lk_names::LockName;
use lk_rows::{Family, Frame, Pc, State, named};
use lk_word::NodeName;

/// A part of the machine on which a row operates.
#[derive(Clone, Copy)]
pub(crate) enum Spot {
    /// The word of a spinlock or a wait lock.
    Word(LockName),
    /// The word of a reader-writer lock.
    Rw(u32),
    /// The number of frames of a processor that are in the slow path.
    Queued(u32),
    /// The flag and the link of a node.
    Node(NodeName),
    /// The last node of the secondary queue, which stands in this node.
    SecondTail(NodeName),
    /// The number of handoffs since the secondary queue became non-empty, which stands in this
    /// node.
    Runs(NodeName),
    /// The state of a node: what its processor does, in mode `pv`.
    State(NodeName),
    /// The entry of a lock in the hash, in mode `pv`.
    Entry(LockName),
    /// Whether a processor has halted.
    Halt(u32),
    /// Whether a kick of a processor is remembered.
    Kick(u32),
}

// The part on which a row of the queue operates, or one of the choice of the successor in mode
// `cna`.
fn queue_spot(place: Pc, cpu: u32, frame: &Frame) -> Spot {
    match place {
        Pc::G1 => Spot::Queued(cpu),
        Pc::G5 => Spot::Node(named(frame.prev)),
        Pc::G6 | Pc::G10 | Pc::C1 => Spot::Node(named(frame.me)),
        Pc::G11 | Pc::C8 => Spot::Node(named(frame.y)),
        Pc::C2 | Pc::C5 => Spot::Node(named(frame.b)),
        Pc::C3 | Pc::C6 => Spot::SecondTail(named(frame.second)),
        Pc::C4 | Pc::C9 => Spot::Node(named(frame.t)),
        Pc::C7 => Spot::Runs(named(frame.y)),
        _ => Spot::Word(frame.lock),
    }
}

// The part on which a row of the paravirtual lock operates.
fn halting_spot(place: Pc, cpu: u32, frame: &Frame) -> Spot {
    match place {
        Pc::W1 | Pc::W4 | Pc::E14 => Spot::Node(named(frame.me)),
        Pc::E15 => Spot::Node(named(frame.y)),
        Pc::W2 => Spot::State(named(frame.prev)),
        Pc::W3 | Pc::W5 | Pc::W7 | Pc::E1 | Pc::E2 | Pc::E10 => Spot::State(named(frame.me)),
        Pc::K1 => Spot::State(named(frame.y)),
        Pc::E6 | Pc::E9 | Pc::K3 | Pc::U3 => Spot::Entry(frame.lock),
        Pc::W6 | Pc::E12 => Spot::Halt(cpu),
        Pc::U5 => Spot::Kick(named(frame.target).cpu),
        _ => Spot::Word(frame.lock),
    }
}

/// The part on which the row at this place operates, made by the top frame of a processor.
pub(crate) fn spot_of(place: Pc, cpu: u32, frame: &Frame) -> Spot {
    match place.family() {
        Family::Spin => Spot::Word(frame.lock),
        Family::Queue | Family::Cna => queue_spot(place, cpu, frame),
        Family::Pv => halting_spot(place, cpu, frame),
        Family::Rw => Spot::Rw(frame.lock.index),
    }
}

impl Spot {
    /// Appends the name of the part.
    pub(crate) fn tell_name(self, text: &mut Text) {
        match self {
            Spot::Word(_) | Spot::Rw(_) => text.word("lock "),
            Spot::Queued(_) => text.word("nodes "),
            Spot::Node(_) => text.word("node "),
            Spot::SecondTail(_) => text.word("second "),
            Spot::Runs(_) => text.word("runs "),
            Spot::State(_) => text.word("state "),
            Spot::Entry(_) => text.word("hash "),
            Spot::Halt(_) => text.word("halted "),
            Spot::Kick(_) => text.word("kicked "),
        }
        match self {
            Spot::Word(lock) | Spot::Entry(lock) => text.lock(lock),
            Spot::Rw(number) | Spot::Queued(number) | Spot::Halt(number) | Spot::Kick(number) => {
                text.number(u64::from(number))
            }
            Spot::Node(name) | Spot::SecondTail(name) | Spot::Runs(name) | Spot::State(name) => {
                text.node(Some(name))
            }
        }
    }

    // Appends the value of a part of a node.
    fn tell_node(self, name: NodeName, machine: &Machine, text: &mut Text) {
        if name.cpu >= machine.cpus() || name.index as usize >= MAX_NODES {
            return text.word("nothing");
        }
        let node = machine.node(name);
        match self {
            Spot::SecondTail(_) => text.node(node.second_tail),
            Spot::Runs(_) => text.number(u64::from(node.runs)),
            Spot::State(_) => text.word(match node.state {
                State::Running => "running",
                State::Halted => "halted",
                State::Hashed => "hashed",
            }),
            _ => text.link(node),
        }
    }

    // Appends the value of a part of a processor.
    fn tell_cpu(self, cpu: u32, machine: &Machine, text: &mut Text) {
        if cpu >= machine.cpus() {
            return text.word("nothing");
        }
        let number = match self {
            Spot::Halt(_) => u32::from(machine.halted(cpu)),
            Spot::Kick(_) => u32::from(machine.kicked(cpu)),
            _ => machine.queued(cpu),
        };
        text.number(u64::from(number));
    }

    /// Appends the value of the part, in a machine of `locks` locks; `nothing` if the machine has
    /// no such part.
    pub(crate) fn tell_value(self, machine: &Machine, locks: u32, text: &mut Text)
        requires { locks ≤ length machine.now.locks }
    {
        match self {
            Spot::Word(lock) if lock.index < locks => text.fields(machine.word(lock)),
            Spot::Rw(index) if index < locks => text.rw_fields(machine.rw(index)),
            Spot::Entry(lock) if lock.index < locks => text.node(machine.hashed(lock)),
            Spot::Word(_) | Spot::Rw(_) | Spot::Entry(_) => text.word("nothing"),
            Spot::Queued(cpu) | Spot::Halt(cpu) | Spot::Kick(cpu) => {
                self.tell_cpu(cpu, machine, text)
            }
            Spot::Node(name) | Spot::SecondTail(name) | Spot::Runs(name) | Spot::State(name) => {
                self.tell_node(name, machine, text)
            }
        }
    }
}
