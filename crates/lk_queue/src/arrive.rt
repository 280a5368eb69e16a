// A waiter on its way into the queue, up to where it is the head; and a waiter without a node.
ghost use Rattle.std.specs.Prelude.{◌≡◌, ◌^◌, ◌-◌, Some, None};
ghost use Rattle.lk_rows.specs.Machine.{top_frame};
ghost use Rattle.lk_machine.specs.Ready.{IsReady, CountsWithin};
ghost use Rattle.lk_rows.specs.Row.{count_all, with_rest};
ghost use Rattle.lk_rows.specs.TopRow.{row, on_word};
ghost use Rattle.lk_rows.specs.rows.Queue.{own_node, after_entry, entry_counts, takes_out, after_arrival, after_link};
ghost use Rattle.lk_queue.specs.Row.{HasOwn, frame_after};

use lk_machine::Machine;
use lk_names::{Event, How, Mode, What};
use lk_rows::{Counts, Flag, Frame, HELD, Pc, is_free, named};
use lk_word::NodeName;

// The node that a frame gets where so many frames of its processor are in the slow path.
fn own_node(cpu: u32, queued: u32) -> Option<NodeName>
    ensures { result ≡ own_node cpu queued }
{
    if queued < 4 {
        Some(NodeName { cpu, index: queued })
    } else {
        None
    }
}

// The row after G1 of a frame that got this node, or none.
fn after_entry(mode: Mode, me: Option<NodeName>) -> Pc
    ensures { result ≡ after_entry mode me }
{
    match (mode, me) {
        (Mode::Pv, _) => Pc::H1,
        (_, None) => Pc::N1,
        (_, Some(_)) => Pc::G2,
    }
}

// The counts after an entry with so many frames in the slow path before it.
fn entry_counts(mode: Mode, queued: u32, mut counts: Counts) -> Counts
    requires { CountsWithin (2 ^ 64 - 2) counts }
    ensures { result ≡ count_all counts (entry_counts mode queued) }
{
    if !matches!(mode, Mode::Pv) {
        counts.lock_slowpath += 1;
    }
    match queued {
        0 => {}
        1 => counts.lock_use_node2 += 1,
        2 => counts.lock_use_node3 += 1,
        3 => counts.lock_use_node4 += 1,
        _ => counts.lock_no_node += 1,
    }
    counts
}

// Resets the node of a frame, if it got one.
fn reset(machine: &mut Machine, me: Option<NodeName>)
    requires { HasOwn machine.old me }
    ensures { machine.new ≡ with_rest machine.old me }
{
    if let Some(node) = me {
        machine.reset_node(node);
    }
}

/// G1: counts itself into the slow path of its processor, `i -> i + 1`, and takes node i of the
/// processor's four, reset. Interrupts nest, so the frames below use nodes below i, and no frame
/// uses node i. From i = 4 on no node is left, and this waiter goes on without one.
#[tactic(auto, using(lk_machine::proofs::Kept::kept, crate::proofs::Own::own_is_there), unfolding(lk_rows::specs::Machine::set_queued, lk_rows::specs::Machine::set_cpu))]
pub(crate) fn enter(machine: &mut Machine, cpu: u32) -> Option<Event>
    requires ready { IsReady machine.old cpu }
    requires here { (top_frame machine.old cpu).place ≡ Some Pc.G1 }
    ensures next { machine.new ≡ (row machine.old cpu).0 }
    ensures event { result ≡ (row machine.old cpu).1 }
{
    let frame = machine.frame(cpu);
    let queued = machine.queued(cpu);
    let mode = machine.mode();
    let counts = entry_counts(mode, queued, machine.counts());
    let me = own_node(cpu, queued);
    machine.set_queued(cpu, queued + 1);
    machine.set_counts(counts);
    reset(machine, me);
    machine.set_frame(
        cpu,
        Frame {
            me,
            second: None,
            hashed: false,
            place: Some(after_entry(mode, me)),
            ..frame
        },
    );
    None
}

// Stores held into the word, with no tail and no pending bit, and leaves the slow path.
pub(crate) fn take_out(machine: &mut Machine, cpu: u32, how: How) -> Event
    requires { IsReady machine.old cpu }
    ensures next { machine.new
        ≡ (on_word machine.old cpu (top_frame machine.old cpu)
        (takes_out (top_frame machine.old cpu) how)).0 }
    ensures event { Some result
        ≡ (on_word machine.old cpu (top_frame machine.old cpu)
        (takes_out (top_frame machine.old cpu) how)).1 }
{
    let lock = machine.lock(cpu);
    let event = machine.event(cpu, What::Take { lock, how });
    machine.set_word(lock, HELD);
    machine.leave_granted(cpu);
    event
}

/// G2: reads once more whether the word is free, `0,0,0`, before it touches the queue. The reset
/// of the node may have taken a while, and the holder may have released meanwhile.
pub(crate) fn look_again(machine: &mut Machine, cpu: u32) -> Option<Event>
    requires ready { IsReady machine.old cpu }
    requires here { (top_frame machine.old cpu).place ≡ Some Pc.G2 }
    ensures next { machine.new ≡ (row machine.old cpu).0 }
    ensures event { result ≡ (row machine.old cpu).1 }
{
    let place = if is_free(machine.word_met(cpu)) {
        Pc::G3
    } else {
        Pc::G4
    };
    machine.set_place(cpu, place);
    None
}

/// G3: swaps the word from free to held, `0,0,0 -> 0,0,1`, as F1 does. If another waiter was
/// faster, the word stays, and this waiter queues (G4).
pub(crate) fn swap_again(machine: &mut Machine, cpu: u32) -> Option<Event>
    requires ready { IsReady machine.old cpu }
    requires here { (top_frame machine.old cpu).place ≡ Some Pc.G3 }
    ensures next { machine.new ≡ (row machine.old cpu).0 }
    ensures event { result ≡ (row machine.old cpu).1 }
{
    if is_free(machine.word_met(cpu)) {
        return Some(take_out(machine, cpu, How::Retry));
    }
    machine.set_place(cpu, Pc::G4);
    None
}

// The frame after its waiter exchanged the tail. Without a tail before, it is the queue head.
fn arrived(mode: Mode, frame: Frame, met: Option<NodeName>) -> Frame
    ensures { result ≡ frame_after frame (after_arrival mode met).leads }
{
    match met {
        Some(_) => Frame {
            prev: met,
            place: Some(Pc::G5),
            ..frame
        },
        None => Frame {
            place: Some(match mode {
                Mode::Pv => Pc::E1,
                _ => Pc::G7,
            }),
            ..frame
        },
    }
}

/// G4: exchanges the tail for its own node, `t,p,l -> n,p,l`. The pending bit and the locked byte
/// stay. From here on it has its place in the queue, though its predecessor's node t has no link
/// to it yet. If there was no tail, it is the queue head.
pub(crate) fn exchange_tail(machine: &mut Machine, cpu: u32) -> Option<Event>
    requires ready { IsReady machine.old cpu }
    requires here { (top_frame machine.old cpu).place ≡ Some Pc.G4 }
    ensures next { machine.new ≡ (row machine.old cpu).0 }
    ensures event { result ≡ (row machine.old cpu).1 }
{
    let frame = machine.frame(cpu);
    let word = machine.word(frame.lock);
    let mode = machine.mode();
    let event = machine.event(cpu, What::Arrive { lock: frame.lock });
    machine.set_tail(frame.lock, frame.me);
    machine.set_frame(cpu, arrived(mode, frame, word.tail));
    Some(event)
}

// The frame after its waiter linked its node. A paravirtual waiter has all polls of the spin bound
// left.
fn linked(mode: Mode, spins: u32, frame: Frame) -> Frame
    ensures { result ≡ frame_after frame (after_link mode spins) }
{
    match mode {
        Mode::Pv => Frame {
            left: spins,
            place: Some(Pc::W1),
            ..frame
        },
        _ => Frame {
            place: Some(Pc::G6),
            ..frame
        },
    }
}

/// G5: stores its own node into `next` of its predecessor's node, `none -> n`. Only this waiter
/// links there, since it alone met that node as the tail. The predecessor does not give its node
/// back before it has seen the link.
#[tactic(auto, using(lk_machine::proofs::Kept::kept, crate::proofs::Leads::link_leads))]
pub(crate) fn link(machine: &mut Machine, cpu: u32) -> Option<Event>
    requires ready { IsReady machine.old cpu }
    requires here { (top_frame machine.old cpu).place ≡ Some Pc.G5 }
    ensures next { machine.new ≡ (row machine.old cpu).0 }
    ensures event { result ≡ (row machine.old cpu).1 }
{
    let frame = machine.frame(cpu);
    let prev = named(frame.prev);
    let after = linked(machine.mode(), machine.spins(), frame);
    machine.set_next(prev, frame.me);
    machine.set_frame(cpu, after);
    None
}

/// G6: polls its own flag until the queue head hands off to it, `unset -> go`. In mode `cna` the
/// flag may name the first node of the secondary queue. Only the head stores there, and each
/// waiter polls its own node.
pub(crate) fn wait(machine: &mut Machine, cpu: u32) -> Option<Event>
    requires ready { IsReady machine.old cpu }
    requires here { (top_frame machine.old cpu).place ≡ Some Pc.G6 }
    ensures next { machine.new ≡ (row machine.old cpu).0 }
    ensures event { result ≡ (row machine.old cpu).1 }
{
    let frame = machine.frame(cpu);
    match machine.node(named(frame.me)).flag {
        Flag::Unset => machine.set_place(cpu, Pc::G6),
        Flag::Go => machine.set_place(cpu, Pc::G7),
        Flag::Second(node) => machine.set_frame(
            cpu,
            Frame {
                second: Some(node),
                place: Some(Pc::G7),
                ..frame
            },
        ),
    }
    None
}

/// N1: polls until the word is free, `0,0,0`, as a waiter without a node. It stores nothing, and
/// it has no place in the queue: others may acquire the lock before it.
pub(crate) fn look_bare(machine: &mut Machine, cpu: u32) -> Option<Event>
    requires ready { IsReady machine.old cpu }
    requires here { (top_frame machine.old cpu).place ≡ Some Pc.N1 }
    ensures next { machine.new ≡ (row machine.old cpu).0 }
    ensures event { result ≡ (row machine.old cpu).1 }
{
    let place = if is_free(machine.word_met(cpu)) {
        Pc::N2
    } else {
        Pc::N1
    };
    machine.set_place(cpu, place);
    None
}

/// N2: swaps the word from free to held, `0,0,0 -> 0,0,1`, as F1 does. If another waiter was
/// faster, the word stays, and this waiter polls again (N1).
pub(crate) fn swap_bare(machine: &mut Machine, cpu: u32) -> Option<Event>
    requires ready { IsReady machine.old cpu }
    requires here { (top_frame machine.old cpu).place ≡ Some Pc.N2 }
    ensures next { machine.new ≡ (row machine.old cpu).0 }
    ensures event { result ≡ (row machine.old cpu).1 }
{
    if is_free(machine.word_met(cpu)) {
        return Some(take_out(machine, cpu, How::NoNode));
    }
    machine.set_place(cpu, Pc::N1);
    None
}
