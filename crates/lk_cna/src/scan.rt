// The queue head looks for a waiter that is local to it.
ghost use Rattle.std.specs.Prelude.{◌≡◌, ◌<◌, ◌+◌, ◌^◌, Some};
ghost use Rattle.lk_rows.specs.Machine.{node_at, top_frame};
ghost use Rattle.lk_rows.specs.Moves.{node_of};
ghost use Rattle.lk_rows.specs.TopRow.{row, sight_at};
ghost use Rattle.lk_rows.specs.rows.Cna.{after_tail};
ghost use Rattle.lk_rows.specs.Searching.{first_by, first_effect, more_by, more_effect};
ghost use Rattle.lk_cna.specs.Row.{IsCnaReady, frame_after};

use lk_machine::Machine;
use lk_names::Event;
use lk_rows::{First, Frame, More, Node, Pc, Why, named};
use lk_word::NodeName;

// The frame after C1. It is not inlined: all acts are made in one loop, and there it would take
// registers from the rows that poll.
#[inline(never)]
fn after_first(frame: Frame, met: First) -> Frame
    ensures { result ≡ frame_after frame (first_effect met).leads }
{
    match met {
        First::Waits => Frame {
            k: 0,
            place: Some(Pc::C1),
            ..frame
        },
        First::Promotes(_) => Frame {
            k: 0,
            why: Why::Promotion,
            place: Some(Pc::C3),
            ..frame
        },
        First::Chooses(next) => Frame {
            k: 0,
            y: Some(next),
            place: Some(Pc::C7),
            ..frame
        },
        First::Skips(next) => Frame {
            k: 1,
            a: Some(next),
            b: Some(next),
            place: Some(Pc::C2),
            ..frame
        },
        First::Flushes(_, next) => Frame {
            k: 0,
            a: Some(next),
            why: Why::Flush,
            place: Some(Pc::C3),
            ..frame
        },
    }
}

// What the head meets in its own node.
fn first_seen(machine: &Machine, cpu: u32, frame: Frame, node: Node) -> First
    requires { node ≡ node_at machine.now (node_of frame.me) }
    ensures { result ≡ first_by (sight_at machine.now cpu frame) frame.second node.next }
{
    match node.next {
        None => First::nobody(frame.second),
        Some(next) => {
            let goes_on = node.runs < machine.threshold();
            First::somebody(frame.second, next, goes_on, machine.is_local(cpu, next))
        }
    }
}

/// C1: reads its own `next`. While fewer handoffs than the threshold were made, it chooses that
/// waiter if it is local, and else passes it over. After that the waiters aside return, or, if
/// there are none, it chooses that waiter. If nobody is linked, the waiters aside may return as
/// the rest, or, if there are none, it reads `next` again. It stores nothing.
pub(crate) fn look(machine: &mut Machine, cpu: u32) -> Option<Event>
    requires ready { IsCnaReady machine.old cpu }
    requires here { (top_frame machine.old cpu).place ≡ Some Pc.C1 }
    ensures next { machine.new ≡ (row machine.old cpu).0 }
    ensures event { result ≡ (row machine.old cpu).1 }
{
    let frame = machine.frame(cpu);
    let node = machine.node(named(frame.me));
    let met = first_seen(machine, cpu, frame, node);
    let after = after_first(frame, met);
    machine.set_frame(cpu, after);
    None
}

// The frame after C2.
fn after_more(frame: Frame, met: More) -> Frame
    requires { frame.k + 1 < 2 ^ 32 }
    ensures { result ≡ frame_after frame (more_effect frame met).leads }
{
    match met {
        More::Skips(next) => Frame {
            b: Some(next),
            k: frame.k + 1,
            place: Some(Pc::C2),
            ..frame
        },
        More::Appends(_, next) => Frame {
            y: Some(next),
            why: Why::Append,
            place: Some(Pc::C3),
            ..frame
        },
        More::Begins(next) => Frame {
            y: Some(next),
            second: frame.a,
            place: Some(Pc::C5),
            ..frame
        },
        More::Flushes(_) => Frame {
            k: 0,
            why: Why::Flush,
            place: Some(Pc::C3),
            ..frame
        },
        More::Chooses => Frame {
            k: 0,
            y: frame.a,
            place: Some(Pc::C7),
            ..frame
        },
    }
}

// What the head meets in the link of the last that it has passed over.
fn more_seen(machine: &Machine, cpu: u32, frame: Frame, next: Option<NodeName>) -> More
    ensures { result ≡ more_by (sight_at machine.now cpu frame) frame.second next }
{
    match next {
        None => More::nobody(frame.second),
        Some(next) => More::somebody(frame.second, next, machine.is_local(cpu, next)),
    }
}

/// C2: reads `next` of the last waiter that it passed over, b. It chooses a local waiter, and
/// passes another over too. If nobody is linked, it moves nobody: the waiters aside return, or, if
/// there are none, it chooses the first that it passed over. It stores nothing: the waiters that
/// it passed over stand in the queue until C5.
pub(crate) fn pass_over(machine: &mut Machine, cpu: u32) -> Option<Event>
    requires ready { IsCnaReady machine.old cpu }
    requires here { (top_frame machine.old cpu).place ≡ Some Pc.C2 }
    ensures next { machine.new ≡ (row machine.old cpu).0 }
    ensures event { result ≡ (row machine.old cpu).1 }
{
    let frame = machine.frame(cpu);
    let node = machine.node(named(frame.b));
    let met = more_seen(machine, cpu, frame, node.next);
    let after = after_more(frame, met);
    machine.set_frame(cpu, after);
    None
}

// The row of a queue head that knows the last of the secondary queue.
fn after_tail(why: Why) -> Pc
    ensures { result ≡ after_tail why }
{
    match why {
        Why::Append => Pc::C4,
        Why::Flush => Pc::C9,
        Why::Promotion => Pc::C10,
    }
}

/// C3: reads the last node of the secondary queue, in the first. Only heads store there (C6), and
/// this is the only head.
pub(crate) fn find_tail(machine: &mut Machine, cpu: u32) -> Option<Event>
    requires ready { IsCnaReady machine.old cpu }
    requires here { (top_frame machine.old cpu).place ≡ Some Pc.C3 }
    ensures next { machine.new ≡ (row machine.old cpu).0 }
    ensures event { result ≡ (row machine.old cpu).1 }
{
    let frame = machine.frame(cpu);
    let tail = machine.node(named(frame.second)).second_tail;
    machine.set_frame(
        cpu,
        Frame {
            t: tail,
            place: Some(after_tail(frame.why)),
            ..frame
        },
    );
    None
}
