// The queue head moves waiters to the secondary queue, or lets that queue return.
ghost use Rattle.std.specs.Prelude.{◌≡◌, Some, None, [], ◌∷◌};
ghost use Rattle.lk_rows.specs.Machine.{top_frame};
ghost use Rattle.lk_rows.specs.Row.{Second, Y, gone};
ghost use Rattle.lk_rows.specs.TopRow.{row};
ghost use Rattle.lk_cna.specs.Row.{IsCnaReady};

use lk_machine::Machine;
use lk_names::{Event, What};
use lk_rows::{Frame, Pc, is_last, named};

/// C4: links the waiters that it passed over behind the secondary queue: `next` of the last node t
/// of that queue, `none -> a`. Only the head knows the secondary queue, and all waiters in it wait
/// for their flags.
pub(crate) fn append(machine: &mut Machine, cpu: u32) -> Option<Event>
    requires ready { IsCnaReady machine.old cpu }
    requires here { (top_frame machine.old cpu).place ≡ Some Pc.C4 }
    ensures next { machine.new ≡ (row machine.old cpu).0 }
    ensures event { result ≡ (row machine.old cpu).1 }
{
    let frame = machine.frame(cpu);
    let tail = named(frame.t);
    machine.set_next(tail, frame.a);
    machine.set_place(cpu, Pc::C5);
    None
}

/// C5: cuts the waiters that it passed over off from the rest: `next` of the last of them, `y ->
/// none`. That waiter waits for its flag and reads no link, and the head knows y by now.
pub(crate) fn cut(machine: &mut Machine, cpu: u32) -> Option<Event>
    requires ready { IsCnaReady machine.old cpu }
    requires here { (top_frame machine.old cpu).place ≡ Some Pc.C5 }
    ensures next { machine.new ≡ (row machine.old cpu).0 }
    ensures event { result ≡ (row machine.old cpu).1 }
{
    let frame = machine.frame(cpu);
    let last = named(frame.b);
    machine.set_next(last, None);
    machine.set_place(cpu, Pc::C6);
    None
}

/// C6: stores the new last node of the secondary queue into the first, `-> b`. Only a head reads
/// it there, at C3.
pub(crate) fn set_tail(machine: &mut Machine, cpu: u32) -> Option<Event>
    requires ready { IsCnaReady machine.old cpu }
    requires here { (top_frame machine.old cpu).place ≡ Some Pc.C6 }
    ensures next { machine.new ≡ (row machine.old cpu).0 }
    ensures event { result ≡ (row machine.old cpu).1 }
{
    let frame = machine.frame(cpu);
    let first = named(frame.second);
    machine.set_second_tail(first, frame.b);
    machine.set_place(cpu, Pc::C7);
    None
}

// The frame of a queue head whose secondary queue returned: its successor is the first of that
// queue.
fn rejoined(frame: Frame) -> Frame
    ensures { result ≡ gone frame Pc.C7 (Y frame.second ∷ Second None ∷ []) }
{
    Frame {
        y: frame.second,
        second: None,
        place: Some(Pc::C7),
        ..frame
    }
}

/// C9: links the rest of the main queue behind the secondary queue: `next` of the last node t of
/// the secondary queue, `none -> a`. So the secondary queue returns before the rest, its first
/// waiter is the successor, and nobody stands aside.
pub(crate) fn flush(machine: &mut Machine, cpu: u32) -> Option<Event>
    requires ready { IsCnaReady machine.old cpu }
    requires here { (top_frame machine.old cpu).place ≡ Some Pc.C9 }
    ensures next { machine.new ≡ (row machine.old cpu).0 }
    ensures event { result ≡ (row machine.old cpu).1 }
{
    let frame = machine.frame(cpu);
    let tail = named(frame.t);
    let event = machine.event(cpu, What::Flush { lock: frame.lock });
    machine.set_next(tail, frame.a);
    machine.set_frame(cpu, rejoined(frame));
    Some(event)
}

/// C10: swaps the tail from its own node to the last of the secondary queue, `n,0,1 -> t,0,1`. So
/// the secondary queue returns as the rest of the main queue. If another waiter took the tail or
/// set the pending bit, the word stays, and the head looks for a link again (C1). The swap
/// compares the whole word, so no waiter that came is lost.
pub(crate) fn promote(machine: &mut Machine, cpu: u32) -> Option<Event>
    requires ready { IsCnaReady machine.old cpu }
    requires here { (top_frame machine.old cpu).place ≡ Some Pc.C10 }
    ensures next { machine.new ≡ (row machine.old cpu).0 }
    ensures event { result ≡ (row machine.old cpu).1 }
{
    let frame = machine.frame(cpu);
    let word = machine.word(frame.lock);
    if is_last(frame, word) {
        let event = machine.event(cpu, What::Promote { lock: frame.lock });
        machine.set_tail(frame.lock, frame.t);
        machine.set_frame(cpu, rejoined(frame));
        return Some(event);
    }
    machine.set_place(cpu, Pc::C1);
    None
}
