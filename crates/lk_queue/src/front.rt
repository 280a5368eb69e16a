// The queue head, up to the handoff.
ghost use Rattle.std.specs.Prelude.{◌≡◌, Some};
ghost use Rattle.lk_rows.specs.Machine.{top_frame};
ghost use Rattle.lk_machine.specs.Ready.{IsReady};
ghost use Rattle.lk_rows.specs.TopRow.{row};
ghost use Rattle.lk_rows.specs.rows.Queue.{after_head};

use crate::arrive::take_out;
use lk_machine::Machine;
use lk_names::{Event, How, Mode, What};
use lk_rows::{Flag, Pc, after_look, is_sole, named};
use lk_word::Locked;

/// G7: polls as the queue head until the word is `*,0,0`: the lock is free, and no pending waiter
/// is about to acquire it. From then on nobody else can acquire it: a fast path fails on the tail,
/// and a waiter that sets the pending bit on a word with a tail clears it again.
pub(crate) fn wait_as_front(machine: &mut Machine, cpu: u32) -> Option<Event>
    requires ready { IsReady machine.old cpu }
    requires here { (top_frame machine.old cpu).place ≡ Some Pc.G7 }
    ensures next { machine.new ≡ (row machine.old cpu).0 }
    ensures event { result ≡ (row machine.old cpu).1 }
{
    let frame = machine.frame(cpu);
    let word = machine.word(frame.lock);
    let place = after_look(word, named(frame.me), frame.second.is_some());
    machine.set_place(cpu, place);
    None
}

/// G8: swaps the word of a head that is alone in the queue, `n,0,0 -> 0,0,1`. So it acquires the
/// lock and leaves an empty queue. If another waiter exchanged the tail or set the pending bit
/// meanwhile, the word stays, and the head goes on to G9. The swap compares the whole word, so it
/// loses no waiter that came.
pub(crate) fn take_sole(machine: &mut Machine, cpu: u32) -> Option<Event>
    requires ready { IsReady machine.old cpu }
    requires here { (top_frame machine.old cpu).place ≡ Some Pc.G8 }
    ensures next { machine.new ≡ (row machine.old cpu).0 }
    ensures event { result ≡ (row machine.old cpu).1 }
{
    let frame = machine.frame(cpu);
    if is_sole(machine.word(frame.lock), named(frame.me)) {
        return Some(take_out(machine, cpu, How::Sole));
    }
    machine.set_place(cpu, Pc::G9);
    None
}

// The row after G9.
fn after_head(mode: Mode) -> Pc
    ensures { result ≡ after_head mode }
{
    match mode {
        Mode::Cna => Pc::C1,
        _ => Pc::G10,
    }
}

/// G9: stores held into the locked byte, `t,p,0 -> t,p,1`. The byte is free since G7, and nobody
/// but the head can acquire the lock since then, so this needs no swap. The tail and the pending
/// bit stay.
pub(crate) fn take_head(machine: &mut Machine, cpu: u32) -> Option<Event>
    requires ready { IsReady machine.old cpu }
    requires here { (top_frame machine.old cpu).place ≡ Some Pc.G9 }
    ensures next { machine.new ≡ (row machine.old cpu).0 }
    ensures event { result ≡ (row machine.old cpu).1 }
{
    let lock = machine.lock(cpu);
    let event = machine.event(
        cpu,
        What::Take {
            lock,
            how: How::Head,
        },
    );
    let place = after_head(machine.mode());
    machine.set_locked(lock, Locked::Held);
    machine.set_place(cpu, place);
    Some(event)
}

/// G10: polls its own `next` until its successor has stored it, `none -> y`. A waiter that
/// exchanged the tail stores the link in its next step (G5). But if G8 failed by a pending bit
/// alone, there may be no successor yet, and then it polls until a waiter queues.
pub(crate) fn wait_for_next(machine: &mut Machine, cpu: u32) -> Option<Event>
    requires ready { IsReady machine.old cpu }
    requires here { (top_frame machine.old cpu).place ≡ Some Pc.G10 }
    ensures next { machine.new ≡ (row machine.old cpu).0 }
    ensures event { result ≡ (row machine.old cpu).1 }
{
    machine.find_next(cpu, Pc::G10, Pc::G11);
    None
}

/// G11: hands off. It stores go into the flag of its successor y, `unset -> go`, which makes y's
/// waiter the head. It gives its own node back, and goes on as the holder. Only the head stores
/// into its successor's flag, and the successor has linked itself, so nobody needs the own node
/// any more.
pub(crate) fn hand_on(machine: &mut Machine, cpu: u32) -> Option<Event>
    requires ready { IsReady machine.old cpu }
    requires here { (top_frame machine.old cpu).place ≡ Some Pc.G11 }
    ensures next { machine.new ≡ (row machine.old cpu).0 }
    ensures event { result ≡ (row machine.old cpu).1 }
{
    let frame = machine.frame(cpu);
    let event = machine.hand(cpu, named(frame.y), Flag::Go, 0);
    machine.leave_granted(cpu);
    Some(event)
}
