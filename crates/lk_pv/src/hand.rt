// The holder that came through the queue hands off, and sees to it that a new head that has halted
// will be kicked.
ghost use Rattle.std.specs.Prelude.{◌≡◌, Some};
ghost use Rattle.lk_rows.specs.Machine.{top_frame};
ghost use Rattle.lk_rows.specs.TopRow.{row};
ghost use Rattle.lk_pv.specs.Row.{IsPvReady};

use crate::word::{is_halted, known};
use lk_machine::Machine;
use lk_names::{Event, What};
use lk_rows::{Flag, Pc, State, is_last, named};
use lk_word::Locked;

/// E13: swaps the tail from its own node to none, `n,0,1 -> 0,0,1`, and so leaves an empty queue
/// (`queued_spin_lock_slowpath`). It holds the lock. If another waiter exchanged the tail, the
/// word stays, and it goes on to hand off (E14). The swap compares the whole word, so it loses no
/// waiter that came.
pub(crate) fn leave_queue(machine: &mut Machine, cpu: u32) -> Option<Event>
    requires ready { IsPvReady machine.old cpu }
    requires here { (top_frame machine.old cpu).place ≡ Some Pc.E13 }
    ensures next { machine.new ≡ (row machine.old cpu).0 }
    ensures event { result ≡ (row machine.old cpu).1 }
{
    let frame = machine.frame(cpu);
    let lock = frame.lock;
    if is_last(frame, machine.word(lock)) {
        let event = machine.event(cpu, What::Leave { lock });
        machine.set_tail(lock, None);
        machine.leave_granted(cpu);
        return Some(event);
    }
    machine.set_place(cpu, Pc::E14);
    None
}

/// E14: polls its own `next` until its successor has stored it, `none -> y`
/// (`queued_spin_lock_slowpath`). E13 met another tail, and the waiter that exchanged it stores
/// the link in its next step (G5).
pub(crate) fn wait_for_next(machine: &mut Machine, cpu: u32) -> Option<Event>
    requires ready { IsPvReady machine.old cpu }
    requires here { (top_frame machine.old cpu).place ≡ Some Pc.E14 }
    ensures next { machine.new ≡ (row machine.old cpu).0 }
    ensures event { result ≡ (row machine.old cpu).1 }
{
    machine.find_next(cpu, Pc::E14, Pc::E15);
    None
}

/// E15: hands off. It stores go into the flag of its successor y, `unset -> go`, which makes y's
/// waiter the head (`queued_spin_lock_slowpath`). It still holds the lock, and goes on to look
/// whether the new head has halted (K1). Only the head stores into its successor's flag.
pub(crate) fn hand_on(machine: &mut Machine, cpu: u32) -> Option<Event>
    requires ready { IsPvReady machine.old cpu }
    requires here { (top_frame machine.old cpu).place ≡ Some Pc.E15 }
    ensures next { machine.new ≡ (row machine.old cpu).0 }
    ensures event { result ≡ (row machine.old cpu).1 }
{
    let frame = machine.frame(cpu);
    let event = machine.hand(cpu, named(frame.y), Flag::Go, 0);
    machine.set_place(cpu, Pc::K1);
    Some(event)
}

/// K1: swaps the state of the new head's node y, `halted -> hashed` (`pv_kick_node`). A halted
/// state says that the new head may have halted, so the holder makes the release kick it (K2, K3).
/// Another state stays, and the holder goes on: the new head will not halt at W6, since it sees
/// its flag set (W1, W4).
pub(crate) fn mark_hashed(machine: &mut Machine, cpu: u32) -> Option<Event>
    requires ready { IsPvReady machine.old cpu }
    requires here { (top_frame machine.old cpu).place ≡ Some Pc.K1 }
    ensures next { machine.new ≡ (row machine.old cpu).0 }
    ensures event { result ≡ (row machine.old cpu).1 }
{
    let frame = machine.frame(cpu);
    let next = named(frame.y);
    if is_halted(machine.node(next).state) {
        machine.set_state(next, State::Hashed);
        machine.set_place(cpu, Pc::K2);
        return None;
    }
    machine.leave_granted(cpu);
    None
}

/// K2: stores slow into the byte, `t,p,1 -> t,p,S` (`pv_kick_node`). It holds the lock, and the
/// new head finds its state hashed (E1) and so does not store into the byte (E5). So this needs no
/// swap.
pub(crate) fn store_slow(machine: &mut Machine, cpu: u32) -> Option<Event>
    requires ready { IsPvReady machine.old cpu }
    requires here { (top_frame machine.old cpu).place ≡ Some Pc.K2 }
    ensures next { machine.new ≡ (row machine.old cpu).0 }
    ensures event { result ≡ (row machine.old cpu).1 }
{
    let lock = machine.lock(cpu);
    machine.set_locked(lock, Locked::Slow);
    machine.set_place(cpu, Pc::K3);
    None
}

/// K3: enters the new head's node into the hash as the lock's entry, `none -> y` (`pv_hash`), and
/// goes on as the holder. The byte is slow before the entry is there. That does no harm, since the
/// holder itself is who will release.
pub(crate) fn enter_next(machine: &mut Machine, cpu: u32) -> Option<Event>
    requires ready { IsPvReady machine.old cpu }
    requires here { (top_frame machine.old cpu).place ≡ Some Pc.K3 }
    ensures next { machine.new ≡ (row machine.old cpu).0 }
    ensures event { result ≡ (row machine.old cpu).1 }
{
    let frame = machine.frame(cpu);
    machine.hash_enter(frame.lock, known(frame.y));
    machine.leave_granted(cpu);
    None
}
