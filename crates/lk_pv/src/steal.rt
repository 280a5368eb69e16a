// A waiter that may steal the lock, past the queue.
ghost use Rattle.std.specs.Prelude.{◌≡◌, Some};
ghost use Rattle.lk_rows.specs.Machine.{HasTop, set_top, top_frame};
ghost use Rattle.lk_rows.specs.TopRow.{row};
ghost use Rattle.lk_rows.specs.rows.Pv.{after_given_up, after_glance};
ghost use Rattle.lk_pv.specs.Row.{IsPvReady};

use lk_machine::Machine;
use lk_names::{Event, How, What};
use lk_rows::{Frame, Pc, is_unlocked};
use lk_word::{Fields, Locked, NodeName};

// The row after a waiter gave up stealing: with a node it queues, and without one it polls again.
fn after_given_up(me: Option<NodeName>) -> Pc
    ensures { result ≡ after_given_up me }
{
    match me {
        None => Pc::H1,
        Some(_) => Pc::G4,
    }
}

// The row after H1 met this word.
fn after_glance(me: Option<NodeName>, word: Fields) -> Pc
    ensures { result ≡ after_glance me word }
{
    if is_unlocked(word) && !word.pending {
        Pc::H2
    } else if word.tail.is_some() && !word.pending {
        Pc::H1
    } else {
        after_given_up(me)
    }
}

// The newest frame notes whether the word had a tail, and goes to this row.
fn note_tail(machine: &mut Machine, cpu: u32, tailed: bool, place: Pc)
    requires { HasTop machine.old cpu }
    ensures { machine.new
        ≡ set_top machine.old cpu
        (record (top_frame machine.old cpu) { tailed = tailed; place = Some place }) }
{
    let frame = machine.frame(cpu);
    machine.set_frame(
        cpu,
        Frame {
            tailed,
            place: Some(place),
            ..frame
        },
    );
}

/// H1: polls whether it may steal the lock (`pv_hybrid_queued_unfair_trylock`), and stores
/// nothing. At `t,0,0` it goes on to steal (H2). At another word with a tail and no pending bit it
/// polls again. Else it gives up: with a node it queues (G4), and without one it polls again. The
/// pending bit stops it, since the queue head has set that bit to acquire the lock itself.
pub(crate) fn glance(machine: &mut Machine, cpu: u32) -> Option<Event>
    requires ready { IsPvReady machine.old cpu }
    requires here { (top_frame machine.old cpu).place ≡ Some Pc.H1 }
    ensures next { machine.new ≡ (row machine.old cpu).0 }
    ensures event { result ≡ (row machine.old cpu).1 }
{
    let frame = machine.frame(cpu);
    let word = machine.word(frame.lock);
    let tailed = word.tail.is_some();
    let place = after_glance(frame.me, word);
    if tailed && frame.tailed {
        machine.set_place(cpu, place);
    } else {
        note_tail(machine, cpu, tailed, place);
    }
    None
}

/// H2: swaps the byte from free to held, `t,p,0 -> t,p,1`, and so steals the lock
/// (`pv_hybrid_queued_unfair_trylock`). The byte was free, so nobody held the lock. The pending
/// bit and the tail stay. If the byte is not free, it stays. Then this waiter polls again (H1) if
/// the word at H1 had a tail, and else gives up as at H1.
#[tactic(auto, using(lk_machine::proofs::Kept::kept), unfolding(lk_rows::specs::Machine::set_word, lk_rows::specs::Machine::set_lock))]
pub(crate) fn steal(machine: &mut Machine, cpu: u32) -> Option<Event>
    requires ready { IsPvReady machine.old cpu }
    requires here { (top_frame machine.old cpu).place ≡ Some Pc.H2 }
    ensures next { machine.new ≡ (row machine.old cpu).0 }
    ensures event { result ≡ (row machine.old cpu).1 }
{
    let frame = machine.frame(cpu);
    let lock = frame.lock;
    if is_unlocked(machine.word(lock)) {
        let event = machine.event(
            cpu,
            What::Take {
                lock,
                how: How::Steal,
            },
        );
        machine.set_locked(lock, Locked::Held);
        let mut counts = machine.counts();
        counts.pv_lock_stealing += 1;
        machine.set_counts(counts);
        machine.leave_granted(cpu);
        return Some(event);
    }
    let place = if frame.tailed {
        Pc::H1
    } else {
        after_given_up(frame.me)
    };
    machine.set_place(cpu, place);
    None
}
