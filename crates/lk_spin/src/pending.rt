// The pending path: the first waiter behind a holder sets the pending bit and polls the word.
ghost use Rattle.std.specs.Prelude.{◌≡◌, Some};
ghost use Rattle.lk_rows.specs.Machine.{top_frame};
ghost use Rattle.lk_machine.specs.Ready.{IsReady};
ghost use Rattle.lk_rows.specs.TopRow.{row};

use lk_machine::Machine;
use lk_names::{Event, How, What};
use lk_rows::{Pc, after_pending, is_unlocked, to_queue};
use lk_word::{Fields, Locked};

/// P0: reads once more a word that had only the pending bit set, `0,1,0`. The waiter that has set
/// it is about to acquire the lock and clear the bit. If there is still a pending bit, or a tail,
/// this waiter queues (G1). Else it goes on to set the pending bit itself (P1).
pub(crate) fn look_again(machine: &mut Machine, cpu: u32) -> Option<Event>
    requires ready { IsReady machine.old cpu }
    requires here { (top_frame machine.old cpu).place ≡ Some Pc.P0 }
    ensures next { machine.new ≡ (row machine.old cpu).0 }
    ensures event { result ≡ (row machine.old cpu).1 }
{
    let word = machine.word_met(cpu);
    machine.set_place(cpu, to_queue(word));
    None
}

/// P1: sets the pending bit, `t,p,l -> t,1,l`, and gets the word before the step. If p was 1, the
/// bit is another waiter's and stays, and this waiter queues (G1). If p was 0, the bit is its own.
/// Then with a tail it clears the bit again (P2), and without one it is the next to acquire (P3,
/// P4).
pub(crate) fn set_pending(machine: &mut Machine, cpu: u32) -> Option<Event>
    requires ready { IsReady machine.old cpu }
    requires here { (top_frame machine.old cpu).place ≡ Some Pc.P1 }
    ensures next { machine.new ≡ (row machine.old cpu).0 }
    ensures event { result ≡ (row machine.old cpu).1 }
{
    let lock = machine.lock(cpu);
    let word = machine.word(lock);
    machine.set_pending(lock, true);
    machine.set_place(cpu, after_pending(word));
    None
}

/// P2: clears the pending bit, `t,1,l -> t,0,l`, and goes on to queue (G1). It is the bit that
/// this waiter set at P1 on a word with a tail. A waiter that meets a pending bit does not own it,
/// so the bit is no other waiter's.
pub(crate) fn clear_pending(machine: &mut Machine, cpu: u32) -> Option<Event>
    requires ready { IsReady machine.old cpu }
    requires here { (top_frame machine.old cpu).place ≡ Some Pc.P2 }
    ensures next { machine.new ≡ (row machine.old cpu).0 }
    ensures event { result ≡ (row machine.old cpu).1 }
{
    let lock = machine.lock(cpu);
    machine.set_pending(lock, false);
    machine.set_place(cpu, Pc::G1);
    None
}

/// P3: polls until the locked byte is free, `t,1,0`. Meanwhile the pending bit keeps all others
/// from acquiring: the fast path fails on it, and a queue head polls until it is clear.
pub(crate) fn watch(machine: &mut Machine, cpu: u32) -> Option<Event>
    requires ready { IsReady machine.old cpu }
    requires here { (top_frame machine.old cpu).place ≡ Some Pc.P3 }
    ensures next { machine.new ≡ (row machine.old cpu).0 }
    ensures event { result ≡ (row machine.old cpu).1 }
{
    let place = if is_unlocked(machine.word_met(cpu)) {
        Pc::P4
    } else {
        Pc::P3
    };
    machine.set_place(cpu, place);
    None
}

/// P4: acquires the lock and clears the pending bit in one store, `t,1,0 -> t,0,1`. The byte is
/// free since P3, or since P1. With the bit set nobody else may acquire the lock, so this needs no
/// swap. A tail that came meanwhile stays: the store leaves that part of the word.
#[tactic(auto, using(lk_machine::proofs::Kept::kept), unfolding(lk_rows::specs::Machine::set_word, lk_rows::specs::Machine::set_lock))]
pub(crate) fn take_pending(machine: &mut Machine, cpu: u32) -> Option<Event>
    requires ready { IsReady machine.old cpu }
    requires here { (top_frame machine.old cpu).place ≡ Some Pc.P4 }
    ensures next { machine.new ≡ (row machine.old cpu).0 }
    ensures event { result ≡ (row machine.old cpu).1 }
{
    let lock = machine.lock(cpu);
    let event = machine.event(
        cpu,
        What::Take {
            lock,
            how: How::Pending,
        },
    );
    let word = machine.word(lock);
    machine.set_word(
        lock,
        Fields {
            locked: Locked::Held,
            pending: false,
            ..word
        },
    );
    let mut counts = machine.counts();
    counts.lock_pending += 1;
    machine.set_counts(counts);
    machine.granted(cpu);
    Some(event)
}
