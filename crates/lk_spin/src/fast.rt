// The fast path, the try, the test-and-set loop, and the release.
ghost use Rattle.std.specs.Prelude.{◌≡◌, None, Some};
ghost use Rattle.lk_rows.specs.Machine.{top_frame};
ghost use Rattle.lk_machine.specs.Ready.{IsReady};
ghost use Rattle.lk_rows.specs.Moves.{missed};
ghost use Rattle.lk_rows.specs.TopRow.{row, on_word};
ghost use Rattle.lk_rows.specs.rows.Spin.{takes};

use lk_machine::Machine;
use lk_names::{Event, How, What};
use lk_rows::{HELD, Pc, after_fast, is_free};
use lk_word::Locked;

// Swaps the free word to held. The free word has no tail and no pending bit, so the swap leaves
// the locked byte alone set.
fn take(machine: &mut Machine, cpu: u32, how: How) -> Event
    requires { IsReady machine.old cpu }
    ensures next { machine.new
        ≡ (on_word machine.old cpu (top_frame machine.old cpu)
        (takes (top_frame machine.old cpu) how)).0 }
    ensures event { Some result
        ≡ (on_word machine.old cpu (top_frame machine.old cpu)
        (takes (top_frame machine.old cpu) how)).1 }
{
    let lock = machine.lock(cpu);
    let event = machine.event(cpu, What::Take { lock, how });
    machine.set_word(lock, HELD);
    machine.granted(cpu);
    event
}

/// F1: swaps the word from free to held, `0,0,0 -> 0,0,1`. The free word says that nobody holds
/// the lock, nobody pends and nobody queues, so this waiter is the only holder. Any other word
/// stays, and says where the waiter goes on.
pub(crate) fn fast(machine: &mut Machine, cpu: u32) -> Option<Event>
    requires ready { IsReady machine.old cpu }
    requires here { (top_frame machine.old cpu).place ≡ Some Pc.F1 }
    ensures next { machine.new ≡ (row machine.old cpu).0 }
    ensures event { result ≡ (row machine.old cpu).1 }
{
    let word = machine.word_met(cpu);
    if is_free(word) {
        return Some(take(machine, cpu, How::Fast));
    }
    machine.set_place(cpu, after_fast(machine.mode(), word));
    None
}

/// T1: reads whether the word is free, `0,0,0`, and stores nothing. If it is not, the try fails.
pub(crate) fn try_look(machine: &mut Machine, cpu: u32) -> Option<Event>
    requires ready { IsReady machine.old cpu }
    requires here { (top_frame machine.old cpu).place ≡ Some Pc.T1 }
    ensures next { machine.new ≡ (row machine.old cpu).0 }
    ensures event { result ≡ (row machine.old cpu).1 }
{
    if is_free(machine.word_met(cpu)) {
        machine.set_place(cpu, Pc::T2);
        return None;
    }
    Some(miss(machine, cpu))
}

// The try of the newest frame fails.
fn miss(machine: &mut Machine, cpu: u32) -> Event
    requires { IsReady machine.old cpu }
    ensures next { machine.new ≡ missed machine.old cpu }
    ensures event { result
        ≡ record {
          by = record {
            cpu = cpu;
            ctx =
                (top_frame machine.old cpu).ctx;
          };
          what = What.Miss (top_frame machine.old cpu).lock;
        } }
{
    let lock = machine.lock(cpu);
    let event = machine.event(cpu, What::Miss { lock });
    machine.missed(cpu);
    event
}

/// T2: swaps the word from free to held, `0,0,0 -> 0,0,1`. Another waiter may have changed the
/// word since T1, so this is a swap and not a store. If the word is no longer free, it stays, and
/// the try fails.
pub(crate) fn try_swap(machine: &mut Machine, cpu: u32) -> Option<Event>
    requires ready { IsReady machine.old cpu }
    requires here { (top_frame machine.old cpu).place ≡ Some Pc.T2 }
    ensures next { machine.new ≡ (row machine.old cpu).0 }
    ensures event { result ≡ (row machine.old cpu).1 }
{
    if is_free(machine.word_met(cpu)) {
        return Some(take(machine, cpu, How::Try));
    }
    Some(miss(machine, cpu))
}

/// U1: stores free into the locked byte, `t,p,1 -> t,p,0`. While the lock is held only its holder
/// stores into the byte, so it needs no swap. The pending bit and the tail stay: they belong to
/// the waiters.
pub(crate) fn release(machine: &mut Machine, cpu: u32) -> Option<Event>
    requires ready { IsReady machine.old cpu }
    requires here { (top_frame machine.old cpu).place ≡ Some Pc.U1 }
    ensures next { machine.new ≡ (row machine.old cpu).0 }
    ensures event { result ≡ (row machine.old cpu).1 }
{
    let lock = machine.lock(cpu);
    let event = machine.event(cpu, What::Release { lock, owing: None });
    machine.set_locked(lock, Locked::Free);
    machine.freed(cpu);
    Some(event)
}

/// V1: polls until the word is free, `0,0,0`. It stores nothing, so the waiters do not disturb the
/// holder.
pub(crate) fn loop_look(machine: &mut Machine, cpu: u32) -> Option<Event>
    requires ready { IsReady machine.old cpu }
    requires here { (top_frame machine.old cpu).place ≡ Some Pc.V1 }
    ensures next { machine.new ≡ (row machine.old cpu).0 }
    ensures event { result ≡ (row machine.old cpu).1 }
{
    let place = if is_free(machine.word_met(cpu)) {
        Pc::V2
    } else {
        Pc::V1
    };
    machine.set_place(cpu, place);
    None
}

/// V2: swaps the word from free to held, `0,0,0 -> 0,0,1`. If another waiter was faster, the word
/// stays, and this waiter polls again (V1). It has stored nothing, so there is nothing to undo.
pub(crate) fn loop_swap(machine: &mut Machine, cpu: u32) -> Option<Event>
    requires ready { IsReady machine.old cpu }
    requires here { (top_frame machine.old cpu).place ≡ Some Pc.V2 }
    ensures next { machine.new ≡ (row machine.old cpu).0 }
    ensures event { result ≡ (row machine.old cpu).1 }
{
    if is_free(machine.word_met(cpu)) {
        return Some(take(machine, cpu, How::Virt));
    }
    machine.set_place(cpu, Pc::V1);
    None
}
