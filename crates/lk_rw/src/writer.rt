// The rows of writers.
ghost use Rattle.std.specs.Prelude.{◌≡◌, None, Some};
ghost use Rattle.lk_rows.specs.Machine.{top_frame};
ghost use Rattle.lk_rows.specs.TopRow.{row, stored_rw};
ghost use Rattle.lk_rows.specs.Row.{Done, event_of};
ghost use Rattle.lk_machine.specs.Ready.{IsReady};
ghost use Rattle.lk_rows.specs.rows.Rw.{takes_written, written_word};
ghost use Rattle.lk_rw.specs.Row.{IsRwReady};

use crate::word::{is_cleared, is_empty, lock_of, miss, written_word};
use lk_machine::Machine;
use lk_names::{Event, RwHow, What};
use lk_rows::Pc;
use lk_word::RwFields;

// Stores the writer's word: the writer has acquired, in this way.
fn take(machine: &mut Machine, cpu: u32, how: RwHow) -> Event
    requires { IsReady machine.old cpu }
    ensures word { machine.new
        ≡ stored_rw machine.old (top_frame machine.old cpu).lock.index (Some written_word) }
    ensures event { Some result
        ≡ event_of machine.old cpu (top_frame machine.old cpu)
        (takes_written (top_frame machine.old cpu) how Done).tells }
{
    let lock = lock_of(machine, cpu);
    let event = machine.event(cpu, What::WTake { lock, how });
    machine.set_rw(lock.index, written_word());
    event
}

/// Wr1: swaps the word from empty to the writer's, `0,0,0 -> 0,0,1`. If it is not empty, the
/// writer goes on to acquire the wait lock.
pub(crate) fn first(machine: &mut Machine, cpu: u32) -> Option<Event>
    requires ready { IsRwReady machine.old cpu }
    requires here { (top_frame machine.old cpu).place ≡ Some Pc.Wr1 }
    ensures next { machine.new ≡ (row machine.old cpu).0 }
    ensures event { result ≡ (row machine.old cpu).1 }
{
    if is_empty(machine.rw_met(cpu)) {
        let event = take(machine, cpu, RwHow::Fast);
        machine.done(cpu);
        return Some(event);
    }
    machine.take_wait(cpu, Pc::Wr2);
    None
}

/// Wr2: reads, as the holder of the wait lock, whether the word is empty.
pub(crate) fn look(machine: &mut Machine, cpu: u32) -> Option<Event>
    requires ready { IsRwReady machine.old cpu }
    requires here { (top_frame machine.old cpu).place ≡ Some Pc.Wr2 }
    ensures next { machine.new ≡ (row machine.old cpu).0 }
    ensures event { result ≡ (row machine.old cpu).1 }
{
    let place = if is_empty(machine.rw_met(cpu)) {
        Pc::Wr3
    } else {
        Pc::Wr4
    };
    machine.set_place(cpu, place);
    None
}

/// Wr3: swaps the word from empty to the writer's, `0,0,0 -> 0,0,1`, and goes on to release the
/// wait lock. If the swap fails, since a reader was added after Wr2, it goes on to announce itself
/// (Wr4).
pub(crate) fn swap(machine: &mut Machine, cpu: u32) -> Option<Event>
    requires ready { IsRwReady machine.old cpu }
    requires here { (top_frame machine.old cpu).place ≡ Some Pc.Wr3 }
    ensures next { machine.new ≡ (row machine.old cpu).0 }
    ensures event { result ≡ (row machine.old cpu).1 }
{
    if is_empty(machine.rw_met(cpu)) {
        let event = take(machine, cpu, RwHow::Queued);
        machine.free_wait(cpu);
        return Some(event);
    }
    machine.set_place(cpu, Pc::Wr4);
    None
}

/// Wr4: sets the waiting bit, `r,w,x -> r,1,x`. From here on only readers in interrupts acquire.
pub(crate) fn announce(machine: &mut Machine, cpu: u32) -> Option<Event>
    requires ready { IsRwReady machine.old cpu }
    requires here { (top_frame machine.old cpu).place ≡ Some Pc.Wr4 }
    ensures next { machine.new ≡ (row machine.old cpu).0 }
    ensures event { result ≡ (row machine.old cpu).1 }
{
    let word = machine.rw_met(cpu);
    let lock = machine.lock(cpu);
    machine.set_rw(
        lock.index,
        RwFields {
            waiting: true,
            ..word
        },
    );
    machine.set_place(cpu, Pc::Wr5);
    None
}

/// Wr5: polls until no reader is counted in the word and there is no writer.
pub(crate) fn wait(machine: &mut Machine, cpu: u32) -> Option<Event>
    requires ready { IsRwReady machine.old cpu }
    requires here { (top_frame machine.old cpu).place ≡ Some Pc.Wr5 }
    ensures next { machine.new ≡ (row machine.old cpu).0 }
    ensures event { result ≡ (row machine.old cpu).1 }
{
    let place = if is_cleared(machine.rw_met(cpu)) {
        Pc::Wr6
    } else {
        Pc::Wr5
    };
    machine.set_place(cpu, place);
    None
}

/// Wr6: swaps the word from waiting to the writer's, `0,1,0 -> 0,0,1`, and goes on to release the
/// wait lock. If a reader was added meanwhile, it polls again (Wr5).
pub(crate) fn claim(machine: &mut Machine, cpu: u32) -> Option<Event>
    requires ready { IsRwReady machine.old cpu }
    requires here { (top_frame machine.old cpu).place ≡ Some Pc.Wr6 }
    ensures next { machine.new ≡ (row machine.old cpu).0 }
    ensures event { result ≡ (row machine.old cpu).1 }
{
    if is_cleared(machine.rw_met(cpu)) {
        let event = take(machine, cpu, RwHow::Queued);
        machine.free_wait(cpu);
        return Some(event);
    }
    machine.set_place(cpu, Pc::Wr5);
    None
}

/// Y4: reads the word. If it is not empty, the try fails.
pub(crate) fn try_look(machine: &mut Machine, cpu: u32) -> Option<Event>
    requires ready { IsRwReady machine.old cpu }
    requires here { (top_frame machine.old cpu).place ≡ Some Pc.Y4 }
    ensures next { machine.new ≡ (row machine.old cpu).0 }
    ensures event { result ≡ (row machine.old cpu).1 }
{
    if is_empty(machine.rw_met(cpu)) {
        machine.set_place(cpu, Pc::Y5);
        return None;
    }
    Some(miss(machine, cpu))
}

/// Y5: swaps the word from empty to the writer's, `0,0,0 -> 0,0,1`. If it is no longer empty, the
/// try fails.
pub(crate) fn try_swap(machine: &mut Machine, cpu: u32) -> Option<Event>
    requires ready { IsRwReady machine.old cpu }
    requires here { (top_frame machine.old cpu).place ≡ Some Pc.Y5 }
    ensures next { machine.new ≡ (row machine.old cpu).0 }
    ensures event { result ≡ (row machine.old cpu).1 }
{
    if is_empty(machine.rw_met(cpu)) {
        let event = take(machine, cpu, RwHow::Try);
        machine.done(cpu);
        return Some(event);
    }
    Some(miss(machine, cpu))
}

/// Z2: the writer releases, `r,w,1 -> r,w,0`. Readers that wait stay counted.
pub(crate) fn release(machine: &mut Machine, cpu: u32) -> Option<Event>
    requires ready { IsRwReady machine.old cpu }
    requires here { (top_frame machine.old cpu).place ≡ Some Pc.Z2 }
    ensures next { machine.new ≡ (row machine.old cpu).0 }
    ensures event { result ≡ (row machine.old cpu).1 }
{
    let word = machine.rw_met(cpu);
    let lock = lock_of(machine, cpu);
    let event = machine.event(cpu, What::WRelease { lock });
    machine.set_rw(
        lock.index,
        RwFields {
            writer: false,
            ..word
        },
    );
    machine.done(cpu);
    Some(event)
}
