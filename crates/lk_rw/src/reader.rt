// The rows of readers.
ghost use Rattle.std.specs.Prelude.{◌≡◌, None, Some};
ghost use Rattle.lk_rows.specs.Machine.{HasTop, top_frame, rw_at};
ghost use Rattle.lk_rows.specs.TopRow.{row, on_rw};
ghost use Rattle.lk_rows.specs.Row.{Done, event_of};
ghost use Rattle.lk_rows.specs.rows.Rw.{admits, one_more};
ghost use Rattle.lk_rw.specs.Row.{IsRwReady};

use crate::word::{is_open, lock_of, miss, one_less, one_more};
use lk_machine::Machine;
use lk_names::{Event, RwHow, What};
use lk_rows::Pc;
use lk_word::RwFields;

// The event of a reader that has acquired in this way.
fn acquired(machine: &Machine, cpu: u32, how: RwHow) -> Event
    requires { HasTop machine.now cpu }
    ensures { Some result
        ≡ event_of machine.now cpu (top_frame machine.now cpu)
        (admits (top_frame machine.now cpu) None how Done).tells }
{
    let lock = lock_of(machine, cpu);
    machine.event(cpu, What::RTake { lock, how })
}

// The reader comes in with one more in the word, and its operation is done.
fn admit_more(machine: &mut Machine, cpu: u32, word: RwFields, how: RwHow) -> Event
    requires ready { IsRwReady machine.old cpu }
    requires met { word ≡ rw_at machine.old (top_frame machine.old cpu).lock.index }
    ensures next { machine.new
        ≡ (on_rw machine.old cpu (top_frame machine.old cpu)
        (admits (top_frame machine.old cpu) (Some (one_more word)) how Done)).0 }
    ensures event { Some result
        ≡ (on_rw machine.old cpu (top_frame machine.old cpu)
        (admits (top_frame machine.old cpu) (Some (one_more word)) how Done)).1 }
{
    let event = acquired(machine, cpu, how);
    let lock = machine.lock(cpu);
    machine.set_rw(lock.index, one_more(word));
    machine.done(cpu);
    event
}

/// R1: adds a reader, `r,w,x -> r+1,w,x`. If the waiting bit is clear and there is no writer
/// (`r,0,0 -> r+1,0,0`), the reader has acquired. Else a reader in an interrupt goes on to wait
/// for the writer alone (R2), and a reader of a task to take itself back (R3).
pub(crate) fn first(machine: &mut Machine, cpu: u32) -> Option<Event>
    requires ready { IsRwReady machine.old cpu }
    requires here { (top_frame machine.old cpu).place ≡ Some Pc.R1 }
    ensures next { machine.new ≡ (row machine.old cpu).0 }
    ensures event { result ≡ (row machine.old cpu).1 }
{
    let word = machine.rw_met(cpu);
    if is_open(word) {
        return Some(admit_more(machine, cpu, word, RwHow::Fast));
    }
    let frame = machine.frame(cpu);
    machine.set_rw(frame.lock.index, one_more(word));
    let place = if frame.ctx == 0 { Pc::R3 } else { Pc::R2 };
    machine.set_place(cpu, place);
    None
}

/// R2: polls until there is no writer, whoever waits. An interrupt must not queue behind a writer
/// that may wait for the reader below it. The reader stays counted in the word, so that no writer
/// acquires meanwhile.
pub(crate) fn spin(machine: &mut Machine, cpu: u32) -> Option<Event>
    requires ready { IsRwReady machine.old cpu }
    requires here { (top_frame machine.old cpu).place ≡ Some Pc.R2 }
    ensures next { machine.new ≡ (row machine.old cpu).0 }
    ensures event { result ≡ (row machine.old cpu).1 }
{
    if machine.rw_met(cpu).writer {
        machine.set_place(cpu, Pc::R2);
        return None;
    }
    let event = acquired(machine, cpu, RwHow::Irq);
    machine.done(cpu);
    Some(event)
}

/// R3: takes itself back, `r,w,x -> r-1,w,x`, and goes on to acquire the wait lock.
pub(crate) fn retreat(machine: &mut Machine, cpu: u32) -> Option<Event>
    requires ready { IsRwReady machine.old cpu }
    requires here { (top_frame machine.old cpu).place ≡ Some Pc.R3 }
    ensures next { machine.new ≡ (row machine.old cpu).0 }
    ensures event { result ≡ (row machine.old cpu).1 }
{
    let word = machine.rw_met(cpu);
    let lock = machine.lock(cpu);
    machine.set_rw(lock.index, one_less(word));
    machine.take_wait(cpu, Pc::R4);
    None
}

/// R4: adds itself again, `r,w,x -> r+1,w,x`, now as the holder of the wait lock.
pub(crate) fn join(machine: &mut Machine, cpu: u32) -> Option<Event>
    requires ready { IsRwReady machine.old cpu }
    requires here { (top_frame machine.old cpu).place ≡ Some Pc.R4 }
    ensures next { machine.new ≡ (row machine.old cpu).0 }
    ensures event { result ≡ (row machine.old cpu).1 }
{
    let word = machine.rw_met(cpu);
    let lock = machine.lock(cpu);
    machine.set_rw(lock.index, one_more(word));
    machine.set_place(cpu, Pc::R5);
    None
}

/// R5: polls until there is no writer. Then it has acquired, and goes on to release the wait lock.
pub(crate) fn wait(machine: &mut Machine, cpu: u32) -> Option<Event>
    requires ready { IsRwReady machine.old cpu }
    requires here { (top_frame machine.old cpu).place ≡ Some Pc.R5 }
    ensures next { machine.new ≡ (row machine.old cpu).0 }
    ensures event { result ≡ (row machine.old cpu).1 }
{
    let word = machine.rw_met(cpu);
    if word.writer {
        machine.set_place(cpu, Pc::R5);
        return None;
    }
    let event = acquired(machine, cpu, RwHow::Queued);
    machine.free_wait(cpu);
    Some(event)
}

/// Y1: reads the word. If the waiting bit is set or there is a writer, the try fails.
pub(crate) fn try_look(machine: &mut Machine, cpu: u32) -> Option<Event>
    requires ready { IsRwReady machine.old cpu }
    requires here { (top_frame machine.old cpu).place ≡ Some Pc.Y1 }
    ensures next { machine.new ≡ (row machine.old cpu).0 }
    ensures event { result ≡ (row machine.old cpu).1 }
{
    if is_open(machine.rw_met(cpu)) {
        machine.set_place(cpu, Pc::Y2);
        return None;
    }
    Some(miss(machine, cpu))
}

/// Y2: adds a reader, `r,w,x -> r+1,w,x`. If the waiting bit is clear and there is no writer, the
/// reader has acquired. Else it goes on to take itself back (Y3).
pub(crate) fn try_add(machine: &mut Machine, cpu: u32) -> Option<Event>
    requires ready { IsRwReady machine.old cpu }
    requires here { (top_frame machine.old cpu).place ≡ Some Pc.Y2 }
    ensures next { machine.new ≡ (row machine.old cpu).0 }
    ensures event { result ≡ (row machine.old cpu).1 }
{
    let word = machine.rw_met(cpu);
    if is_open(word) {
        return Some(admit_more(machine, cpu, word, RwHow::Try));
    }
    let lock = machine.lock(cpu);
    machine.set_rw(lock.index, one_more(word));
    machine.set_place(cpu, Pc::Y3);
    None
}

/// Y3: takes itself back, `r,w,x -> r-1,w,x`. The try fails.
pub(crate) fn try_fail(machine: &mut Machine, cpu: u32) -> Option<Event>
    requires ready { IsRwReady machine.old cpu }
    requires here { (top_frame machine.old cpu).place ≡ Some Pc.Y3 }
    ensures next { machine.new ≡ (row machine.old cpu).0 }
    ensures event { result ≡ (row machine.old cpu).1 }
{
    let word = machine.rw_met(cpu);
    let lock = lock_of(machine, cpu);
    let event = machine.event(cpu, What::Miss { lock });
    machine.set_rw(lock.index, one_less(word));
    machine.missed(cpu);
    Some(event)
}

/// Z1: a reader releases, `r,w,x -> r-1,w,x`.
pub(crate) fn release(machine: &mut Machine, cpu: u32) -> Option<Event>
    requires ready { IsRwReady machine.old cpu }
    requires here { (top_frame machine.old cpu).place ≡ Some Pc.Z1 }
    ensures next { machine.new ≡ (row machine.old cpu).0 }
    ensures event { result ≡ (row machine.old cpu).1 }
{
    let word = machine.rw_met(cpu);
    let lock = lock_of(machine, cpu);
    let event = machine.event(cpu, What::RRelease { lock });
    machine.set_rw(lock.index, one_less(word));
    machine.done(cpu);
    Some(event)
}
