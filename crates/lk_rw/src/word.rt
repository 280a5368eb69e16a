// What the rows do with the word of a reader-writer lock.
ghost use Rattle.std.specs.Prelude.{◌≡◌, ◌+◌, ◌<◌, ◌^◌};
ghost use Rattle.lk_rows.specs.Machine.{HasTop, top_frame};
ghost use Rattle.lk_rows.specs.Moves.{missed};
ghost use Rattle.lk_rows.specs.rows.Rw.{is_empty, is_open, is_cleared, one_more, one_less, written_word, rw_lock};
ghost use Rattle.lk_machine.specs.Ready.{IsReady};

use lk_machine::Machine;
use lk_names::{Event, LockName, What};
use lk_word::RwFields;

// Whether the word has no reader and no writer, and nobody waits.
pub(crate) fn is_empty(word: RwFields) -> bool
    ensures { result ≡ is_empty word }
{
    word.readers == 0 && !word.waiting && !word.writer
}

// Whether a reader may enter: there is no writer, and the waiting bit is clear.
pub(crate) fn is_open(word: RwFields) -> bool
    ensures { result ≡ is_open word }
{
    !(word.waiting || word.writer)
}

// Whether the waiting bit is set, and there is no reader and no writer.
pub(crate) fn is_cleared(word: RwFields) -> bool
    ensures { result ≡ is_cleared word }
{
    word.readers == 0 && word.waiting && !word.writer
}

// The word with one reader more.
pub(crate) fn one_more(word: RwFields) -> RwFields
    requires { word.readers + 1 < 2 ^ 23 }
    ensures { result ≡ one_more word }
{
    RwFields {
        readers: word.readers + 1,
        ..word
    }
}

// The word with one reader less.
pub(crate) fn one_less(word: RwFields) -> RwFields
    ensures { result ≡ one_less word }
{
    RwFields {
        readers: word.readers.saturating_sub(1),
        ..word
    }
}

// The writer's word.
pub(crate) fn written_word() -> RwFields
    ensures { result ≡ written_word }
{
    RwFields {
        readers: 0,
        waiting: false,
        writer: true,
    }
}

// The reader-writer lock of the newest frame's operation.
pub(crate) fn lock_of(machine: &Machine, cpu: u32) -> LockName
    requires { HasTop machine.now cpu }
    ensures { result ≡ rw_lock (top_frame machine.now cpu) }
{
    LockName {
        index: machine.lock(cpu).index,
        wait: false,
    }
}

// The try of the newest frame fails.
pub(crate) fn miss(machine: &mut Machine, cpu: u32) -> Event
    requires { IsReady machine.old cpu }
    ensures next { machine.new ≡ missed machine.old cpu }
    ensures event { result
        ≡ record {
          by = record {
            cpu = cpu;
            ctx =
                (top_frame machine.old cpu).ctx;
          };
          what = What.Miss
              (rw_lock (top_frame machine.old cpu));
        } }
{
    let lock = lock_of(machine, cpu);
    let event = machine.event(cpu, What::Miss { lock });
    machine.missed(cpu);
    event
}
