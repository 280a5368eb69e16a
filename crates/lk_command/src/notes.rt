// The line that says why a run is not done.
ghost use Rattle.std.specs.Prelude.{◌≡◌, ◌≤◌, ◌+◌, ◌++◌, length, codes, decimal, OnOk, OnErr};
ghost use Rattle.lk_text.specs.Line.{line_text};
ghost use Rattle.lk_command.specs.Status.{note_of, fault_name, which_name};
ghost use Rattle.lk_command.specs.Means.{IsSaid};

use crate::status::Status;
use lk_forms::{Fault, Which};
use lk_text::{LineBuf, Sink, put};

// The fault's name.
fn name_of(fault: Fault) -> &'static [u8]
    ensures text { result.now ≡ fault_name fault }
    ensures size { length result.now ≤ 11 }
{
    match fault {
        Fault::NoFormat => b"NoFormat",
        Fault::NotText => b"NotText",
        Fault::UnknownWord => b"UnknownWord",
        Fault::WordCount => b"WordCount",
        Fault::BadNumber => b"BadNumber",
        Fault::OutOfRange => b"OutOfRange",
        Fault::Misplaced => b"Misplaced",
        Fault::Repeated => b"Repeated",
        Fault::WrongLock => b"WrongLock",
        Fault::Reheld => b"Reheld",
        Fault::NotHeld => b"NotHeld",
        Fault::StillHeld => b"StillHeld",
        Fault::Crossed => b"Crossed",
        Fault::NoEnd => b"NoEnd",
    }
}

// The limit's name.
fn limit_name(which: Which) -> &'static [u8]
    ensures text { result.now ≡ which_name which }
    ensures size { length result.now ≤ 8 }
{
    match which {
        Which::Line => b"Line",
        Which::Input => b"Input",
        Which::Words => b"Words",
        Which::Handlers => b"Handlers",
        Which::Acts => b"Acts",
        Which::Jobs => b"Jobs",
        Which::Total => b"Total",
    }
}

// The line of a line's refusal.
#[tactic(auto, using(lk_text::proofs::Decimal::decimal_short))]
fn refusal_note(start: &[u8], line: u64, name: &[u8]) -> LineBuf
    requires start { length start.now ≤ 15 }
    requires name { length name.now ≤ 11 }
    ensures { line_text result
        ≡ start.now ++ (decimal line ++ (codes ": " ++ (name.now ++ codes "\n"))) }
{
    let mut note = LineBuf::new();
    note.word(start);
    note.number(line);
    note.word(b": ");
    note.word(name);
    note.word(b"\n");
    note
}

// The line of an unlawful history.
#[tactic(auto, using(lk_text::proofs::Decimal::decimal_short))]
fn unlawful_note(line: u64) -> LineBuf
    ensures { line_text result ≡ codes "unlawful line " ++ (decimal line ++ codes "\n") }
{
    let mut note = LineBuf::new();
    note.word(b"unlawful line ");
    note.number(line);
    note.word(b"\n");
    note
}

// Writes a note. What can't be written is left out.
fn say<N: Sink>(notes: &mut N, text: &[u8])
    ensures { IsSaid (N.held notes.old) (N.held notes.new) (N.faults notes.old)
        (N.faults notes.new) text.now }
{
    let _ = put(notes, text);
}

/// Writes the line of a status, if the status has one. A fault of this write changes nothing.
pub fn note<N: Sink>(notes: &mut N, status: Status)
    ensures { IsSaid (N.held notes.old) (N.held notes.new) (N.faults notes.old) (N.faults notes.new)
        (note_of status) }
{
    match status {
        Status::Done => {}
        Status::Usage => say(
            notes,
            b"usage: qlock replay | ledger | gen <n> | load <n> | audit | osq\n",
        ),
        Status::ReadFault => say(notes, b"read fault\n"),
        Status::WriteFault => say(notes, b"write fault\n"),
        Status::Memory => say(notes, b"out of memory\n"),
        Status::BadInput { line, fault } => {
            let text = refusal_note(b"bad input line ", line, name_of(fault));
            say(notes, text.bytes());
        }
        Status::Limit { line, which } => {
            let text = refusal_note(b"limit line ", line, limit_name(which));
            say(notes, text.bytes());
        }
        Status::Unlawful { line } => {
            let text = unlawful_note(line);
            say(notes, text.bytes());
        }
    }
}
