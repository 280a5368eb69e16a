// The program's call: the words that it is asked by, its statuses, what it writes, and its notes.

use lk_command::run;
use lk_guard::{Gate, OpenGate};
use lk_text::{MemSink, MemSource};
use std::alloc::{AllocError, Global};
use std::env::Args;
use std::io::{self, ErrorKind};
use std::process::Abort;
use std::sync::Wait;
use std::test::Fail;
use std::thread::Threads;

/// What came of a call of the program.
#[derive(Drop)]
pub struct Ran {
    /// The exit status.
    pub status: u8,
    /// What it wrote to standard output.
    pub text: MemSink,
    /// What it wrote to standard error.
    pub notes: MemSink,
}

/// The arguments of a command: the program's name, and the words behind it.
pub fn args_of(alloc: Global, words: &str) -> Result<Args, AllocError> {
    let mut args = Vec::new(alloc);
    args.push(String::from_str(alloc, "qlock")?)?;
    for word in words.split_whitespace() {
        args.push(String::from_str(alloc, word)?)?;
    }
    Ok(args.into_iter())
}

/// Runs the program's call, whose jobs pass this gate, on an input that comes byte by byte. The read,
/// the write and the note of these numbers fail, 0 for none.
pub fn call_with(
    rt: &(impl Abort + AllocGlobal + Threads + Wait + Sync),
    args: io::Result<Args>,
    input: &[u8],
    fails: [u64; 3],
    gate: &impl Gate,
) -> Result<Ran, Fail> {
    let alloc = rt.alloc();
    let [read, write, note] = fails;
    let mut source = MemSource::new(alloc, input, 1, &[read])?;
    let mut text = MemSink::new(alloc, 524_288, &[write])?;
    let mut notes = MemSink::new(alloc, 1_000, &[note])?;
    let status = run(rt, alloc, args, &mut source, &mut text, &mut notes, gate);
    Ok(Ran {
        status: status.number(),
        text,
        notes,
    })
}

/// Runs what these words ask for.
pub fn call(
    rt: &(impl Abort + AllocGlobal + Threads + Wait + Sync),
    words: &str,
    input: &[u8],
    fails: [u64; 3],
) -> Result<Ran, Fail> {
    let args = args_of(rt.alloc(), words)?;
    call_with(rt, Ok(args), input, fails, &OpenGate)
}

/// Sees that a call ended with this status, wrote this text, and noted this.
pub fn ended(rt: &impl Abort, ran: &Ran, wanted: (u8, &str, &str)) {
    let (status, text, note) = wanted;
    assert_eq!(rt; ran.status, status, "of {note}");
    assert_eq!(rt; ran.text.bytes(), text.as_bytes(), "of {note}");
    assert_eq!(rt; ran.notes.bytes(), note.as_bytes());
}

/// A trace of one reader.
pub const TRACE: &str =
    "qtrace 1\nmode virt\nlock 0 rw\nprog 0 read 0 runlock 0\ngo\nstep 0 2\nend\n";

// Its events.
const EVENTS: &str = "1 0.0 rtake 0 fast\n2 0.0 rrelease 0\n";

// Its transcript.
const TRANSCRIPT: &str = "\
1 0.0 rtake 0 fast
2 0.0 rrelease 0
end 2
lock_pending 0
lock_slowpath 0
lock_use_node2 0
lock_use_node3 0
lock_use_node4 0
lock_no_node 0
pv_lock_stealing 0
pv_wait_node 0
pv_wait_head 0
pv_kick_unlock 0
";

// A program that crosses a try.
const CROSSED: &str =
    "qtrace 1\nmode virt\nlock 0 spin\nlock 1 spin\nprog 0 try 0 lock 1 unlock 0 unlock 1\n";

// Too many acts.
const LONG: &str = "qtrace 1\nmode virt\ngo\nstep 0 100000001\nend\n";

// A run of the spin queue, and its transcript.
const RUN: &str = "qosq 1\nprog 0 1\ngo\nstep 0 3\nend\n";

const RUN_TEXT: &str = "2 0 take free\n3 0 release\nend 3\n";

const NO_FORMAT: &str = "bad input line 1: NoFormat\n";

// The word, the input, the read and the write that fail; the status, what is written, and the note.
type Case = (
    &'static str,
    &'static str,
    [u64; 2],
    (u8, &'static str, &'static str),
);

const CASES: [Case; 9] = [
    ("replay", TRACE, [0, 0], (0, TRANSCRIPT, "")),
    ("replay", "", [0, 0], (3, "", NO_FORMAT)),
    (
        "replay",
        CROSSED,
        [0, 0],
        (3, "", "bad input line 5: Crossed\n"),
    ),
    ("replay", TRACE, [70, 0], (4, EVENTS, "read fault\n")),
    ("replay", TRACE, [0, 1], (5, "", "write fault\n")),
    ("replay", LONG, [0, 0], (7, "", "limit line 4: Acts\n")),
    ("replay", RUN, [0, 0], (3, "", NO_FORMAT)),
    ("osq", RUN, [0, 0], (0, RUN_TEXT, "")),
    ("osq", TRACE, [0, 0], (3, "", NO_FORMAT)),
];

#[test]
fn each_end_has_its_status_and_note(rt: HostRuntime) -> Result<(), Fail> {
    for (word, input, [read, write], wanted) in CASES {
        let ran = call(&rt, word, input.as_bytes(), [read, write, 0])?;
        ended(&rt, &ran, wanted);
    }
    Ok(())
}

// The header of the trace with its transcript is lawful. A release without its take is not.
#[test]
fn audit_tells_lawful_from_unlawful(rt: HostRuntime) -> Result<(), Fail> {
    let (header, _) = TRACE.split_once("step").ok_or("no schedule")?;
    let lawful = format!(in rt.alloc(); "{header}{TRANSCRIPT}")?;
    let unlawful = format!(in rt.alloc(); "{header}2 0.0 rrelease 0\n")?;
    let table = [
        (lawful.as_str(), [0, 0], (0, "lawful 2\n", "")),
        (lawful.as_str(), [1, 0], (4, "", "read fault\n")),
        (lawful.as_str(), [0, 1], (5, "", "write fault\n")),
        (
            unlawful.as_str(),
            [0, 0],
            (8, "breach 6 NotHolder\n", "unlawful line 6\n"),
        ),
        (header, [0, 0], (3, "", "bad input line 6: NoEnd\n")),
    ];
    for (input, [read, write], wanted) in table {
        let ran = call(&rt, "audit", input.as_bytes(), [read, write, 0])?;
        ended(&rt, &ran, wanted);
    }
    Ok(())
}

// The note of words that ask for nothing that there is.
const USAGE: &str = "usage: qlock replay | ledger | gen <n> | load <n> | audit | osq\n";

// Words that are no command, one line each; the first has none.
const NO_COMMANDS: &str = "
--help
-h
gen
gen 0
gen +7
gen -7
gen -- 7
gen 7 8
gen 2147483647
load
load 0
load x
help
osq x
osqs
audit x
ledger x
replay replay
replay x";

#[test]
fn words_of_no_command_get_the_usage_line(rt: HostRuntime) -> Result<(), Fail> {
    for words in NO_COMMANDS.lines() {
        let ran = call(&rt, words, TRACE.as_bytes(), [0, 0, 0])?;
        ended(&rt, &ran, (2, "", USAGE));
    }
    Ok(())
}

// Words that can't be read: one that is no text gets the usage line, and want of memory its own.
#[test]
fn words_that_can_not_be_read_have_their_notes(rt: HostRuntime) -> Result<(), Fail> {
    let no_text = Err(io::Error::from(ErrorKind::InvalidData));
    let ran = call_with(&rt, no_text, TRACE.as_bytes(), [0, 0, 0], &OpenGate)?;
    ended(&rt, &ran, (2, "", USAGE));
    let no_memory = Err(io::Error::from(ErrorKind::OutOfMemory));
    let ran = call_with(&rt, no_memory, TRACE.as_bytes(), [0, 0, 0], &OpenGate)?;
    ended(&rt, &ran, (6, "", "out of memory\n"));
    Ok(())
}

// A note that can't be written is left out, and the status stays.
#[test]
fn failed_note_leaves_the_status(rt: HostRuntime) -> Result<(), Fail> {
    let ran = call(&rt, "replay", b"", [0, 0, 1])?;
    ended(&rt, &ran, (3, "", ""));
    Ok(())
}
