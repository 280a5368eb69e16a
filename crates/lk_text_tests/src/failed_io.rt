// A read or a write that fails once and then goes on, and what is written before the source is
// asked for more.

ghost use Rattle.std.specs.Prelude.{◌<◌, ◌+◌, ◌≤◌, None};

use crate::texts::Text;
use lk_replay::{ReplayFault, replay};
use lk_text::{
    Failed, LineFault, LineReader, MemSink, MemSource, Sink, Source, StdSink, StdSource,
};
use std::io::{self, ErrorKind, Read, Write};
use std::process::Abort;
use std::test::Fail;

// The fault that a reader meets in its first lines, if it meets one.
fn fault_of(reader: &mut LineReader, source: &mut MemSource) -> Option<LineFault> {
    for _ in 0..4 {
        if let Err(fault) = reader.next_line(source) {
            return Some(fault);
        }
    }
    None
}

// How many of the next nine reads of one byte give one.
fn bytes_left(source: &mut MemSource) -> u64 {
    let mut left: u64 = 0;
    let mut buf = [0; 1];
    for _ in 0..9 {
        if source.read(&mut buf) == Ok(1) {
            left = left.saturating_add(1);
        }
    }
    left
}

// One read fails, once. The reader answers it, in the call that met it and from then on, and does
// not read again: what the source has left is the rest of the eight bytes, of which each read gives
// one.
fn answers_a_failed_read(rt: &(impl Abort + AllocGlobal), call: u64) -> Result<(), Fail> {
    let mut source = MemSource::new(rt.alloc(), b"ab\ncd\nef", 1, &[call])?;
    let mut reader = LineReader::new(rt.alloc())?;
    let met = fault_of(&mut reader, &mut source);
    assert!(rt; met == Some(LineFault::ReadFault), "at {call}");
    let again = fault_of(&mut reader, &mut source);
    assert!(rt; again == Some(LineFault::ReadFault), "at {call}");
    assert!(rt;
        bytes_left(&mut source).saturating_add(call) == 9,
        "at {call}"
    );
    Ok(())
}

#[test]
fn a_failed_read_is_not_made_again(rt: HostRuntime) -> Result<(), Fail> {
    for call in 1..9 {
        answers_a_failed_read(&rt, call)?;
    }
    Ok(())
}

// A write that fails before the next read leaves the source what it has: the events of a line are
// written before the line behind it is asked for. Where a piece has more lines, they are written
// together.
#[test]
fn events_are_written_before_a_read(rt: HostRuntime) -> Result<(), Fail> {
    let alloc = rt.alloc();
    let input = Text::Trace.input();
    let events = Text::Trace.told_before(8);
    // The most bytes of a piece, the write that fails; the events that were written, and the line
    // that is left.
    let table: [(usize, u64, &str, Option<&str>); 3] = [
        (1, 1, "", Some("end")),
        (1, 2, events, None),
        (1_000, 1, "", None),
    ];
    for (chunk, call, text, line) in table {
        let mut source = MemSource::new(alloc, input.as_bytes(), chunk, &[])?;
        let mut sink = MemSink::new(alloc, 1_000, &[call])?;
        let answer = replay(alloc, &mut source, &mut sink);
        assert_eq!(rt; answer.err(), Some(ReplayFault::WriteFault));
        assert_eq!(rt; sink.bytes(), text.as_bytes());
        let mut reader = LineReader::new(alloc)?;
        let left = reader.next_line(&mut source);
        assert_eq!(rt; left, Ok(line.map(|l| l.as_bytes())), "at {chunk}, {call}");
    }
    Ok(())
}

// A reader and a writer of std that answer an error once, and then work.
#[derive(Drop)]
struct Once {
    failed: bool,
}

impl Read for Once {
    ghost remaining = { λ _. None };

    fn read(&mut self, buf: &mut [u8]) -> io::Result<usize> {
        if !self.failed {
            self.failed = true;
            return Err(io::Error::from(ErrorKind::Interrupted));
        }
        Ok(buf.len().min(1))
    }
}

impl Write for Once {
    ghost contents = { λ _. None };

    fn write(&mut self, piece: &[u8]) -> io::Result<usize> {
        if !self.failed {
            self.failed = true;
            return Err(io::Error::from(ErrorKind::Interrupted));
        }
        Ok(piece.len().min(1))
    }

    fn flush(&mut self) -> io::Result<()> {
        Ok(())
    }
}

#[test]
fn error_of_std_is_one_fault(rt: HostRuntime) {
    let mut buf = [0; 4];
    let mut source = StdSource::new(Once { failed: false });
    assert_eq!(rt; source.faults(), 0);
    assert_eq!(rt; source.read(&mut buf), Err(Failed));
    assert_eq!(rt; source.faults(), 1);
    assert_eq!(rt; source.read(&mut buf), Ok(1));
    assert_eq!(rt; source.faults(), 1);

    let mut sink = StdSink::new(Once { failed: false });
    assert_eq!(rt; sink.write(b"one"), Err(Failed));
    assert_eq!(rt; sink.faults(), 1);
    assert_eq!(rt; sink.write(b"one"), Ok(1));
    assert_eq!(rt; sink.faults(), 1);
}
