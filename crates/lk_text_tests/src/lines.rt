// The lines that a reader gives, the limits, and the faults of sources.

ghost use Rattle.std.specs.Prelude.{◌<◌, ◌+◌, None};

use lk_text::{Failed, LineFault, LineReader, MemSource, Source, StdSource, SureSource};
use std::alloc::Global;
use std::io::{self, ErrorKind, Read};
use std::process::Abort;
use std::str;
use std::test::Fail;

// What a call of a reader answers, as text.
fn told<'a>(found: Result<Option<&'a [u8]>, LineFault>) -> &'a str {
    match found {
        Ok(Some(line)) => str::from_utf8(line).unwrap_or("(not text)"),
        Ok(None) => "(end)",
        Err(LineFault::TooLong) => "(too long)",
        Err(LineFault::TooMuch) => "(too much)",
        Err(LineFault::ReadFault) => "(read fault)",
    }
}

// What the first calls of a reader answer, a line each, and then how many lines it counts.
fn first_lines<S: Source>(alloc: Global, source: &mut S, calls: u32) -> Result<String, Fail> {
    let mut reader = LineReader::new(alloc)?;
    let mut text = String::new(alloc);
    for _ in 0..calls {
        text.push_str(told(reader.next_line(source)))?;
        text.push_str("\n")?;
    }
    text.push_str(format!(in alloc; "{}", reader.lines())?.as_str())?;
    Ok(text)
}

// Reads a text in pieces of several sizes.
fn reads_so(
    rt: &(impl Abort + AllocGlobal),
    input: &str,
    calls: u32,
    wanted: &str,
) -> Result<(), Fail> {
    for chunk in [1, 2, 5, 1_000] {
        let mut source = MemSource::new(rt.alloc(), input.as_bytes(), chunk, &[])?;
        let found = first_lines(rt.alloc(), &mut source, calls)?;
        assert_eq!(rt; found.as_str(), wanted, "in pieces of {chunk}");
    }
    Ok(())
}

#[test]
fn lines_are_the_same_in_any_pieces(rt: HostRuntime) -> Result<(), Fail> {
    reads_so(&rt, "", 2, "(end)\n(end)\n0")?;
    reads_so(&rt, "\n", 3, "\n(end)\n(end)\n1")?;
    reads_so(&rt, "one", 3, "one\n(end)\n(end)\n1")?;
    reads_so(&rt, "one\n", 3, "one\n(end)\n(end)\n1")?;
    reads_so(
        &rt,
        "one\n\ntwo\r\n three",
        6,
        "one\n\ntwo\r\n three\n(end)\n(end)\n4",
    )
}

// What the first two calls answer where the one line has so many bytes.
fn one_line(alloc: Global, size: usize) -> Result<String, Fail> {
    let line = "#".repeat(alloc, size)?;
    let mut source = SureSource::new(alloc, line.as_bytes(), 1_000)?;
    first_lines(alloc, &mut source, 2)
}

#[test]
fn line_of_4097_bytes_is_too_long(rt: HostRuntime) -> Result<(), Fail> {
    let long = one_line(rt.alloc(), 4_096)?;
    assert!(rt; long.len() == 4_096 + 8 && long.as_str().ends_with("#\n(end)\n1"));
    let longer = one_line(rt.alloc(), 4_097)?;
    assert_eq!(rt; longer.as_str(), "(too long)\n(too long)\n0");
    Ok(())
}

// Gives the same line for ever.
#[derive(Drop)]
struct Endless {
    line: [u8; 4_096],
    at: usize,
    ghost within: { at < 4096 },
}

impl Source for Endless {
    ghost left = { λ _. None };

    ghost faults = { λ _. 0 };

    fn read(&mut self, buf: &mut [u8]) -> Result<usize, Failed> {
        let rest = &self.line[self.at..];
        let count = rest.len().min(buf.len());
        let piece = &rest[..count];
        let place = &mut buf[..count];
        place.copy_from_slice(piece);
        self.at = (self.at + count) % 4_096;
        Ok(count)
    }
}

#[test]
fn endless_source_is_too_much(rt: HostRuntime) -> Result<(), Fail> {
    let mut line = [b'#'; 4_096];
    line[4_095] = b'\n';
    let mut source = Endless { line, at: 0 };
    let mut reader = LineReader::new(rt.alloc())?;
    for _ in 0..262_144 {
        let found = reader.next_line(&mut source);
        assert!(rt; matches!(found, Ok(Some(line)) if line.len() == 4_095));
    }
    for _ in 0..3 {
        assert!(rt; told(reader.next_line(&mut source)) == "(too much)");
    }
    assert!(rt; reader.lines() == 262_144);
    Ok(())
}

#[test]
fn failed_read_stays_a_fault(rt: HostRuntime) -> Result<(), Fail> {
    let mut source = MemSource::new(rt.alloc(), b"ab\ncd\n", 2, &[3])?;
    let found = first_lines(rt.alloc(), &mut source, 3)?;
    assert_eq!(rt; found.as_str(), "ab\n(read fault)\n(read fault)\n1");
    Ok(())
}

// A reader of std that answers an error at each call.
#[derive(Drop)]
struct Broken;

impl Read for Broken {
    ghost remaining = { λ _. None };

    fn read(&mut self, _: &mut [u8]) -> io::Result<usize> {
        Err(io::Error::from(ErrorKind::Other))
    }
}

#[test]
fn reader_of_std_is_a_source(rt: HostRuntime) -> Result<(), Fail> {
    let mut source = StdSource::new(b"one\ntwo".as_slice());
    let found = first_lines(rt.alloc(), &mut source, 3)?;
    assert_eq!(rt; found.as_str(), "one\ntwo\n(end)\n2");
    let found = first_lines(rt.alloc(), &mut StdSource::new(Broken), 1)?;
    assert_eq!(rt; found.as_str(), "(read fault)\n0");
    Ok(())
}
