// Each read and each write of a trace and of a run fails in turn.

use crate::texts::{Text, ends};
use std::process::Abort;
use std::test::Fail;

// Each read of one byte fails in turn, and then the one that finds the end. What the lines before
// it tell is written.
fn reads_fail(rt: &(impl Abort + AllocGlobal), text: Text) -> Result<(), Fail> {
    let input = text.input();
    let mut read: u64 = 1;
    let mut line: usize = 1;
    for byte in input.bytes() {
        let answer = text.answer(rt.alloc(), input, 1, [read, 0])?;
        ends(rt, &answer, "ReadFault", text.told_before(line))?;
        read = read.wrapping_add(1);
        line = line.wrapping_add(usize::from(byte == b'\n'));
    }
    let answer = text.answer(rt.alloc(), input, 1, [read, 0])?;
    ends(rt, &answer, "ReadFault", text.told_before(line))?;
    let answer = text.answer(rt.alloc(), input, 1, [read.wrapping_add(1), 0])?;
    ends(rt, &answer, "done", text.transcript())
}

// The write of what each line tells fails in turn, and then that of the closing lines. What the
// lines before it tell is written.
fn writes_fail(rt: &(impl Abort + AllocGlobal), text: Text) -> Result<(), Fail> {
    let input = text.input();
    let mut write: u64 = 1;
    let mut told = "";
    for line in 2..12 {
        let now = text.told_before(line);
        if now != told {
            let answer = text.answer(rt.alloc(), input, 1, [0, write])?;
            ends(rt, &answer, "WriteFault", told)?;
            write = write.wrapping_add(1);
            told = now;
        }
    }
    let answer = text.answer(rt.alloc(), input, 1, [0, write])?;
    ends(rt, &answer, "WriteFault", told)?;
    let answer = text.answer(rt.alloc(), input, 1, [0, write.wrapping_add(1)])?;
    ends(rt, &answer, "done", text.transcript())
}

#[test]
fn failed_calls_are_answered(rt: HostRuntime) -> Result<(), Fail> {
    for text in [Text::Trace, Text::Run] {
        reads_fail(&rt, text)?;
        writes_fail(&rt, text)?;
    }
    Ok(())
}
