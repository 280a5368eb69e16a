// What the program's call makes of the generated trace.

use crate::command::call;
use lk_text::MemSink;
use std::process::Abort;
use std::str;
use std::sync::Wait;
use std::test::Fail;
use std::thread::Threads;

// What a command that is done writes for an input.
fn written(
    rt: &(impl Abort + AllocGlobal + Threads + Wait + Sync),
    words: &str,
    input: &[u8],
) -> Result<MemSink, Fail> {
    let ran = call(rt, words, input, [0, 0, 0])?;
    assert_eq!(rt; ran.status, 0, "of {words}");
    Ok(ran.text)
}

// The first lines of the trace of 7.
const FIRST_LINES: &str = "\
qtrace 1
mode cna
cpus 32
sockets 0 0 0 0 0 0 0 0 1 1 1 1 1 1 1 1 2 2 2 2 2 2 2 2 3 3 3 3 3 3 3 3
threshold 16
lock 0 spin
lock 1 spin
lock 2 spin
lock 3 spin
prog 0 lock 1 unlock 1 lock 2 unlock 2 lock 2 unlock 2 ";

// The same bytes at each run: 25,043 lines. `load` writes the last eleven lines of what `replay`
// writes for them.
#[test]
fn gen_and_load_write_the_same_each_time(rt: HostRuntime) -> Result<(), Fail> {
    let trace = written(&rt, "gen 7", b"")?;
    let again = written(&rt, "gen 7", b"")?;
    assert!(rt; trace.bytes() == again.bytes());
    let text = str::from_utf8(trace.bytes())?;
    assert_eq!(rt; text.lines().count(), 25_043);
    assert!(rt; text.starts_with(FIRST_LINES));
    let transcript = written(&rt, "replay", trace.bytes())?;
    let closing = written(&rt, "load 7", b"")?;
    let again = written(&rt, "load 7", b"")?;
    assert!(rt; closing.bytes() == again.bytes());
    let text = str::from_utf8(closing.bytes())?;
    assert!(rt; text.starts_with("end 200000\nlock_pending "));
    assert_eq!(rt; text.lines().count(), 11);
    assert!(rt; str::from_utf8(transcript.bytes())?.ends_with(text));
    Ok(())
}

// The sink, each of whose writes fails in turn: `gen` makes more than one, and `load` makes one.
#[test]
fn failed_write_ends_gen_and_load(rt: HostRuntime) -> Result<(), Fail> {
    let trace = written(&rt, "gen 7", b"")?;
    for (words, write) in [("gen 7", 1), ("gen 7", 2), ("gen 7", 100), ("load 7", 1)] {
        let ran = call(&rt, words, b"", [0, write, 0])?;
        assert_eq!(rt; ran.status, 5, "of {words} at {write}");
        assert!(rt; ran.notes.bytes() == b"write fault\n".as_slice());
        assert!(rt;
            trace.bytes().starts_with(ran.text.bytes()),
            "of {words} at {write}"
        );
        assert!(rt;
            ran.text.bytes().is_empty() == (write == 1),
            "of {words} at {write}"
        );
    }
    Ok(())
}
