// Histories as text, audited over sources and sinks in memory.

use crate::traces::{TEXTS, whole};
use lk_audit::{AuditFault, audit};
use lk_text::{MemSink, MemSource};
use std::alloc::{AllocError, Global};
use std::process::Abort;
use std::test::Fail;

// The header of a trace of two processors, and the transcript of one.
const PENDING: &str = "\
qtrace 1
mode native
cpus 2
lock 0 spin
prog 0 lock 0 unlock 0
prog 1 lock 0 unlock 0
go
1 0.0 take 0 fast
6 0.0 release 0
8 1.0 take 0 pending
9 1.0 release 0
end 9
lock_pending 1
lock_slowpath 0
lock_use_node2 0
lock_use_node3 0
lock_use_node4 0
lock_no_node 0
pv_lock_stealing 0
pv_wait_node 0
pv_wait_head 0
pv_kick_unlock 0
";

// What an audit answered, and the sink after it.
type Audited = (Result<u64, AuditFault>, MemSink);

// Audits a text that comes in pieces, with the calls of the source and of the sink that fail.
fn audited(
    alloc: Global,
    input: &str,
    chunk: usize,
    reads: &[u64],
    writes: &[u64],
) -> Result<Audited, Fail> {
    let mut source = MemSource::new(alloc, input.as_bytes(), chunk.max(1), reads)?;
    let mut sink = MemSink::new(alloc, 100, writes)?;
    let answer = audit(alloc, &mut source, &mut sink);
    Ok((answer, sink))
}

// An answer in words: that of the line written, or the line of the input and what is wrong there.
fn told(alloc: Global, answer: Result<u64, AuditFault>) -> Result<String, AllocError> {
    match answer {
        Ok(events) => format!(in alloc; "lawful {events}"),
        Err(AuditFault::Breach { line, name }) => format!(in alloc; "breach {line} {name:?}"),
        Err(AuditFault::BadInput { line, fault }) => format!(in alloc; "bad {line} {fault:?}"),
        Err(AuditFault::Limit { line, which }) => format!(in alloc; "limit {line} {which:?}"),
        Err(fault) => format!(in alloc; "{fault:?}"),
    }
}

// The line that is written for an answer in words, if one is.
fn line_of(alloc: Global, wanted: &str) -> Result<String, AllocError> {
    if wanted.starts_with("lawful") || wanted.starts_with("breach") {
        format!(in alloc; "{wanted}\n")
    } else {
        Ok(String::new(alloc))
    }
}

// Sees that an audit answers this, and writes the line of it.
fn answers(rt: &(impl Abort + AllocGlobal), input: &str, wanted: &str) -> Result<(), Fail> {
    let alloc = rt.alloc();
    for chunk in [1, 7, 100_000] {
        let (answer, sink) = audited(alloc, input, chunk, &[], &[])?;
        assert_eq!(rt; told(alloc, answer)?.as_str(), wanted);
        assert_eq!(rt;
            sink.bytes(),
            line_of(alloc, wanted)?.as_bytes(),
            "of {wanted}"
        );
    }
    Ok(())
}

// A text with another in the place of a part of it.
fn with_part(alloc: Global, text: &str, part: &str, other: &str) -> Result<String, Fail> {
    let (before, after) = text.split_once(part).ok_or("no such part")?;
    Ok(format!(in alloc; "{before}{other}{after}")?)
}

// Lines of the transcript, what stands in their place, and the answer. A bar divides lines.
const CHANGES: &str = "\
go| > go|: lawful 4
6 0.0 release 0| > : breach 9 Beside
1 0.0 take 0 fast| > : breach 8 NotHolder
6 0.0 release 0| > 5 0.0 take 0 try|6 0.0 release 0|: breach 9 Beside
8 1.0 take 0 pending > 8 1.0 arrive 0|8 1.0 take 0 head: bad 11 OutOfRange
8 1.0 take 0 pending > 7 1.0 arrive 0|8 1.0 take 0 pending: breach 11 Twice
8 1.0 take 0 pending > 7 1.0 arrive 0|8 0.0 take 0 head: breach 11 WrongHead
6 0.0 release 0 > 06 0.0 release 0: bad 9 UnknownWord
6 0.0 release 0 > 6 00.0 release 0: bad 9 UnknownWord
6 0.0 release 0 > 6 0.0 release 00: bad 9 UnknownWord
6 0.0 release 0 > 6  0.0 release 0: bad 9 UnknownWord
6 0.0 release 0 >  6 0.0 release 0: bad 9 UnknownWord
6 0.0 release 0 > 6 0.0 release 0 : bad 9 UnknownWord
6 0.0 release 0 > 6 0.0 release: bad 9 UnknownWord
6 0.0 release 0 > 6 0.0 release 0 to 1: bad 9 UnknownWord
6 0.0 release 0 > 6 0.0 release +0: bad 9 UnknownWord
6 0.0 release 0 > 6 0.0 release 4294967296: bad 9 UnknownWord
6 0.0 release 0 > 6 0.0 release 4294967295: bad 9 OutOfRange
6 0.0 release 0 > 18446744073709551616 0.0 release 0: bad 9 UnknownWord
6 0.0 release 0 > 18446744073709551615 0.0 release 0: bad 9 OutOfRange
6 0.0 release 0 > 100000001 0.0 release 0: bad 9 OutOfRange
6 0.0 release 0 > 1 0.0 release 0: bad 9 OutOfRange
1 0.0 take 0 fast > 0 0.0 take 0 fast: bad 8 OutOfRange
6 0.0 release 0 > 6 2.0 release 0: bad 9 OutOfRange
6 0.0 release 0 > 6 0.6 release 0: bad 9 OutOfRange
6 0.0 release 0 > 6 0.0 release 0 owing 2: bad 9 OutOfRange
6 0.0 release 0 > 6 0.0 pass 0 1.6: bad 9 OutOfRange
6 0.0 release 0 > 6 0.0 release 1: bad 9 OutOfRange
6 0.0 release 0 > 6 0.0 release 0w: bad 9 WrongLock
6 0.0 release 0 > 6 0.0 wrelease 0: bad 9 WrongLock
6 0.0 release 0 > 6 0.0 miss 0w: bad 9 WrongLock
6 0.0 release 0 > 6 0.0 miss 0|7 0.0 release 0: lawful 5
6 0.0 release 0 > 6 0.0 pass 0 1.0 moved 0: bad 9 UnknownWord
6 0.0 release 0 > 6 0.0 pass 0 1.0 moved 1: breach 9 WrongHead
6 0.0 release 0 > : bad 9 UnknownWord
6 0.0 release 0 > # a comment: bad 9 UnknownWord
end 9 > end 8: bad 12 OutOfRange
end 9 > end 100000000: lawful 4
end 9 > end 100000001: bad 12 OutOfRange
end 9 > end: bad 12 UnknownWord
end 9 > end 09: bad 12 UnknownWord
end 9| > : bad 12 UnknownWord
lock_pending 1 > lock_pending 7: lawful 4
lock_pending 1 > lock_pending 18446744073709551616: bad 13 UnknownWord
lock_pending 1 > lock_pending: bad 13 UnknownWord
lock_pending 1| > : bad 13 UnknownWord
pv_kick_unlock 0| > : bad 22 NoEnd
pv_kick_unlock 0| > pv_kick_unlock 0: lawful 4
pv_kick_unlock 0| > pv_kick_unlock 0||: bad 23 Misplaced
pv_kick_unlock 0 > pv_kick_unlock 0|10 0.0 take 0 fast: bad 23 Misplaced
lock 0 spin > lock 1 spin: bad 4 OutOfRange
prog 0 lock 0 unlock 0 > prog 0 lock 0: bad 5 StillHeld
lock 0 spin > lock 0 rw: bad 5 WrongLock
mode native|cpus 2 > cpus 2|mode native: bad 2 Misplaced";

// One row of `CHANGES`.
fn changes_so(rt: &(impl Abort + AllocGlobal), row: &str) -> Result<(), Fail> {
    let alloc = rt.alloc();
    let row = row.replace(alloc, "|", "\n")?;
    let (part, rest) = row.as_str().split_once(" > ").ok_or("no other")?;
    let (other, wanted) = rest.rsplit_once(": ").ok_or("no answer")?;
    answers(rt, with_part(alloc, PENDING, part, other)?.as_str(), wanted)
}

#[test]
fn changed_transcripts_are_judged(rt: HostRuntime) -> Result<(), Fail> {
    for row in CHANGES.lines() {
        changes_so(&rt, row)?;
    }
    Ok(())
}

// How many events a transcript has: its lines before `end`.
fn events_in(transcript: &str) -> Result<usize, Fail> {
    let (events, _) = transcript.split_once("end ").ok_or("no end")?;
    Ok(events.lines().count())
}

// Each worked trace's header with its transcript is lawful.
fn audit_all(rt: &(impl Abort + AllocGlobal), text: &str) -> Result<(), Fail> {
    let alloc = rt.alloc();
    let mut parts = text.split("---\n");
    while let Some(trace) = parts.next() {
        let transcript = whole(alloc, parts.next().ok_or("a trace without a transcript")?)?;
        let (header, _) = trace.split_once("go\n").ok_or("no schedule")?;
        let input = format!(in alloc; "{header}go\n{transcript}")?;
        let wanted = format!(in alloc; "lawful {}", events_in(transcript.as_str())?)?;
        answers(rt, input.as_str(), wanted.as_str())?;
    }
    Ok(())
}

#[test]
fn worked_transcripts_are_lawful(rt: HostRuntime) -> Result<(), Fail> {
    for text in TEXTS {
        audit_all(&rt, text)?;
    }
    Ok(())
}

// A line that is too long, behind `go`; and a breach before it.
#[test]
fn breach_comes_before_a_line_that_is_too_long(rt: HostRuntime) -> Result<(), Fail> {
    let alloc = rt.alloc();
    let long = "9".repeat(alloc, 4_097)?;
    let input = with_part(alloc, PENDING, "6 0.0 release 0", long.as_str())?;
    answers(&rt, input.as_str(), "limit 9 Line")?;
    let input = with_part(
        alloc,
        input.as_str(),
        "1 0.0 take 0 fast",
        "1 0.0 release 0",
    )?;
    answers(&rt, input.as_str(), "breach 8 NotHolder")
}

// Each read of the text's bytes fails in turn, and that of its end; and then the write.
#[test]
fn failed_calls_of_an_audit_are_answered(rt: HostRuntime) -> Result<(), Fail> {
    let alloc = rt.alloc();
    for call in 1..332 {
        let (answer, sink) = audited(alloc, PENDING, 1, &[call], &[])?;
        let wanted = if call == 331 { "lawful 4" } else { "ReadFault" };
        assert_eq!(rt; told(alloc, answer)?.as_str(), wanted, "at {call}");
        assert_eq!(rt; sink.bytes(), line_of(alloc, wanted)?.as_bytes());
    }
    let (answer, sink) = audited(alloc, PENDING, 100, &[], &[1])?;
    assert_eq!(rt; told(alloc, answer)?.as_str(), "WriteFault");
    assert!(rt; sink.bytes().is_empty());
    Ok(())
}
