// Worked traces, and worked runs of the spin queue, replayed byte for byte.

use crate::runs::{EVERY_OUTCOME, RUNS};
use crate::slowed::{has_only_steps, is_slow, slowed};
use crate::traces::{QUEUE, TEXTS, whole};
use lk_osq_replay::osq;
use lk_replay::{ReplayFault, Summary, replay};
use lk_text::{MemSink, SureSource};
use std::alloc::Global;
use std::process::Abort;
use std::str;
use std::test::Fail;

// What `replay` answers of a trace that comes in pieces of so many bytes, and the sink after it.
fn replayed(
    alloc: Global,
    trace: &str,
    chunk: usize,
) -> Result<(Result<Summary, ReplayFault>, MemSink), Fail> {
    let mut source = SureSource::new(alloc, trace.as_bytes(), chunk.max(1))?;
    let mut sink = MemSink::new(alloc, 100_000, &[])?;
    let answer = replay(alloc, &mut source, &mut sink);
    Ok((answer, sink))
}

// What `osq` answers of a run of the spin queue, and the sink after it.
fn obeyed(alloc: Global, run: &str) -> Result<(Result<u64, ReplayFault>, MemSink), Fail> {
    let mut source = SureSource::new(alloc, run.as_bytes(), 5)?;
    let mut sink = MemSink::new(alloc, 100_000, &[])?;
    let answer = osq(alloc, &mut source, &mut sink);
    Ok((answer, sink))
}

// What is written for a trace that is done.
fn written(rt: &(impl Abort + AllocGlobal), trace: &str, chunk: usize) -> Result<MemSink, Fail> {
    let (answer, sink) = replayed(rt.alloc(), trace, chunk)?;
    assert!(rt; answer.is_ok(), "at {trace}");
    Ok(sink)
}

// Replays a trace as it stands, and one that has only steps also with a preemption before each.
fn replay_one(rt: &(impl Abort + AllocGlobal), trace: &str, transcript: &str) -> Result<(), Fail> {
    let sink = written(rt, trace, 5)?;
    assert_eq!(rt; sink.bytes(), transcript.as_bytes(), "at {trace}");
    if has_only_steps(trace) {
        let slow = slowed(rt.alloc(), trace)?;
        let sink = written(rt, slow.as_str(), 1_000)?;
        assert!(rt;
            is_slow(str::from_utf8(sink.bytes())?, transcript),
            "at {trace}"
        );
    }
    Ok(())
}

// Replays each trace of a text.
fn replay_all(rt: &(impl Abort + AllocGlobal), text: &str) -> Result<(), Fail> {
    let mut parts = text.split("---\n");
    while let Some(trace) = parts.next() {
        let transcript = whole(rt.alloc(), parts.next().ok_or("no transcript")?)?;
        replay_one(rt, trace, transcript.as_str())?;
    }
    Ok(())
}

#[test]
fn worked_traces_give_their_transcripts(rt: HostRuntime) -> Result<(), Fail> {
    for text in TEXTS {
        replay_all(&rt, text)?;
    }
    Ok(())
}

#[test]
fn worked_runs_give_their_transcripts(rt: HostRuntime) -> Result<(), Fail> {
    for text in [RUNS, EVERY_OUTCOME] {
        let mut parts = text.split("---\n");
        while let Some(run) = parts.next() {
            let transcript = parts.next().ok_or("no transcript")?;
            let (answer, sink) = obeyed(rt.alloc(), run)?;
            assert!(&rt; answer.is_ok(), "at {run}");
            assert_eq!(&rt; sink.bytes(), transcript.as_bytes(), "at {run}");
        }
    }
    Ok(())
}

// What a replay answers of the trace of a waiter that takes by the pending bit, the first of its
// text.
#[test]
fn summary_counts_acts_and_events(rt: HostRuntime) -> Result<(), Fail> {
    let (trace, _) = QUEUE.split_once("---\n").ok_or("no trace")?;
    let (answer, _sink) = replayed(rt.alloc(), trace, 1_000)?;
    let summary = answer?;
    assert!(rt; summary.acts == 9 && summary.events == 4);
    assert!(rt; summary.counts.lock_pending == 1 && summary.counts.lock_slowpath == 0);
    Ok(())
}
