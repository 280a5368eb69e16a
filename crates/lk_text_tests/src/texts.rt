// A trace and a run of the spin queue, and what `replay` and `osq` make of them, or of texts like
// them, over sources and sinks in memory.

use lk_osq_replay::osq;
use lk_replay::{ReplayFault, replay};
use lk_text::{MemSink, MemSource};
use std::alloc::{AllocError, Global};
use std::process::Abort;
use std::test::Fail;

// The smallest trace.
const SMALL: &str =
    "qtrace 1\nmode virt\ncpus 1\nlock 0 spin\nprog 0 lock 0 unlock 0\ngo\nstep 0 2\nend\n";

// What its schedule tells.
const EVENTS: &str = "1 0.0 take 0 fast\n2 0.0 release 0\n";

// Its transcript.
const SMALL_TEXT: &str = "\
1 0.0 take 0 fast
2 0.0 release 0
end 2
lock_pending 0
lock_slowpath 0
lock_use_node2 0
lock_use_node3 0
lock_use_node4 0
lock_no_node 0
pv_lock_stealing 0
pv_wait_node 0
pv_wait_head 0
pv_kick_unlock 0
";

// A run of the spin queue in which the lock is handed on.
const HANDED_ON: &str =
    "qosq 1\ncpus 2\nprog 0 1\nprog 1 1\ngo\nstep 0 2\nstep 1 4\nstep 0 3\nstep 1 2\nend\n";

// What its schedule tells.
const RUN_TOLD: &str =
    "2 0 take free\n4 1 arrive\n9 0 release to 1\n10 1 take handed\n11 1 release\n";

// Its transcript.
const RUN_TEXT: &str =
    "2 0 take free\n4 1 arrive\n9 0 release to 1\n10 1 take handed\n11 1 release\nend 11\n";

/// A text, and the call that reads it.
#[derive(Clone, Copy)]
pub enum Text {
    /// The smallest trace, and `replay`.
    Trace,
    /// The run in which the lock is handed on, and `osq`.
    Run,
}

impl Text {
    /// The text itself.
    pub fn input(self) -> &'static str {
        match self {
            Text::Trace => SMALL,
            Text::Run => HANDED_ON,
        }
    }

    /// Its whole transcript.
    pub fn transcript(self) -> &'static str {
        match self {
            Text::Trace => SMALL_TEXT,
            Text::Run => RUN_TEXT,
        }
    }

    /// What the lines before the line of this number tell.
    pub fn told_before(self, line: usize) -> &'static str {
        match (self, line) {
            (Text::Trace, ..8) | (Text::Run, ..7) => "",
            (Text::Trace, _) => EVENTS,
            (Text::Run, 7) => "2 0 take free\n",
            (Text::Run, 8) => "2 0 take free\n4 1 arrive\n",
            (Text::Run, 9) => "2 0 take free\n4 1 arrive\n9 0 release to 1\n",
            (Text::Run, _) => RUN_TOLD,
        }
    }

    // Reads a source to its end, and gives the number of acts.
    fn read(
        self,
        alloc: Global,
        source: &mut MemSource,
        sink: &mut MemSink,
    ) -> Result<u64, ReplayFault> {
        match self {
            Text::Trace => Ok(replay(alloc, source, sink)?.acts),
            Text::Run => osq(alloc, source, sink),
        }
    }

    /// Reads an input that comes in pieces of so many bytes, with the read and the write that fail,
    /// 0 for none.
    pub fn answer(
        self,
        alloc: Global,
        input: &str,
        chunk: usize,
        fails: [u64; 2],
    ) -> Result<Answer, Fail> {
        let [read, write] = fails;
        let mut source = MemSource::new(alloc, input.as_bytes(), chunk.max(1), &[read])?;
        let mut sink = MemSink::new(alloc, 1_000, &[write])?;
        let acts = self.read(alloc, &mut source, &mut sink);
        Ok(Answer { acts, sink })
    }
}

/// What a call answered, and the sink after it.
#[derive(Drop)]
pub struct Answer {
    /// How many acts were made, or why not all were.
    pub acts: Result<u64, ReplayFault>,
    /// The sink.
    pub sink: MemSink,
}

// Why a call ended: `done`, the line and what is wrong there, as `7 WordCount`, or the fault.
fn cause(alloc: Global, acts: Result<u64, ReplayFault>) -> Result<String, AllocError> {
    match acts {
        Ok(_) => String::from_str(alloc, "done"),
        Err(ReplayFault::BadInput { line, fault }) => format!(in alloc; "{line} {fault:?}"),
        Err(ReplayFault::Limit { line, which }) => format!(in alloc; "{line} {which:?}"),
        Err(fault) => format!(in alloc; "{fault:?}"),
    }
}

/// Sees that a call ended for this cause, and wrote this text.
pub fn ends(
    rt: &(impl Abort + AllocGlobal),
    answer: &Answer,
    wanted: &str,
    text: &str,
) -> Result<(), Fail> {
    let found = cause(rt.alloc(), answer.acts)?;
    assert_eq!(rt; found.as_str(), wanted);
    assert_eq!(rt; answer.sink.bytes(), text.as_bytes(), "of {wanted}");
    Ok(())
}

/// Sees that an input ends for this cause: it is done and has the whole transcript, or a line is
/// refused and what the lines before it tell is written.
pub fn comes_to(
    rt: &(impl Abort + AllocGlobal),
    text: Text,
    input: &str,
    wanted: &str,
) -> Result<(), Fail> {
    let told = match wanted.split_once(' ') {
        Some((line, _)) => text.told_before(line.parse::<usize>()?),
        None => text.transcript(),
    };
    ends(
        rt,
        &text.answer(rt.alloc(), input, 3, [0, 0])?,
        wanted,
        told,
    )
}
