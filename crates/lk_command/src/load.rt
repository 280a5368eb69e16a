// The generated trace is replayed in memory.
ghost use Rattle.std.specs.Prelude.{◌≡◌, ℕ, List, Option, IfOk};
ghost use Rattle.lk_gen.specs.Generated.{generated_setup, generated_acts};
ghost use Rattle.lk_stream.specs.Outside.{outside};
ghost use Rattle.lk_replay.specs.Transcript.{counts_of_run};
ghost use Rattle.lk_stream.specs.declared.answers.ReplayFault.{ReplayFault};
ghost use Rattle.lk_command.specs.Means.{Writes, closing_of};
ghost use Rattle.lk_command.specs.declared.status.Status.{Status};

use crate::status::Status;
use lk_gen::generated_text;
use lk_names::Memory;
use lk_replay::{ReplayFault, Summary, replay, write_closing};
use lk_text::{Block, NullSink, Sink, SureSource};
use std::alloc::Global;

// The most bytes that the source gives at once.
const CHUNK: usize = 65_536;

// What a fault means that can be no other than want of memory.
fn want_of_memory(fault: ReplayFault) -> Memory
    requires { fault ≡ ReplayFault.Memory }
{
    match fault {
        ReplayFault::Memory => Memory,
        _ => unreachable!(),
    }
}

// Replays the generated trace of the start number, and keeps no line of its transcript. The trace
// is good, its source does not fail, and nor does its sink: so the one error is want of memory.
fn replay_generated(alloc: Global, start: u32) -> Result<Summary, Memory>
    ensures acts { IfOk result (λ summary. summary.acts ≡ 200000) }
    ensures counts { IfOk result
        (λ summary. summary.counts ≡ counts_of_run (generated_setup start) (generated_acts start)) }
{
    let text = generated_text(alloc, start)?;
    let mut source = SureSource::new(alloc, text.bytes(), CHUNK)?;
    match replay(alloc, &mut source, &mut NullSink::new()) {
        Ok(summary) => Ok(summary),
        Err(fault) => Err(want_of_memory(fault)),
    }
}

/// Replays the generated trace of the start number in memory, and writes the closing lines.
pub(crate) fn load<K: Sink>(alloc: Global, start: u32, sink: &mut K) -> Status
    ensures writes { (left : Option (List ℕ)) (reads : ℕ)
        → Writes (outside left reads (K.held sink.old) (K.faults sink.old))
        (outside left reads (K.held sink.new) (K.faults sink.new)) (closing_of start) result }
    ensures memory { result ≡ Status.Memory → sink.new ≡ sink.old }
{
    let Ok(summary) = replay_generated(alloc, start) else {
        return Status::Memory;
    };
    let Ok(mut block) = Block::new(alloc) else {
        return Status::Memory;
    };
    Status::of_put(write_closing(&mut block, sink, summary.acts, &summary.counts))
}
