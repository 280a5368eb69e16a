// A replay, from bytes to bytes.
ghost use Rattle.std.specs.Prelude.{◌≡◌, ◌⊎◌, ℕ, List, Some, Err, IsOkUnless, IsErrAnd};
ghost use Rattle.lk_names.specs.declared.events.Act.{Act};
ghost use Rattle.lk_rows.specs.declared.setup.Setup.{Setup};
ghost use Rattle.lk_text.specs.Causes.{Rose};
ghost use Rattle.lk_forms.specs.Trace.{Good, Refused, trace};
ghost use Rattle.lk_forms.specs.declared.answers.LineRefusal.{LineRefusal};
ghost use Rattle.lk_stream.specs.Outside.{outside};
ghost use Rattle.lk_replay.specs.Outcome.{Outcome};
ghost use Rattle.lk_stream.specs.Outcome.{refused_fault};

use crate::answers::Summary;
use crate::replayer::Replayer;
use lk_stream::ReplayFault;
use lk_text::{Sink, Source};
use std::alloc::Global;

/// Replays a trace: reads it to the end of the source, and writes its transcript to the sink. It
/// writes the events so far before it asks the source for more lines.
///
/// # Errors
///
/// The first line that is refused, by the first check that it fails; a failed read; a failed write;
/// or not enough memory. [`ReplayFault`] says what was written in each case.
pub fn replay<S: Source, K: Sink>(
    alloc: Global,
    source: &mut S,
    sink: &mut K,
) -> Result<Summary, ReplayFault>
    ensures outcome { Outcome
        (outside (S.left source.old) (S.faults source.old) (K.held sink.old) (K.faults sink.old))
        (outside (S.left source.new) (S.faults source.new) (K.held sink.new)
        (K.faults sink.new)) result }

    // Where there is no memory, nothing is written.
    ensures untouched { result ≡ Err ReplayFault.Memory → sink.new ≡ sink.old }

    // A trace is replayed whole, where neither count of faults rose and there is memory.
    ensures complete { (bytes : List ℕ) (setup : Setup) (acts : List Act)
        → S.left source.old ≡ Some bytes → trace bytes ≡ Good setup acts
        → ¬ Rose (S.faults source.old) (S.faults source.new)
        → ¬ Rose (K.faults sink.old) (K.faults sink.new)
        → IsOkUnless result ReplayFault.Memory }

    // Another text is refused at its first line that is refused, for the first check that fails,
    // likewise.
    ensures exact { (bytes : List ℕ) (line : ℕ) (why : LineRefusal) (setup : Setup)
        (acts : List Act) → S.left source.old ≡ Some bytes
        → trace bytes ≡ Refused line why setup acts
        → ¬ Rose (S.faults source.old) (S.faults source.new)
        → ¬ Rose (K.faults sink.old) (K.faults sink.new)
        → IsErrAnd result
        (λ fault. (fault ≡ refused_fault line why) ⊎ (fault ≡ ReplayFault.Memory)) }
{
    let replayer = Replayer::open(alloc, source)?;
    match replayer.run(source, sink) {
        Ok(summary) => Ok(summary),
        Err(fault) => Err(ReplayFault::from(fault)),
    }
}
