// A run of the spin queue, from bytes to bytes.
ghost use Rattle.std.specs.Prelude.{◌≡◌, ◌⊎◌, ℕ, List, Some, Err, IsOkUnless, IsErrAnd};
ghost use Rattle.lk_text.specs.Causes.{Rose};
ghost use Rattle.lk_forms.specs.declared.answers.LineRefusal.{LineRefusal};
ghost use Rattle.lk_stream.specs.Grammar.{Good, Refused, saying};
ghost use Rattle.lk_stream.specs.Outside.{outside};
ghost use Rattle.lk_stream.specs.Outcome.{refused_fault};
ghost use Rattle.lk_osq_forms.specs.Grammar.{Said};
ghost use Rattle.lk_osq_forms.specs.Trace.{osq_grammar};
ghost use Rattle.lk_osq_replay.specs.Outcome.{OsqOutcome};

use crate::script::OsqScript;
use lk_stream::{ReplayFault, follow};
use lk_text::{Sink, Source};
use std::alloc::Global;

/// Reads a run of the optimistic spin queue to the end of the source, and writes its history to
/// the sink. Returns the number of acts.
///
/// # Errors
///
/// The first line that is refused, a fault of the source or of the sink, or no memory. What was
/// written before the fault stays. If there is no memory, nothing was written.
pub fn osq<S: Source, K: Sink>(
    alloc: Global,
    source: &mut S,
    sink: &mut K,
) -> Result<u64, ReplayFault>
    ensures outcome { OsqOutcome
        (outside (S.left source.old) (S.faults source.old) (K.held sink.old) (K.faults sink.old))
        (outside (S.left source.new) (S.faults source.new) (K.held sink.new)
        (K.faults sink.new)) result }

    // Where there is no memory, nothing is written.
    ensures untouched { result ≡ Err ReplayFault.Memory → sink.new ≡ sink.old }

    // A good input is replayed whole, where neither count of faults rose and there is memory.
    ensures complete { (bytes : List ℕ) (said : Said) → S.left source.old ≡ Some bytes
        → saying osq_grammar bytes ≡ Good said
        → ¬ Rose (S.faults source.old) (S.faults source.new)
        → ¬ Rose (K.faults sink.old) (K.faults sink.new)
        → IsOkUnless result ReplayFault.Memory }

    // Another is refused at its first line that is refused, for the first check that fails,
    // likewise.
    ensures exact { (bytes : List ℕ) (line : ℕ) (why : LineRefusal) (said : Said)
        → S.left source.old ≡ Some bytes
        → saying osq_grammar bytes ≡ Refused line why said
        → ¬ Rose (S.faults source.old) (S.faults source.new)
        → ¬ Rose (K.faults sink.old) (K.faults sink.new)
        → IsErrAnd result
        (λ fault. (fault ≡ refused_fault line why) ⊎ (fault ≡ ReplayFault.Memory)) }
{
    let script = OsqScript::new(alloc)?;
    match follow(alloc, script, source, sink) {
        Ok(script) => Ok(script.acts()),
        Err(fault) => Err(fault),
    }
}
