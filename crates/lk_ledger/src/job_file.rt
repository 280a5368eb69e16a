// A job file, from bytes.
ghost use Rattle.std.specs.Prelude.{◌≡◌, ◌⊎◌, ℕ, List, Some, Ok, Err, IfOk, IsOkUnless, IsErrAnd};
ghost use Rattle.lk_names.specs.Workload.{Workload, IsLawful, workload_of};
ghost use Rattle.lk_text.specs.Causes.{Rose};
ghost use Rattle.lk_forms.specs.declared.answers.LineRefusal.{LineRefusal};
ghost use Rattle.lk_stream.specs.Outcome.{refused_fault};
ghost use Rattle.lk_stream.specs.declared.answers.ReplayFault.{ReplayFault};
ghost use Rattle.lk_job_forms.specs.JobFile.{job_file};
ghost use Rattle.lk_ledger.specs.Reading.{Reads};

use crate::script::JobScript;
use lk_names::JobFile;
use lk_stream::{ReplayFault, follow};
use lk_text::{NullSink, Source};
use std::alloc::Global;

/// Reads a job file to the end of the source. After the line `end` there may be only blank lines
/// and comments.
///
/// # Errors
///
/// The first line that is refused, a fault of the source, or no memory.
pub fn read_jobs<S: Source>(alloc: Global, source: &mut S) -> Result<JobFile, ReplayFault>
    // What each answer means, by what the source has left and its count of faults.
    ensures reads { Reads (S.left source.old) (S.left source.new) (S.faults source.old)
        (S.faults source.new) result }

    // A file that is read is lawful.
    ensures lawful { IfOk result (λ file. IsLawful (workload_of file)) }

    // A job file is read whole, where no read failed and there is memory.
    ensures complete { (bytes : List ℕ) (work : Workload) → S.left source.old ≡ Some bytes
        → job_file bytes ≡ Ok work → ¬ Rose (S.faults source.old) (S.faults source.new)
        → IsOkUnless result ReplayFault.Memory }

    // Another text is refused at its first line that is refused, for the first check that fails,
    // likewise.
    ensures exact { (bytes : List ℕ) (line : ℕ) (why : LineRefusal)
        → S.left source.old ≡ Some bytes → job_file bytes ≡ Err (line, why)
        → ¬ Rose (S.faults source.old) (S.faults source.new)
        → IsErrAnd result
        (λ fault. (fault ≡ refused_fault line why) ⊎ (fault ≡ ReplayFault.Memory)) }
{
    let script = JobScript::new(alloc)?;
    match follow(alloc, script, source, &mut NullSink::new()) {
        Ok(script) => Ok(script.finish()),
        Err(fault) => Err(fault),
    }
}
