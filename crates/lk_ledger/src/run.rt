// The word `ledger`, from bytes to bytes.
ghost use Rattle.std.specs.Prelude.{◌≡◌, ◌⊎◌, ℕ, List, Some, Ok, Err, IfOk, IfErr, IsOkUnless, IsErrAnd};
ghost use Rattle.lk_names.specs.Workload.{Workload};
ghost use Rattle.lk_text.specs.Causes.{Rose};
ghost use Rattle.lk_forms.specs.declared.answers.LineRefusal.{LineRefusal};
ghost use Rattle.lk_stream.specs.Outside.{outside};
ghost use Rattle.lk_stream.specs.Outcome.{refused_fault};
ghost use Rattle.lk_stream.specs.declared.answers.ReplayFault.{ReplayFault};
ghost use Rattle.lk_job_forms.specs.JobFile.{job_file};
ghost use Rattle.lk_ledger.specs.Outcome.{HasRun, FaultMeans};

use crate::job_file::read_jobs;
use crate::outcome_text::write_outcome;
use lk_guard::Gate;
use lk_stream::ReplayFault;
use lk_text::{Block, Sink, Source};
use lk_workers::{Outcome, run_jobs};
use std::alloc::Global;
use std::sync::Wait;
use std::thread::Threads;

/// Reads a job file to the end of the source, runs the jobs of each worker on a thread of its own,
/// and writes the outcome to the sink. It writes nothing until all jobs are done. Each worker
/// passes the gate before and after each job.
///
/// # Errors
///
/// The first line that is refused, a fault of the source or of the sink, or no memory. Then
/// nothing was written, except that after a fault of the sink a prefix of the outcome was.
pub fn ledger<S: Source, K: Sink, G: Gate, R: Threads + Wait + Sync>(
    rt: &R,
    alloc: Global,
    source: &mut S,
    sink: &mut K,
    gate: &G,
) -> Result<Outcome, ReplayFault>
    // What the jobs left is an outcome of the file, made under its lock, and its text was written.
    ensures done { IfOk result (HasRun
        (outside (S.left source.old) (S.faults source.old) (K.held sink.old) (K.faults sink.old))
        (outside (S.left source.new) (S.faults source.new) (K.held sink.new)
        (K.faults sink.new))) }
    ensures fault { IfErr result (FaultMeans
        (outside (S.left source.old) (S.faults source.old) (K.held sink.old) (K.faults sink.old))
        (outside (S.left source.new) (S.faults source.new) (K.held sink.new)
        (K.faults sink.new))) }

    // Where there is no memory, nothing is written.
    ensures untouched { result ≡ Err ReplayFault.Memory → sink.new ≡ sink.old }

    // The jobs of a job file are run, where neither count of faults rose and there is memory.
    ensures complete { (bytes : List ℕ) (work : Workload) → S.left source.old ≡ Some bytes
        → job_file bytes ≡ Ok work
        → ¬ Rose (S.faults source.old) (S.faults source.new)
        → ¬ Rose (K.faults sink.old) (K.faults sink.new)
        → IsOkUnless result ReplayFault.Memory }

    // Another text is refused at its first line that is refused, for the first check that fails,
    // likewise.
    ensures exact { (bytes : List ℕ) (line : ℕ) (why : LineRefusal)
        → S.left source.old ≡ Some bytes → job_file bytes ≡ Err (line, why)
        → ¬ Rose (S.faults source.old) (S.faults source.new)
        → ¬ Rose (K.faults sink.old) (K.faults sink.new)
        → IsErrAnd result
        (λ fault. (fault ≡ refused_fault line why) ⊎ (fault ≡ ReplayFault.Memory)) }
{
    let mut block = Block::new(alloc)?;
    let file = read_jobs(alloc, source)?;
    let outcome = run_jobs(rt, alloc, &file, gate)?;
    let closed = &outcome.closed;
    write_outcome(
        &mut block,
        sink,
        closed.journal(),
        &outcome.reads,
        closed.balances(),
    )?;
    Ok(outcome)
}
