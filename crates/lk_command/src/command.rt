// The top call.
ghost use Rattle.std.specs.Prelude.{◌≡◌, ◌↔◌, ◌⊎◌, ℕ, List, Some, Err, IfOk, IfErr, IsErr, map, drop, string_bytes};
ghost use Rattle.std.specs.Vec.Iter.{into_iter_items};
ghost use Rattle.std.specs.IoError.{error_kind};
ghost use Rattle.std.specs.declared.io.ErrorKind.TheVariants.{OutOfMemory};
ghost use Rattle.lk_names.specs.declared.events.Act.{Act};
ghost use Rattle.lk_rows.specs.declared.setup.Setup.{Setup};
ghost use Rattle.lk_text.specs.Causes.{Rose};
ghost use Rattle.lk_forms.specs.Trace.{Good, Refused, trace};
ghost use Rattle.lk_forms.specs.declared.answers.LineRefusal.{LineRefusal};
ghost use Rattle.lk_stream.specs.Outcome.{refused_fault};
ghost use Rattle.lk_gen.specs.Generated.{generated};
ghost use Rattle.lk_words.specs.Reading.{reading_of};
ghost use Rattle.lk_words.specs.declared.asked.Reading.{Reading};
ghost use Rattle.lk_command.specs.Args.{AreRead, Asks, AsksReplay, AsksNothing, FoundNoMemory};
ghost use Rattle.lk_command.specs.Ends.{outside_of};
ghost use Rattle.lk_command.specs.Status.{note_of, status_of};
ghost use Rattle.lk_command.specs.OsqRuns.{OsqRuns};
ghost use Rattle.lk_command.specs.Audits.{Audits};
ghost use Rattle.lk_command.specs.Ledgers.{Ledgers};
ghost use Rattle.lk_command.specs.Means.{CameTo, Does, Means, Writes, IsSaid, closing_of};
ghost use Rattle.lk_command.specs.declared.status.Status.{Status};

use crate::auditing::run_audit;
use crate::jobs::run_ledger;
use crate::load::load;
use crate::notes::note;
use crate::spin_queue::run_osq;
use crate::status::Status;
use lk_gen::generate;
use lk_guard::Gate;
use lk_names::Memory;
use lk_replay::replay;
use lk_text::{Sink, Source};
use lk_words::{Reading, reading};
use std::alloc::Global;
use std::env::Args;
use std::io::{self, ErrorKind};
use std::sync::Wait;
use std::thread::Threads;

// The words behind the program's name. Room for them is asked for once, so that a request that is
// refused is answered: `collect` would ask again, for less.
fn words_of(alloc: Global, mut args: Args) -> Result<Vec<String>, Memory>
    ensures { IfOk result (λ words. words.items ≡ drop 1 (into_iter_items args)) }
{
    let _name = args.next();
    let mut words = Vec::with_capacity(alloc, args.len())?;
    words.extend(args)?;
    Ok(words)
}

// What the words behind the program's name ask for.
fn words_asked(alloc: Global, args: Args) -> Result<Option<Reading>, Memory>
    ensures { IfOk result
        (λ asked. reading_of (map string_bytes (drop 1 (into_iter_items args))) ≡ asked) }
{
    let words = words_of(alloc, args)?;
    reading(alloc, &words)
}

// What it means that the arguments can't be read: there was no memory, or one of them is no text.
fn unread(error: io::Error) -> Status
    ensures memory { error_kind error ≡ OutOfMemory → result ≡ Status.Memory }
    ensures usage { ¬ (error_kind error ≡ OutOfMemory) → result ≡ Status.Usage }
{
    match error.kind() {
        ErrorKind::OutOfMemory => Status::Memory,
        _ => Status::Usage,
    }
}

// What the program's arguments ask for; or the status, where they can't be read.
fn asked(alloc: Global, args: io::Result<Args>) -> Result<Option<Reading>, Status>
    ensures read { IfOk result (λ asked. AreRead asked string_bytes args) }
    ensures memory { FoundNoMemory args → result ≡ Err Status.Memory }
    ensures unread { IfErr result (λ status. (status ≡ Status.Memory)
        ⊎ ((status ≡ Status.Usage) × IsErr args × ¬ FoundNoMemory args)) }
{
    match args {
        Ok(args) => match words_asked(alloc, args) {
            Ok(asked) => Ok(asked),
            Err(Memory) => Err(Status::Memory),
        },
        Err(error) => Err(unread(error)),
    }
}

// Does what the words ask, as they were read.
fn perform<S: Source, K: Sink, G: Gate, R: Threads + Wait + Sync>(
    rt: &R,
    alloc: Global,
    asked: Option<Reading>,
    source: &mut S,
    sink: &mut K,
    gate: &G,
) -> Status
    ensures came { CameTo asked (source.new ≡ source.old) (sink.new ≡ sink.old)
        (outside_of S.Source K.Sink source.old sink.old)
        (outside_of S.Source K.Sink source.new sink.new) result }
    ensures memory { result ≡ Status.Memory → sink.new ≡ sink.old }
{
    match asked {
        Some(Reading::Replay) => Status::of(replay(alloc, source, sink)),
        Some(Reading::Osq) => run_osq(alloc, source, sink),
        Some(Reading::Audit) => run_audit(alloc, source, sink),
        Some(Reading::Ledger) => run_ledger(rt, alloc, source, sink, gate),
        Some(Reading::Gen(start)) => Status::of_put(generate(start, sink)),
        Some(Reading::Load(start)) => load(alloc, start, sink),
        None => Status::Usage,
    }
}

// Does what the program's arguments ask.
fn obey<S: Source, K: Sink, G: Gate, R: Threads + Wait + Sync>(
    rt: &R,
    alloc: Global,
    args: io::Result<Args>,
    source: &mut S,
    sink: &mut K,
    gate: &G,
) -> Status
    ensures { Does (λ reading. Asks reading string_bytes args) (FoundNoMemory args)
        (source.new ≡ source.old) (sink.new ≡ sink.old)
        (outside_of S.Source K.Sink source.old sink.old)
        (outside_of S.Source K.Sink source.new sink.new) result }
{
    match asked(alloc, args) {
        Ok(asked) => perform(rt, alloc, asked, source, sink, gate),
        Err(status) => status,
    }
}

/// Does what the program's arguments ask. If it is not done, it writes a line to `notes` that says
/// why.
///
/// `replay` reads a trace from the source and writes its transcript to the sink. `osq` does the
/// same for a run of the optimistic spin queue. `audit` judges a transcript from any program, and
/// writes its verdict. `ledger` reads a job file, runs its jobs on threads, and writes their
/// outcome. `gen n` writes the trace that is generated from the start number. `load n` replays
/// that trace in memory, and writes the closing lines. Only `ledger` uses threads, and its workers
/// pass the gate before and after each job.
pub fn run<S: Source, K: Sink, N: Sink, G: Gate, R: Threads + Wait + Sync>(
    rt: &R,
    alloc: Global,
    args: io::Result<Args>,
    source: &mut S,
    sink: &mut K,
    notes: &mut N,
    gate: &G,
) -> Status
    // Exactly words that ask for nothing get the usage line, also words that are no text; but there
    // may be no memory in which to tell.
    ensures usage { (result ≡ Status.Usage)
        ↔ (AsksNothing (λ reading. Asks reading string_bytes args) × ¬ FoundNoMemory args
        × ¬ (result ≡ Status.Memory)) }
    ensures unread { FoundNoMemory args → result ≡ Status.Memory }

    // Where the words ask for nothing, nothing is read or written; nor is anything written for want
    // of memory.
    ensures untouched { AsksNothing (λ reading. Asks reading string_bytes args)
        → (source.new ≡ source.old) × (sink.new ≡ sink.old) }
    ensures memory { result ≡ Status.Memory → sink.new ≡ sink.old }

    // What each other status of a replay means, in terms of the bytes of the source and the sink.
    ensures means { AsksReplay string_bytes args
        → Means (outside_of S.Source K.Sink source.old sink.old)
        (outside_of S.Source K.Sink source.new sink.new) result }

    // A trace is replayed whole, where neither count of faults rose and there is memory.
    ensures complete { (bytes : List ℕ) (setup : Setup) (acts : List Act)
        → AsksReplay string_bytes args
        → S.left source.old ≡ Some bytes → trace bytes ≡ Good setup acts
        → ¬ Rose (S.faults source.old) (S.faults source.new)
        → ¬ Rose (K.faults sink.old) (K.faults sink.new)
        → (result ≡ Status.Done) ⊎ (result ≡ Status.Memory) }

    // Another text is refused at its first line that is refused, for the first check that fails,
    // likewise.
    ensures exact { (bytes : List ℕ) (line : ℕ) (why : LineRefusal) (setup : Setup)
        (acts : List Act)
        → AsksReplay string_bytes args → S.left source.old ≡ Some bytes
        → trace bytes ≡ Refused line why setup acts
        → ¬ Rose (S.faults source.old) (S.faults source.new)
        → ¬ Rose (K.faults sink.old) (K.faults sink.new)
        → (result ≡ status_of (Err (refused_fault line why))) ⊎ (result ≡ Status.Memory) }

    // The same of a run of the spin queue, on its grammar; Done says that its history is lawful.
    ensures osq { Asks Reading.Osq string_bytes args
        → OsqRuns (outside_of S.Source K.Sink source.old sink.old)
        (outside_of S.Source K.Sink source.new sink.new) result }

    // A transcript from anybody, behind the header of a trace, is judged: Done says that its
    // history is lawful, and Unlawful at which line it first is not.
    ensures audits { Asks Reading.Audit string_bytes args
        → Audits (outside_of S.Source K.Sink source.old sink.old)
        (outside_of S.Source K.Sink source.new sink.new) result }

    // The jobs of a job file are run, each worker's on a thread of its own: Done says that the text of
    // an outcome was written that may come of the file.
    ensures ledger { Asks Reading.Ledger string_bytes args
        → Ledgers (outside_of S.Source K.Sink source.old sink.old)
        (outside_of S.Source K.Sink source.new sink.new) result }

    // The generated trace is written, and the source is not read.
    ensures generates { (start : ℕ) → Asks (Reading.Gen start) string_bytes args
        → (source.new ≡ source.old)
        × Writes (outside_of S.Source K.Sink source.old sink.old)
        (outside_of S.Source K.Sink source.new sink.new) (generated start) result }

    // The closing lines of its replay are written, and the source is not read. No line is refused,
    // no limit is passed, and no read fails.
    ensures loads { (start : ℕ) → Asks (Reading.Load start) string_bytes args
        → (source.new ≡ source.old)
        × Writes (outside_of S.Source K.Sink source.old sink.old)
        (outside_of S.Source K.Sink source.new sink.new) (closing_of start) result }

    // The note line was written, or a front of it and a write of it failed.
    ensures noted { IsSaid (N.held notes.old) (N.held notes.new) (N.faults notes.old)
        (N.faults notes.new) (note_of result) }
{
    let status = obey(rt, alloc, args, source, sink, gate);
    note(notes, status);
    status
}
