// The lines that stand once, each by the words behind its keyword.
ghost use Rattle.std.specs.Prelude.{◌≡◌};
ghost use Rattle.lk_forms.specs.Words.{words};
ghost use Rattle.lk_job_forms.specs.Lines.{mode_line, suited, guard_line, workers_line, sockets_line, threshold_line, line_args};
ghost use Rattle.lk_job_forms.specs.Draft.{work_of, Makes};

use crate::accounts::accounts_line;
use crate::draft::{Draft, no_jobs};
use crate::jobs::job_line;
use crate::keyword::Keyword;
use lk_forms::{
    Fault, LineRefusal, count_words, kind_word, mode_word, no_words, number_in, one_word,
    read_sockets,
};
use lk_names::{Kind, List, MAX_TURNS, MAX_WORKERS, Mode};
use std::alloc::Global;

// `mode m`: the guard is a spinlock until a line says another.
fn mode_line(draft: &mut Draft, args: &[u8]) -> Result<(), LineRefusal>
    ensures { Makes (mode_line (work_of draft.old) (words args.now)) draft.old draft.new result }
{
    let word = one_word(args)?;
    draft.mode = mode_word(word)?;
    draft.guard = Kind::Spin;
    Ok(())
}

// The kind of a lock of this family: where processors halt, all locks are spinlocks.
fn suited(mode: Mode, kind: Kind) -> Result<Kind, LineRefusal>
    ensures { result ≡ suited mode kind }
{
    match (mode, kind) {
        (Mode::Pv, Kind::Rw) => Err(LineRefusal::Bad(Fault::WrongLock)),
        _ => Ok(kind),
    }
}

// `guard g`
fn guard_line(draft: &mut Draft, args: &[u8]) -> Result<(), LineRefusal>
    ensures { Makes (guard_line (work_of draft.old) (words args.now)) draft.old draft.new result }
{
    let word = one_word(args)?;
    draft.guard = suited(draft.mode, kind_word(word)?)?;
    Ok(())
}

// `workers n`
fn workers_line(alloc: Global, draft: &mut Draft, args: &[u8]) -> Result<(), LineRefusal>
    ensures { Makes (workers_line (work_of draft.old) (words args.now))
        draft.old draft.new result }
{
    let word = one_word(args)?;
    let workers = number_in(1, MAX_WORKERS, word)? as usize;
    let sockets = List::filled(alloc, 0, workers)?;
    let jobs = no_jobs(alloc, workers)?;
    draft.sockets = sockets;
    draft.jobs = jobs;
    draft.count = 0;
    Ok(())
}

// `sockets s0 s1 ..`
fn sockets_line(alloc: Global, draft: &mut Draft, args: &[u8]) -> Result<(), LineRefusal>
    ensures { Makes (sockets_line (work_of draft.old) (words args.now))
        draft.old draft.new result }
{
    let workers = draft.jobs.len();
    if count_words(args) != workers {
        return Err(LineRefusal::Bad(Fault::WordCount));
    }
    draft.sockets = read_sockets(alloc, workers, args)?;
    Ok(())
}

// `threshold t`
fn threshold_line(draft: &mut Draft, args: &[u8]) -> Result<(), LineRefusal>
    ensures { Makes (threshold_line (work_of draft.old) (words args.now))
        draft.old draft.new result }
{
    let word = one_word(args)?;
    draft.threshold = number_in(0, MAX_TURNS, word)? as u32;
    Ok(())
}

/// A line, by the words behind its keyword.
pub(crate) fn line_args(
    alloc: Global,
    draft: &mut Draft,
    keyword: Keyword,
    args: &[u8],
) -> Result<(), LineRefusal>
    ensures { Makes (line_args keyword (work_of draft.old) (words args.now))
        draft.old draft.new result }
{
    match keyword {
        Keyword::Format => Err(LineRefusal::Bad(Fault::Misplaced)),
        Keyword::Mode => mode_line(draft, args),
        Keyword::Guard => guard_line(draft, args),
        Keyword::Workers => workers_line(alloc, draft, args),
        Keyword::Sockets => sockets_line(alloc, draft, args),
        Keyword::Threshold => threshold_line(draft, args),
        Keyword::Accounts => accounts_line(alloc, draft, args),
        Keyword::Job => job_line(draft, args),
        Keyword::End => no_words(args),
    }
}
