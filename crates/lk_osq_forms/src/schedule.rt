// The lines of a schedule.
ghost use Rattle.std.specs.Prelude.{◌≡◌, ◌≢◌, IfOk, Err};
ghost use Rattle.lk_forms.specs.Words.{words};
ghost use Rattle.lk_forms.specs.declared.answers.LineRefusal.{LineRefusal as Refusal};
ghost use Rattle.lk_osq_forms.specs.Lines.{run_of, step_line, give_line, schedule_args, schedule_of};
ghost use Rattle.lk_osq_forms.specs.Schedule.{IsWithin};

use crate::answers::Sched;
use crate::keyword::{END_RANK, GO_RANK, Keyword};
use lk_forms::{
    Fault, LineRefusal, MAX_ACTS, Which, cpu_word, is_comment, is_text, next_word, no_words,
    number_in, one_word, two_words,
};

// The run of an act, if there are not too many acts.
fn run_of(acts: u64, give: bool, cpu: u32, times: u64) -> Result<Sched, LineRefusal>
    ensures { result ≡ run_of acts give cpu times }
{
    match MAX_ACTS.checked_sub(acts) {
        Some(left) if times <= left => Ok(Sched::Run { give, cpu, times }),
        _ => Err(LineRefusal::Limit(Which::Acts)),
    }
}

// `step p n`
fn step_line(cpus: u32, acts: u64, args: &[u8]) -> Result<Sched, LineRefusal>
    ensures { result ≡ step_line cpus acts (words args.now) }
{
    let (cpu, times) = two_words(args)?;
    let cpu = cpu_word(cpus, cpu)?;
    let times = number_in(1, u64::MAX, times)?;
    run_of(acts, false, cpu, times)
}

// `give p`
fn give_line(cpus: u32, acts: u64, args: &[u8]) -> Result<Sched, LineRefusal>
    ensures { result ≡ give_line cpus acts (words args.now) }
{
    let cpu = cpu_word(cpus, one_word(args)?)?;
    run_of(acts, true, cpu, 1)
}

// The words behind the keyword of a line of the schedule.
fn schedule_args(keyword: Keyword, cpus: u32, acts: u64, args: &[u8]) -> Result<Sched, LineRefusal>
    ensures { result ≡ schedule_args keyword cpus acts (words args.now) }
{
    match keyword {
        Keyword::Step => step_line(cpus, acts, args),
        Keyword::Give => give_line(cpus, acts, args),
        Keyword::End => {
            no_words(args)?;
            Ok(Sched::End)
        }
        _ => Err(LineRefusal::Bad(Fault::Misplaced)),
    }
}

// What a line of a schedule says, by what is read of the lines before it.
fn read_line(line: &[u8], cpus: u32, acts: u64, ended: bool) -> Result<Sched, LineRefusal>
    ensures { result ≡ schedule_of cpus acts ended line.now }
{
    if !is_text(line) {
        return Err(LineRefusal::Bad(Fault::NotText));
    }
    let Some((first, args)) = next_word(line) else {
        return Ok(Sched::Blank);
    };
    if is_comment(first) {
        return Ok(Sched::Blank);
    }
    let keyword = Keyword::of(first).ok_or(LineRefusal::Bad(Fault::UnknownWord))?;
    let last = if ended { END_RANK } else { GO_RANK };
    match keyword.fault_of_place(last) {
        Some(fault) => Err(LineRefusal::Bad(fault)),
        None => schedule_args(keyword, cpus, acts, args),
    }
}

/// Reads one line of a schedule, without its line feed, after `acts` acts. `ended` says whether
/// the line `end` was read. It takes no memory.
///
/// # Errors
///
/// The first check of `docs/FORMATS.md` that the line fails.
#[inline]
pub fn schedule_line(line: &[u8], cpus: u32, acts: u64, ended: bool) -> Result<Sched, LineRefusal>
    ensures value { result ≡ schedule_of cpus acts ended line.now }
    ensures within { IfOk result (λ said. IsWithin cpus acts said) }
    ensures no_memory { result ≢ Err Refusal.Memory }
{
    read_line(line, cpus, acts, ended)
}
