// The lines of a schedule.
ghost use Rattle.std.specs.Prelude.{◌≡◌, ◌≢◌, ◌<◌, ℕ, List, Result, IfOk, Ok, Err, if◌then◌else◌};
ghost use Rattle.lk_forms.specs.Words.{words};
ghost use Rattle.lk_forms.specs.Operations.{and_then};
ghost use Rattle.lk_forms.specs.Grammar.{one_word, cpu_word, step_line, schedule_args, reading_of};
ghost use Rattle.lk_forms.specs.Schedule.{schedule_of, IsInSchedule, SaysNext, IsWithin};

use crate::answers::{Fault, LineRefusal, Sched};
use crate::arguments::{cpu_word, no_words, number_in, one_word, run_of, two_words};
use crate::keyword::{END_RANK, GO_RANK, Keyword};
use crate::plain::plain_act;
use crate::words::{is_comment, is_text, next_word};
use lk_names::Act;

// `step p n`
fn step_line(cpus: u32, acts: u64, args: &[u8]) -> Result<Sched, LineRefusal>
    ensures { result ≡ step_line cpus acts (words args.now) }
{
    let (cpu, times) = two_words(args)?;
    let cpu = cpu_word(cpus, cpu)?;
    let times = number_in(1, u64::MAX, times)?;
    run_of(acts, Act::Step(cpu), times)
}

// The processor of `int p`, `pre p`, `res p` or `nudge p`.
fn act_cpu(cpus: u32, args: &[u8]) -> Result<u32, LineRefusal>
    ensures { result ≡ and_then (one_word (words args.now)) (λ word. cpu_word cpus word) }
{
    cpu_word(cpus, one_word(args)?)
}

// The words behind the keyword of a line of the schedule.
fn schedule_args(keyword: Keyword, cpus: u32, acts: u64, args: &[u8]) -> Result<Sched, LineRefusal>
    ensures { result ≡ schedule_args keyword cpus acts (words args.now) }
{
    match keyword {
        Keyword::Step => step_line(cpus, acts, args),
        Keyword::Int => run_of(acts, Act::Interrupt(act_cpu(cpus, args)?), 1),
        Keyword::Pre => run_of(acts, Act::Preempt(act_cpu(cpus, args)?), 1),
        Keyword::Res => run_of(acts, Act::Resume(act_cpu(cpus, args)?), 1),
        Keyword::Nudge => run_of(acts, Act::Nudge(act_cpu(cpus, args)?), 1),
        Keyword::End => {
            no_words(args)?;
            Ok(Sched::End)
        }
        _ => Err(LineRefusal::Bad(Fault::Misplaced)),
    }
}

// What a line of a schedule says, word by word.
#[inline(never)]
fn read_words(line: &[u8], cpus: u32, acts: u64, ended: bool) -> Result<Sched, LineRefusal>
    ensures { result ≡ schedule_of cpus acts ended line.now }
{
    if !is_text(line) {
        return Err(LineRefusal::Bad(Fault::NotText));
    }
    let Some((first, args)) = next_word(line) else {
        return Ok(Sched::Blank);
    };
    if is_comment(first) {
        return Ok(Sched::Blank);
    }
    let keyword = Keyword::of(first).ok_or(LineRefusal::Bad(Fault::UnknownWord))?;
    let last = if ended { END_RANK } else { GO_RANK };
    match keyword.fault_of_place(last) {
        Some(fault) => Err(LineRefusal::Bad(fault)),
        None => schedule_args(keyword, cpus, acts, args),
    }
}

// What a line of a schedule says. Most say an act, and are read in one pass.
#[inline(always)]
fn read_line(line: &[u8], cpus: u32, acts: u64, ended: bool) -> Result<Sched, LineRefusal>
    ensures { result ≡ schedule_of cpus acts ended line.now }
{
    if !ended && let Some(said) = plain_act(line, cpus, acts) {
        return Ok(said);
    }
    read_words(line, cpus, acts, ended)
}

/// Reads one line of a schedule, given without its line feed. `cpus` is the number of processors,
/// `acts` the number of acts so far, and `ended` says that the line `end` was read. It takes no
/// memory.
///
/// # Errors
///
/// The first check of the grammar that the line fails, or the limit of 10^8 acts. It never answers
/// `Memory`.
#[inline(always)]
pub fn schedule_line(line: &[u8], cpus: u32, acts: u64, ended: bool) -> Result<Sched, LineRefusal>
    ensures value { result ≡ schedule_of cpus acts ended line.now }

    // Behind lines that say so much, it is the answer of the grammar.
    ensures reads { (before : List (List ℕ)) → IsInSchedule (reading_of before) cpus acts ended
        → SaysNext (reading_of before) line.now result }
    ensures within { IfOk result (λ said. IsWithin cpus acts said) }
    ensures no_memory { result ≢ Err LineRefusal.Memory }
{
    read_line(line, cpus, acts, ended)
}
