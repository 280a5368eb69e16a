// The words behind the first word of a line.
ghost use Rattle.std.specs.Prelude.{◌≡◌, ◌≤◌, ◌<◌, IfOk};
ghost use Rattle.lk_forms.specs.Agrees.{IsAnswer};
ghost use Rattle.lk_forms.specs.Words.{words};
ghost use Rattle.lk_forms.specs.Grammar.{one_word, two_words, no_words, number_in, cpu_word, run_of};

use crate::answers::{Fault, LineRefusal, Sched, Which};
use crate::limits::MAX_ACTS;
use crate::words::next_word;
use lk_names::Act;
use lk_text::read_number;

const TOO_MANY_OR_FEW: LineRefusal = LineRefusal::Bad(Fault::WordCount);

/// Reads exactly one word.
///
/// # Errors
///
/// `WordCount`: there is no word, or there are more.
pub fn one_word(args: &[u8]) -> Result<&[u8], LineRefusal>
    ensures { IsAnswer (one_word (words args.now)) (λ word. word.now) result }
{
    match next_word(args) {
        None => Err(TOO_MANY_OR_FEW),
        Some((word, rest)) => match next_word(rest) {
            None => Ok(word),
            Some(_) => Err(TOO_MANY_OR_FEW),
        },
    }
}

/// Reads exactly two words.
///
/// # Errors
///
/// `WordCount`: there are fewer words, or more.
pub fn two_words(args: &[u8]) -> Result<(&[u8], &[u8]), LineRefusal>
    ensures { IsAnswer (two_words (words args.now)) (λ both. (both.0.now, both.1.now)) result }
{
    let Some((first, rest)) = next_word(args) else {
        return Err(TOO_MANY_OR_FEW);
    };
    match one_word(rest) {
        Ok(second) => Ok((first, second)),
        Err(_) => Err(TOO_MANY_OR_FEW),
    }
}

/// Sees that there is no word.
///
/// # Errors
///
/// `WordCount`: there is a word.
pub fn no_words(args: &[u8]) -> Result<(), LineRefusal>
    ensures { result ≡ no_words (words args.now) record {} }
{
    match next_word(args) {
        None => Ok(()),
        Some(_) => Err(TOO_MANY_OR_FEW),
    }
}

/// Reads a number from `low` to `high`.
///
/// # Errors
///
/// `BadNumber`: the word is not a number. `OutOfRange`: the number is lower or higher.
pub fn number_in(low: u64, high: u64, word: &[u8]) -> Result<u64, LineRefusal>
    ensures value { result ≡ number_in low high word.now }
    ensures within { IfOk result (λ n. n ≤ high) }
{
    let n = read_number(word).ok_or(LineRefusal::Bad(Fault::BadNumber))?;
    if low <= n && n <= high {
        Ok(n)
    } else {
        Err(LineRefusal::Bad(Fault::OutOfRange))
    }
}

/// Reads the number of one of `cpus` processors, which are numbered from 0.
///
/// # Errors
///
/// `BadNumber`: the word is not a number. `OutOfRange`: there is no processor of that number.
pub fn cpu_word(cpus: u32, word: &[u8]) -> Result<u32, LineRefusal>
    ensures value { result ≡ cpu_word cpus word.now }
    ensures within { IfOk result (λ p. p < cpus) }
{
    let cpu = read_number(word).ok_or(LineRefusal::Bad(Fault::BadNumber))?;
    if cpu < u64::from(cpus) {
        Ok(cpu as u32)
    } else {
        Err(LineRefusal::Bad(Fault::OutOfRange))
    }
}

/// The act, made `times` times behind `acts` acts, if a schedule may have so many.
pub(crate) fn run_of(acts: u64, act: Act, times: u64) -> Result<Sched, LineRefusal>
    ensures { result ≡ run_of acts act times }
{
    match MAX_ACTS.checked_sub(acts) {
        Some(left) if times <= left => Ok(Sched::Run { act, times }),
        _ => Err(LineRefusal::Limit(Which::Acts)),
    }
}
