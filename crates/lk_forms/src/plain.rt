// A line that says an act in the plain way, read in one pass over its bytes: it is short, and a
// single blank ends each of its words. Any other line is left to the reader of words, which also
// tells why one is refused.
ghost use Rattle.std.specs.Prelude.{◌≡◌, ◌≤◌, true, false, length, IfSome, Ok};
ghost use Rattle.lk_forms.specs.Words.{words, is_text};
ghost use Rattle.lk_forms.specs.Operations.{and_then};
ghost use Rattle.lk_forms.specs.Grammar.{one_word, cpu_word, step_line};
ghost use Rattle.lk_forms.specs.Schedule.{schedule_of};
ghost use Rattle.lk_forms.specs.Fronts.{HasDigits, HasNumber};

use crate::answers::Sched;
use crate::arguments::run_of;
use crate::words::is_blank;
use lk_names::Act;

/// The most bytes of a plain line. Behind `int ` they are at most 19 digits, and so many write a
/// number below 2^64.
const MAX_PLAIN: usize = 23;

/// Reads the digits at the front. Returns the number that they write, 0 if there are none, and the
/// bytes behind them.
#[inline(always)]
pub(crate) fn digits(bytes: &[u8]) -> (u64, &[u8])
    requires { length bytes.now ≤ 19 }
    ensures { HasDigits bytes.now result.0 result.1.now }
{
    let mut value: u64 = 0;
    let mut rest = bytes;
    while let [b, behind @ ..] = rest
        && b.is_ascii_digit()
    {
        value = value * 10 + u64::from(*b - b'0');
        rest = behind;
    }
    (value, rest)
}

// The number that the word in front writes, and what stands behind the blank that ends it.
#[inline(always)]
fn number(bytes: &[u8]) -> Option<(u64, &[u8])>
    requires { length bytes.now ≤ 19 }
    ensures number { IfSome result (λ both. HasNumber bytes.now both.0 both.1.now) }
    ensures shorter { IfSome result (λ both. length both.1.now ≤ length bytes.now) }
{
    let (value, rest) = digits(bytes);
    if rest.len() == bytes.len() {
        return None;
    }
    match rest {
        [] => Some((value, rest)),
        [b, behind @ ..] if is_blank(*b) => Some((value, behind)),
        _ => None,
    }
}

// The processor of `int p`, `pre p`, `res p` or `nudge p`.
#[inline(always)]
fn plain_cpu(cpus: u32, args: &[u8]) -> Option<u32>
    requires { length args.now ≤ 19 }
    ensures word { IfSome result
        (λ p. and_then (one_word (words args.now)) (λ word. cpu_word cpus word) ≡ Ok p) }
    ensures text { IfSome result (λ p. is_text args.now ≡ true) }
{
    let (cpu, rest) = number(args)?;
    if cpu >= u64::from(cpus) || !rest.is_empty() {
        return None;
    }
    Some(cpu as u32)
}

// `step p n`, by the words behind the keyword.
#[inline(always)]
fn plain_step(cpus: u32, acts: u64, args: &[u8]) -> Option<Sched>
    requires { length args.now ≤ 19 }
    ensures line { IfSome result (λ said. step_line cpus acts (words args.now) ≡ Ok said) }
    ensures text { IfSome result (λ said. is_text args.now ≡ true) }
{
    let (cpu, rest) = number(args)?;
    let (times, rest) = number(rest)?;
    if cpu >= u64::from(cpus) || times == 0 || !rest.is_empty() {
        return None;
    }
    run_of(acts, Act::Step(cpu as u32), times).ok()
}

// What a line of at most 23 bytes says before `end`, if it is plain.
#[inline(always)]
fn short_act(line: &[u8], cpus: u32, acts: u64) -> Option<Sched>
    requires { length line.now ≤ 23 }
    ensures { IfSome result (λ said. schedule_of cpus acts false line.now ≡ Ok said) }
{
    match line {
        [b's', b't', b'e', b'p', b' ', args @ ..] => plain_step(cpus, acts, args),
        [b'i', b'n', b't', b' ', args @ ..] => {
            run_of(acts, Act::Interrupt(plain_cpu(cpus, args)?), 1).ok()
        }
        [b'p', b'r', b'e', b' ', args @ ..] => {
            run_of(acts, Act::Preempt(plain_cpu(cpus, args)?), 1).ok()
        }
        [b'r', b'e', b's', b' ', args @ ..] => {
            run_of(acts, Act::Resume(plain_cpu(cpus, args)?), 1).ok()
        }
        [b'n', b'u', b'd', b'g', b'e', b' ', args @ ..] => {
            run_of(acts, Act::Nudge(plain_cpu(cpus, args)?), 1).ok()
        }
        _ => None,
    }
}

/// What a line of the schedule before `end` says, if it says an act in the plain way.
#[inline(always)]
pub(crate) fn plain_act(line: &[u8], cpus: u32, acts: u64) -> Option<Sched>
    ensures { IfSome result (λ said. schedule_of cpus acts false line.now ≡ Ok said) }
{
    if line.len() > MAX_PLAIN {
        return None;
    }
    short_act(line, cpus, acts)
}
