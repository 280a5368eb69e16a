// A line `step p n` at the front of the bytes ahead, read in one pass together with its line feed,
// so that nobody has to search for its end first. Single spaces stand between its words. Any other
// line is left to the reader of lines.
ghost use Rattle.std.specs.Prelude.{◌≡◌, ◌≤◌, ◌<◌, false, length, take, IfSome, Ok};
ghost use Rattle.lk_names.specs.declared.events.Act.TheVariants as act;
ghost use Rattle.lk_text.specs.Feeds.{FeedAt};
ghost use Rattle.lk_forms.specs.Grammar.{run_of};
ghost use Rattle.lk_forms.specs.Schedule.{schedule_of};
ghost use Rattle.lk_forms.specs.Fronts.{EndsNumber, IsStepLine};

use crate::answers::Sched;
use crate::arguments::run_of;
use crate::plain::digits;
use lk_names::Act;

// The bytes in which such a line stands, with its line feed. Behind `step ` they are 19, and so
// many digits write a number below 2^64.
const NEAR: usize = 24;

// The number in front, where this byte stands behind its digits, and what stands behind that byte.
#[inline(always)]
fn number_before(bytes: &[u8], last: u8) -> Option<(u64, &[u8])>
    requires { length bytes.now ≤ 19 }
    ensures number { IfSome result (λ both. EndsNumber bytes.now last both.0 both.1.now) }
    ensures shorter { IfSome result (λ both. length both.1.now ≤ length bytes.now) }
{
    let (value, rest) = digits(bytes);
    if rest.len() == bytes.len() {
        return None;
    }
    match rest {
        [b, behind @ ..] if *b == last => Some((value, behind)),
        _ => None,
    }
}

// The two numbers of a line `step p n` in front, and what stands behind its line feed.
#[inline(always)]
fn step_words(bytes: &[u8]) -> Option<(u64, u64, &[u8])>
    requires { length bytes.now ≤ 24 }
    ensures { IfSome result (λ all. IsStepLine bytes.now all.0 all.1 all.2.now) }
{
    match bytes {
        [b's', b't', b'e', b'p', b' ', args @ ..] => {
            let (cpu, rest) = number_before(args, b' ')?;
            let (times, rest) = number_before(rest, b'\n')?;
            Some((cpu, times, rest))
        }
        _ => None,
    }
}

// So many steps of a processor, if there is such a processor, and some step, and not too many.
#[inline(always)]
fn step_run(cpus: u32, acts: u64, cpu: u64, times: u64) -> Option<Sched>
    ensures processor { IfSome result (λ said. cpu < cpus) }
    ensures some { IfSome result (λ said. 0 < times) }
    ensures run { IfSome result (λ said. run_of acts (act.Step cpu) times ≡ Ok said) }
{
    if cpu >= u64::from(cpus) || times == 0 {
        return None;
    }
    run_of(acts, Act::Step(cpu as u32), times).ok()
}

/// Reads the line at the front of these bytes, before the line `end`, if it is a plain `step p n`.
/// `cpus` is the number of processors, and `acts` the number of acts so far. Returns what the line
/// says, and its length in bytes without its line feed.
///
/// Returns `None` if there are fewer than 24 bytes, if the line is another or not plain, or if it
/// is refused. `schedule_line` then reads the line.
#[inline(always)]
pub fn front_step(bytes: &[u8], cpus: u32, acts: u64) -> Option<(Sched, usize)>
    ensures said { IfSome result
        (λ both. schedule_of cpus acts false (take both.1 bytes.now) ≡ Ok both.0) }
    ensures feed { IfSome result (λ both. FeedAt bytes.now both.1) }
    ensures short { IfSome result (λ both. both.1 ≤ 23) }
{
    if bytes.len() < NEAR {
        return None;
    }
    let (cpu, times, rest) = step_words(&bytes[..NEAR])?;
    let said = step_run(cpus, acts, cpu, times)?;
    Some((said, NEAR - 1 - rest.len()))
}
