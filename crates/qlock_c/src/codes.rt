// The numbers of answers.
ghost use Rattle.std.specs.Prelude.{◌≡◌, ◌≢◌, None};
ghost use Rattle.lk_port.specs.declared.answer.Answer.TheVariants.{Done};

use lk_port::{Answer, Fault, Freed};

/// No processor was kicked.
pub(crate) const NOBODY: u32 = u32::MAX;

/// The domain has no such lock.
const NO_LOCK: u32 = 3;

/// The handle has no processor.
pub(crate) const CLOSED: u32 = 10;

/// The processor holds a lock, or a call of it waits; or a handle is not empty.
pub(crate) const IN_USE: u32 = 11;

/// A number is out of range.
pub(crate) const RANGE: u32 = 12;

/// There is not enough memory.
pub(crate) const MEMORY: u32 = 13;

// The number of an answer.
pub(crate) fn code(answer: Answer) -> u32
    ensures { result ≡ 0 → answer ≡ Done }
{
    match answer {
        Answer::Done => 0,
        Answer::Waits => 1,
        Answer::Busy => 2,
        Answer::NoLock => NO_LOCK,
        Answer::WrongKind => 4,
        Answer::Held => 5,
        Answer::NotHeld => 6,
        Answer::WrongManner => 7,
        Answer::Pending => 8,
        Answer::Idle => 9,
        Answer::Halts => 14,
        Answer::Again => 15,
    }
}

// Writes which processor a release has kicked, if it has freed the lock, and gives the code.
pub(crate) fn freed_code(freed: Freed, kicked: &mut u32) -> u32
    ensures done { result ≡ 0 → freed.answer ≡ Done }
    ensures same { result ≢ 0 → kicked.new ≡ kicked.old }
{
    let code = code(freed.answer);
    if code == 0 {
        *kicked = freed.kicked.unwrap_or(NOBODY);
    }
    code
}

// The number of a fault.
pub(crate) fn fault_code(fault: Fault) -> u32
    ensures { result ≢ 0 }
{
    match fault {
        Fault::Range => RANGE,
        Fault::Memory => MEMORY,
    }
}

// Writes the answer of a look, if there is one, and gives the code.
pub(crate) fn told(answer: Option<bool>, yes: &mut u32) -> u32
    ensures { answer ≡ None → yes.new ≡ yes.old }
{
    match answer {
        None => NO_LOCK,
        Some(is) => {
            *yes = u32::from(is);
            0
        }
    }
}
