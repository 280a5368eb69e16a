// Events in the words of a transcript, without the number of the act.

use lk_names::{Event, How, LockName, RwHow, Waiter, What};

/// The number of a word.
pub fn number_of(word: &str) -> Option<u32> {
    word.parse::<u32>().ok()
}

/// The waiter of a word such as `2.0`.
pub fn waiter_of(word: &str) -> Option<Waiter> {
    let (cpu, ctx) = word.split_once('.')?;
    Some(Waiter {
        cpu: number_of(cpu)?,
        ctx: number_of(ctx)?,
    })
}

// The lock of a word such as `7`, or the wait lock of one such as `7w`.
fn lock_of(word: &str) -> Option<LockName> {
    let number = word.strip_suffix('w');
    Some(LockName {
        index: number_of(number.unwrap_or(word))?,
        wait: number.is_some(),
    })
}

fn how_of(word: &str) -> Option<How> {
    match word {
        "fast" => Some(How::Fast),
        "try" => Some(How::Try),
        "pending" => Some(How::Pending),
        "virt" => Some(How::Virt),
        "retry" => Some(How::Retry),
        "nonode" => Some(How::NoNode),
        "steal" => Some(How::Steal),
        "head" => Some(How::Head),
        "sole" => Some(How::Sole),
        _ => None,
    }
}

fn rw_how_of(word: &str) -> Option<RwHow> {
    match word {
        "fast" => Some(RwHow::Fast),
        "irq" => Some(RwHow::Irq),
        "queued" => Some(RwHow::Queued),
        "try" => Some(RwHow::Try),
        _ => None,
    }
}

// Whom a release owes a kick, by the words behind the lock.
fn release_of(lock: LockName, words: &str) -> Option<What> {
    let owing = match words {
        "" => None,
        _ => Some(number_of(words.strip_prefix("owing ")?)?),
    };
    Some(What::Release { lock, owing })
}

// Whom a handover goes to, and how many it moves, by the words behind the lock.
fn pass_of(lock: LockName, words: &str) -> Option<What> {
    let (to, moved) = words.split_once(" moved ").unwrap_or((words, "0"));
    Some(What::Pass {
        lock,
        to: waiter_of(to)?,
        moved: number_of(moved)?,
    })
}

// What happens to a lock.
fn what_of(verb: &str, lock: LockName, words: &str) -> Option<What> {
    match verb {
        "take" => Some(What::Take {
            lock,
            how: how_of(words)?,
        }),
        "miss" => Some(What::Miss { lock }),
        "release" => release_of(lock, words),
        "arrive" => Some(What::Arrive { lock }),
        "pass" => pass_of(lock, words),
        "flush" => Some(What::Flush { lock }),
        "promote" => Some(What::Promote { lock }),
        "leave" => Some(What::Leave { lock }),
        "halt" => Some(What::Halt { lock }),
        "wake" => Some(What::Wake { lock }),
        "rtake" => Some(What::RTake {
            lock,
            how: rw_how_of(words)?,
        }),
        "rrelease" => Some(What::RRelease { lock }),
        "wtake" => Some(What::WTake {
            lock,
            how: rw_how_of(words)?,
        }),
        "wrelease" => Some(What::WRelease { lock }),
        _ => None,
    }
}

/// The event of a text such as `2.0 take 0 head`.
pub fn event_of(text: &str) -> Option<Event> {
    let (by, words) = text.split_once(' ')?;
    let (verb, rest) = words.split_once(' ').unwrap_or((words, ""));
    let (name, more) = rest.split_once(' ').unwrap_or((rest, ""));
    let what = match verb {
        "int" => What::Int,
        "nudge" => What::Nudge,
        "kick" => What::Kick {
            cpu: number_of(name)?,
        },
        _ => what_of(verb, lock_of(name)?, more)?,
    };
    Some(Event {
        by: waiter_of(by)?,
        what,
    })
}
