// Breaches of lock 0 in words.

use crate::events::{number_of, waiter_of};
use lk_names::{Breach, LockName, Waiter};
use std::process::Abort;

const LOCK: LockName = LockName {
    index: 0,
    wait: false,
};

// The breach of this name, by a waiter.
fn breach_by(name: &str, by: Waiter) -> Option<Breach> {
    match name {
        "NotHolder" => Some(Breach::NotHolder { lock: LOCK, by }),
        "Twice" => Some(Breach::Twice { lock: LOCK, by }),
        "NoKick" => Some(Breach::NoKick {
            lock: LOCK,
            waiter: by,
        }),
        _ => None,
    }
}

// The breach of this name, by the second waiter: the first is the holder, the front or the next.
fn breach_between(name: &str, first: Waiter, by: Waiter) -> Option<Breach> {
    match name {
        "Beside" => Some(Breach::Beside {
            lock: LOCK,
            held_by: first,
            by,
        }),
        "WrongHead" => Some(Breach::WrongHead {
            lock: LOCK,
            first: Some(first),
            by,
        }),
        "WrongNext" => Some(Breach::WrongNext {
            lock: LOCK,
            first: Some(first),
            named: by,
        }),
        _ => None,
    }
}

// More moves than are lawful, by these numbers.
fn wrong_move(moved: &str, lawful: &str) -> Option<Breach> {
    Some(Breach::WrongMove {
        lock: LOCK,
        moved: number_of(moved)?,
        lawful: number_of(lawful)?,
    })
}

// More passes of a waiter than the threshold.
fn over_threshold(waiter: &str, passes: &str) -> Option<Breach> {
    Some(Breach::OverThreshold {
        lock: LOCK,
        waiter: waiter_of(waiter)?,
        passes: number_of(passes)?,
    })
}

// The breach of a text: its name, and whom it names or how many.
fn breach_of(text: &str) -> Option<Breach> {
    let (name, words) = text.split_once(' ')?;
    let Some((word, more)) = words.split_once(' ') else {
        return breach_by(name, waiter_of(words)?);
    };
    match name {
        "WrongMove" => wrong_move(word, more),
        "OverThreshold" => over_threshold(word, more),
        _ => breach_between(name, waiter_of(word)?, waiter_of(more)?),
    }
}

/// The breach that a text names, if it is not `lawful`.
pub fn wanted_breach(rt: &impl Abort, text: &str) -> Option<Breach> {
    if text == "lawful" {
        return None;
    }
    Some(breach_of(text).expect(rt, "a breach"))
}
