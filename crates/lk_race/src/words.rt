// What the program's arguments ask for.
ghost use Rattle.std.specs.Prelude.{◌≡◌, IfSome, false};
ghost use Rattle.lk_law.specs.Agree.{halts};

use crate::bare_race::BareRace;
use crate::course::Course;
use crate::mutex_race::MutexRace;
use crate::rw_race::RwRace;
use crate::spin_race::{Size, SpinRace};
use lk_names::{Kind, Mode};
use std::env::{self, Env};

// How many turns a waiter spins before it halts, if no argument says it.
const SPINS: u16 = 32_768;

/// The race for which the program's arguments ask.
#[derive(Clone, Copy)]
pub enum Asked {
    /// A race for a lock with nothing under it.
    Bare(BareRace),
    /// A race for a spinlock with a value.
    Spin(SpinRace),
    /// A race for a mutex of the standard library.
    Mutex(MutexRace),
    /// A race for a reader-writer lock with a value.
    Rw(RwRace),
}

// The mode that a word names, if waiters of that mode spin.
fn mode_of(word: &str) -> Option<Mode>
    ensures awake { IfSome result (λ mode. halts mode ≡ false) }
{
    match word {
        "virt" => Some(Mode::Virt),
        "native" => Some(Mode::Native),
        "cna" => Some(Mode::Cna),
        _ => None,
    }
}

// The kind of lock in a race with nothing under it that a word names.
fn bare_kind_of(kind: &str) -> Option<Kind> {
    match kind {
        "bare" => Some(Kind::Spin),
        "rwbare" => Some(Kind::Rw),
        _ => None,
    }
}

// The size of the value under a lock of the kind that a word names, if that lock has one.
fn size_of(kind: &str) -> Option<Size> {
    match kind {
        "spin8" => Some(Size::One),
        "spin" => Some(Size::Two),
        "spin1024" => Some(Size::Large),
        _ => None,
    }
}

// A race for a lock whose waiters halt, which is a spinlock.
fn halting(kind: &str, spins: Option<u16>, course: Course) -> Option<Asked> {
    let spins = spins.unwrap_or(SPINS);
    if spins < 1 {
        return None;
    }
    if kind == "bare" {
        return Some(Asked::Bare(BareRace {
            mode: Mode::Pv,
            kind: Kind::Spin,
            spins,
            course,
        }));
    }
    let size = size_of(kind)?;
    Some(Asked::Spin(SpinRace {
        mode: Mode::Pv,
        spins,
        size,
        course,
    }))
}

// A race for a lock whose waiters never halt.
fn spinning(mode: &str, kind: &str, course: Course) -> Option<Asked> {
    if kind == "rw" {
        let mode = mode_of(mode)?;
        return Some(Asked::Rw(RwRace { mode, course }));
    }
    if let Some(kind) = bare_kind_of(kind) {
        let mode = mode_of(mode)?;
        return Some(Asked::Bare(BareRace {
            mode,
            kind,
            spins: SPINS,
            course,
        }));
    }
    let size = size_of(kind)?;
    if mode == "mutex" {
        return Some(Asked::Mutex(MutexRace { size, course }));
    }
    let mode = mode_of(mode)?;
    Some(Asked::Spin(SpinRace {
        mode,
        spins: SPINS,
        size,
        course,
    }))
}

/// The race for which the program's arguments ask. Returns `None` for other arguments, and if they
/// cannot be read.
pub fn race_of<R: Env + Alloc>(rt: &R) -> Option<Asked> {
    let mut words = env::args(rt).ok()?.skip(1);
    let mode = words.next()?;
    let kind = words.next()?;
    let threads = words.next()?.parse::<u32>().ok()?;
    let turns = words.next()?.parse::<u32>().ok()?;
    let spins = match words.next() {
        Some(word) => Some(word.parse::<u16>().ok()?),
        None => None,
    };
    if words.next().is_some() || threads < 1 || threads > 64 {
        return None;
    }
    let course = Course { threads, turns };
    match (mode.as_str(), spins) {
        ("pv", spins) => halting(kind.as_str(), spins, course),
        (mode, None) => spinning(mode, kind.as_str(), course),
        (_, Some(_)) => None,
    }
}
