//! Threads acquire one lock in turn, and change what lies under it while they hold it.
//!
//! `lk_race MODE spin THREADS TURNS` makes a domain of this mode with one spinlock, under
//! which lie two numbers, and a processor for each thread. In each of its turns a thread acquires
//! the lock, raises the numbers by one, and releases the lock. At the end the program writes the
//! numbers to standard output, and to standard error the time that the turns took. For `spin8`
//! one number lies under the lock, and for `spin1024` one number at the head of 1 KiB. With
//! `mutex` as MODE the lock is a mutex of the standard library.
//!
//! `lk_race MODE rw THREADS TURNS` takes a reader-writer lock whose value readers share: in 99 of
//! 100 turns a thread compares its two numbers as a reader, and in the last one it changes them, and
//! so the copy of each processor.
//!
//! `lk_race pv spin THREADS TURNS [SPINS]` takes the paravirtual lock, also with `spin8` and
//! `spin1024`. A waiter spins for at most SPINS turns, or 32,768, and then sleeps until it is
//! kicked.
//!
//! With `bare` as the kind the spinlock has nothing under it, also with `pv` as MODE, and with
//! `rwbare` the reader-writer lock has nothing.
//!
//! This is a whole program with locks for threads. Its locks have values. The bare ones have a
//! plan, the domain that is made of it with its processors, the calls, and the end of the domain.
#![tactic(auto)]

ghost use Rattle.std.specs.Prelude.{◌≡◌, ◌<◌, false, length};
ghost use Rattle.lk_law.specs.Agree.{halts};
ghost use Rattle.lk_race.specs.Tracks.{AllRest};

mod bare_race;
mod course;
mod mutex_race;
mod plan;
mod rw_race;
mod spin_race;
mod track;
mod value;
mod words;

use bare_race::{BareRace, BareRwTrack, BareTrack, PvBareTrack};
use course::Course;
use lk_domain::{Domain, close};
use lk_lock::{Locks, Open};
use lk_names::{Kind, List, Memory, Mode};
use lk_pvdomain::{PvDomain, pv_close};
use mutex_race::{MutexRace, take_all_mutex_turns};
use plan::{plan_of, pv_plan_of, two_sockets};
use rw_race::{RwRace, RwTrack};
use spin_race::{Size, SpinRace, SpinTrack};
use std::io;
use std::process::ExitCode;
use std::rt::Clock;
use std::sync::{Mutex, Wait};
use std::thread::Threads;
use std::time::{Duration, Instant};
use track::{ValueTrack, take_all_turns, time_since};
use value::{Numbers, Value};
use words::{Asked, race_of};

// The exit status of a race whose numbers are wrong, or for which there was not enough memory.
const WRONG: u8 = 1;

// The exit status for words that ask for no race.
const USAGE: u8 = 2;

// What a race came to, and what each of the numbers has to be.
#[derive(Drop)]
struct Outcome {
    turns: u64,
    wanted: u64,
    numbers: Numbers,
    time: io::Result<Duration>,
}

// What a race with nothing under its lock comes to.
fn of_nothing(rt: &impl AllocGlobal, course: &Course, time: io::Result<Duration>) -> Outcome {
    Outcome {
        turns: course.all_turns(),
        wanted: 0,
        numbers: Numbers {
            each: Vec::new(rt.alloc()),
            were_one: true,
        },
        time,
    }
}

// A race for a lock with nothing under it, whose waiters never halt, from the plan of its domain to
// the domain's end.
fn awake_bare<R: Threads + Wait + Sync + AllocGlobal + Clock>(
    rt: &R,
    race: &BareRace,
) -> Result<Outcome, Memory>
    requires { halts race.now.mode ≡ false }
{
    let course = race.course;
    let plan = plan_of(rt.alloc(), race)?;
    let (domain, mut cpus) = Domain::new(rt.alloc(), &plan)?;
    let turns = course.turns;
    let time = match race.kind {
        Kind::Spin => take_all_turns(rt, &BareTrack { domain: &domain }, turns, &mut cpus),
        Kind::Rw => take_all_turns(rt, &BareRwTrack { domain: &domain }, turns, &mut cpus),
    };
    match close(rt.alloc(), domain, cpus) {
        Ok(_) => Ok(of_nothing(rt, &course, time)),
        Err(_) => Err(Memory),
    }
}

// The same for a paravirtual lock.
fn pv_bare<R: Threads + Wait + Sync + AllocGlobal + Clock>(
    rt: &R,
    race: &BareRace,
) -> Result<Outcome, Memory> {
    let course = race.course;
    let plan = pv_plan_of(rt.alloc(), race)?;
    let (domain, mut cpus) = PvDomain::new(rt.alloc(), &plan)?;
    let track = PvBareTrack { domain: &domain };
    let time = take_all_turns(rt, &track, course.turns, &mut cpus);
    match pv_close(rt.alloc(), domain, cpus) {
        Ok(_) => Ok(of_nothing(rt, &course, time)),
        Err(_) => Err(Memory),
    }
}

// A race for a lock with nothing under it.
fn bare<R: Threads + Wait + Sync + AllocGlobal + Clock>(
    rt: &R,
    race: &BareRace,
) -> Result<Outcome, Memory> {
    match race.mode {
        Mode::Virt | Mode::Native | Mode::Cna => awake_bare(rt, race),
        Mode::Pv => pv_bare(rt, race),
    }
}

// What a race comes to in which each thread changes the value of the track in so many turns.
fn on_track<T: ValueTrack + Sync, R: Threads + Wait + Sync + AllocGlobal + Clock>(
    rt: &R,
    track: &T,
    course: &Course,
    writes: u32,
    cpus: &mut List<T::Cpu>,
) -> Result<Outcome, Memory>
    requires some { 0 < length cpus.old.items }
    requires rest { AllRest (T.rests track.now) cpus.old.items }
{
    let time = take_all_turns(rt, track, course.turns, cpus);
    let numbers = track.read(rt, rt.alloc(), cpus.get_mut(0))?;
    Ok(Outcome {
        turns: course.all_turns(),
        wanted: course.changes(writes),
        numbers,
        time,
    })
}

// A race for a spinlock with this value.
fn spin<R: Threads + Wait + Sync + AllocGlobal + Clock, V: Value + Send + Drop>(
    rt: &R,
    race: &SpinRace,
    value: V,
) -> Result<Outcome, Memory> {
    let course = race.course;
    let mut locks = Locks::new(rt.alloc(), course.threads)?;
    let value = locks.spin(value)?;
    let topology = two_sockets(rt.alloc(), course.threads)?;
    let Open { domain, mut cpus } = locks.open_on(race.mode, topology, race.spins)?;
    let track = SpinTrack {
        domain: &domain,
        value: &value,
    };
    on_track(rt, &track, &course, course.turns, &mut cpus)
}

// A race for a mutex of the standard library with this value.
fn mutex<R: Threads + Wait + Sync + AllocGlobal + Clock, V: Value + Send + Drop>(
    rt: &R,
    race: &MutexRace,
    value: V,
) -> Result<Outcome, Memory> {
    let course = race.course;
    let value = Mutex::new(value);
    let start = Instant::now(rt);
    take_all_mutex_turns(rt, rt.alloc(), &value, &course)?;
    let time = time_since(rt, start);
    Ok(Outcome {
        turns: course.all_turns(),
        wanted: course.changes(course.turns),
        numbers: Numbers::of(&value.into_inner(), rt.alloc())?,
        time,
    })
}

// A race for a reader-writer lock whose value readers share.
fn rw<R: Threads + Wait + Sync + AllocGlobal + Clock>(
    rt: &R,
    race: &RwRace,
) -> Result<Outcome, Memory> {
    let course = race.course;
    let mut locks = Locks::new(rt.alloc(), course.threads)?;
    let numbers = locks.shared([0u64; 2])?;
    let were_one = locks.spin(true)?;
    let topology = two_sockets(rt.alloc(), course.threads)?;
    let Open { domain, mut cpus } = locks.open_on(race.mode, topology, 1)?;
    let track = RwTrack {
        domain: &domain,
        numbers: &numbers,
        were_one: &were_one,
    };
    on_track(rt, &track, &course, course.writes(), &mut cpus)
}

// The race for which the words ask.
fn carry_out<R: Threads + Wait + Sync + AllocGlobal + Clock>(
    rt: &R,
    asked: &Asked,
) -> Result<Outcome, Memory> {
    match asked {
        Asked::Bare(race) => bare(rt, race),
        Asked::Spin(race) => match race.size {
            Size::One => spin(rt, race, 0u64),
            Size::Two => spin(rt, race, [0u64; 2]),
            Size::Large => spin(rt, race, [0u64; 128]),
        },
        Asked::Mutex(race) => match race.size {
            Size::One => mutex(rt, race, 0u64),
            Size::Two => mutex(rt, race, [0u64; 2]),
            Size::Large => mutex(rt, race, [0u64; 128]),
        },
        Asked::Rw(race) => rw(rt, race),
    }
}

// Writes what a race came to. Returns whether the numbers are what they have to be.
fn tell(rt: &(impl Print + Eprint), outcome: Outcome) -> io::Result<bool> {
    println!(rt; "turns {}", outcome.turns)?;
    print!(rt; "numbers")?;
    let mut right = outcome.numbers.were_one;
    for number in &outcome.numbers.each {
        print!(rt; " {number}")?;
        right = right && *number == outcome.wanted;
    }
    println!(rt)?;
    println!(rt; "{}", if right { "right" } else { "wrong" })?;
    eprintln!(rt; "{} microseconds", outcome.time?.as_micros())?;
    Ok(right)
}

// How the program is called.
fn tell_usage(rt: &impl Eprint) -> io::Result<()> {
    eprintln!(rt; "usage: lk_race virt|native|cna|mutex spin8|spin|spin1024 THREADS TURNS")?;
    eprintln!(rt; "       lk_race virt|native|cna bare|rwbare THREADS TURNS")?;
    eprintln!(rt; "       lk_race virt|native|cna rw THREADS TURNS")?;
    eprintln!(rt; "       lk_race pv bare|spin8|spin|spin1024 THREADS TURNS [SPINS]")?;
    Ok(())
}

fn main(rt: HostRuntime) -> io::Result<ExitCode> {
    let Some(asked) = race_of(&rt) else {
        tell_usage(&rt)?;
        return Ok(ExitCode::from(USAGE));
    };
    let Ok(outcome) = carry_out(&rt, &asked) else {
        eprintln!(rt; "there is not enough memory")?;
        return Ok(ExitCode::from(WRONG));
    };
    if tell(&rt, outcome)? {
        Ok(ExitCode::SUCCESS)
    } else {
        Ok(ExitCode::from(WRONG))
    }
}
