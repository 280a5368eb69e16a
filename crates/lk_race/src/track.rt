// What the threads of a race share, and the turns of all of them.
ghost use Rattle.std.specs.Prelude.{◌≡◌, ℕ, length};
ghost use Rattle.lk_race.specs.Tracks.{AllRest};

use crate::value::Numbers;
use lk_names::{List, Memory};
use std::alloc::Global;
use std::rt::Clock;
use std::sync::Wait;
use std::thread::Threads;
use std::time::{Duration, Instant};
use std::{io, thread};

/// What the threads of a race share.
pub trait Track {
    /// A processor. Each thread has one.
    type Cpu: Send;

    /// Whether a processor rests: it has this number, is in no call and holds no lock.
    ghost rests: { Self → ℕ → Self.Cpu → Type 0 };

    /// The number of a processor.
    ghost number: { Self.Cpu → ℕ };

    /// Takes all turns of a processor.
    fn take_turns<R: Wait>(&self, rt: &R, cpu: &mut Self::Cpu, turns: u32)
        requires { rests self.now (number cpu.old) cpu.old }
        ensures { rests self.now (number cpu.old) cpu.new };

    /// A processor that rests has the number by which it rests.
    ghost own: { (track : Self) (i : ℕ) (cpu : Self.Cpu) → rests track i cpu → number cpu ≡ i };
}

/// A track whose lock has a value.
pub trait ValueTrack: Track {
    /// Reads the value at the end.
    ///
    /// # Errors
    ///
    /// There is not enough memory.
    fn read<R: Wait>(&self, rt: &R, alloc: Global, cpu: &mut Self::Cpu) -> Result<Numbers, Memory>
        requires { Self.rests self.now 0 cpu.old };
}

/// The time since the start, if there is a clock.
pub fn time_since(rt: &impl Clock, start: io::Result<Instant>) -> io::Result<Duration> {
    match start {
        Ok(start) => start.elapsed(rt),
        Err(why) => Err(why),
    }
}

/// Lets all processors take their turns at the same time, each on a thread of its own. Returns when
/// all threads have ended, with the time that they took, if there is a clock.
pub fn take_all_turns<T: Track + Sync, R: Threads + Wait + Sync + Clock>(
    rt: &R,
    track: &T,
    turns: u32,
    cpus: &mut List<T::Cpu>,
) -> io::Result<Duration>
    requires rest { AllRest (T.rests track.now) cpus.old.items }
    ensures all { length cpus.new.items ≡ length cpus.old.items }
    ensures rest { AllRest (T.rests track.now) cpus.new.items }
{
    let start = Instant::now(rt);
    let count = cpus.len();
    if count > 0 {
        thread::for_each_mut(
            rt,
            cpus.as_mut_slice(),
            count,
            &|_, cpu| { track.take_turns(rt, cpu, turns) },
        );
    }
    time_since(rt, start)
}
