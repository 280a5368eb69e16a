// A race for a spinlock with a value.
ghost use Rattle.std.specs.Prelude.{◌≤◌};
ghost use Rattle.lk_names.specs.declared.names.Kind.TheVariants.{Spin as spinning};
ghost use Rattle.lk_lock.specs.Standing.{IsUnder, Rests};

use crate::course::Course;
use crate::track::{Track, ValueTrack};
use crate::value::{Numbers, Value};
use lk_lock::{Cpu, Domain, Seat, Spin};
use lk_names::{Memory, Mode};
use std::alloc::Global;
use std::sync::Wait;

/// How large the value under a lock is.
#[derive(Clone, Copy)]
pub enum Size {
    /// One number of 8 bytes.
    One,
    /// Two numbers.
    Two,
    /// 1 KiB, whose first number is changed.
    Large,
}

/// A race for a spinlock with a value.
#[derive(Clone, Copy)]
pub struct SpinRace {
    /// The lock family.
    pub mode: Mode,
    /// In mode `pv`, how many turns a waiter spins before it halts, at least 1.
    pub spins: u16,
    /// The size of the value.
    pub size: Size,
    /// What its threads do.
    pub course: Course,
    ghost some: { 1 ≤ spins },
}

/// What the threads share: a lock with its value, and the domain of the lock.
#[derive(Drop)]
pub struct SpinTrack<'a, V> {
    pub domain: &'a Domain,
    pub value: &'a Spin<V>,
    ghost under: { IsUnder domain.now.plan spinning value.now.id.index
        value.now.cell.table.shared.table_id },
}

impl<V: Value> Track for SpinTrack<'_, V> {
    type Cpu = Cpu;

    ghost rests = { λ track. Rests track.domain.now };

    ghost number = { λ cpu. cpu.number };

    fn take_turns<R: Wait>(&self, rt: &R, cpu: &mut Cpu, turns: u32) {
        let (domain, value) = (self.domain, self.value);
        for _ in 0..turns {
            let mut seat = Seat::new(rt, domain, cpu);
            seat.with(value, |value: &mut V| value.change());
        }
    }

    ghost own = { λ track i cpu rests. rests.number };
}

impl<V: Value> ValueTrack for SpinTrack<'_, V> {
    fn read<R: Wait>(&self, rt: &R, alloc: Global, cpu: &mut Cpu) -> Result<Numbers, Memory> {
        let mut seat = Seat::new(rt, self.domain, cpu);
        seat.with(self.value, |value: &mut V| Numbers::of(value, alloc))
    }
}
