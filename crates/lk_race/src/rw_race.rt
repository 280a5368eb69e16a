// A race for a reader-writer lock whose value readers share.
ghost use Rattle.std.specs.Prelude.{◌≡◌, false};
ghost use Rattle.lk_names.specs.declared.names.Kind.TheVariants.{Spin as spinning};
ghost use Rattle.lk_law.specs.Agree.{halts};
ghost use Rattle.lk_lock.specs.Cells.{names_of};
ghost use Rattle.lk_lock.specs.Standing.{IsSharedUnder, IsUnder, Rests};

use crate::course::{Course, is_write};
use crate::track::{Track, ValueTrack};
use crate::value::{Numbers, Value};
use lk_lock::{Cpu, Domain, Seat, Shared, Spin};
use lk_names::{Memory, Mode};
use std::alloc::Global;
use std::sync::Wait;

/// A race for a reader-writer lock.
#[derive(Clone, Copy)]
pub struct RwRace {
    /// The lock family.
    pub mode: Mode,
    /// What its threads do.
    pub course: Course,
    ghost awake: { halts mode ≡ false },
}

/// What the threads share: two numbers under a reader-writer lock, whether readers ever found them
/// different, and the domain of the two locks.
#[derive(Drop)]
pub struct RwTrack<'a> {
    pub domain: &'a Domain,
    pub numbers: &'a Shared<[u64; 2]>,
    pub were_one: &'a Spin<bool>,
    ghost shared: { IsSharedUnder domain.now.plan numbers.now.id.index
        (names_of numbers.now.cells.items) },
    ghost under: { IsUnder domain.now.plan spinning were_one.now.id.index
        were_one.now.cell.table.shared.table_id },
}

// A turn: the last of a hundred is a writer's. Returns whether its numbers were one.
fn take_turn<R: Wait>(rt: &R, cpu: &mut Cpu, track: &RwTrack<'_>, turn: u32) -> bool
    requires rests { Rests track.now.domain.now cpu.old.number cpu.old }
    ensures number { cpu.new.number ≡ cpu.old.number }
    ensures rests { Rests track.now.domain.now cpu.old.number cpu.new }
{
    let mut seat = Seat::new(rt, track.domain, cpu);
    if is_write(turn) {
        seat.update(track.numbers, |numbers: &mut [u64; 2]| numbers.change());
        true
    } else {
        seat.read(track.numbers, |numbers: &[u64; 2]| -> bool {
            numbers[0] == numbers[1]
        })
    }
}

impl Track for RwTrack<'_> {
    type Cpu = Cpu;

    ghost rests = { λ track. Rests track.domain.now };

    ghost number = { λ cpu. cpu.number };

    // At the end the processor tells whether its numbers were always one.
    fn take_turns<R: Wait>(&self, rt: &R, cpu: &mut Cpu, turns: u32) {
        let mut one = true;
        for turn in 0..turns {
            one = take_turn(rt, cpu, self, turn) && one;
        }
        let mut seat = Seat::new(rt, self.domain, cpu);
        seat.with(self.were_one, |all: &mut bool| *all = *all && one);
    }

    ghost own = { λ track i cpu rests. rests.number };
}

impl ValueTrack for RwTrack<'_> {
    fn read<R: Wait>(&self, rt: &R, alloc: Global, cpu: &mut Cpu) -> Result<Numbers, Memory> {
        let mut seat = Seat::new(rt, self.domain, cpu);
        let were_one = seat.with(self.were_one, |all: &mut bool| -> bool { *all });
        let each = seat.read(self.numbers, |numbers: &[u64; 2]| numbers.to_vec(alloc))?;
        Ok(Numbers { each, were_one })
    }
}
