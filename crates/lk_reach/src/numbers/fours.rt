// Four numbers at each position, in as many bytes as they need.

ghost use Rattle.std.specs.Prelude.{◌≡◌, ◌<◌, ◌+◌, ◌*◌, [], ◌∷◌, OnOk, Some, slice_get, true};
ghost use Rattle.lk_reach.specs.Numbers.{Puts, PutsFour, four_at, joined, lower_halves, none, upper_halves};

use crate::numbers::padded::{item_at, put_item};
use lk_names::Memory;
use std::alloc::Global;

// So many values has a half of a number.
const HALF: u32 = 65_536;

// How much memory the halves of four numbers take, in bytes.
const FOUR_BYTES: usize = 8;

/// Four numbers at each position, which are 0 where none were put. They stand beside one another,
/// since they are read together, and their halves apart. A list of halves ends behind the last that
/// are not all 0. So where all numbers are below 65,536 each takes two bytes.
#[derive(Drop)]
pub(crate) struct Fours {
    lower: Vec<[u16; 4]>,
    upper: Vec<[u16; 4]>,
}

// The number with these halves.
#[inline]
fn joined(lower: u16, upper: u16) -> u32
    ensures { result ≡ lower + 65536 * upper }
{
    u32::from(lower) + HALF * u32::from(upper)
}

// The lower halves of numbers.
fn lower(four: [u32; 4]) -> [u16; 4]
    ensures { result ≡ lower_halves four }
{
    [
        (four[0] % HALF) as u16,
        (four[1] % HALF) as u16,
        (four[2] % HALF) as u16,
        (four[3] % HALF) as u16,
    ]
}

// The upper halves of numbers.
fn upper(four: [u32; 4]) -> [u16; 4]
    ensures { result ≡ upper_halves four }
{
    [
        (four[0] / HALF) as u16,
        (four[1] / HALF) as u16,
        (four[2] / HALF) as u16,
        (four[3] / HALF) as u16,
    ]
}

// The numbers with these lower halves, whose upper halves are 0.
#[inline]
fn widened(lower: [u16; 4]) -> [u32; 4]
    ensures { result ≡ joined lower none }
{
    [
        joined(lower[0], 0),
        joined(lower[1], 0),
        joined(lower[2], 0),
        joined(lower[3], 0),
    ]
}

// Whether halves are all 0.
fn are_none(four: [u16; 4]) -> bool
    ensures { result ≡ true → four ≡ 0 ∷ 0 ∷ 0 ∷ 0 ∷ [] }
{
    four[0] == 0 && four[1] == 0 && four[2] == 0 && four[3] == 0
}

// Puts halves at a position.
#[inline]
fn put(halves: &mut Vec<[u16; 4]>, at: usize, four: [u16; 4]) -> Result<(), Memory>
    ensures { OnOk result (Puts none halves.old.items halves.new.items at four) }
{
    put_item(halves, at, four, [0; 4], are_none(four))
}

impl Fours {
    /// Zeros.
    pub(crate) fn new(alloc: Global) -> Fours {
        Fours {
            lower: Vec::new(alloc),
            upper: Vec::new(alloc),
        }
    }

    /// The four numbers at a position.
    #[inline(always)]
    pub(crate) fn get(&self, at: usize) -> [u32; 4]
        ensures { result ≡ four_at self.now at }
    {
        let lower = item_at(&self.lower, at, [0; 4]);
        if at >= self.upper.len() {
            return widened(lower);
        }
        let upper = item_at(&self.upper, at, [0; 4]);
        [
            joined(lower[0], upper[0]),
            joined(lower[1], upper[1]),
            joined(lower[2], upper[2]),
            joined(lower[3], upper[3]),
        ]
    }

    /// One of the four numbers at a position.
    #[inline]
    pub(crate) fn part(&self, at: usize, place: usize) -> u32
        requires { place < 4 }
        ensures { slice_get (four_at self.now at) place ≡ Some result }
    {
        let lower = item_at(&self.lower, at, [0; 4]);
        let upper = item_at(&self.upper, at, [0; 4]);
        joined(lower[place], upper[place])
    }

    /// Puts four numbers at a position.
    ///
    /// # Errors
    ///
    /// There is not enough memory.
    pub(crate) fn put(&mut self, at: usize, four: [u32; 4]) -> Result<(), Memory>
        ensures { OnOk result (PutsFour self.old self.new at four) }
    {
        put(&mut self.lower, at, lower(four))?;
        put(&mut self.upper, at, upper(four))?;
        Ok(())
    }

    /// How much memory they take, in bytes.
    pub(crate) fn bytes(&self) -> usize {
        let halves = self.lower.capacity().saturating_add(self.upper.capacity());
        halves.saturating_mul(FOUR_BYTES)
    }
}
