// The numbers of states at positions. Most need three bytes.

ghost use Rattle.std.specs.Prelude.{◌≡◌, OnOk};
ghost use Rattle.lk_reach.specs.Numbers.{PutsPlace, place_at};

use crate::numbers::padded::{item_at, put_item};
use lk_names::Memory;
use std::alloc::Global;

/// The number of a state at each position, which is 0 where none was put. Its lower three bytes stand
/// beside one another, since they are read and written together, and the fourth apart. That list ends
/// behind its last byte that is not 0. So where all numbers are below 16,777,216 each takes three bytes.
#[derive(Drop)]
pub(crate) struct Places {
    lower: Vec<[u8; 3]>,
    upper: Vec<u8>,
}

// How much memory the lower bytes of a number take.
const LOWER_BYTES: usize = 3;

impl Places {
    /// Zeros.
    pub(crate) fn new(alloc: Global) -> Places {
        Places {
            lower: Vec::new(alloc),
            upper: Vec::new(alloc),
        }
    }

    /// The number at a position.
    #[inline]
    pub(crate) fn get(&self, at: usize) -> u32
        ensures { result ≡ place_at self.now at }
    {
        let upper = item_at(&self.upper, at, 0);
        match self.lower.get(at) {
            Some(lower) => u32::from_le_bytes([lower[0], lower[1], lower[2], upper]),
            None => u32::from_le_bytes([0, 0, 0, upper]),
        }
    }

    /// Puts a number at a position.
    ///
    /// # Errors
    ///
    /// There is not enough memory.
    #[inline]
    pub(crate) fn put(&mut self, at: usize, number: u32) -> Result<(), Memory>
        ensures { OnOk result (PutsPlace self.old self.new at number) }
    {
        let bytes = number.to_le_bytes();
        let lower = [bytes[0], bytes[1], bytes[2]];
        put_item(&mut self.lower, at, lower, [0; 3], false)?;
        put_item(&mut self.upper, at, bytes[3], 0, bytes[3] == 0)?;
        Ok(())
    }

    /// How much memory they take, in bytes.
    pub(crate) fn bytes(&self) -> usize {
        let lower = self.lower.capacity().saturating_mul(LOWER_BYTES);
        lower.saturating_add(self.upper.capacity())
    }
}
