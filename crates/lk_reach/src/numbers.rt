// Numbers at positions, in as many bytes as they need.

ghost use Rattle.std.specs.Prelude.{◌≡◌, OnOk};
ghost use Rattle.lk_reach.specs.Numbers.{PutsNumber, number_at};

pub(crate) mod fours;
mod padded;
pub(crate) mod places;

use crate::numbers::padded::{item_at, put_item};
use lk_names::Memory;
use std::alloc::Global;

/// A number at each position, which is 0 where none was put. Of its bytes the lowest stand in one
/// list, the next in another, and so on. A list ends behind its last byte that is not 0. So where
/// all numbers are below 256 each takes one byte, and where they are below 65,536 two.
#[derive(Drop)]
pub(crate) struct Numbers {
    first: Vec<u8>,
    second: Vec<u8>,
    third: Vec<u8>,
    fourth: Vec<u8>,
}

impl Numbers {
    /// Zeros.
    pub(crate) fn new(alloc: Global) -> Numbers {
        Numbers {
            first: Vec::new(alloc),
            second: Vec::new(alloc),
            third: Vec::new(alloc),
            fourth: Vec::new(alloc),
        }
    }

    /// The number at a position.
    #[inline]
    pub(crate) fn get(&self, at: usize) -> u32
        ensures { result ≡ number_at self.now at }
    {
        u32::from_le_bytes([
            item_at(&self.first, at, 0),
            item_at(&self.second, at, 0),
            item_at(&self.third, at, 0),
            item_at(&self.fourth, at, 0),
        ])
    }

    /// Puts a number at a position.
    ///
    /// # Errors
    ///
    /// There is not enough memory.
    #[inline]
    pub(crate) fn put(&mut self, at: usize, number: u32) -> Result<(), Memory>
        ensures { OnOk result (PutsNumber self.old self.new at number) }
    {
        let bytes = number.to_le_bytes();
        put_item(&mut self.first, at, bytes[0], 0, bytes[0] == 0)?;
        put_item(&mut self.second, at, bytes[1], 0, bytes[1] == 0)?;
        put_item(&mut self.third, at, bytes[2], 0, bytes[2] == 0)?;
        put_item(&mut self.fourth, at, bytes[3], 0, bytes[3] == 0)?;
        Ok(())
    }

    /// How much memory they take, in bytes.
    pub(crate) fn bytes(&self) -> usize {
        let lower = self.first.capacity().saturating_add(self.second.capacity());
        let upper = self.third.capacity().saturating_add(self.fourth.capacity());
        lower.saturating_add(upper)
    }
}
