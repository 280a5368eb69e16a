// Slots of a table: a number is sought by a hash, from slot to slot.
//
// Nothing is claimed of slots but that each call ends, and takes no number out. A table compares
// what a slot leads to with what it seeks. So a wrong slot could cost a second number for the same
// thing, and never a wrong answer.

use lk_names::Memory;
use std::alloc::Global;

// How many slots a new table has.
const FIRST_SLOTS: usize = 1024;

/// In the lower bits of a slot stands one more than the number of a thing, and in the others bits of
/// its hash. An empty slot is 0.
#[derive(Drop)]
pub(crate) struct Slots {
    slots: Vec<u32>,
    /// The bits of a slot that are for a number.
    mask: u32,
}

// Ones up to the highest bit of a count.
fn mask_for(count: usize) -> u32 {
    let mut mask = u32::try_from(count).unwrap_or(u32::MAX);
    mask |= mask >> 1;
    mask |= mask >> 2;
    mask |= mask >> 4;
    mask |= mask >> 8;
    mask | mask >> 16
}

// The lower half of a hash.
#[inline]
fn lower(hash: u64) -> u32 {
    (hash & 0xffff_ffff) as u32
}

impl Slots {
    /// No slots.
    pub(crate) fn none(alloc: Global) -> Slots {
        Slots {
            slots: Vec::new(alloc),
            mask: 0,
        }
    }

    /// Empty slots.
    pub(crate) fn new(alloc: Global) -> Result<Slots, Memory> {
        let mut slots = Slots::none(alloc);
        slots.add(FIRST_SLOTS)?;
        Ok(slots)
    }

    // Adds so many empty slots.
    fn add(&mut self, count: usize) -> Result<(), Memory> {
        self.slots.reserve(count)?;
        for _ in 0..count {
            self.slots.push(0).map_err(|_| Memory)?;
        }
        self.mask = mask_for(self.slots.len());
        Ok(())
    }

    /// Empties the slots, and adds half as many.
    ///
    /// # Errors
    ///
    /// There is not enough memory. The slots are empty then, too.
    pub(crate) fn widen(&mut self) -> Result<(), Memory> {
        self.slots.as_mut_slice().fill(0);
        let more = self.slots.len() / 2;
        self.add(more)
    }

    /// How many slots there are.
    pub(crate) fn len(&self) -> usize {
        self.slots.len()
    }

    /// Whether three of four slots would be taken by so many numbers.
    pub(crate) fn are_few(&self, count: usize) -> bool {
        count >= self.slots.len() / 4 * 3
    }

    /// The slot from which a thing with this hash is sought: the upper half of the hash says where
    /// it lies between the first slot and the last.
    #[inline]
    pub(crate) fn home(&self, hash: u64) -> usize {
        let count = self.slots.len() as u64;
        ((hash >> 32).wrapping_mul(count) >> 32) as usize
    }

    /// The slot behind this one.
    #[inline]
    pub(crate) fn behind(&self, at: usize) -> usize {
        let next = at.wrapping_add(1);
        if next < self.slots.len() { next } else { 0 }
    }

    /// What stands in a slot, or `None` if it is empty.
    #[inline]
    pub(crate) fn get(&self, at: usize) -> Option<u32> {
        match self.slots.get(at) {
            Some(0) => None,
            Some(slot) => Some(*slot),
            None => None,
        }
    }

    /// The number of what stands in a slot.
    #[inline]
    pub(crate) fn number(&self, slot: u32) -> u32 {
        (slot & self.mask).wrapping_sub(1)
    }

    /// Whether what stands in a slot may be a thing with this hash.
    #[inline]
    pub(crate) fn may_be(&self, slot: u32, hash: u64) -> bool {
        (slot ^ lower(hash)) & !self.mask == 0
    }

    /// Puts a number into the first empty slot from the home of its hash on.
    pub(crate) fn put(&mut self, hash: u64, number: u32) {
        let slot = number.wrapping_add(1) & self.mask | lower(hash) & !self.mask;
        let mut at = self.home(hash);
        for _ in 0..self.slots.len() {
            match self.slots.get(at) {
                Some(0) => {
                    self.slots[at] = slot;
                    return;
                }
                _ => at = self.behind(at),
            }
        }
    }
}
