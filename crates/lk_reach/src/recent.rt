// What was met since helpers last looked: the states, and what a helper found of folded ones. A helper
// says of a key that no state had it when it looked. So it is sought among these alone, and they are few
// enough for the caches of a processor.
//
// As of other slots, nothing is claimed of these but that each call ends.

use lk_names::Memory;
use std::alloc::Global;

// How many slots there are, half of which may be taken.
const SLOTS: usize = 65_536;

/// Slots for the numbers of such things, and how many there are.
#[derive(Drop)]
pub(crate) struct Recent {
    /// One more than a number, or 0 in an empty slot.
    slots: Vec<u32>,
    count: usize,
}

impl Recent {
    /// No slots, so that nothing is found.
    pub(crate) fn none(alloc: Global) -> Recent {
        Recent {
            slots: Vec::new(alloc),
            count: 0,
        }
    }

    // Empties the slots.
    fn clear(&mut self) {
        self.count = 0;
        self.slots.as_mut_slice().fill(0);
    }

    /// Forgets all, and makes room for others.
    ///
    /// # Errors
    ///
    /// There is not enough memory. Then not all that follow are found.
    pub(crate) fn renew(&mut self) -> Result<(), Memory> {
        self.clear();
        for _ in self.slots.len()..SLOTS {
            self.slots.push(0).map_err(|_| Memory)?;
        }
        Ok(())
    }

    /// Whether all are found.
    #[inline]
    pub(crate) fn has_all(&self) -> bool {
        self.slots.len() == SLOTS && self.count <= SLOTS / 2
    }

    /// How many slots there are.
    pub(crate) fn len(&self) -> usize {
        self.slots.len()
    }

    /// The slot from which a thing with this hash is sought.
    #[inline]
    pub(crate) fn home(&self, hash: u64) -> usize {
        (hash >> 48) as usize
    }

    /// The slot behind this one.
    #[inline]
    pub(crate) fn behind(&self, at: usize) -> usize {
        let next = at.wrapping_add(1);
        if next < self.slots.len() { next } else { 0 }
    }

    /// The number in a slot, or `None` if it is empty.
    #[inline]
    pub(crate) fn number(&self, at: usize) -> Option<u32> {
        let slot = *self.slots.get(at)?;
        slot.checked_sub(1)
    }

    /// Adds a thing, if there is room for it.
    pub(crate) fn put(&mut self, hash: u64, number: u32) {
        self.count = self.count.saturating_add(1);
        if !self.has_all() {
            return;
        }
        let mut at = self.home(hash);
        for _ in 0..self.slots.len() {
            match self.slots.get(at) {
                Some(0) => {
                    self.slots[at] = number.wrapping_add(1);
                    return;
                }
                _ => at = self.behind(at),
            }
        }
    }
}
