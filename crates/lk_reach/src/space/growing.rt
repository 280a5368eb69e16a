// Slots for the states that are met next, before helpers look. The states that were met are hashed on
// threads, each thread a part of them, and one thread gives each its slot.

ghost use Rattle.std.specs.Prelude.{◌≡◌, ◌<◌};

use crate::helpers::Part;
use crate::slots::Slots;
use crate::space::Space;
use std::thread;
use std::thread::Threads;

// Gives numbers from this one on slots by their hashes. Returns the number behind the last.
fn put_hashes(slots: &mut Slots, hashes: &Vec<u64>, from: u32) -> u32 {
    let mut number = from;
    for hash in hashes {
        slots.put(*hash, number);
        number = number.wrapping_add(1);
    }
    number
}

// Gives all numbers slots, of which each part has the hashes of the next ones.
fn put_all(slots: &mut Slots, parts: &Vec<Vec<u64>>) {
    let mut number = 0u32;
    for hashes in parts {
        number = put_hashes(slots, hashes, number);
    }
}

// Gives all numbers slots again, and more slots if there is memory for more.
fn put_again(slots: &mut Slots, parts: &Vec<Vec<u64>>) {
    match slots.widen() {
        Ok(()) | Err(_) => {}
    }
    put_all(slots, parts);
}

// How many hashes the parts have.
fn count(parts: &Vec<Vec<u64>>) -> usize {
    let mut count = 0usize;
    for hashes in parts {
        count = count.saturating_add(hashes.len());
    }
    count
}

impl Space {
    // The hashes of the states of a part, as many as there is memory for.
    fn hashes(&self, part: Part, own: bool) -> Vec<u64> {
        let mut hashes = Vec::new(self.alloc);
        match hashes.reserve(part.len()) {
            Ok(()) | Err(_) => {}
        }
        for number in part.from..part.to {
            match hashes.push(self.hash_at(number, own)) {
                Ok(()) | Err(_) => {}
            }
        }
        hashes
    }

    // The hashes of all states, by parts, for each of which there is a thread, if there is memory for all.
    fn hashed<R: Threads + Sync>(&self, rt: &R, threads: usize, own: bool) -> Option<Vec<Vec<u64>>>
        requires { 0 < threads }
    {
        let all = Part {
            from: 0,
            to: self.len(),
        };
        let each = all.len().div_ceil(threads);
        let parts = thread::map_indices(
            rt,
            self.alloc,
            threads,
            &|index: usize| { self.hashes(all.share(index, each), own) },
        );
        match parts {
            Ok(parts) if count(&parts) == self.len() => Some(parts),
            Ok(_) | Err(_) => None,
        }
    }

    // Takes room in the slots for so many states in all, if there are few slots.
    fn widen_slots<R: Threads + Sync>(&mut self, rt: &R, threads: usize, count: usize)
        requires { 0 < threads }
        ensures { self.new ≡ self.old }
    {
        if !self.slots.are_few(count) {
            return;
        }
        if let Some(hashed) = self.hashed(rt, threads, false) {
            put_again(&mut self.slots, &hashed);
        }
    }

    // The same in the slots by own keys.
    fn widen_owns<R: Threads + Sync>(&mut self, rt: &R, threads: usize, count: usize)
        requires { 0 < threads }
        ensures { self.new ≡ self.old }
    {
        if !self.owns.are_few(count) {
            return;
        }
        if let Some(hashed) = self.hashed(rt, threads, true) {
            put_again(&mut self.owns, &hashed);
        }
    }

    /// Takes room for so many more states in the slots, if there are few. If there is not enough memory
    /// for that, it is taken later.
    pub(crate) fn make_room_ahead<R: Threads + Sync>(&mut self, rt: &R, threads: usize, more: usize)
        requires { 0 < threads }
        ensures { self.new ≡ self.old }
    {
        let count = self.keys.len().saturating_add(more);
        self.widen_slots(rt, threads, count);
        if self.folds.len() > 0 {
            self.widen_owns(rt, threads, count);
        }
    }
}
