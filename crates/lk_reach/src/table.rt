// Tables of parts: each part of a machine that was met has a number.

ghost use Rattle.std.specs.Prelude.{◌≡◌, IfOk, IfSome, Some, true, slice_get, []};
ghost use Rattle.lk_reach.specs.Space.{IsFront, HasShared};

use crate::slots::Slots;
use lk_machine::{CpuState, Machine, Shared};
use lk_names::Memory;
use std::alloc::Global;

/// The most numbers of a table, so that each fits a slot.
pub(crate) const MOST: usize = 4_000_000_000;

// Gives each of these parts one of these slots, which are empty.
fn fill(slots: &mut Slots, items: &Vec<CpuState>) {
    let mut number = 0u32;
    for item in items {
        slots.put(item.number(), number);
        number = number.wrapping_add(1);
    }
}

/// The parts of processors that were met.
#[derive(Drop)]
pub(crate) struct CpuTable {
    pub items: Vec<CpuState>,
    slots: Slots,
}

impl CpuTable {
    /// A table without parts.
    pub(crate) fn new(alloc: Global) -> Result<CpuTable, Memory>
        ensures { IfOk result (λ table. table.items.items ≡ []) }
    {
        Ok(CpuTable {
            items: Vec::new(alloc),
            slots: Slots::new(alloc)?,
        })
    }

    // Whether the part with this number is this one.
    fn is_at(&self, number: u32, part: &CpuState) -> bool
        ensures { result ≡ true → slice_get self.now.items.items number ≡ Some part.now }
    {
        match self.items.get(number as usize) {
            Some(item) => item.same(part),
            None => false,
        }
    }

    // The number of a part with this hash, if it is found.
    fn find(&self, part: &CpuState, hash: u64) -> Option<u32>
        ensures { IfSome result (λ i. slice_get self.now.items.items i ≡ Some part.now) }
    {
        let mut at = self.slots.home(hash);
        for _ in 0..self.slots.len() {
            let slot = self.slots.get(at)?;
            let number = self.slots.number(slot);
            if self.slots.may_be(slot, hash) && self.is_at(number, part) {
                return Some(number);
            }
            at = self.slots.behind(at);
        }
        None
    }

    // Gives each part a slot again, of more.
    fn grow(&mut self) -> Result<(), Memory>
        ensures { self.new.items.items ≡ self.old.items.items }
    {
        self.slots.widen()?;
        fill(&mut self.slots, &self.items);
        Ok(())
    }

    /// The number of a part, if it was met. The number `likely` is tried first.
    pub(crate) fn seen(&self, part: &CpuState, likely: u32) -> Option<u32>
        ensures { IfSome result (λ i. slice_get self.now.items.items i ≡ Some part.now) }
    {
        if self.is_at(likely, part) {
            return Some(likely);
        }
        self.find(part, part.number())
    }

    // Gives a part the next number.
    fn add(&mut self, alloc: Global, part: &CpuState, hash: u64) -> Result<u32, Memory>
        ensures found { IfOk result (λ i. slice_get self.new.items.items i ≡ Some part.now) }
        ensures front { IsFront self.old.items.items self.new.items.items }
    {
        let count = self.items.len();
        if count >= MOST {
            return Err(Memory);
        }
        if self.slots.are_few(count) {
            self.grow()?;
        }
        let number = count as u32;
        let copy = part.copy(alloc)?;
        self.items.push(copy).map_err(|_| Memory)?;
        self.slots.put(hash, number);
        Ok(number)
    }

    /// The number of a part, which it gets if it has none. The number `likely` is tried first.
    pub(crate) fn number(
        &mut self,
        alloc: Global,
        part: &CpuState,
        likely: u32,
    ) -> Result<u32, Memory>
        ensures found { IfOk result (λ i. slice_get self.new.items.items i ≡ Some part.now) }
        ensures front { IsFront self.old.items.items self.new.items.items }
    {
        if self.is_at(likely, part) {
            return Ok(likely);
        }
        let hash = part.number();
        match self.find(part, hash) {
            Some(number) => Ok(number),
            None => self.add(alloc, part, hash),
        }
    }
}

// Gives each of these parts one of these slots, which are empty.
fn fill_shared(slots: &mut Slots, items: &Vec<Shared>) {
    let mut number = 0u32;
    for item in items {
        slots.put(item.number(), number);
        number = number.wrapping_add(1);
    }
}

/// What of machines is no single processor's, as it was met.
#[derive(Drop)]
pub(crate) struct SharedTable {
    pub items: Vec<Shared>,
    slots: Slots,
}

impl SharedTable {
    /// A table without parts.
    pub(crate) fn new(alloc: Global) -> Result<SharedTable, Memory>
        ensures { IfOk result (λ table. table.items.items ≡ []) }
    {
        Ok(SharedTable {
            items: Vec::new(alloc),
            slots: Slots::new(alloc)?,
        })
    }

    // Whether the part with this number is what a machine has.
    fn is_at(&self, number: u32, machine: &Machine) -> bool
        ensures { result ≡ true → HasShared self.now.items.items number machine.now }
    {
        match self.items.get(number as usize) {
            Some(item) => machine.has_shared(item),
            None => false,
        }
    }

    // The number of what a machine has, by its hash, if it is found.
    fn find(&self, machine: &Machine, hash: u64) -> Option<u32>
        ensures { IfSome result (λ i. HasShared self.now.items.items i machine.now) }
    {
        let mut at = self.slots.home(hash);
        for _ in 0..self.slots.len() {
            let slot = self.slots.get(at)?;
            let number = self.slots.number(slot);
            if self.slots.may_be(slot, hash) && self.is_at(number, machine) {
                return Some(number);
            }
            at = self.slots.behind(at);
        }
        None
    }

    // Gives each part a slot again, of more.
    fn grow(&mut self) -> Result<(), Memory>
        ensures { self.new.items.items ≡ self.old.items.items }
    {
        self.slots.widen()?;
        fill_shared(&mut self.slots, &self.items);
        Ok(())
    }

    /// The number of what a machine has, if it was met. The number `likely` is tried first.
    pub(crate) fn seen(&self, machine: &Machine, likely: u32) -> Option<u32>
        ensures { IfSome result (λ i. HasShared self.now.items.items i machine.now) }
    {
        if self.is_at(likely, machine) {
            return Some(likely);
        }
        self.find(machine, machine.shared_number())
    }

    // Gives what a machine has the next number.
    fn add(&mut self, alloc: Global, machine: &Machine, hash: u64) -> Result<u32, Memory>
        ensures found { IfOk result (λ i. HasShared self.new.items.items i machine.now) }
        ensures front { IsFront self.old.items.items self.new.items.items }
    {
        let count = self.items.len();
        if count >= MOST {
            return Err(Memory);
        }
        if self.slots.are_few(count) {
            self.grow()?;
        }
        let number = count as u32;
        let copy = machine.shared(alloc)?;
        self.items.push(copy).map_err(|_| Memory)?;
        self.slots.put(hash, number);
        Ok(number)
    }

    /// The number of what a machine has, which it gets if it has none. The number `likely` is tried
    /// first.
    pub(crate) fn number(
        &mut self,
        alloc: Global,
        machine: &Machine,
        likely: u32,
    ) -> Result<u32, Memory>
        ensures found { IfOk result (λ i. HasShared self.new.items.items i machine.now) }
        ensures front { IsFront self.old.items.items self.new.items.items }
    {
        if self.is_at(likely, machine) {
            return Ok(likely);
        }
        let hash = machine.shared_number();
        match self.find(machine, hash) {
            Some(number) => Ok(number),
            None => self.add(alloc, machine, hash),
        }
    }
}
