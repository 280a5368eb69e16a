// The states that were met. Two that differ in dead registers alone have one number.

ghost use Rattle.std.specs.Prelude.{◌≡◌, ◌≢◌, ◌<◌, ◌≤◌, ◌++◌, ◌∷◌, [], IfOk, OnOk, IfSome, ℕ, Some, length, slice_get, true, false};
ghost use Rattle.lk_rows.specs.Machine.{Machine as MachineValue, CpuState as CpuValue, cpu_at};
ghost use Rattle.lk_machine.specs.Parts.{row_of};
ghost use Rattle.lk_idle.specs.Alike.{AreAlike};
ghost use Rattle.lk_reach.specs.Space.{AddsParts, AreFormed, AreLikeParts, Grows, HaveForm, IsLikePart, IsLoadable, IsNumbered, IsNumberOf, IsSameKind, Keeps, KeyKeeps, SameStates, SpaceValue};

mod folds;
mod growing;
mod looking;
mod marks;

use crate::forms::form_number;
use crate::key::{Key, MAX_CPUS};
use crate::keys::Keys;
use crate::recent::Recent;
use crate::slots::Slots;
use crate::table::{CpuTable, MOST, SharedTable};
use lk_machine::{CpuState, Machine};
use lk_names::Memory;
use lk_rows::Pc;
use std::alloc::Global;
use std::marker::Model;
use std::mem;

// What a state takes in the slots, and a part, about, in bytes. A slot has four, and some two of three
// are taken. How many there are is no measure, since they are more where helpers look.
const SLOT_BYTES: usize = 6;

const PART_BYTES: usize = 1_200;

// An odd number. Its powers are the weights of the parts in the hash of a key, and the upper bits of a
// product with one of them differ for numbers that differ little.
const WEIGHT: u64 = 0x9e37_79b9_7f4a_7c15;

/// The states that were met, by their numbers.
#[derive(Drop)]
pub(crate) struct Space {
    alloc: Global,
    /// How many processors a state has, for hashes of keys.
    cpus: usize,
    parts: CpuTable,
    /// Parts with the dead registers of their newest frames at rest.
    forms: CpuTable,
    /// For each part the number of its form.
    classes: Vec<u32>,
    shareds: SharedTable,
    /// Those of the states that were met first, of all with the same form.
    keys: Keys,
    /// Where states are folded, for each state the key of one that it is under new numbers. States
    /// are sought by these then.
    folds: Keys,
    slots: Slots,
    /// Where states are folded, slots by the keys of the states themselves.
    owns: Slots,
    recent: Recent,
}

impl Model for Space {
    ghost Value = { SpaceValue };

    ghost view = { λ s. record {
      parts = s.parts.items.items;
      shareds = s.shareds.items.items;
      keys = s.keys;
      folds = s.folds;
      forms = s.forms.items.items;
      classes = s.classes.items;
    } };

    ghost invariant = { λ s. AreFormed s.parts.items.items s.forms.items.items s.classes.items };
}

impl Space {
    /// A space without states, each of which will have so many processors.
    pub(crate) fn new(alloc: Global, cpus: usize) -> Result<Space, Memory>
        ensures keys { IfOk result (λ space. length space.keys ≡ 0) }
        ensures folds { IfOk result (λ space. length space.folds ≡ 0) }
    {
        Ok(Space {
            alloc,
            cpus,
            parts: CpuTable::new(alloc)?,
            forms: CpuTable::new(alloc)?,
            classes: Vec::new(alloc),
            shareds: SharedTable::new(alloc)?,
            keys: Keys::new(alloc),
            folds: Keys::new(alloc),
            slots: Slots::new(alloc)?,
            owns: Slots::new(alloc)?,
            recent: Recent::none(alloc),
        })
    }

    /// From where it takes memory.
    pub(crate) fn memory(&self) -> Global {
        self.alloc
    }

    /// How many states there are.
    pub(crate) fn len(&self) -> usize
        ensures { result ≡ length self.now.keys }
    {
        self.keys.len()
    }

    /// The machine becomes the state of this number, but for its setup and its counts.
    pub(crate) fn load(&self, state: usize, machine: &mut Machine)
        requires few { length machine.old.cpus ≤ 8 }
        requires there { IsLoadable self.now state machine.old }
        ensures keeps { Keeps self.now state machine.new }
        ensures setup { machine.new.setup ≡ machine.old.setup }
        ensures counts { machine.new.counts ≡ machine.old.counts }
        ensures cpus { length machine.new.cpus ≡ length machine.old.cpus }
        ensures locks { length machine.new.locks ≡ length machine.old.locks }
    {
        let key = self.keys.at(state);
        machine.put_shared(&self.shareds.items[key.shared()]);
        for cpu in 0..machine.cpus() {
            machine.put_cpu(cpu, &self.parts.items[key.part(cpu)]);
        }
    }

    /// The key of a state.
    pub(crate) fn key_at(&self, state: usize) -> Key
        requires { state < length self.now.keys }
        ensures { slice_get self.now.keys state ≡ Some result }
    {
        self.keys.at(state)
    }

    // The key of a state that may be met, or the key of none.
    #[inline(always)]
    fn near(&self, state: usize) -> Key {
        match self.keys.get(state) {
            Some(key) => key,
            None => Key::none(),
        }
    }

    // The key of what a machine is, which differs little from another key.
    fn key_of(&mut self, machine: &Machine, near: Key) -> Result<Key, Memory>
        requires few { length machine.now.cpus ≤ 8 }
        ensures key { IfOk result (λ key. KeyKeeps self.new.parts self.new.shareds key machine.now) }
        ensures grows { OnOk result (Grows self.old self.new) }
        ensures same { OnOk result (self.new.keys ≡ self.old.keys) }
        ensures folds { OnOk result (self.new.folds ≡ self.old.folds) }
    {
        let shared = self.shareds.number(self.alloc, machine, near.shared)?;
        let mut cpus = near.cpus;
        for cpu in 0..machine.cpus() {
            let likely = cpus[cpu as usize];
            let part = machine.cpu_part(cpu);
            cpus[cpu as usize] = self.parts.number(self.alloc, part, likely)?;
        }
        Ok(Key { shared, cpus })
    }

    // Gives the part of a processor its class, if it is the next part.
    fn classify(&mut self, machine: &mut Machine, cpu: u32, part: u32) -> Result<(), Memory>
        requires cpu { cpu < length machine.old.cpus }
        requires part { slice_get self.old.parts part ≡ Some (cpu_at machine.old cpu) }
        ensures machine { OnOk result (machine.new ≡ machine.old) }
        ensures states { SameStates self.old self.new }
    {
        if part as usize != self.classes.len() {
            return Ok(());
        }
        let form = form_number(&mut self.forms, self.alloc, machine, cpu)?;
        self.classes.push(form).map_err(|_| Memory)
    }

    // Gives each part of a machine with this key its class.
    fn classify_all(&mut self, machine: &mut Machine, key: &Key) -> Result<(), Memory>
        requires few { length machine.old.cpus ≤ 8 }
        requires key { KeyKeeps self.old.parts self.old.shareds key.now machine.old }
        ensures machine { OnOk result (machine.new ≡ machine.old) }
        ensures states { OnOk result (SameStates self.old self.new) }
    {
        for cpu in 0..machine.cpus() {
            self.classify(machine, cpu, key.cpus[cpu as usize])?;
        }
        Ok(())
    }

    // The class of the part with this number, if it has one.
    #[inline]
    fn class(&self, part: u32) -> Option<u32>
        ensures { IfSome result (λ c. slice_get self.now.classes part ≡ Some c) }
    {
        match self.classes.get(part as usize) {
            Some(class) => Some(*class),
            None => None,
        }
    }

    // A number for a part: that of its class, or its own if it has none.
    #[inline]
    fn class_number(&self, part: u32) -> u64 {
        match self.classes.get(part as usize) {
            Some(class) => u64::from(*class),
            None => u64::from(part),
        }
    }

    /// By which hash a state with this key is sought. Keys of the same form have the same one.
    #[inline]
    pub(crate) fn hash_of(&self, key: &Key) -> u64 {
        let mut weight = WEIGHT;
        let mut hash = u64::from(key.shared).wrapping_mul(weight);
        for cpu in 0..self.cpus.min(MAX_CPUS) {
            weight = weight.wrapping_mul(WEIGHT);
            hash = hash.wrapping_add(self.class_number(key.cpus[cpu]).wrapping_mul(weight));
        }
        hash
    }

    // Whether a part has this class.
    #[inline]
    fn is_class(&self, part: u32, class: u32) -> bool
        ensures { result ≡ true → slice_get self.now.classes part ≡ Some class }
    {
        match self.classes.get(part as usize) {
            Some(one) => *one == class,
            None => false,
        }
    }

    // Whether two parts are the same one, or have the same class.
    #[inline(always)]
    fn is_like(&self, part: u32, other: u32) -> bool
        ensures { result ≡ true → IsLikePart self.now.classes part other }
    {
        if part == other {
            return true;
        }
        match self.class(part) {
            Some(class) => self.is_class(other, class),
            None => false,
        }
    }

    // Whether these parts are like those, one by one.
    #[inline(always)]
    fn are_like(&self, parts: &[u32], others: &[u32]) -> bool
        ensures { result ≡ true → AreLikeParts self.now.classes parts.now others.now }
    {
        if parts.len() != others.len() {
            return false;
        }
        for at in 0..parts.len() {
            if !self.is_like(parts[at], others[at]) {
                return false;
            }
        }
        true
    }

    // Whether two keys have the same form.
    #[inline(always)]
    fn have_form(&self, one: &Key, other: &Key) -> bool
        ensures { result ≡ true → HaveForm self.now.classes one.now other.now }
    {
        if one.shared != other.shared {
            return false;
        }
        self.are_like(&one.cpus, &other.cpus)
    }

    // Whether the key of the state with this number has the form of this one.
    #[inline(always)]
    fn has_form(&self, number: usize, key: &Key) -> bool
        ensures { result ≡ true → IsNumberOf self.now number key.now }
    {
        match self.keys.get(number) {
            Some(item) => self.have_form(&item, key),
            None => false,
        }
    }

    // The number of a state whose key has the form of this one, by its hash, if it is found in these
    // slots.
    #[inline]
    fn find_in(&self, slots: &Slots, key: &Key, hash: u64) -> Option<u32>
        ensures { IfSome result (λ k. IsNumberOf self.now k key.now) }
    {
        let mut at = slots.home(hash);
        for _ in 0..slots.len() {
            let slot = slots.get(at)?;
            let number = slots.number(slot);
            if slots.may_be(slot, hash) && self.has_form(number as usize, key) {
                return Some(number);
            }
            at = slots.behind(at);
        }
        None
    }

    // The number of a state whose key has the form of this one, by its hash, if it is found.
    fn find(&self, key: &Key, hash: u64) -> Option<u32>
        ensures { IfSome result (λ k. IsNumberOf self.now k key.now) }
    {
        self.find_in(&self.slots, key, hash)
    }

    // The hash of a state's own key, or of its fold, if it has one and not its own is asked for.
    #[inline(always)]
    fn hash_at(&self, number: usize, own: bool) -> u64 {
        match self.folds.get(number) {
            Some(fold) if !own => self.hash_of(&fold),
            _ => self.hash_of(&self.near(number)),
        }
    }

    // These slots and more, in which each state has one by that hash.
    fn widened(&self, mut slots: Slots, own: bool) -> Result<Slots, Memory> {
        slots.widen()?;
        let mut number = 0u32;
        for at in 0..self.len() {
            slots.put(self.hash_at(at, own), number);
            number = number.wrapping_add(1);
        }
        Ok(slots)
    }

    // Gives each state a slot again, of more.
    fn grow(&mut self) -> Result<(), Memory>
        ensures { self.new ≡ self.old }
    {
        let slots = mem::replace(&mut self.slots, Slots::none(self.alloc));
        self.slots = self.widened(slots, false)?;
        Ok(())
    }

    // Takes room for one more state in the slots.
    fn make_room(&mut self) -> Result<(), Memory>
        ensures { self.new ≡ self.old }
    {
        if self.slots.are_few(self.keys.len()) {
            self.grow()
        } else {
            Ok(())
        }
    }

    // Gives the state with this key the next number.
    fn push(&mut self, key: &Key, hash: u64) -> Result<u32, Memory>
        ensures number { IfOk result (λ k. k ≡ length self.old.keys) }
        ensures keys { OnOk result (self.new.keys ≡ self.old.keys ++ key.now ∷ []) }
        ensures parts { self.new.parts ≡ self.old.parts }
        ensures shareds { self.new.shareds ≡ self.old.shareds }
        ensures folds { self.new.folds ≡ self.old.folds }
    {
        let count = self.len();
        if count >= MOST {
            return Err(Memory);
        }
        let number = count as u32;
        self.keys.push(key)?;
        self.slots.put(hash, number);
        self.recent.put(hash, number);
        Ok(number)
    }

    // The same, with room for it.
    fn add(&mut self, key: &Key, hash: u64) -> Result<u32, Memory>
        ensures { IfOk result (λ k. IsNumbered self.old self.new key.now k) }
    {
        self.make_room()?;
        let number = self.push(key, hash)?;
        Ok(number)
    }

    // The number of the state with this key or of one of its form, by its hash. It gets one if there is
    // none.
    #[inline]
    fn number(&mut self, key: &Key, hash: u64) -> Result<u32, Memory>
        ensures { IfOk result (λ k. IsNumbered self.old self.new key.now k) }
    {
        match self.find(key, hash) {
            Some(number) => Ok(number),
            None => self.add(key, hash),
        }
    }

    // What is always so.
    fn formed(&self)
        ensures { AreFormed self.now.parts self.now.forms self.now.classes }
    {
        let _ = &self.parts;
    }

    /// The key of what a machine is, each part of which has a class. The state `near` is one that
    /// differs little from it, or any other.
    pub(crate) fn key(&mut self, machine: &mut Machine, near: usize) -> Result<Key, Memory>
        requires few { length machine.old.cpus ≤ 8 }
        ensures key { IfOk result (λ key. KeyKeeps self.new.parts self.new.shareds key machine.old) }
        ensures states { OnOk result (AddsParts self.old self.new) }
        ensures machine { OnOk result (machine.new ≡ machine.old) }
    {
        let near = self.near(near);
        let key = self.key_of(machine, near)?;
        self.classify_all(machine, &key)?;
        Ok(key)
    }

    /// The number of the state that a machine is, or of one that differs in dead registers alone. It
    /// gets one if there is none. The state `near` is one that differs little from it, or any other.
    pub(crate) fn note(&mut self, machine: &mut Machine, near: usize) -> Result<u32, Memory>
        requires few { length machine.old.cpus ≤ 8 }
        ensures there { IfOk result (λ k. k < length self.new.keys) }
        ensures alike { IfOk result (λ k. (s : MachineValue) → Keeps self.new k s
            → IsSameKind s machine.old → AreAlike s machine.old) }
        ensures grows { OnOk result (Grows self.old self.new) }
        ensures one { IfOk result (λ k. (j : ℕ) → length self.old.keys ≤ j
            → j < length self.new.keys → (j ≡ k) × Keeps self.new j machine.old) }
        ensures folds { OnOk result (self.new.folds ≡ self.old.folds) }
        ensures machine { OnOk result (machine.new ≡ machine.old) }
    {
        let key = self.key(machine, near)?;
        let number = self.number(&key, self.hash_of(&key))?;
        self.formed();
        Ok(number)
    }

    /// The row that a step of a processor makes at a state, if it makes one.
    pub(crate) fn row_at(&self, state: usize, cpu: u32) -> Option<Pc>
        requires there { state < length self.now.keys }
        requires cpu { cpu < 8 }
        ensures { (s : MachineValue) → Keeps self.now state s → cpu < length s.cpus
            → result ≡ row_of (cpu_at s cpu) }
    {
        let number = self.keys.part(state, cpu);
        let part = self.parts.items.get(number)?;
        part.next_row()
    }

    /// Whether some part of a processor that was met makes this row.
    pub(crate) fn has_row(&self, row: Pc) -> bool
        ensures { result ≡ false → (i : ℕ) (x : CpuValue) → slice_get self.now.parts i ≡ Some x
            → row_of x ≢ Some row }
    {
        has_row(&self.parts.items, row)
    }

    /// How much memory the states take, in bytes, about.
    pub(crate) fn bytes(&self) -> usize {
        let parts = self
            .parts
            .items
            .len()
            .saturating_add(self.shareds.items.len());
        let keys = self.keys.bytes().saturating_add(self.folds.bytes());
        let count = self.len().saturating_add(self.folds.len());
        let slots = count.saturating_mul(SLOT_BYTES);
        keys.saturating_add(slots)
            .saturating_add(parts.saturating_mul(PART_BYTES))
    }
}

// Whether one of these parts of processors makes this row.
fn has_row(parts: &[CpuState], row: Pc) -> bool
    ensures { result ≡ false → (i : ℕ) (x : CpuValue) → slice_get parts.now i ≡ Some x
        → row_of x ≢ Some row }
{
    for at in 0..parts.len() {
        if is_row(parts[at].next_row(), row) {
            return true;
        }
    }
    false
}

// Whether this is the row.
pub(crate) fn is_row(made: Option<Pc>, row: Pc) -> bool
    ensures yes { result ≡ true → made ≡ Some row }
    ensures no { result ≡ false → made ≢ Some row }
{
    match made {
        Some(made) => same_row(made, row),
        None => false,
    }
}

// Whether two rows are the same.
fn same_row(a: Pc, b: Pc) -> bool
    ensures yes { result ≡ true → a ≡ b }
    ensures no { result ≡ false → a ≢ b }
{
    a == b
}
