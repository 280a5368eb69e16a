// The folds of states: each is the state under new numbers of processors that are alike. States with
// the same fold are one, but for such numbers.

ghost use Rattle.std.specs.Prelude.{◌≡◌, ◌≢◌, ◌<◌, ◌≤◌, IfOk, OnOk, IfSome, ℕ, Some, length, slice_get, true};
ghost use Rattle.lk_rows.specs.Machine.{Machine as MachineValue};
ghost use Rattle.lk_idle.specs.Alike.{AreAlike};
ghost use Rattle.lk_reach.specs.Helped.{IsFoldNoted};
ghost use Rattle.lk_reach.specs.Space.{AddsFold, Folds, Grows, IsFolded, IsFoldNumbered, IsFoldOf, IsLikeFold, IsLikeKey, IsNumberOf, IsSameKind};

use crate::key::Key;
use crate::slots::Slots;
use crate::space::Space;
use lk_machine::Machine;
use lk_names::Memory;
use std::mem;

impl Space {
    // Whether the fold of the state with this number has the form of this one.
    fn has_fold(&self, number: usize, fold: &Key) -> bool
        ensures { result ≡ true → IsFoldOf self.now number fold.now }
    {
        match self.folds.get(number) {
            Some(item) => self.have_form(&item, fold),
            None => false,
        }
    }

    // The number of a state, other than the one that is left, whose fold has the form of this one, by its
    // hash.
    fn find_fold(&self, fold: &Key, hash: u64, left: usize) -> Option<u32>
        ensures fold { IfSome result (λ k. IsFoldOf self.now k fold.now) }
        ensures other { IfSome result (λ k. k ≢ left) }
    {
        let mut at = self.slots.home(hash);
        for _ in 0..self.slots.len() {
            let slot = self.slots.get(at)?;
            let number = self.slots.number(slot);
            if number as usize != left
                && self.slots.may_be(slot, hash)
                && self.has_fold(number as usize, fold)
            {
                return Some(number);
            }
            at = self.slots.behind(at);
        }
        None
    }

    // Gives each state a slot by its own key again, of more.
    fn grow_owns(&mut self) -> Result<(), Memory>
        ensures { self.new ≡ self.old }
    {
        let owns = mem::replace(&mut self.owns, Slots::none(self.alloc));
        self.owns = self.widened(owns, true)?;
        Ok(())
    }

    // Gives the state of this number, which is the last one, a slot by its own key.
    fn put_own(&mut self, key: &Key, number: u32) -> Result<(), Memory>
        ensures { self.new ≡ self.old }
    {
        let count = self.len();
        if self.owns.are_few(count) {
            return self.grow_owns();
        }
        let hash = self.hash_of(key);
        self.owns.put(hash, number);
        Ok(())
    }

    // The number of a state whose own key has the form of this one, if it is found. The state `near` is
    // tried first.
    fn find_own(&self, near: usize, key: &Key) -> Option<u32>
        ensures { IfSome result (λ k. IsNumberOf self.now k key.now) }
    {
        if self.has_form(near, key) {
            return u32::try_from(near).ok();
        }
        self.find_in(&self.owns, key, self.hash_of(key))
    }

    /// The number of a state that has this key, or differs from that one in dead registers alone, if one
    /// is found. The state `near` is tried first.
    pub(crate) fn like(&self, near: usize, key: &Key) -> Option<u32>
        ensures there { IfSome result (λ k. k < length self.now.keys) }
        ensures alike { IfSome result (λ k. IsLikeKey self.now k key.now) }
    {
        self.formed();
        let number = self.find_own(near, key)?;
        Some(number)
    }

    // Gives the next state its fold.
    fn push_fold(&mut self, fold: &Key) -> Result<(), Memory>
        ensures { OnOk result (AddsFold self.old self.new fold.now) }
    {
        self.folds.push(fold)
    }

    // Gives the state with this key the next number, and its fold, which has this hash.
    fn add_fold(&mut self, key: &Key, fold: &Key, hash: u64) -> Result<u32, Memory>
        requires { length self.old.folds ≡ length self.old.keys }
        ensures { IfOk result (λ k. IsFolded self.old self.new key.now fold.now k) }
    {
        self.make_room()?;
        let number = self.push(key, hash)?;
        self.put_own(key, number)?;
        self.push_fold(fold)?;
        Ok(number)
    }

    // The number of a state, other than the one that is left, whose fold has the form of this key. The
    // key of a state with this fold gets one if there is none.
    fn number_fold(&mut self, key: &Key, fold: &Key, left: usize) -> Result<u32, Memory>
        requires left { left < length self.old.keys }
        requires folds { length self.old.folds ≡ length self.old.keys }
        ensures { IfOk result (λ k. IsFoldNumbered self.old self.new key.now fold.now left k) }
    {
        let hash = self.hash_of(fold);
        match self.find_fold(fold, hash, left) {
            Some(number) => Ok(number),
            None => {
                let number = self.add_fold(key, fold, hash)?;
                Ok(number)
            }
        }
    }

    /// The number of a state, other than the one that is left, whose fold has this key, or differs from
    /// that one in dead registers alone, if it was met.
    pub(crate) fn known_fold(&self, fold: &Key, left: usize) -> Option<u32>
        ensures there { IfSome result (λ k. k < length self.now.folds) }
        ensures other { IfSome result (λ k. k ≢ left) }
        ensures alike { IfSome result (λ k. IsLikeFold self.now k fold.now) }
    {
        self.formed();
        let number = self.find_fold(fold, self.hash_of(fold), left)?;
        Some(number)
    }

    /// The number of the state with this key, whose fold has that one, or of a state other than the one
    /// that is left, whose fold differs from it in dead registers alone. It gets one if there is none.
    pub(crate) fn note_folded(&mut self, key: &Key, fold: &Key, left: usize) -> Result<u32, Memory>
        requires left { left < length self.old.keys }
        requires folds { length self.old.folds ≡ length self.old.keys }
        ensures { IfOk result (λ k. IsFoldNoted self.old self.new key.now fold.now left k) }
    {
        let number = self.number_fold(key, fold, left)?;
        self.formed();
        Ok(number)
    }

    /// The number of a state with this key, of which the machine is the fold, or of one whose fold
    /// differs from this machine in dead registers alone, and that is not the one that is left. It
    /// gets one if there is none.
    pub(crate) fn note_fold(
        &mut self,
        machine: &mut Machine,
        key: &Key,
        left: usize,
    ) -> Result<u32, Memory>
        requires few { length machine.old.cpus ≤ 8 }
        requires left { left < length self.old.keys }
        requires folds { length self.old.folds ≡ length self.old.keys }
        ensures there { IfOk result (λ k. k < length self.new.keys) }
        ensures other { IfOk result (λ k. k ≢ left) }
        ensures alike { IfOk result (λ k. (s : MachineValue) → Folds self.new k s
            → IsSameKind s machine.old → AreAlike s machine.old) }
        ensures grows { OnOk result (Grows self.old self.new) }
        ensures one { IfOk result (λ k. (j : ℕ) → length self.old.keys ≤ j
            → j < length self.new.keys → (j ≡ k) × (slice_get self.new.keys j ≡ Some key.now)
            × Folds self.new j machine.old) }
        ensures folds { OnOk result (length self.new.folds ≡ length self.new.keys) }
        ensures machine { OnOk result (machine.new ≡ machine.old) }
    {
        let fold = self.key(machine, left)?;
        let number = self.note_folded(key, &fold, left)?;
        Ok(number)
    }

    /// Gives the first state a fold, which is the machine.
    pub(crate) fn fold_first(&mut self, machine: &mut Machine) -> Result<(), Memory>
        requires few { length machine.old.cpus ≤ 8 }
        requires none { length self.old.folds ≡ 0 }
        ensures grows { OnOk result (Grows self.old self.new) }
        ensures same { OnOk result (self.new.keys ≡ self.old.keys) }
        ensures folds { OnOk result ((length self.new.folds ≡ 1) × Folds self.new 0 machine.old) }
        ensures machine { OnOk result (machine.new ≡ machine.old) }
    {
        let key = self.key(machine, 0)?;
        self.push_fold(&key)?;
        Ok(())
    }
}
