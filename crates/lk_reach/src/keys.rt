// The keys of states, one after another, in as many bytes as their numbers need.

ghost use Rattle.std.specs.Prelude.{◌≡◌, ◌<◌, ◌++◌, ◌∷◌, [], IfSome, List, OnOk, Some, length, slice_get};
ghost use Rattle.lk_reach.specs.declared.key.Key.{Key as KeyValue};
ghost use Rattle.lk_reach.specs.Numbers.{key_at, listed};

use crate::key::Key;
use crate::numbers::Numbers;
use crate::numbers::fours::Fours;
use crate::table::MOST;
use lk_names::Memory;
use std::alloc::Global;
use std::marker::Model;

/// The keys of states, by the numbers of the states.
#[derive(Drop)]
pub(crate) struct Keys {
    count: usize,
    /// The numbers of what is no single processor's.
    shared: Numbers,
    /// The numbers of the parts of the first four processors, and of the others.
    first: Fours,
    others: Fours,
}

impl Model for Keys {
    ghost Value = { List KeyValue };

    ghost view = { λ k. listed k.count (λ at. key_at k.shared k.first k.others at) };
}

impl Keys {
    /// No keys.
    pub(crate) fn new(alloc: Global) -> Keys
        ensures { result ≡ [] }
    {
        Keys {
            count: 0,
            shared: Numbers::new(alloc),
            first: Fours::new(alloc),
            others: Fours::new(alloc),
        }
    }

    /// How many keys there are.
    #[inline]
    pub(crate) fn len(&self) -> usize
        ensures { result ≡ length self.now }
    {
        self.count
    }

    /// The key of the state with this number.
    #[inline(always)]
    pub(crate) fn at(&self, number: usize) -> Key
        requires { number < length self.now }
        ensures { slice_get self.now number ≡ Some result }
    {
        let first = self.first.get(number);
        let others = self.others.get(number);
        Key {
            shared: self.shared.get(number),
            cpus: [
                first[0], first[1], first[2], first[3], others[0], others[1], others[2], others[3],
            ],
        }
    }

    /// The number of the part of a processor, at the state with this number.
    #[inline]
    pub(crate) fn part(&self, number: usize, cpu: u32) -> usize
        requires number { number < length self.now }
        requires cpu { cpu < 8 }
        ensures { (key : KeyValue) → slice_get self.now number ≡ Some key
            → slice_get key.cpus cpu ≡ Some result }
    {
        if cpu < 4 {
            self.first.part(number, cpu as usize) as usize
        } else {
            self.others.part(number, cpu as usize - 4) as usize
        }
    }

    /// The key of the state with this number, if there is one.
    #[inline(always)]
    pub(crate) fn get(&self, number: usize) -> Option<Key>
        ensures { IfSome result (λ key. slice_get self.now number ≡ Some key) }
    {
        if number < self.count {
            Some(self.at(number))
        } else {
            None
        }
    }

    /// Adds a key.
    ///
    /// # Errors
    ///
    /// There is not enough memory, or no room for one more number.
    pub(crate) fn push(&mut self, key: &Key) -> Result<(), Memory>
        ensures { OnOk result (self.new ≡ self.old ++ key.now ∷ []) }
    {
        let at = self.count;
        if at >= MOST {
            return Err(Memory);
        }
        let cpus = key.cpus;
        self.shared.put(at, key.shared)?;
        self.first.put(at, [cpus[0], cpus[1], cpus[2], cpus[3]])?;
        self.others.put(at, [cpus[4], cpus[5], cpus[6], cpus[7]])?;
        self.count = at + 1;
        Ok(())
    }

    /// How much memory they take, in bytes.
    pub(crate) fn bytes(&self) -> usize {
        let parts = self.first.bytes().saturating_add(self.others.bytes());
        parts.saturating_add(self.shared.bytes())
    }
}
