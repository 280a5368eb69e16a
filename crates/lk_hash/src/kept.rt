// A hash that is copied, compared and put back.

ghost use Rattle.std.specs.Prelude.{◌≡◌, ◌≤◌, IfOk, ℕ, Some, length, true};
ghost use Rattle.lk_hash.specs.declared.place.Place.TheVariants.{Taken};
ghost use Rattle.lk_hash.specs.Entries.{HasAll, node_in};
ghost use Rattle.lk_hash.specs.Table.{place_at};

use crate::hash::LockHash;
use crate::memory::Memory;
use crate::place::Place;
use std::alloc::Global;
use std::hash::{FoldHasher, Hasher};

// A copy of places.
fn copied(alloc: Global, places: &[Place]) -> Result<Vec<Place>, Memory>
    requires { length places.now ≤ 4294967295 }
    ensures { IfOk result (λ copy. copy.items ≡ places.now) }
{
    let mut copy = Vec::with_capacity(alloc, places.len())?;
    copy.extend_from_slice(places).map_err(|_| Memory)?;
    Ok(copy)
}

// Whether a hash has the entry of each of these places.
fn has_places(hash: &LockHash, places: &[Place]) -> bool
    ensures { result ≡ true → (at lock node : ℕ) → place_at places.now at ≡ Taken lock node
        → node_in lock hash.now.entries ≡ Some node }
{
    for at in 0..places.len() {
        if let Place::Taken { lock, node } = places[at] {
            if hash.find(lock) != Some(node) {
                return false;
            }
        }
    }
    true
}

impl LockHash {
    /// A copy of the hash.
    ///
    /// # Errors
    ///
    /// There is not enough memory.
    pub fn copy(&self, alloc: Global) -> Result<LockHash, Memory>
        ensures { IfOk result (λ hash. hash ≡ self.now) }
    {
        let places = copied(alloc, &self.places)?;
        Ok(LockHash { places })
    }

    // Whether each entry of another hash is one of this.
    #[tactic(auto, using(crate::proofs::Same::same))]
    fn has_all(&self, other: &LockHash) -> bool
        ensures { result ≡ true → HasAll self.now.entries other.now.entries }
    {
        has_places(self, &other.places)
    }

    /// Whether the hash has the same entries as another, in as many places. Where they stand does
    /// not matter.
    #[tactic(auto, using(crate::proofs::Same::same))]
    pub fn same(&self, other: &LockHash) -> bool
        ensures { result ≡ true → self.now ≡ other.now }
    {
        self.places.len() == other.places.len() && self.has_all(other) && other.has_all(self)
    }

    /// A number for a table of hashes. It does not depend on where the entries stand.
    pub fn number(&self) -> u64 {
        let mut sum = 0u64;
        for place in &self.places {
            if let Place::Taken { lock, node } = *place {
                let mut hasher = FoldHasher::default();
                hasher.write_u32(lock);
                hasher.write_u32(node);
                sum = sum.wrapping_add(hasher.finish());
            }
        }
        sum
    }

    /// The hash becomes the same as another, which has as many places.
    pub fn put(&mut self, other: &LockHash)
        requires { self.old.places ≡ other.now.places }
        ensures { self.new ≡ other.now }
    {
        self.places.copy_from_slice(&other.places);
    }
}
