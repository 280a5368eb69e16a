// The hash.

ghost use Rattle.std.specs.Prelude.{◌≡◌, ◌<◌, ◌≤◌, ◌*◌, [], IfOk, Some, None, true, is_some, length, replicate};
ghost use Rattle.std.specs.Int.{IsNextPowerOfTwo};
ghost use Rattle.lk_hash.specs.declared.place.Place.TheVariants.{Free};
ghost use Rattle.lk_hash.specs.Entries.{Entered, node_in, with_entry, without_entry};
ghost use Rattle.lk_hash.specs.Table.{IsSound, entered_in};

use crate::memory::Memory;
use crate::place::Place;
use crate::probe::{place_of, vacant_of};
use std::alloc::Global;
use std::marker::Model;

// How many places there are for each processor, at least: as many as it has nodes.
const PLACES_PER_CPU: usize = 4;

/// A finite map from locks to nodes, each named by a number. Callers see the entries in the order
/// of their locks, and not the places at which they stand. Linux's counterpart is `pv_lock_hash`
/// (`kernel/locking/qspinlock_paravirt.h`).
#[derive(Drop)]
pub struct LockHash {
    pub(crate) places: Vec<Place>,
}

impl Model for LockHash {
    ghost Value = { Entered };

    ghost view = { λ h. entered_in h.places.items };

    ghost invariant = { λ h. IsSound h.places.items };
}

// So many free places.
fn free_places(alloc: Global, count: usize) -> Result<Vec<Place>, Memory>
    ensures { IfOk result (λ places. places.items ≡ replicate count Free) }
{
    let mut places = Vec::with_capacity(alloc, count)?;
    for _ in 0..count {
        places.push(Place::Free).map_err(|_| Memory)?;
    }
    Ok(places)
}

impl LockHash {
    /// An empty hash for so many processors, from 1 to 1,024. It takes all its memory here: at
    /// least four places for each processor, rounded up to a power of two.
    ///
    /// # Errors
    ///
    /// There is not enough memory.
    #[tactic(auto, using(crate::proofs::Table::made))]
    pub fn new(alloc: Global, cpus: u32) -> Result<LockHash, Memory>
        requires some { 1 ≤ cpus }
        requires few { cpus ≤ 1024 }
        ensures places { IfOk result (λ hash. IsNextPowerOfTwo (4 * cpus) hash.places) }
        ensures empty { IfOk result (λ hash. hash.entries ≡ []) }
    {
        let count = (PLACES_PER_CPU * cpus as usize).next_power_of_two();
        let places = free_places(alloc, count)?;
        Ok(LockHash { places })
    }

    /// The number of places.
    pub fn places(&self) -> u32
        ensures { result ≡ self.now.places }
    {
        self.places.len() as u32
    }

    /// The node of a lock; none if the lock has no entry.
    #[tactic(auto, using(crate::proofs::Table::read))]
    pub fn find(&self, lock: u32) -> Option<u32>
        ensures { result ≡ node_in lock self.now.entries }
    {
        match place_of(&self.places, lock) {
            Some((_, node)) => Some(node),
            None => None,
        }
    }

    /// Enters a lock with its node. The lock must have no entry, and fewer locks are entered than
    /// there are places.
    #[tactic(auto, using(crate::proofs::Table::entering))]
    pub fn enter(&mut self, lock: u32, node: u32)
        requires absent { node_in lock self.old.entries ≡ None }
        requires room { length self.old.entries < self.old.places }
        ensures { self.new ≡ record self.old { entries = with_entry lock node self.old.entries } }
    {
        let at = vacant_of(&self.places, lock);
        self.places[at] = Place::Taken { lock, node };
    }

    /// Removes the entry of a lock and returns its node. The lock must have an entry.
    #[tactic(auto, using(crate::proofs::Table::removing))]
    pub fn remove(&mut self, lock: u32) -> u32
        requires { is_some (node_in lock self.old.entries) ≡ true }
        ensures node { node_in lock self.old.entries ≡ Some result }
        ensures next { self.new
            ≡ record self.old { entries = without_entry lock self.old.entries } }
    {
        match place_of(&self.places, lock) {
            Some((at, node)) => {
                self.places[at] = Place::Removed;
                node
            }
            None => unreachable!(),
        }
    }
}
