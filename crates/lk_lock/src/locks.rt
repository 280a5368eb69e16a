// The locks of a program, each with its value.
ghost use Rattle.std.specs.Prelude.{◌≡◌, ◌+◌, ◌<◌, ◌≤◌, [], ◌∷◌, ◌++◌, IfOk, length, false, true};
ghost use Rattle.lk_names.specs.declared.names.Kind.TheVariants.{Rw as shared, Spin as spinning};
ghost use Rattle.lk_domain.specs.declared.plan.TheConstants.{MOST_CPUS, MOST_LOCKS};
ghost use Rattle.lk_lock.specs.Cells.{AllShut, EachShut};

use lk_cell::{Any, Key, KeyCell};
use lk_domain::{LockId, MOST_LOCKS};
use lk_names::{Kind, List, Memory};
use std::alloc::Global;

/// A value under a spinlock.
#[derive(Drop)]
pub struct Spin<T> {
    pub(crate) id: LockId,
    pub(crate) cell: KeyCell<T, Any>,
}

/// A value under a reader-writer lock.
#[derive(Drop)]
pub struct Rw<T> {
    pub(crate) id: LockId,
    pub(crate) cell: KeyCell<T, Any>,
}

/// Locks to be made, at most 4,096, and how many threads will take them.
#[derive(Drop)]
pub struct Locks {
    pub(crate) alloc: Global,
    pub(crate) threads: u32,
    pub(crate) kinds: List<Kind>,
    // The keys of each lock's cells: its own first, and behind it those of the copies, if it has any.
    pub(crate) keys: List<List<Key>>,
    // Whether a lock has copies.
    pub(crate) copied: bool,
    ghost some: { (0 < threads) × (threads ≤ MOST_CPUS) },
    ghost many: { length keys.items ≡ length kinds.items },
    ghost few: { length kinds.items ≤ MOST_LOCKS },
    ghost rooms: { (kinds.room ≡ MOST_LOCKS) × (keys.room ≡ MOST_LOCKS) },
    ghost shut: { AllShut keys.items },
}

impl Locks {
    ghost use Rattle.lk_lock.specs.Made.{AreSpins, IsAmong, Keeps, KeepsShared};

    /// None yet, for so many threads: 1 to 1,024.
    ///
    /// # Errors
    ///
    /// There is not enough memory.
    pub fn new(alloc: Global, threads: u32) -> Result<Locks, Memory>
        requires threads { (0 < threads) × (threads ≤ MOST_CPUS) }
        ensures none { IfOk result (λ locks. locks.kinds.items ≡ []) }
        ensures spins { IfOk result AreSpins }
        ensures threads { IfOk result (λ locks. locks.threads ≡ threads) }
    {
        let kinds = List::new(alloc, MOST_LOCKS)?;
        let keys = List::new(alloc, MOST_LOCKS)?;
        Ok(Locks {
            alloc,
            threads,
            kinds,
            keys,
            copied: false,
        })
    }

    /// How many there are.
    pub fn count(&self) -> usize
        ensures { result ≡ length self.now.kinds.items }
    {
        self.kinds.len()
    }

    /// Whether all of them are spinlocks. Then they may be opened as paravirtual ones too.
    pub fn are_spins(&self) -> bool
        ensures { result ≡ true → AreSpins self.now }
    {
        self.kinds.as_slice().iter().all(|kind| *kind == Kind::Spin)
    }

    // One more, whose values lie in the cells of these keys.
    pub(crate) fn add(&mut self, kind: Kind, keys: List<Key>) -> LockId
        requires room { length self.old.kinds.items < MOST_LOCKS }
        requires shut { EachShut keys.items }
        ensures kinds { self.new.kinds.items ≡ self.old.kinds.items ++ kind ∷ [] }
        ensures keys { self.new.keys.items ≡ self.old.keys.items ++ keys ∷ [] }
        ensures same { (self.new.threads ≡ self.old.threads) × (self.new.copied ≡ self.old.copied) }
        ensures id { result.index ≡ length self.old.kinds.items }
    {
        let index = self.kinds.len() as u32;
        self.kinds.push(kind);
        self.keys.push(keys);
        LockId { index }
    }

    // How many values a lock has at most.
    pub(crate) fn values(&self) -> u32
        ensures own { (0 < result) × (result ≤ 1 + MOST_CPUS) }
        ensures copies { self.now.copied ≡ true → result ≡ 1 + self.now.threads }
    {
        if self.copied { 1 + self.threads } else { 1 }
    }

    /// One spinlock more, and what lies under it.
    ///
    /// # Errors
    ///
    /// There is not enough memory. The value is gone.
    pub fn spin<T: Drop>(&mut self, value: T) -> Result<Spin<T>, Memory>
        requires room { length self.old.kinds.items < MOST_LOCKS }
        ensures kept { Keeps self.old self.new }
        ensures shared { KeepsShared self.old self.new }
        ensures spins { AreSpins self.old → AreSpins self.new }
        ensures threads { self.new.threads ≡ self.old.threads }
        ensures made { IfOk result (λ spin. IsAmong self.new spinning spin.id.index
            spin.cell.table.shared.table_id) }
        ensures number { IfOk result (λ spin. spin.id.index ≡ length self.old.kinds.items) }
        ensures count { IfOk result (λ _. length self.new.kinds.items
            ≡ length self.old.kinds.items + 1) }
    {
        let mut keys = List::new(self.alloc, 1)?;
        let (cell, key) = KeyCell::new(self.alloc, value)?;
        keys.push(key);
        let id = self.add(Kind::Spin, keys);
        Ok(Spin { id, cell })
    }

    /// One reader-writer lock more, and what lies under it.
    ///
    /// # Errors
    ///
    /// There is not enough memory. The value is gone.
    pub fn rw<T: Drop>(&mut self, value: T) -> Result<Rw<T>, Memory>
        requires room { length self.old.kinds.items < MOST_LOCKS }
        ensures kept { Keeps self.old self.new }
        ensures shared { KeepsShared self.old self.new }
        ensures threads { self.new.threads ≡ self.old.threads }
        ensures made { IfOk result (λ rw. IsAmong self.new shared rw.id.index
            rw.cell.table.shared.table_id) }
        ensures number { IfOk result (λ rw. rw.id.index ≡ length self.old.kinds.items) }
        ensures count { IfOk result (λ _. length self.new.kinds.items
            ≡ length self.old.kinds.items + 1) }
    {
        let mut keys = List::new(self.alloc, 1)?;
        let (cell, key) = KeyCell::new(self.alloc, value)?;
        keys.push(key);
        let id = self.add(Kind::Rw, keys);
        Ok(Rw { id, cell })
    }
}
