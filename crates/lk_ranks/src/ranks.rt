// The locks of a program, each with its value and its rank.
ghost use Rattle.std.specs.Prelude.{◌≡◌, ◌+◌, ◌<◌, ◌≤◌, [], IfOk, length, true, replicate};
ghost use Rattle.lk_names.specs.declared.names.Kind.TheVariants.{Rw as shared, Spin as spinning};
ghost use Rattle.lk_domain.specs.Plans.{cpus_of};
ghost use Rattle.lk_domain.specs.declared.plan.TheConstants.{MOST_CPUS, MOST_LOCKS};
ghost use Rattle.lk_law.specs.Agree.{halts};
ghost use Rattle.lk_lock.specs.Cells.{names_of};
ghost use Rattle.lk_lock.specs.Made.{AreMade, AreSharedMade, AreSpins, IsAmong, IsPlanFor};
ghost use Rattle.lk_lock.specs.Made.{IsSharedAmong, Keeps, KeepsShared};
ghost use Rattle.lk_lock.specs.Standing.{AllRest};

use crate::rw::RankedRw;
use crate::shared::RankedShared;
use crate::spin::RankedSpin;
use lk_lock::{Locks, Open};
use lk_names::{Memory, Mode, Topology};
use std::alloc::Global;

/// Locks to be made, at most 4,096, each with a rank, and how many threads will take them. A lock ranks
/// above all that were made before it.
#[derive(Drop)]
pub struct Ranks {
    locks: Locks,
}

impl Ranks {
    /// None yet, for so many threads: 1 to 1,024.
    ///
    /// # Errors
    ///
    /// There is not enough memory.
    pub fn new(alloc: Global, threads: u32) -> Result<Ranks, Memory>
        requires threads { (0 < threads) × (threads ≤ MOST_CPUS) }
        ensures none { IfOk result (λ ranks. ranks.locks.kinds.items ≡ []) }
        ensures spins { IfOk result (λ ranks. AreSpins ranks.locks) }
        ensures threads { IfOk result (λ ranks. ranks.locks.threads ≡ threads) }
    {
        let locks = Locks::new(alloc, threads)?;
        Ok(Ranks { locks })
    }

    /// How many there are. The next gets this rank.
    pub fn count(&self) -> u32
        ensures { result ≡ length self.now.locks.kinds.items }
    {
        self.locks.count() as u32
    }

    /// Whether all of them are spinlocks. Then they may be opened as paravirtual ones too.
    pub fn are_spins(&self) -> bool
        ensures { result ≡ true → AreSpins self.now.locks }
    {
        self.locks.are_spins()
    }

    /// One spinlock more, and what lies under it. It ranks above all that were made before.
    ///
    /// # Errors
    ///
    /// There is not enough memory. The value is gone.
    pub fn spin<T: Drop>(&mut self, value: T) -> Result<RankedSpin<T>, Memory>
        requires room { length self.old.locks.kinds.items < MOST_LOCKS }
        ensures kept { Keeps self.old.locks self.new.locks }
        ensures shared { KeepsShared self.old.locks self.new.locks }
        ensures spins { AreSpins self.old.locks → AreSpins self.new.locks }
        ensures threads { self.new.locks.threads ≡ self.old.locks.threads }
        ensures made { IfOk result (λ lock. IsAmong self.new.locks spinning lock.spin.id.index
            lock.spin.cell.table.shared.table_id) }
        ensures rank { IfOk result (λ lock. lock.spin.id.index
            ≡ length self.old.locks.kinds.items) }
        ensures count { IfOk result (λ _. length self.new.locks.kinds.items
            ≡ length self.old.locks.kinds.items + 1) }
    {
        let rank = self.count();
        let spin = self.locks.spin(value)?;
        Ok(RankedSpin { spin, rank })
    }

    /// The same, where one of the locks is named above which the new one ranks, by its rank.
    ///
    /// # Errors
    ///
    /// There is not enough memory. The value is gone.
    pub fn spin_above<T: Drop>(&mut self, other: u32, value: T) -> Result<RankedSpin<T>, Memory>
        requires room { length self.old.locks.kinds.items < MOST_LOCKS }
        requires other { other < length self.old.locks.kinds.items }
        ensures above { IfOk result (λ lock. other < lock.spin.id.index) }
        ensures kept { Keeps self.old.locks self.new.locks }
        ensures shared { KeepsShared self.old.locks self.new.locks }
        ensures spins { AreSpins self.old.locks → AreSpins self.new.locks }
        ensures threads { self.new.locks.threads ≡ self.old.locks.threads }
        ensures made { IfOk result (λ lock. IsAmong self.new.locks spinning lock.spin.id.index
            lock.spin.cell.table.shared.table_id) }
        ensures rank { IfOk result (λ lock. lock.spin.id.index
            ≡ length self.old.locks.kinds.items) }
        ensures count { IfOk result (λ _. length self.new.locks.kinds.items
            ≡ length self.old.locks.kinds.items + 1) }
    {
        self.spin(value)
    }

    /// One reader-writer lock more, and what lies under it. It ranks above all that were made before.
    ///
    /// # Errors
    ///
    /// There is not enough memory. The value is gone.
    pub fn rw<T: Drop>(&mut self, value: T) -> Result<RankedRw<T>, Memory>
        requires room { length self.old.locks.kinds.items < MOST_LOCKS }
        ensures kept { Keeps self.old.locks self.new.locks }
        ensures shared { KeepsShared self.old.locks self.new.locks }
        ensures threads { self.new.locks.threads ≡ self.old.locks.threads }
        ensures made { IfOk result (λ lock. IsAmong self.new.locks shared lock.rw.id.index
            lock.rw.cell.table.shared.table_id) }
        ensures rank { IfOk result (λ lock. lock.rw.id.index ≡ length self.old.locks.kinds.items) }
        ensures count { IfOk result (λ _. length self.new.locks.kinds.items
            ≡ length self.old.locks.kinds.items + 1) }
    {
        let rank = self.count();
        let rw = self.locks.rw(value)?;
        Ok(RankedRw { rw, rank })
    }

    /// The same, where one of the locks is named above which the new one ranks, by its rank.
    ///
    /// # Errors
    ///
    /// There is not enough memory. The value is gone.
    pub fn rw_above<T: Drop>(&mut self, other: u32, value: T) -> Result<RankedRw<T>, Memory>
        requires room { length self.old.locks.kinds.items < MOST_LOCKS }
        requires other { other < length self.old.locks.kinds.items }
        ensures above { IfOk result (λ lock. other < lock.rw.id.index) }
        ensures kept { Keeps self.old.locks self.new.locks }
        ensures shared { KeepsShared self.old.locks self.new.locks }
        ensures threads { self.new.locks.threads ≡ self.old.locks.threads }
        ensures made { IfOk result (λ lock. IsAmong self.new.locks shared lock.rw.id.index
            lock.rw.cell.table.shared.table_id) }
        ensures rank { IfOk result (λ lock. lock.rw.id.index ≡ length self.old.locks.kinds.items) }
        ensures count { IfOk result (λ _. length self.new.locks.kinds.items
            ≡ length self.old.locks.kinds.items + 1) }
    {
        self.rw(value)
    }

    /// One reader-writer lock more, and a value under it that its readers share. It ranks above all
    /// that were made before.
    ///
    /// # Errors
    ///
    /// There is not enough memory.
    pub fn shared<T: Copy + Drop>(&mut self, value: T) -> Result<RankedShared<T>, Memory>
        requires room { length self.old.locks.kinds.items < MOST_LOCKS }
        ensures kept { Keeps self.old.locks self.new.locks }
        ensures shared { KeepsShared self.old.locks self.new.locks }
        ensures threads { self.new.locks.threads ≡ self.old.locks.threads }
        ensures made { IfOk result (λ lock. IsSharedAmong self.new.locks lock.shared.id.index
            (names_of lock.shared.cells.items)) }
        ensures rank { IfOk result (λ lock. lock.shared.id.index
            ≡ length self.old.locks.kinds.items) }
        ensures count { IfOk result (λ _. length self.new.locks.kinds.items
            ≡ length self.old.locks.kinds.items + 1) }
    {
        let rank = self.count();
        let shared = self.locks.shared(value)?;
        Ok(RankedShared { shared, rank })
    }

    /// The locks, all of this family, and a processor for each thread, as `Locks::open` of `lk_lock`
    /// gives them. There is at least one lock, and in mode `pv` all are spinlocks.
    ///
    /// # Errors
    ///
    /// There is not enough memory. No value comes back.
    pub fn open(self, mode: Mode) -> Result<Open, Memory>
        requires some { 0 < length self.locks.kinds.items }
        requires kinds { halts mode ≡ true → AreSpins self.locks }
        ensures plan { IfOk result (λ all. IsPlanFor self.locks mode
            (replicate self.locks.threads 0) 32768 all.domain.plan) }
        ensures made { IfOk result (λ all. AreMade self.locks all.domain.plan) }
        ensures shared { IfOk result (λ all. AreSharedMade self.locks all.domain.plan) }
        ensures many { IfOk result (λ all. length all.cpus.items ≡ self.locks.threads) }
        ensures each { IfOk result (λ all. length all.cpus.items ≡ cpus_of all.domain.plan) }
        ensures rest { IfOk result (λ all. AllRest all.domain all.cpus.items) }
    {
        self.locks.open(mode)
    }

    /// The same, with each processor on the socket that the topology lists for it. In mode `pv` there are
    /// no sockets, and a waiter spins for so many turns, at least 1, before it halts.
    ///
    /// # Errors
    ///
    /// There is not enough memory. No value comes back.
    pub fn open_on(self, mode: Mode, topology: Topology, turns: u16) -> Result<Open, Memory>
        requires some { 0 < length self.locks.kinds.items }
        requires kinds { halts mode ≡ true → AreSpins self.locks }
        requires threads { length topology.sockets.items ≡ self.locks.threads }
        requires turns { 0 < turns }
        ensures plan { IfOk result (λ all. IsPlanFor self.locks mode topology.sockets.items turns
            all.domain.plan) }
        ensures made { IfOk result (λ all. AreMade self.locks all.domain.plan) }
        ensures shared { IfOk result (λ all. AreSharedMade self.locks all.domain.plan) }
        ensures many { IfOk result (λ all. length all.cpus.items ≡ self.locks.threads) }
        ensures each { IfOk result (λ all. length all.cpus.items ≡ cpus_of all.domain.plan) }
        ensures rest { IfOk result (λ all. AllRest all.domain all.cpus.items) }
    {
        self.locks.open_on(mode, topology, turns)
    }
}
