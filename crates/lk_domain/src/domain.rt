// A domain: one table of words, and what it was made of.
ghost use Rattle.std.specs.Prelude.{◌≡◌, ◌+◌, ◌<◌, Some, slice_get};
ghost use Rattle.lk_domain.specs.Plans.{cpus_of, locks_of, accounts_of, layout_in, IsRunningPlan};
ghost use Rattle.lk_domain.specs.Values.{homes_of};
ghost use Rattle.lk_domain.specs.Words.{words_of};
ghost use Rattle.lk_law.specs.Agree.{halts};

use crate::plan::{MOST_LOCKS, Plan};
use crate::rule::Order;
use crate::slot::Slot;
use crate::view::View;
use atomic_table::Table;
use lk_names::{Format, Kind, Mode};
use lk_word::Layout;
use std::alloc::Global;

/// Locks that threads acquire, and a ledger that they guard.
#[derive(Drop)]
pub struct Domain {
    /// The table of its atomic words.
    pub table: Table<Slot, View, Plan, Order, Global>,
    /// The plan of which it was made.
    pub plan: Plan,
    ghost lawful: { IsRunningPlan plan },
    ghost words: { table.shared.table_id.words ≡ words_of plan },
    ghost slots: { table.shared.table_id.slots ≡ 1 + homes_of plan },
    ghost key: { table.shared.key ≡ plan },
}

/// A domain as its user has it: a [`Domain`], or one inside a type that says more of it.
pub trait HasDomain {
    ghost use Rattle.lk_domain.specs.declared.domain.Domain.{Domain};

    /// The domain.
    ghost inside: { Self → Domain };

    /// The domain.
    fn domain(&self) -> &Domain
        ensures { result.now ≡ inside self.now };
}

impl HasDomain for Domain {
    ghost inside = { λ domain. domain };

    fn domain(&self) -> &Domain {
        self
    }
}

/// The name of a lock in its domain.
#[derive(Clone, Copy, Debug, PartialEq, Eq)]
pub struct LockId {
    /// The number of the lock, counted from 0.
    pub index: u32,
}

impl Domain {
    /// The lock family of all its locks.
    pub fn mode(&self) -> Mode
        ensures { result ≡ self.now.plan.mode }
    {
        self.plan.mode
    }

    /// Whether its waiters halt: whether its mode is `pv`.
    #[inline]
    pub fn halts(&self) -> bool
        ensures { result ≡ halts self.now.plan.mode }
    {
        match self.plan.mode {
            Mode::Virt | Mode::Native | Mode::Cna => false,
            Mode::Pv => true,
        }
    }

    /// Its format.
    #[inline]
    pub fn format(&self) -> Format
        ensures { result ≡ self.now.plan.format }
    {
        self.plan.format
    }

    /// The layout of its lock words.
    #[inline]
    pub fn layout(&self) -> Layout
        ensures { result ≡ layout_in self.now.plan }
    {
        self.plan.layout()
    }

    /// The most handoffs that may pass a moved waiter, in mode `cna`.
    pub fn threshold(&self) -> u32
        ensures { result ≡ self.now.plan.threshold }
    {
        self.plan.threshold
    }

    /// The socket of a processor.
    pub fn socket(&self, cpu: u32) -> u32
        requires { cpu < cpus_of self.now.plan }
        ensures { slice_get self.now.plan.topology.sockets.items cpu ≡ Some result }
    {
        *self.plan.topology.sockets.get(cpu as usize)
    }

    /// The kind of a lock: a spinlock or a reader-writer lock.
    pub fn kind(&self, lock: LockId) -> Kind
        requires { lock.index < locks_of self.now.plan }
        ensures { slice_get self.now.plan.locks.items lock.index ≡ Some result }
    {
        *self.plan.locks.get(lock.index as usize)
    }

    /// The number of its locks.
    pub fn locks(&self) -> u32
        ensures { result ≡ locks_of self.now.plan }
    {
        prove!(self.plan.locks.len() <= MOST_LOCKS);
        self.plan.locks.len() as u32
    }

    // How many homes of values there are.
    pub(crate) fn homes(&self) -> usize
        ensures { result ≡ homes_of self.now.plan }
    {
        self.table.slot_count() - 1
    }

    /// The number of accounts of its ledger, at most 64.
    pub fn accounts(&self) -> u32
        ensures { result ≡ accounts_of self.now.plan }
    {
        prove!(self.plan.balances.len() <= 64);
        self.plan.balances.len() as u32
    }
}
