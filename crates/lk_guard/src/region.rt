// The ledger of a domain, under its lock 0.
ghost use Rattle.std.specs.Prelude.{◌≡◌, None};
ghost use Rattle.lk_domain.specs.Ledgers.{closed};
ghost use Rattle.lk_domain.specs.Plans.{locks_of, kind_at};
ghost use Rattle.lk_domain.specs.Seats.{IsOf, IsSame, ledger_of};
ghost use Rattle.lk_guard.specs.Guards.{guard_in, reads_as, reads_by, writes_as, writes_by};
ghost use Rattle.lk_guard.specs.Holding.{IsHolding, HasBegun};
ghost use Rattle.lk_guard.specs.Idle.{IsIdle, crew_of};

use crate::working::Guarded;
use lk_domain::{Cpu, Domain, LockId};
use lk_names::{Job, Kind, Reply};
use lk_run::{Irq, NoIrq, lock, read_lock, read_unlock, unlock, write_lock, write_unlock};
use std::sync::Wait;

// The lock that guards the ledger.
pub(crate) const FIRST: LockId = LockId { index: 0 };

/// A domain whose one lock guards its ledger.
#[derive(Drop)]
pub struct Region {
    pub(crate) domain: Domain,
    pub(crate) guard: Kind,
    ghost alone: { locks_of domain.plan ≡ 1 },
    ghost kind: { kind_at domain.plan 0 ≡ guard },
}

impl Region {
    /// Puts the ledger of a domain under its lock. The domain must have exactly one lock, and
    /// `guard` must be its kind.
    pub fn new(domain: Domain, guard: Kind) -> Region
        requires alone { locks_of domain.plan ≡ 1 }
        requires kind { kind_at domain.plan 0 ≡ guard }
        ensures { result.domain ≡ domain }
    {
        Region { domain, guard }
    }

    /// Returns the domain.
    pub fn into_domain(self) -> Domain
        ensures { result ≡ self.domain }
    {
        let Region { domain, guard: _ } = self;
        domain
    }

    // Acquires the lock for a read, and so begins a look at the ledger. A spinlock has one holder;
    // a reader-writer lock is shared with other readers.
    pub(crate) fn hold_to_read<I: Irq, R: Wait>(&self, cpu: &mut Cpu, rt: &R, irq: &mut I)
        requires domain { IsOf cpu.old self.now.domain }
        requires idle { IsIdle cpu.old }
        ensures same { IsSame cpu.old cpu.new }
        ensures begun { HasBegun (guard_in self.now.domain.plan)
            (reads_by (kind_at self.now.domain.plan 0)) (reads_as (kind_at self.now.domain.plan 0))
            cpu.old cpu.new (I.polls irq.old) (I.polls irq.new) }
    {
        match self.guard {
            Kind::Spin => lock(cpu, rt, &self.domain, FIRST, irq),
            Kind::Rw => read_lock(cpu, rt, &self.domain, FIRST, irq),
        }
    }

    // Acquires the lock for a write, as its only holder, and so begins a look at the ledger.
    pub(crate) fn hold_to_write<I: Irq, R: Wait>(&self, cpu: &mut Cpu, rt: &R, irq: &mut I)
        requires domain { IsOf cpu.old self.now.domain }
        requires idle { IsIdle cpu.old }
        ensures same { IsSame cpu.old cpu.new }
        ensures begun { HasBegun (guard_in self.now.domain.plan)
            (writes_by (kind_at self.now.domain.plan 0)) (writes_as (kind_at self.now.domain.plan 0))
            cpu.old cpu.new (I.polls irq.old) (I.polls irq.new) }
    {
        match self.guard {
            Kind::Spin => lock(cpu, rt, &self.domain, FIRST, irq),
            Kind::Rw => write_lock(cpu, rt, &self.domain, FIRST, irq),
        }
    }

    // Releases the lock after a read, and so ends the look.
    pub(crate) fn end_read(&self, cpu: &mut Cpu)
        requires domain { IsOf cpu.old self.now.domain }
        requires holding { IsHolding (reads_as (kind_at self.now.domain.plan 0)) cpu.old }
        requires home { (ledger_of cpu.old).out ≡ None }
        ensures same { IsSame cpu.old cpu.new }
        ensures idle { IsIdle cpu.new }
        ensures ledger { ledger_of cpu.new ≡ closed (ledger_of cpu.old) }
    {
        match self.guard {
            Kind::Spin => unlock(cpu, &self.domain, FIRST),
            Kind::Rw => read_unlock(cpu, &self.domain, FIRST),
        }
    }

    // Releases the lock after a write, and so ends the look.
    pub(crate) fn end_write(&self, cpu: &mut Cpu)
        requires domain { IsOf cpu.old self.now.domain }
        requires holding { IsHolding (writes_as (kind_at self.now.domain.plan 0)) cpu.old }
        requires home { (ledger_of cpu.old).out ≡ None }
        ensures same { IsSame cpu.old cpu.new }
        ensures idle { IsIdle cpu.new }
        ensures ledger { ledger_of cpu.new ≡ closed (ledger_of cpu.old) }
    {
        match self.guard {
            Kind::Spin => unlock(cpu, &self.domain, FIRST),
            Kind::Rw => write_unlock(cpu, &self.domain, FIRST),
        }
    }
}

impl Guarded for Region {
    ghost crew = { λ region. crew_of region.domain };

    #[tactic(auto, using(crate::proofs::Begins::stays))]
    fn write<R: Wait>(&self, cpu: &mut Cpu, rt: &R, number: u32, job: Job) -> Reply {
        self.write(cpu, rt, &mut NoIrq, number, job)
    }

    #[tactic(auto, using(crate::proofs::Begins::stays))]
    fn read<R: Wait>(&self, cpu: &mut Cpu, rt: &R, job: Job) -> (u64, Reply) {
        self.read(cpu, rt, &mut NoIrq, job)
    }
}
