// A race for a lock with nothing under it.
ghost use Rattle.std.specs.Prelude.{◌≡◌, ◌≤◌, false};
ghost use Rattle.lk_names.specs.declared.names.Kind.TheVariants.{Rw, Spin};
ghost use Rattle.lk_law.specs.Agree.{halts};
ghost use Rattle.lk_domain.specs.Plans.{kind_at, locks_of};
ghost use Rattle.lk_lock.specs.Standing.{Rests};

use crate::course::{Course, is_write};
use crate::plan::LOCK;
use crate::track::Track;
use lk_domain::{Cpu, Domain};
use lk_names::{Kind, Mode};
use lk_pvdomain::{PvDomain, pv_lock, pv_unlock};
use lk_run::{NoIrq, lock, read_lock, read_unlock, unlock, write_lock, write_unlock};
use std::sync::Wait;

/// A race for a lock with nothing under it: a turn takes the lock and frees it.
#[derive(Clone, Copy)]
pub struct BareRace {
    /// The lock family.
    pub mode: Mode,
    /// The kind of the lock: in mode `pv` a spinlock.
    pub kind: Kind,
    /// In mode `pv`, how many turns a waiter spins before it halts, at least 1.
    pub spins: u16,
    /// What its threads do.
    pub course: Course,
    ghost some: { 1 ≤ spins },
    ghost awake: { kind ≡ Rw → halts mode ≡ false },
}

/// What the threads share: a domain with one spinlock.
#[derive(Drop)]
pub struct BareTrack<'a> {
    pub domain: &'a Domain,
    ghost awake: { halts domain.now.plan.mode ≡ false },
    ghost one: { locks_of domain.now.plan ≡ 1 },
    ghost kind: { kind_at domain.now.plan 0 ≡ Spin },
}

impl Track for BareTrack<'_> {
    type Cpu = Cpu;

    ghost rests = { λ track. Rests track.domain.now };

    ghost number = { λ cpu. cpu.number };

    fn take_turns<R: Wait>(&self, rt: &R, cpu: &mut Cpu, turns: u32) {
        let domain = self.domain;
        for _ in 0..turns {
            lock(cpu, rt, domain, LOCK, &mut NoIrq);
            unlock(cpu, domain, LOCK);
        }
    }

    ghost own = { λ track i cpu rests. rests.number };
}

/// What the threads share: a domain with one lock, whose waiters halt.
#[derive(Drop)]
pub struct PvBareTrack<'a> {
    pub domain: &'a PvDomain,
    ghost one: { locks_of domain.now.domain.plan ≡ 1 },
}

impl Track for PvBareTrack<'_> {
    type Cpu = Cpu;

    ghost rests = { λ track. Rests track.domain.now.domain };

    ghost number = { λ cpu. cpu.number };

    // The loop is a function of its own, so that the code around it does not change its speed.
    #[inline(never)]
    fn take_turns<R: Wait>(&self, rt: &R, cpu: &mut Cpu, turns: u32) {
        let domain = self.domain;
        for _ in 0..turns {
            pv_lock(cpu, rt, domain, LOCK);
            pv_unlock(cpu, rt, domain, LOCK);
        }
    }

    ghost own = { λ track i cpu rests. rests.number };
}

/// What the threads share: a domain with one reader-writer lock. In 99 of 100 turns a processor
/// takes it as a reader.
#[derive(Drop)]
pub struct BareRwTrack<'a> {
    pub domain: &'a Domain,
    ghost awake: { halts domain.now.plan.mode ≡ false },
    ghost one: { locks_of domain.now.plan ≡ 1 },
    ghost kind: { kind_at domain.now.plan 0 ≡ Rw },
}

// A turn as the writer. It is one in a hundred, and has a function of its own, to keep the code of
// the others short.
#[cold]
#[inline(never)]
fn write_turn<R: Wait>(cpu: &mut Cpu, rt: &R, domain: &Domain)
    requires awake { halts domain.now.plan.mode ≡ false }
    requires one { locks_of domain.now.plan ≡ 1 }
    requires kind { kind_at domain.now.plan 0 ≡ Rw }
    requires rests { Rests domain.now cpu.old.number cpu.old }
    ensures number { cpu.new.number ≡ cpu.old.number }
    ensures rests { Rests domain.now cpu.old.number cpu.new }
{
    write_lock(cpu, rt, domain, LOCK, &mut NoIrq);
    write_unlock(cpu, domain, LOCK);
}

impl Track for BareRwTrack<'_> {
    type Cpu = Cpu;

    ghost rests = { λ track. Rests track.domain.now };

    ghost number = { λ cpu. cpu.number };

    #[inline(never)]
    fn take_turns<R: Wait>(&self, rt: &R, cpu: &mut Cpu, turns: u32) {
        let domain = self.domain;
        for turn in 0..turns {
            if is_write(turn) {
                write_turn(cpu, rt, domain);
            } else {
                read_lock(cpu, rt, domain, LOCK, &mut NoIrq);
                read_unlock(cpu, domain, LOCK);
            }
        }
    }

    ghost own = { λ track i cpu rests. rests.number };
}
