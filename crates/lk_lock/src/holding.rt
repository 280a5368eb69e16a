// The calls on a spinlock, by a processor that is in no call. This is where the lock families part.
ghost use Rattle.std.specs.Prelude.{◌≡◌, true, false};
ghost use Rattle.lk_names.specs.declared.holder.Manner.TheVariants.{Spins};
ghost use Rattle.lk_names.specs.declared.names.Kind.TheVariants.{Spin};
ghost use Rattle.lk_domain.specs.Calls.{holds_in};
ghost use Rattle.lk_domain.specs.declared.cpu.Cpu.{Cpu};
ghost use Rattle.lk_law.specs.Agree.{halts};
ghost use Rattle.lk_lock.specs.Standing.{FreesLock, IsHolding, IsOfKind, IsReady, MissesLock, TakesLock, holds_of};
ghost use Rattle.lk_rows.specs.declared.setup.Verb.TheVariants.{Lock, Try};

use lk_domain::{Cpu, Domain, LockId};
use lk_pvdomain::halting;
use lk_run::{NoIrq, lock, try_lock, unlock};
use lk_word::HELD;
use std::sync::Wait;

// Takes the lock, whose waiters halt. Which processor it is only who contends has to know.
#[inline(always)]
pub(crate) fn take_halting<R: Wait>(cpu: &mut Cpu, rt: &R, domain: &Domain, id: LockId)
    requires ready { IsReady domain.now cpu.old }
    requires on { halts domain.now.plan.mode ≡ true }
    requires lock { IsOfKind domain.now.plan Spin id.index }
    requires free { holds_in (holds_of cpu.old) id.index ≡ false }
    ensures { TakesLock domain.now Lock id.index cpu.old cpu.new }
{
    if !halting::take(&mut cpu.seat, domain, id.index) {
        let number = cpu.number();
        halting::contend(&mut cpu.seat, rt, domain, id.index, number);
    }
}

// Takes the lock.
#[inline(always)]
pub(crate) fn take<R: Wait>(cpu: &mut Cpu, rt: &R, domain: &Domain, id: LockId)
    requires ready { IsReady domain.now cpu.old }
    requires lock { IsOfKind domain.now.plan Spin id.index }
    requires free { holds_in (holds_of cpu.old) id.index ≡ false }
    ensures { TakesLock domain.now Lock id.index cpu.old cpu.new }
{
    if domain.halts() {
        take_halting(cpu, rt, domain, id);
    } else {
        lock(cpu, rt, domain, id, &mut NoIrq);
    }
}

// Takes the lock if it is free.
pub(crate) fn try_take(cpu: &mut Cpu, domain: &Domain, id: LockId) -> bool
    requires ready { IsReady domain.now cpu.old }
    requires lock { IsOfKind domain.now.plan Spin id.index }
    requires free { holds_in (holds_of cpu.old) id.index ≡ false }
    ensures taken { result ≡ true → TakesLock domain.now Try id.index cpu.old cpu.new }
    ensures missed { result ≡ false → MissesLock domain.now id.index cpu.old cpu.new }
{
    if domain.halts() {
        let number = cpu.number();
        halting::try_lock(&mut cpu.seat, domain, id.index, number)
    } else {
        try_lock(cpu, domain, id)
    }
}

// Frees the lock, which was taken last, and whose waiters halt.
#[inline(always)]
pub(crate) fn free_halting<R: Wait>(cpu: &mut Cpu, rt: &R, domain: &Domain, id: LockId)
    requires ready { IsReady domain.now cpu.old }
    requires on { halts domain.now.plan.mode ≡ true }
    requires lock { IsOfKind domain.now.plan Spin id.index }
    requires holding { (before : Cpu) × IsHolding id.index Spins before cpu.old }
    ensures { FreesLock domain.now id.index cpu.old cpu.new }
{
    let met = halting::free(&mut cpu.seat, domain, id.index);
    if met != HELD {
        halting::release(&mut cpu.seat, rt, domain, id.index, met);
    }
}

// Frees the lock, which was taken last.
#[inline(always)]
pub(crate) fn free<R: Wait>(cpu: &mut Cpu, rt: &R, domain: &Domain, id: LockId)
    requires ready { IsReady domain.now cpu.old }
    requires lock { IsOfKind domain.now.plan Spin id.index }
    requires holding { (before : Cpu) × IsHolding id.index Spins before cpu.old }
    ensures { FreesLock domain.now id.index cpu.old cpu.new }
{
    if domain.halts() {
        free_halting(cpu, rt, domain, id);
    } else {
        free_now(cpu, domain, id);
    }
}

// The same where no waiter halts: then it need not wait.
#[inline(always)]
pub(crate) fn free_now(cpu: &mut Cpu, domain: &Domain, id: LockId)
    requires ready { IsReady domain.now cpu.old }
    requires awake { halts domain.now.plan.mode ≡ false }
    requires lock { IsOfKind domain.now.plan Spin id.index }
    requires holding { (before : Cpu) × IsHolding id.index Spins before cpu.old }
    ensures { FreesLock domain.now id.index cpu.old cpu.new }
{
    unlock(cpu, domain, id);
}
