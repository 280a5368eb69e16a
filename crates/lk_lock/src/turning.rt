// A turn at a lock whose waiters do not halt: the lock is taken, its value is worked on once, and the lock is
// freed. A turn that finds its lock free makes two operations, and notes nothing.
ghost use Rattle.std.specs.Prelude.{◌≡◌, Some, false};
ghost use Rattle.std.specs.Fn.{FnOnceReturnsAtMut};
ghost use Rattle.lk_cell.specs.Latched.{IsKey};
ghost use Rattle.lk_cell.specs.Work.{HasWorked, KeepsFit};
ghost use Rattle.lk_law.specs.Agree.{halts};
ghost use Rattle.lk_domain.specs.Calls.{holds_in};
ghost use Rattle.lk_domain.specs.Turns.{home_in, verb_in};
ghost use Rattle.lk_domain.specs.Values.{HasCell, IsKeyOf, cell_of};
ghost use Rattle.lk_domain.specs.declared.cpu.Cpu.{Cpu};
ghost use Rattle.lk_lock.specs.Standing.{ComesIn, GoesOut, IsHolding, IsOfKind, IsReady, TurnsLock, WaitsSince, holds_of};
ghost use Rattle.lk_rows.specs.Programs.{kind_of};

use crate::holding::free_now;
use crate::reading::go_out;
use crate::writing::leave;
use lk_cell::{Any, Key, KeyCell};
use lk_domain::{Cpu, Domain, LockId, Waiting, turn, work_held};
use lk_names::Manner;
use lk_run::{Busy, NoIrq, lock_slowpath, read_slowpath, write_slowpath};
use std::sync::Wait;

// A lock, and the manner in which a turn holds it.
#[derive(Clone, Copy)]
pub(crate) struct Aim {
    pub(crate) lock: LockId,
    pub(crate) manner: Manner,
}

// And the cell of the value on which the turn works.
pub(crate) struct Place<'a, T> {
    pub(crate) aim: Aim,
    pub(crate) cell: &'a KeyCell<T, Any>,
}

// Takes the lock for which the processor waits, since the first row of its call met this word.
fn take_late<R: Wait>(cpu: &mut Cpu, rt: &R, domain: &Domain, aim: Aim, met: u64)
    requires awake { halts domain.now.plan.mode ≡ false }
    requires lock { IsOfKind domain.now.plan (kind_of (verb_in aim.manner)) aim.lock.index }
    requires waits { (old : Cpu)
        × WaitsSince domain.now aim.manner aim.lock.index met old cpu.old }
    ensures { (old : Cpu) → WaitsSince domain.now aim.manner aim.lock.index met old cpu.old
        → ComesIn domain.now aim.manner aim.lock.index old cpu.new }
{
    let Aim { lock, manner } = aim;
    match manner {
        Manner::Spins => lock_slowpath(cpu, rt, domain, Busy { lock, met }, &mut NoIrq),
        Manner::Reads => read_slowpath(cpu, rt, domain, lock, &mut NoIrq),
        Manner::Writes => write_slowpath(cpu, rt, domain, lock, &mut NoIrq),
    }
}

// Frees the lock, which was taken last.
fn free_held(cpu: &mut Cpu, domain: &Domain, aim: Aim)
    requires ready { IsReady domain.now cpu.old }
    requires awake { halts domain.now.plan.mode ≡ false }
    requires lock { IsOfKind domain.now.plan (kind_of (verb_in aim.manner)) aim.lock.index }
    requires holding { (before : Cpu) × IsHolding aim.lock.index aim.manner before cpu.old }
    ensures { GoesOut domain.now aim.manner aim.lock.index cpu.old cpu.new }
{
    match aim.manner {
        Manner::Spins => free_now(cpu, domain, aim.lock),
        Manner::Reads => go_out(cpu, domain, aim.lock),
        Manner::Writes => leave(cpu, domain, aim.lock),
    }
}

// Does the work of a turn that did not find its lock free: the processor waits for the lock, works once
// under it, and frees it. It stays out of the turns that find their lock free. It takes the processor, the
// runtime and the domain each on its own, since a turn would store a seat on the stack to pass it.
#[cold]
#[inline(never)]
fn work_late<R: Wait, U, W: FnOnce(&mut Key) -> U>(
    cpu: &mut Cpu,
    rt: &R,
    domain: &Domain,
    aim: Aim,
    turn: Waiting<W>,
) -> U
    requires awake { halts domain.now.plan.mode ≡ false }
    requires lock { IsOfKind domain.now.plan (kind_of (verb_in aim.manner)) aim.lock.index }
    requires valued { HasCell domain.now.plan
        (home_in aim.manner domain.now.plan aim.lock.index cpu.old.number) }
    requires waits { (old : Cpu)
        × WaitsSince domain.now aim.manner aim.lock.index turn.met old cpu.old }
    requires work { KeepsFit W.FnOnce (IsKeyOf domain.now.plan
        (home_in aim.manner domain.now.plan aim.lock.index cpu.old.number)) turn.work }
    ensures turned { (old : Cpu)
        → WaitsSince domain.now aim.manner aim.lock.index turn.met old cpu.old
        → TurnsLock domain.now aim.manner aim.lock.index old cpu.new }
    ensures done { HasWorked W.FnOnce (IsKeyOf domain.now.plan
        (home_in aim.manner domain.now.plan aim.lock.index cpu.old.number)) turn.work result }
{
    let Waiting { met, work } = turn;
    take_late(cpu, rt, domain, aim, met);
    let done = work_held(cpu, domain, aim.lock, aim.manner, work);
    free_held(cpu, domain, aim);
    done
}

// Makes a turn at a lock that the processor does not hold.
#[inline(always)]
pub(crate) fn turn_at<R: Wait, T, U, W: FnOnce(&mut T) -> U>(
    cpu: &mut Cpu,
    rt: &R,
    domain: &Domain,
    place: Place<T>,
    work: W,
) -> U
    requires ready { IsReady domain.now cpu.old }
    requires awake { halts domain.now.plan.mode ≡ false }
    requires lock { IsOfKind domain.now.plan (kind_of (verb_in place.aim.manner))
        place.aim.lock.index }
    requires cell { cell_of domain.now.plan
        (home_in place.aim.manner domain.now.plan place.aim.lock.index cpu.old.number)
        ≡ Some place.cell.now.table.shared.table_id }
    requires free { holds_in (holds_of cpu.old) place.aim.lock.index ≡ false }
    requires callable { W.IsAlwaysCallable work }
    ensures turned { TurnsLock domain.now place.entry.aim.manner place.entry.aim.lock.index
        cpu.old cpu.new }
    ensures done { (x : T) × (y : T) × FnOnceReturnsAtMut W.FnOnce work x result y }
{
    let Place { aim, cell } = place;
    let turned = turn(
        cpu,
        domain,
        aim.lock,
        aim.manner,
        |key: &mut Key| -> U
            requires key { IsKey cell.now.table.shared.table_id key.old }
            requires callable { W.IsAlwaysCallable work }
            ensures key { IsKey cell.entry.now.table.shared.table_id key.new }
            ensures done { (x : T) × (y : T) × FnOnceReturnsAtMut W.FnOnce work x result y }
        { cell.with(key, work) },
    );
    match turned {
        Ok(done) => done,
        Err(waiting) => work_late(cpu, rt, domain, aim, waiting),
    }
}
