//! A turn at a free lock, by a processor in no call. A processor notes what it holds for those who ask
//! it. While the work of a turn runs nobody can ask, since the work has not the processor. So a turn
//! notes nothing, and between its two operations it stores nothing but what the work stores.
ghost use Rattle.std.specs.Prelude.{◌≡◌, ◌<◌, [], IfErr, IfOk, None, Some, true, false};
ghost use Rattle.lk_cell.specs.Work.{HasWorked, KeepsFit};
ghost use Rattle.lk_domain.specs.Calls.{hold_in, holds_in, lock_name};
ghost use Rattle.lk_domain.specs.Ledgers.{is_first};
ghost use Rattle.lk_domain.specs.Plans.{IsRunningPlan, cpus_of, kind_at, locks_of};
ghost use Rattle.lk_domain.specs.Seats.{IsIn, IsOf, IsStill, KeepsRest, calls_of, ledger_of};
ghost use Rattle.lk_domain.specs.Turns as how;
ghost use Rattle.lk_domain.specs.Turns.{FreesIn, MadeIn, MayFreeIn, MayTakeIn, TakesIn, Turns, home_in, verb_in};
ghost use Rattle.lk_domain.specs.Values.{HasCell, IsKeyOf, out_in};
ghost use Rattle.lk_domain.specs.Views.{IsNumbered};
ghost use Rattle.lk_rows.specs.Programs.{kind_of};

use crate::cpu::{Cpu, Right};
use crate::domain::{Domain, LockId};
use crate::locks::moves;
use crate::locks::rw_moves::{RwUse, act_by};
use crate::plan::Plan;
use crate::values::{copy_home, work_at};
use lk_cell::Key;
use lk_names::Manner;
use lk_rows::Verb;
use lk_word::lets_readers_in;

/// A turn that has to wait, since its first row did not find the lock free.
pub struct Waiting<W> {
    /// The word that the row met.
    pub met: u64,
    /// What is to be done under the lock.
    pub work: W,
}

// The first row of the call that takes the lock: F1 of a spinlock, R1 of a reader, Wr1 of a writer.
#[inline(always)]
fn take(seat: &mut Right, domain: &Domain, lock: u32, manner: Manner) -> u64
    requires table { seat.old.table_id ≡ domain.now.table.shared.table_id }
    requires lock { lock < locks_of domain.now.plan }
    requires number { IsNumbered seat.old.me.0 }
    requires row { MayTakeIn manner seat.old.me.0 lock }
    ensures same { (seat.new.table_id ≡ seat.old.table_id) × (seat.new.id ≡ seat.old.id) }
    ensures step { TakesIn manner lock seat.old.me result seat.new.me }
{
    match manner {
        Manner::Spins => moves::take_free(seat, &domain.table, &domain.plan, lock),
        Manner::Reads => act_by(seat, domain, Verb::Read, lock, RwUse::Joins),
        Manner::Writes => act_by(seat, domain, Verb::Write, lock, RwUse::Seizes),
    }
}

// Whether it has the lock, which met this word by that row.
#[inline(always)]
fn is_let(manner: Manner, met: u64) -> bool
    ensures { result ≡ how.is_let manner met }
{
    match manner {
        Manner::Spins => met == 0,
        Manner::Reads => lets_readers_in(met),
        Manner::Writes => met == 0,
    }
}

// The home of the value on which the processor of this number works.
#[inline(always)]
fn home_of(plan: &Plan, lock: u32, number: u32, manner: Manner) -> usize
    requires lawful { IsRunningPlan plan.now }
    requires lock { lock < locks_of plan.now }
    requires number { number < cpus_of plan.now }
    ensures { result ≡ home_in manner plan.now lock number }
{
    match manner {
        Manner::Spins => lock as usize,
        Manner::Reads => copy_home(plan, lock, number),
        Manner::Writes => lock as usize,
    }
}

// The one row of the call that frees the lock: U1 of a spinlock, Z1 of a reader, Z2 of a writer.
#[inline(always)]
fn free(seat: &mut Right, domain: &Domain, lock: u32, manner: Manner) -> u64
    requires table { seat.old.table_id ≡ domain.now.table.shared.table_id }
    requires lock { lock < locks_of domain.now.plan }
    requires number { IsNumbered seat.old.me.0 }
    requires row { MayFreeIn manner seat.old.me.0 lock }
    requires home { is_first (lock_name lock) ≡ true → seat.old.me.0.ledger.out ≡ None }
    requires value { out_in seat.old.me.0.calls.holds lock ≡ false }
    ensures same { (seat.new.table_id ≡ seat.old.table_id) × (seat.new.id ≡ seat.old.id) }
    ensures step { FreesIn manner lock seat.old.me result seat.new.me }
{
    match manner {
        Manner::Spins => moves::release(seat, domain, lock),
        Manner::Reads => act_by(seat, domain, Verb::RUnlock, lock, RwUse::Quits),
        Manner::Writes => act_by(seat, domain, Verb::WUnlock, lock, RwUse::Leaves),
    }
}

/// Takes a free lock in this manner by the first row of the call, works once on its value, which is the
/// key of its cell, and frees the lock by one row. These are F1 and U1 of a spinlock, Wr1 and Z2 of a
/// writer, and R1 and Z1 of a reader, who works on the copy for its own processor. The processor must be in
/// no call, and must not hold this lock.
///
/// # Errors
///
/// The lock was not free: the call that takes it has begun, and waits. Whoever makes its next rows holds
/// the lock once it has ended, and does the work then.
#[inline(always)]
pub fn turn<U, W: FnOnce(&mut Key) -> U>(
    cpu: &mut Cpu,
    domain: &Domain,
    lock: LockId,
    manner: Manner,
    work: W,
) -> Result<U, Waiting<W>>
    requires domain { IsOf cpu.old domain.now }
    requires lock { lock.index < locks_of domain.now.plan }
    requires kind { kind_at domain.now.plan lock.index ≡ kind_of (verb_in manner) }
    requires rests { (calls_of cpu.old).frames ≡ [] }
    requires free { holds_in (calls_of cpu.old).holds lock.index ≡ false }
    requires valued { HasCell domain.now.plan
        (home_in manner domain.now.plan lock.index cpu.old.number) }
    requires home { (ledger_of cpu.old).out ≡ None }
    requires work { KeepsFit W.FnOnce (IsKeyOf domain.now.plan
        (home_in manner domain.now.plan lock.index cpu.old.number)) work }
    ensures rest { KeepsRest cpu.old cpu.new }
    ensures turned { IfOk result (λ _. Turns domain.now manner lock.index cpu.old cpu.new) }
    ensures done { IfOk result (λ done. HasWorked W.FnOnce (IsKeyOf domain.now.plan
        (home_in manner domain.now.plan lock.index cpu.old.number)) work done) }
    ensures waits { IfErr result (λ left. (how.is_let manner left.met ≡ false)
        × (left.work ≡ work) × MadeIn manner lock.index cpu.old left.met cpu.new) }
{
    let home = home_of(&domain.plan, lock.index, cpu.number, manner);
    let met = take(&mut cpu.seat, domain, lock.index, manner);
    if !is_let(manner, met) {
        cpu.notes.first_step(lock.index, false);
        return Err(Waiting { met, work });
    }
    let done = work_at(&mut cpu.seat, &domain.table, &domain.plan, home, work);
    free(&mut cpu.seat, domain, lock.index, manner);
    Ok(done)
}

/// Works once on the value on which a holder in this manner works: the lock's own, or for a reader the copy
/// for its own processor. No value of the lock may be out. The processor knows afterwards what it knew before.
#[inline]
pub fn work_held<U, W: FnOnce(&mut Key) -> U>(
    cpu: &mut Cpu,
    domain: &Domain,
    lock: LockId,
    manner: Manner,
    work: W,
) -> U
    requires domain { IsIn cpu.old domain.now }
    requires lock { lock.index < locks_of domain.now.plan }
    requires valued { HasCell domain.now.plan
        (home_in manner domain.now.plan lock.index cpu.old.number) }
    requires held { hold_in (calls_of cpu.old).holds lock.index ≡ Some (manner, false) }
    requires home { (ledger_of cpu.old).out ≡ None }
    requires work { KeepsFit W.FnOnce (IsKeyOf domain.now.plan
        (home_in manner domain.now.plan lock.index cpu.old.number)) work }
    ensures still { IsStill cpu.old cpu.new }
    ensures done { HasWorked W.FnOnce (IsKeyOf domain.now.plan
        (home_in manner domain.now.plan lock.index cpu.old.number)) work result }
{
    let home = home_of(&domain.plan, lock.index, cpu.number, manner);
    work_at(&mut cpu.seat, &domain.table, &domain.plan, home, work)
}
