// A processor of a domain, as a thread uses it.
ghost use Rattle.std.specs.Prelude.{◌≡◌, IfSome, MatchOption, false};
ghost use Rattle.std.specs.Fn.{FnOnceReturnsAtMut};
ghost use Rattle.lk_names.specs.declared.holder.Manner.TheVariants.{Spins};
ghost use Rattle.lk_names.specs.declared.names.Kind.TheVariants.{Spin as spinning, Rw as shared};
ghost use Rattle.lk_domain.specs.Calls.{holds_in, terms_of};
ghost use Rattle.lk_domain.specs.Paths.{HasMissed};
ghost use Rattle.lk_domain.specs.Seats.{calls_of};
ghost use Rattle.lk_law.specs.Agree.{halts};
ghost use Rattle.lk_lock.specs.Standing.{HasWritten, HasWrittenOnce, IsAsBefore, IsReady, IsUnder, holds_of};
ghost use Rattle.lk_lock.specs.Turns.{HasPassed, HasTurned};
ghost use Rattle.lk_rows.specs.declared.setup.Verb.TheVariants.{Lock, Try, TryWrite, Write};

use crate::holding::{free, free_halting, free_now, take_halting, try_take};
use crate::locks::{Rw, Spin};
use crate::turning::{Aim, Place, turn_at};
use crate::working::work_under;
use crate::writing::{leave, try_enter};
use lk_domain::{Cpu, Domain, LockId};
use lk_names::Manner;
use std::sync::Wait;

/// The right of a thread to take the locks of a domain.
#[derive(Drop)]
pub struct Seat<'a, R> {
    pub(crate) cpu: &'a mut Cpu,
    pub(crate) domain: &'a Domain,
    pub(crate) rt: &'a R,
    ghost ready: { IsReady domain.now cpu.now },
}

impl<'a, R> Seat<'a, R> {
    /// The seat of a processor, which is in no call.
    pub fn new(rt: &'a R, domain: &'a Domain, cpu: &'a mut Cpu) -> Seat<'a, R>
        requires ready { IsReady domain.now cpu.old }
        ensures name { result.cpu.ghost_name ≡ cpu.entry.ghost_name }
        ensures cpu { result.cpu.now ≡ cpu.old }
        ensures domain { result.domain.now ≡ domain.now }
    {
        Seat { cpu, domain, rt }
    }

    // Whether its processor holds the lock of this number.
    pub(crate) fn holds_lock(&self, id: LockId) -> bool
        requires awake { halts self.now.domain.now.plan.mode ≡ false }
        ensures { result ≡ holds_in (holds_of self.now.cpu.now) id.index }
    {
        self.cpu.holds(id)
    }

    /// Whether its processor holds the lock. Then it may not take it. A processor whose family halts keeps
    /// no note of what it holds, so the domain has to be of another mode: [`Domain::halts`] tells it.
    pub fn holds<T>(&self, spin: &Spin<T>) -> bool
        requires awake { halts self.now.domain.now.plan.mode ≡ false }
        ensures { result ≡ holds_in (holds_of self.now.cpu.now) spin.now.id.index }
    {
        self.holds_lock(spin.id)
    }

    /// Whether its processor holds the reader-writer lock.
    pub fn holds_rw<T>(&self, rw: &Rw<T>) -> bool
        requires awake { halts self.now.domain.now.plan.mode ≡ false }
        ensures { result ≡ holds_in (holds_of self.now.cpu.now) rw.now.id.index }
    {
        self.holds_lock(rw.id)
    }

    /// Takes the lock if nobody has it or waits for it, works on its value, and frees the lock. It
    /// has no leave to wait, so the lock may not be a paravirtual one, whose release may wait:
    /// [`Seat::try_turn`] serves that. `None` says that the lock was not free, or that somebody was faster,
    /// and that the lock was not taken. No clause says that `work` was not called then: a test shows it.
    pub fn try_with<T, U, W: FnOnce(&mut T) -> U>(&mut self, spin: &Spin<T>, work: W) -> Option<U>
        requires awake { halts self.old.domain.now.plan.mode ≡ false }
        requires lock { IsUnder self.old.domain.now.plan spinning spin.now.id.index
            spin.now.cell.table.shared.table_id }
        requires free { holds_in (holds_of self.old.cpu.now) spin.now.id.index ≡ false }
        requires callable { W.IsAlwaysCallable work }
        ensures name { self.new.cpu.ghost_name ≡ self.old.cpu.ghost_name }
        ensures domain { self.new.domain.now ≡ self.old.domain.now }
        ensures before { IsAsBefore self.old.cpu.now self.new.cpu.now }
        ensures path { MatchOption result
            (HasPassed (terms_of self.old.domain.now.plan) self.old.cpu.now.number
            spin.now.id.index (calls_of self.old.cpu.now) (calls_of self.new.cpu.now))
            (λ _. HasTurned (terms_of self.old.domain.now.plan) self.old.cpu.now.number Try
            spin.now.id.index (calls_of self.old.cpu.now) (calls_of self.new.cpu.now)) }
        ensures done { IfSome result (λ done. (x : T) × (y : T)
            × FnOnceReturnsAtMut W.FnOnce work x done y) }
    {
        if !try_take(self.cpu, self.domain, spin.id) {
            return None;
        }
        let done = work_under(self.cpu, self.domain, spin.id, &spin.cell, work);
        free_now(self.cpu, self.domain, spin.id);
        Some(done)
    }

    /// The same as `try_with` under a reader-writer lock, as its writer.
    pub fn try_write<T, U, W: FnOnce(&mut T) -> U>(&mut self, rw: &Rw<T>, work: W) -> Option<U>
        requires lock { IsUnder self.old.domain.now.plan shared rw.now.id.index
            rw.now.cell.table.shared.table_id }
        requires free { holds_in (holds_of self.old.cpu.now) rw.now.id.index ≡ false }
        requires callable { W.IsAlwaysCallable work }
        ensures name { self.new.cpu.ghost_name ≡ self.old.cpu.ghost_name }
        ensures domain { self.new.domain.now ≡ self.old.domain.now }
        ensures before { IsAsBefore self.old.cpu.now self.new.cpu.now }
        ensures path { MatchOption result
            (HasMissed (terms_of self.old.domain.now.plan) self.old.cpu.now.number TryWrite
            rw.now.id.index (calls_of self.old.cpu.now) (calls_of self.new.cpu.now))
            (λ _. HasWrittenOnce (terms_of self.old.domain.now.plan) self.old.cpu.now.number
            rw.now.id.index (calls_of self.old.cpu.now) (calls_of self.new.cpu.now)) }
        ensures done { IfSome result (λ done. (x : T) × (y : T)
            × FnOnceReturnsAtMut W.FnOnce work x done y) }
    {
        if !try_enter(self.cpu, self.domain, rw.id) {
            return None;
        }
        let done = work_under(self.cpu, self.domain, rw.id, &rw.cell, work);
        leave(self.cpu, self.domain, rw.id);
        Some(done)
    }
}

impl<'a, R: Wait> Seat<'a, R> {
    /// Takes the lock, works on its value, and frees the lock. It waits for the lock, so the processor
    /// may not hold it.
    ///
    /// When it returns, `work` was called once, on the value, in one critical section: the lock was
    /// taken once, by a path of the rows, and is free, and no other lock was taken meanwhile. The
    /// processor holds what it held.
    pub fn with<T, U, W: FnOnce(&mut T) -> U>(&mut self, spin: &Spin<T>, work: W) -> U
        requires lock { IsUnder self.old.domain.now.plan spinning spin.now.id.index
            spin.now.cell.table.shared.table_id }
        requires free { holds_in (holds_of self.old.cpu.now) spin.now.id.index ≡ false }
        requires callable { W.IsAlwaysCallable work }
        ensures name { self.new.cpu.ghost_name ≡ self.old.cpu.ghost_name }
        ensures domain { self.new.domain.now ≡ self.old.domain.now }
        ensures before { IsAsBefore self.old.cpu.now self.new.cpu.now }
        ensures path { HasTurned (terms_of self.old.domain.now.plan) self.old.cpu.now.number Lock
            spin.now.id.index (calls_of self.old.cpu.now) (calls_of self.new.cpu.now) }
        ensures done { (x : T) × (y : T) × FnOnceReturnsAtMut W.FnOnce work x result y }
    {
        let (id, cell) = (spin.id, &spin.cell);
        if self.domain.halts() {
            take_halting(self.cpu, self.rt, self.domain, id);
            let done = work_under(self.cpu, self.domain, id, cell, work);
            free_halting(self.cpu, self.rt, self.domain, id);
            return done;
        }
        let aim = Aim {
            lock: id,
            manner: Manner::Spins,
        };
        turn_at(self.cpu, self.rt, self.domain, Place { aim, cell }, work)
    }

    /// The same as `try_with` in each family. It does not wait for the lock; to free a paravirtual one it
    /// may wait.
    pub fn try_turn<T, U, W: FnOnce(&mut T) -> U>(&mut self, spin: &Spin<T>, work: W) -> Option<U>
        requires lock { IsUnder self.old.domain.now.plan spinning spin.now.id.index
            spin.now.cell.table.shared.table_id }
        requires free { holds_in (holds_of self.old.cpu.now) spin.now.id.index ≡ false }
        requires callable { W.IsAlwaysCallable work }
        ensures name { self.new.cpu.ghost_name ≡ self.old.cpu.ghost_name }
        ensures domain { self.new.domain.now ≡ self.old.domain.now }
        ensures before { IsAsBefore self.old.cpu.now self.new.cpu.now }
        ensures path { MatchOption result
            (HasPassed (terms_of self.old.domain.now.plan) self.old.cpu.now.number
            spin.now.id.index (calls_of self.old.cpu.now) (calls_of self.new.cpu.now))
            (λ _. HasTurned (terms_of self.old.domain.now.plan) self.old.cpu.now.number Try
            spin.now.id.index (calls_of self.old.cpu.now) (calls_of self.new.cpu.now)) }
        ensures done { IfSome result (λ done. (x : T) × (y : T)
            × FnOnceReturnsAtMut W.FnOnce work x done y) }
    {
        if !try_take(self.cpu, self.domain, spin.id) {
            return None;
        }
        let done = work_under(self.cpu, self.domain, spin.id, &spin.cell, work);
        free(self.cpu, self.rt, self.domain, spin.id);
        Some(done)
    }

    /// The same as `with` under a reader-writer lock, as its writer. A call that has to queue takes
    /// the wait lock of that lock too, once.
    pub fn write<T, U, W: FnOnce(&mut T) -> U>(&mut self, rw: &Rw<T>, work: W) -> U
        requires lock { IsUnder self.old.domain.now.plan shared rw.now.id.index
            rw.now.cell.table.shared.table_id }
        requires free { holds_in (holds_of self.old.cpu.now) rw.now.id.index ≡ false }
        requires callable { W.IsAlwaysCallable work }
        ensures name { self.new.cpu.ghost_name ≡ self.old.cpu.ghost_name }
        ensures domain { self.new.domain.now ≡ self.old.domain.now }
        ensures before { IsAsBefore self.old.cpu.now self.new.cpu.now }
        ensures path { HasWritten (terms_of self.old.domain.now.plan) self.old.cpu.now.number Write
            rw.now.id.index (calls_of self.old.cpu.now) (calls_of self.new.cpu.now) }
        ensures done { (x : T) × (y : T) × FnOnceReturnsAtMut W.FnOnce work x result y }
    {
        let aim = Aim {
            lock: rw.id,
            manner: Manner::Writes,
        };
        let cell = &rw.cell;
        turn_at(self.cpu, self.rt, self.domain, Place { aim, cell }, work)
    }
}
