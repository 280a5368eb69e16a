// A spinlock that is held until the end of a scope.
ghost use Rattle.std.specs.Prelude.{◌≡◌, IfSome, false};
ghost use Rattle.std.specs.Borrow.{sem};
ghost use Rattle.std.specs.Fn.{FnOnceReturnsAtMut};
ghost use Rattle.lk_names.specs.declared.holder.Manner.TheVariants.{Spins};
ghost use Rattle.lk_names.specs.declared.names.Kind.TheVariants.{Spin as spinning};
ghost use Rattle.lk_domain.specs.Calls.{holds_in, terms_of};
ghost use Rattle.lk_domain.specs.Seats.{calls_of};
ghost use Rattle.lk_domain.specs.declared.cpu.Cpu.{Cpu};
ghost use Rattle.lk_law.specs.Agree.{halts};
ghost use Rattle.lk_lock.specs.Standing.{HasGoneIn, HasOpened, IsAsBefore, IsInside};
ghost use Rattle.lk_lock.specs.Standing.{IsReady, IsUnder, holds_of, home_calls};
ghost use Rattle.lk_lock.specs.Turns.{HasTurned, HasUnlocked};
ghost use Rattle.lk_rows.specs.declared.setup.Verb.TheVariants.{Lock, Try};

use crate::holding::{free, free_now, take, try_take};
use crate::locks::Spin;
use crate::working::work_under;
use atomic_table::Seat as Place;
use lk_domain::{Cpu, Domain, bring_home, take_out};
use std::sync::Wait;

/// A spinlock that is held, and the way to its value. [`Held::unlock`] brings the value home and frees the
/// lock, in each family. Where no waiter halts a drop does the same, and needs no leave to wait. A release
/// of a paravirtual lock may wait, so there a guard may not be dropped, and the check says so.
pub struct Held<'a, T, R> {
    pub(crate) cpu: &'a mut Cpu,
    pub(crate) domain: &'a Domain,
    pub(crate) rt: &'a R,
    pub(crate) spin: &'a Spin<T>,
    // The cell of the value, which is open.
    pub(crate) place: Place<T, bool>,
}

impl<'a, T, R: Wait> Held<'a, T, R> {
    /// Takes the lock, until what this gives is given back. It waits for the lock, so the processor may
    /// not hold it.
    ///
    /// When it returns, the processor holds the lock, which was taken once, by a path of the rows;
    /// no other lock was taken.
    pub fn lock(
        cpu: &'a mut Cpu,
        rt: &'a R,
        domain: &'a Domain,
        spin: &'a Spin<T>,
    ) -> Held<'a, T, R>
        requires ready { IsReady domain.now cpu.old }
        requires lock { IsUnder domain.now.plan spinning spin.now.id.index
            spin.now.cell.table.shared.table_id }
        requires free { holds_in (holds_of cpu.old) spin.now.id.index ≡ false }
        ensures name { result.cpu.ghost_name ≡ cpu.entry.ghost_name }
        ensures same { (result.domain.now ≡ domain.now) × (result.spin.now ≡ spin.now) }
        ensures ready { IsReady domain.now result.cpu.now }
        ensures inside { IsInside result.spin.now.id.index Spins cpu.old result.cpu.now }
        ensures path { HasGoneIn (terms_of domain.now.plan) cpu.old.number Lock spin.now.id.index
            (calls_of cpu.old) result.cpu.now }
        ensures open { HasOpened result.spin.now.cell.table.shared.table_id result.place }
    {
        take(cpu, rt, domain, spin.id);
        let key = take_out(cpu, domain, spin.id);
        Held {
            place: spin.cell.open(key),
            cpu,
            domain,
            rt,
            spin,
        }
    }

    /// Takes another lock inside this one, works on its value, and frees it: one critical section,
    /// as that of [`Seat::with`](crate::Seat::with).
    pub fn with<S, U, W: FnOnce(&mut S) -> U>(&mut self, spin: &Spin<S>, work: W) -> U
        requires ready { IsReady self.old.domain.now self.old.cpu.now }
        requires lock { IsUnder self.old.domain.now.plan spinning spin.now.id.index
            spin.now.cell.table.shared.table_id }
        requires free { holds_in (holds_of self.old.cpu.now) spin.now.id.index ≡ false }
        requires callable { W.IsAlwaysCallable work }
        ensures name { self.new.cpu.ghost_name ≡ self.old.cpu.ghost_name }
        ensures same { (self.new.domain.now ≡ self.old.domain.now)
            × (self.new.spin.now ≡ self.old.spin.now) }
        ensures open { HasOpened self.old.spin.now.cell.table.shared.table_id self.old.place
            → HasOpened self.new.spin.now.cell.table.shared.table_id self.new.place }
        ensures ready { IsReady self.new.domain.now self.new.cpu.now }
        ensures inside { (before : Cpu) → IsInside self.old.spin.now.id.index Spins before
            self.old.cpu.now → IsInside self.new.spin.now.id.index Spins before self.new.cpu.now }
        ensures path { HasTurned (terms_of self.old.domain.now.plan) self.old.cpu.now.number Lock
            spin.now.id.index (calls_of self.old.cpu.now) (calls_of self.new.cpu.now) }
        ensures done { (x : S) × (y : S) × FnOnceReturnsAtMut W.FnOnce work x result y }
    {
        take(self.cpu, self.rt, self.domain, spin.id);
        let done = work_under(self.cpu, self.domain, spin.id, &spin.cell, work);
        free(self.cpu, self.rt, self.domain, spin.id);
        done
    }

    /// Gives the lock back: the value is home, and the lock is free.
    pub fn unlock(self)
        requires ready { IsReady self.domain.now self.cpu.now }
        requires lock { IsUnder self.domain.now.plan spinning self.spin.now.id.index
            self.spin.now.cell.table.shared.table_id }
        requires inside { (before : Cpu) × IsInside self.spin.now.id.index Spins before
            self.cpu.now }
        requires open { HasOpened self.spin.now.cell.table.shared.table_id self.place }
        ensures ready { IsReady self.entry.domain.now self.exit.0.now }
        ensures before { (before : Cpu) → IsInside self.entry.spin.now.id.index Spins before
            self.entry.cpu.now → IsAsBefore before self.exit.0.now }
        ensures freed { HasUnlocked (terms_of self.entry.domain.now.plan)
            self.entry.cpu.now.number self.entry.spin.now.id.index
            (home_calls self.entry.spin.now.id.index self.entry.cpu.now)
            (calls_of self.exit.0.now) }
    {
        let Held {
            cpu,
            domain,
            rt,
            spin,
            place,
        } = self;
        bring_home(cpu, domain, spin.id, spin.cell.shut(place));
        free(cpu, rt, domain, spin.id);
    }
}

impl<'a, T, R> Held<'a, T, R> {
    ghost use Rattle.lk_lock.specs.Lending.{LendsValue, RestsWhenMissed};

    /// Takes the lock if nobody has it or waits for it, until what this gives is given back. It has no
    /// leave to wait. `None` says that the lock was not free, or that somebody was faster, and that
    /// no lock was taken.
    pub fn try_lock(
        cpu: &'a mut Cpu,
        rt: &'a R,
        domain: &'a Domain,
        spin: &'a Spin<T>,
    ) -> Option<Held<'a, T, R>>
        requires ready { IsReady domain.now cpu.old }
        requires lock { IsUnder domain.now.plan spinning spin.now.id.index
            spin.now.cell.table.shared.table_id }
        requires free { holds_in (holds_of cpu.old) spin.now.id.index ≡ false }
        ensures* missed { sem 𝓛 (RestsWhenMissed T.row R.row cpu.entry domain.now
            spin.now.id.index result) }
        ensures name { IfSome result (λ held. held.cpu.ghost_name ≡ cpu.entry.ghost_name) }
        ensures same { IfSome result (λ held. (held.domain.now ≡ domain.now)
            × (held.spin.now ≡ spin.now)) }
        ensures ready { IfSome result (λ held. IsReady domain.now held.cpu.now) }
        ensures inside { IfSome result (λ held.
            IsInside held.spin.now.id.index Spins cpu.old held.cpu.now) }
        ensures path { IfSome result (λ held. HasGoneIn (terms_of domain.now.plan) cpu.old.number
            Try spin.now.id.index (calls_of cpu.old) held.cpu.now) }
        ensures open { IfSome result (λ held.
            HasOpened held.spin.now.cell.table.shared.table_id held.place) }
    {
        if try_take(cpu, domain, spin.id) {
            let key = take_out(cpu, domain, spin.id);
            Some(Held {
                place: spin.cell.open(key),
                cpu,
                domain,
                rt,
                spin,
            })
        } else {
            None
        }
    }

    /// The value. Nobody else reaches it while the lock is held.
    pub fn value(&mut self) -> &mut T
        requires open { HasOpened self.old.spin.now.cell.table.shared.table_id self.old.place }
        ensures* writes_back { sem 𝓛 (LendsValue T.row R.row self.entry result) }
    {
        let spin = self.spin;
        self.place.slot_mut(&spin.cell.table.shared, 0)
    }
}

impl<'a, T, R> Drop for Held<'a, T, R> {
    fn drop(self)
        requires ready { IsReady self.domain.now self.cpu.now }
        requires awake { halts self.domain.now.plan.mode ≡ false }
        requires lock { IsUnder self.domain.now.plan spinning self.spin.now.id.index
            self.spin.now.cell.table.shared.table_id }
        requires inside { (before : Cpu) × IsInside self.spin.now.id.index Spins before
            self.cpu.now }
        requires open { HasOpened self.spin.now.cell.table.shared.table_id self.place }
        ensures ready { IsReady self.entry.domain.now self.exit.0.now }
        ensures before { (before : Cpu) → IsInside self.entry.spin.now.id.index Spins before
            self.entry.cpu.now → IsAsBefore before self.exit.0.now }
        ensures freed { HasUnlocked (terms_of self.entry.domain.now.plan)
            self.entry.cpu.now.number self.entry.spin.now.id.index
            (home_calls self.entry.spin.now.id.index self.entry.cpu.now)
            (calls_of self.exit.0.now) }
    {
        let Held {
            cpu,
            domain,
            rt: _,
            spin,
            place,
        } = self;
        bring_home(cpu, domain, spin.id, spin.cell.shut(place));
        free_now(cpu, domain, spin.id);
    }
}
