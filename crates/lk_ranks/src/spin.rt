// A spinlock with a rank.
ghost use Rattle.std.specs.Prelude.{◌≡◌, ℕ, ◌<◌, IfSome, MatchOption, false};
ghost use Rattle.std.specs.Fn.{FnOnceReturnsAtMut};
ghost use Rattle.lk_names.specs.declared.holder.Manner.TheVariants.{Spins};
ghost use Rattle.lk_names.specs.declared.names.Kind.TheVariants.{Spin as spinning};
ghost use Rattle.lk_domain.specs.Calls.{holds_in, terms_of};
ghost use Rattle.lk_lock.specs.Ended.{HasKeyOf, KeepsOthers};
ghost use Rattle.lk_domain.specs.Seats.{calls_of};
ghost use Rattle.lk_law.specs.Agree.{halts};
ghost use Rattle.lk_lock.specs.Standing.{holds_of};
ghost use Rattle.lk_lock.specs.Standing.{HasGoneIn, HasOpened, IsAsBefore, IsInside, IsReady, IsUnder};
ghost use Rattle.lk_lock.specs.Turns.{HasPassed, HasTurned};
ghost use Rattle.lk_domain.specs.declared.cpu.Cpu.{Cpu};
ghost use Rattle.lk_ranks.specs.Above.{IsAbove, StaysAbove};
ghost use Rattle.lk_rows.specs.declared.setup.Verb.TheVariants.{Lock, Try};

use lk_lock::{Cpu, Domain, Held, Keys, Seat, Spin};
use std::sync::Wait;

/// A value under a spinlock with a rank.
#[derive(Drop)]
pub struct RankedSpin<T> {
    pub(crate) spin: Spin<T>,
    pub(crate) rank: u32,
    ghost ranked: { spin.id.index ≡ rank },
}

impl<T> RankedSpin<T> {
    /// Its rank, which is the number of the lock in its domain.
    pub fn rank(&self) -> u32
        ensures { result ≡ self.now.spin.id.index }
    {
        self.rank
    }

    /// Takes the lock, until what this gives is given back. It waits for the lock, so this has to rank
    /// above each lock that the processor holds or waits for.
    ///
    /// What holds when it returns is what `Held::lock` of `lk_lock` says. A lock that ranks above this
    /// one ranks above all that the processor then holds.
    pub fn lock<'a, R: Wait>(
        &'a self,
        cpu: &'a mut Cpu,
        rt: &'a R,
        domain: &'a Domain,
    ) -> Held<'a, T, R>
        requires ready { IsReady domain.now cpu.old }
        requires lock { IsUnder domain.now.plan spinning self.now.spin.id.index
            self.now.spin.cell.table.shared.table_id }
        requires above { IsAbove self.now.spin.id.index (calls_of cpu.old) }
        ensures name { result.cpu.ghost_name ≡ cpu.entry.ghost_name }
        ensures same { (result.domain.now ≡ domain.now) × (result.spin.now ≡ self.now.spin) }
        ensures ready { IsReady domain.now result.cpu.now }
        ensures inside { IsInside result.spin.now.id.index Spins cpu.old result.cpu.now }
        ensures path { HasGoneIn (terms_of domain.now.plan) cpu.old.number Lock
            self.now.spin.id.index (calls_of cpu.old) result.cpu.now }
        ensures open { HasOpened result.spin.now.cell.table.shared.table_id result.place }
        ensures order { (higher : ℕ) → self.now.spin.id.index < higher
            → IsAbove higher (calls_of result.cpu.now) }
    {
        Held::lock(cpu, rt, domain, &self.spin)
    }

    /// Takes the lock inside one that is held, works on its value, and frees it, as `Held::with` of
    /// `lk_lock` does. It waits for the lock, so this has to rank above each lock that the processor
    /// holds or waits for.
    pub fn with_inside<S, R: Wait, U, W: FnOnce(&mut T) -> U>(
        &self,
        held: &mut Held<'_, S, R>,
        work: W,
    ) -> U
        requires ready { IsReady held.old.domain.now held.old.cpu.now }
        requires lock { IsUnder held.old.domain.now.plan spinning self.now.spin.id.index
            self.now.spin.cell.table.shared.table_id }
        requires above { IsAbove self.now.spin.id.index (calls_of held.old.cpu.now) }
        requires callable { W.IsAlwaysCallable work }
        ensures name { held.new.cpu.ghost_name ≡ held.old.cpu.ghost_name }
        ensures same { (held.new.domain.now ≡ held.old.domain.now)
            × (held.new.spin.now ≡ held.old.spin.now) }
        ensures open { HasOpened held.old.spin.now.cell.table.shared.table_id held.old.place
            → HasOpened held.new.spin.now.cell.table.shared.table_id held.new.place }
        ensures ready { IsReady held.new.domain.now held.new.cpu.now }
        ensures inside { (before : Cpu) → IsInside held.old.spin.now.id.index Spins before
            held.old.cpu.now → IsInside held.new.spin.now.id.index Spins before held.new.cpu.now }
        ensures path { HasTurned (terms_of held.old.domain.now.plan) held.old.cpu.now.number Lock
            self.now.spin.id.index (calls_of held.old.cpu.now) (calls_of held.new.cpu.now) }
        ensures done { (x : T) × (y : T) × FnOnceReturnsAtMut W.FnOnce work x result y }
    {
        held.with(&self.spin, work)
    }

    /// Takes the lock, works on its value, and frees it, as `Seat::with` of `lk_lock` does. It waits
    /// for the lock, so this has to rank above each lock that the processor holds or waits for.
    pub fn with<R: Wait, U, W: FnOnce(&mut T) -> U>(&self, seat: &mut Seat<'_, R>, work: W) -> U
        requires lock { IsUnder seat.old.domain.now.plan spinning self.now.spin.id.index
            self.now.spin.cell.table.shared.table_id }
        requires above { IsAbove self.now.spin.id.index (calls_of seat.old.cpu.now) }
        requires callable { W.IsAlwaysCallable work }
        ensures name { seat.new.cpu.ghost_name ≡ seat.old.cpu.ghost_name }
        ensures domain { seat.new.domain.now ≡ seat.old.domain.now }
        ensures before { IsAsBefore seat.old.cpu.now seat.new.cpu.now }
        ensures path { HasTurned (terms_of seat.old.domain.now.plan) seat.old.cpu.now.number Lock
            self.now.spin.id.index (calls_of seat.old.cpu.now) (calls_of seat.new.cpu.now) }
        ensures done { (x : T) × (y : T) × FnOnceReturnsAtMut W.FnOnce work x result y }
        ensures order { StaysAbove (calls_of seat.old.cpu.now) (calls_of seat.new.cpu.now) }
    {
        seat.with(&self.spin, work)
    }

    /// Takes the lock if nobody has it or waits for it, works on its value, and frees it, as
    /// `Seat::try_with` of `lk_lock` does. It does not wait, so the lock may have any rank.
    pub fn try_with<R, U, W: FnOnce(&mut T) -> U>(
        &self,
        seat: &mut Seat<'_, R>,
        work: W,
    ) -> Option<U>
        requires awake { halts seat.old.domain.now.plan.mode ≡ false }
        requires lock { IsUnder seat.old.domain.now.plan spinning self.now.spin.id.index
            self.now.spin.cell.table.shared.table_id }
        requires free { holds_in (holds_of seat.old.cpu.now) self.now.spin.id.index ≡ false }
        requires callable { W.IsAlwaysCallable work }
        ensures name { seat.new.cpu.ghost_name ≡ seat.old.cpu.ghost_name }
        ensures domain { seat.new.domain.now ≡ seat.old.domain.now }
        ensures before { IsAsBefore seat.old.cpu.now seat.new.cpu.now }
        ensures path { MatchOption result
            (HasPassed (terms_of seat.old.domain.now.plan) seat.old.cpu.now.number
            self.now.spin.id.index (calls_of seat.old.cpu.now) (calls_of seat.new.cpu.now))
            (λ _. HasTurned (terms_of seat.old.domain.now.plan) seat.old.cpu.now.number Try
            self.now.spin.id.index (calls_of seat.old.cpu.now) (calls_of seat.new.cpu.now)) }
        ensures done { IfSome result (λ done. (x : T) × (y : T)
            × FnOnceReturnsAtMut W.FnOnce work x done y) }
    {
        seat.try_with(&self.spin, work)
    }

    /// The same in each family, as `Seat::try_turn` of `lk_lock` does it. It does not wait for the lock.
    pub fn try_turn<R: Wait, U, W: FnOnce(&mut T) -> U>(
        &self,
        seat: &mut Seat<'_, R>,
        work: W,
    ) -> Option<U>
        requires lock { IsUnder seat.old.domain.now.plan spinning self.now.spin.id.index
            self.now.spin.cell.table.shared.table_id }
        requires free { holds_in (holds_of seat.old.cpu.now) self.now.spin.id.index ≡ false }
        requires callable { W.IsAlwaysCallable work }
        ensures name { seat.new.cpu.ghost_name ≡ seat.old.cpu.ghost_name }
        ensures domain { seat.new.domain.now ≡ seat.old.domain.now }
        ensures before { IsAsBefore seat.old.cpu.now seat.new.cpu.now }
        ensures path { MatchOption result
            (HasPassed (terms_of seat.old.domain.now.plan) seat.old.cpu.now.number
            self.now.spin.id.index (calls_of seat.old.cpu.now) (calls_of seat.new.cpu.now))
            (λ _. HasTurned (terms_of seat.old.domain.now.plan) seat.old.cpu.now.number Try
            self.now.spin.id.index (calls_of seat.old.cpu.now) (calls_of seat.new.cpu.now)) }
        ensures done { IfSome result (λ done. (x : T) × (y : T)
            × FnOnceReturnsAtMut W.FnOnce work x done y) }
    {
        seat.try_turn(&self.spin, work)
    }

    /// The value under the lock, once its domain is closed, as its last holder left it.
    pub fn into_value(self, keys: &mut Keys) -> T
        requires key { HasKeyOf keys.old self.spin.id.index
            self.spin.cell.table.shared.table_id }
        ensures others { KeepsOthers self.spin.id.index keys.old keys.new }
    {
        let RankedSpin { spin, rank: _ } = self;
        spin.into_value(keys)
    }
}
