// A reader-writer lock with a rank.
ghost use Rattle.std.specs.Prelude.{◌≡◌, IfSome, MatchOption, false};
ghost use Rattle.std.specs.Fn.{FnOnceReturnsAtMut};
ghost use Rattle.lk_names.specs.declared.names.Kind.TheVariants.{Rw as shared};
ghost use Rattle.lk_domain.specs.Calls.{holds_in, terms_of};
ghost use Rattle.lk_domain.specs.Paths.{HasMissed};
ghost use Rattle.lk_lock.specs.Ended.{HasKeyOf, KeepsOthers};
ghost use Rattle.lk_domain.specs.Seats.{calls_of};
ghost use Rattle.lk_lock.specs.Standing.{holds_of};
ghost use Rattle.lk_lock.specs.Standing.{HasWritten, HasWrittenOnce, IsAsBefore, IsUnder};
ghost use Rattle.lk_ranks.specs.Above.{IsAbove, StaysAbove};
ghost use Rattle.lk_rows.specs.declared.setup.Verb.TheVariants.{TryWrite, Write};

use lk_lock::{Keys, Rw, Seat};
use std::sync::Wait;

/// A value under a reader-writer lock with a rank.
#[derive(Drop)]
pub struct RankedRw<T> {
    pub(crate) rw: Rw<T>,
    pub(crate) rank: u32,
    ghost ranked: { rw.id.index ≡ rank },
}

impl<T> RankedRw<T> {
    /// Its rank, which is the number of the lock in its domain.
    pub fn rank(&self) -> u32
        ensures { result ≡ self.now.rw.id.index }
    {
        self.rank
    }

    /// Takes the lock as its writer, works on its value, and frees it, as `Seat::write` of `lk_lock`
    /// does. It waits for the lock, so this has to rank above each lock that the processor holds or
    /// waits for.
    pub fn write<R: Wait, U, W: FnOnce(&mut T) -> U>(&self, seat: &mut Seat<'_, R>, work: W) -> U
        requires lock { IsUnder seat.old.domain.now.plan shared self.now.rw.id.index
            self.now.rw.cell.table.shared.table_id }
        requires above { IsAbove self.now.rw.id.index (calls_of seat.old.cpu.now) }
        requires callable { W.IsAlwaysCallable work }
        ensures name { seat.new.cpu.ghost_name ≡ seat.old.cpu.ghost_name }
        ensures domain { seat.new.domain.now ≡ seat.old.domain.now }
        ensures before { IsAsBefore seat.old.cpu.now seat.new.cpu.now }
        ensures path { HasWritten (terms_of seat.old.domain.now.plan) seat.old.cpu.now.number
            Write self.now.rw.id.index (calls_of seat.old.cpu.now) (calls_of seat.new.cpu.now) }
        ensures done { (x : T) × (y : T) × FnOnceReturnsAtMut W.FnOnce work x result y }
        ensures order { StaysAbove (calls_of seat.old.cpu.now) (calls_of seat.new.cpu.now) }
    {
        seat.write(&self.rw, work)
    }

    /// Takes the lock as its writer if nobody has it or waits for it, works on its value, and frees
    /// it, as `Seat::try_write` of `lk_lock` does. It does not wait, so the lock may have any rank.
    pub fn try_write<R, U, W: FnOnce(&mut T) -> U>(
        &self,
        seat: &mut Seat<'_, R>,
        work: W,
    ) -> Option<U>
        requires lock { IsUnder seat.old.domain.now.plan shared self.now.rw.id.index
            self.now.rw.cell.table.shared.table_id }
        requires free { holds_in (holds_of seat.old.cpu.now) self.now.rw.id.index ≡ false }
        requires callable { W.IsAlwaysCallable work }
        ensures name { seat.new.cpu.ghost_name ≡ seat.old.cpu.ghost_name }
        ensures domain { seat.new.domain.now ≡ seat.old.domain.now }
        ensures before { IsAsBefore seat.old.cpu.now seat.new.cpu.now }
        ensures path { MatchOption result
            (HasMissed (terms_of seat.old.domain.now.plan) seat.old.cpu.now.number TryWrite
            self.now.rw.id.index (calls_of seat.old.cpu.now) (calls_of seat.new.cpu.now))
            (λ _. HasWrittenOnce (terms_of seat.old.domain.now.plan) seat.old.cpu.now.number
            self.now.rw.id.index (calls_of seat.old.cpu.now) (calls_of seat.new.cpu.now)) }
        ensures done { IfSome result (λ done. (x : T) × (y : T)
            × FnOnceReturnsAtMut W.FnOnce work x done y) }
    {
        seat.try_write(&self.rw, work)
    }

    /// The value under the lock, once its domain is closed, as its last writer left it.
    pub fn into_value(self, keys: &mut Keys) -> T
        requires key { HasKeyOf keys.old self.rw.id.index self.rw.cell.table.shared.table_id }
        ensures others { KeepsOthers self.rw.id.index keys.old keys.new }
    {
        let RankedRw { rw, rank: _ } = self;
        rw.into_value(keys)
    }
}
