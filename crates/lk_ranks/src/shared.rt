// A reader-writer lock with a rank, whose value its readers share.
ghost use Rattle.std.specs.Prelude.{◌≡◌, Some, slice_get};
ghost use Rattle.std.specs.Fn.{FnOnceReturnsAt, FnOnceReturnsAtMut};
ghost use Rattle.atomic_table.specs.Seated.{TableId};
ghost use Rattle.lk_lock.specs.Cells.{names_of};
ghost use Rattle.lk_lock.specs.Ended.{HasKeyOf, KeepsOthers};
ghost use Rattle.lk_domain.specs.Calls.{terms_of};
ghost use Rattle.lk_domain.specs.Seats.{calls_of};
ghost use Rattle.lk_lock.specs.Standing.{HasRead, HasWritten, IsAsBefore, IsSharedUnder};
ghost use Rattle.lk_ranks.specs.Above.{IsAbove, StaysAbove};
ghost use Rattle.lk_rows.specs.declared.setup.Verb.TheVariants.{Read, Write};

use lk_lock::{Keys, Seat, Shared};
use std::sync::Wait;

/// A value under a reader-writer lock with a rank, with a copy of it for each processor.
#[derive(Drop)]
pub struct RankedShared<T> {
    pub(crate) shared: Shared<T>,
    pub(crate) rank: u32,
    ghost ranked: { shared.id.index ≡ rank },
}

impl<T> RankedShared<T> {
    /// Its rank, which is the number of the lock in its domain.
    pub fn rank(&self) -> u32
        ensures { result ≡ self.now.shared.id.index }
    {
        self.rank
    }

    /// Takes the lock as a reader, works on the copy of the value for its processor, and frees the
    /// lock, as `Seat::read` of `lk_lock` does. It waits for writers, so the lock has to rank above
    /// each that the processor holds or waits for.
    pub fn read<R: Wait, U, W: FnOnce(&T) -> U>(&self, seat: &mut Seat<'_, R>, work: W) -> U
        requires lock { IsSharedUnder seat.old.domain.now.plan self.now.shared.id.index
            (names_of self.now.shared.cells.items) }
        requires above { IsAbove self.now.shared.id.index (calls_of seat.old.cpu.now) }
        requires callable { W.IsAlwaysCallable work }
        ensures name { seat.new.cpu.ghost_name ≡ seat.old.cpu.ghost_name }
        ensures domain { seat.new.domain.now ≡ seat.old.domain.now }
        ensures before { IsAsBefore seat.old.cpu.now seat.new.cpu.now }
        ensures path { HasRead (terms_of seat.old.domain.now.plan) seat.old.cpu.now.number Read
            self.now.shared.id.index (calls_of seat.old.cpu.now) (calls_of seat.new.cpu.now) }
        ensures done { (x : T) × FnOnceReturnsAt W.FnOnce work x result }
        ensures order { StaysAbove (calls_of seat.old.cpu.now) (calls_of seat.new.cpu.now) }
    {
        seat.read(&self.shared, work)
    }
}

impl<T: Copy + Drop> RankedShared<T> {
    /// Takes the lock as its writer, works on the value, sets the copy of each processor to what the
    /// work left, and frees the lock, as `Seat::update` of `lk_lock` does. It waits for the lock, so
    /// this has to rank above each that the processor holds or waits for.
    pub fn update<R: Wait, U, W: FnOnce(&mut T) -> U>(&self, seat: &mut Seat<'_, R>, work: W) -> U
        requires lock { IsSharedUnder seat.old.domain.now.plan self.now.shared.id.index
            (names_of self.now.shared.cells.items) }
        requires above { IsAbove self.now.shared.id.index (calls_of seat.old.cpu.now) }
        requires callable { W.IsAlwaysCallable work }
        ensures name { seat.new.cpu.ghost_name ≡ seat.old.cpu.ghost_name }
        ensures domain { seat.new.domain.now ≡ seat.old.domain.now }
        ensures before { IsAsBefore seat.old.cpu.now seat.new.cpu.now }
        ensures path { HasWritten (terms_of seat.old.domain.now.plan) seat.old.cpu.now.number
            Write self.now.shared.id.index (calls_of seat.old.cpu.now)
            (calls_of seat.new.cpu.now) }
        ensures done { (x : T) × (y : T) × FnOnceReturnsAtMut W.FnOnce work x result y }
        ensures order { StaysAbove (calls_of seat.old.cpu.now) (calls_of seat.new.cpu.now) }
    {
        seat.update(&self.shared, work)
    }
}

impl<T: Drop> RankedShared<T> {
    /// The value under the lock, once its domain is closed, as its last writer left it. Its copies
    /// go.
    pub fn into_value(self, keys: &mut Keys) -> T
        requires key { (cell : TableId)
            × (slice_get (names_of self.shared.cells.items) 0 ≡ Some cell)
            × HasKeyOf keys.old self.shared.id.index cell }
        ensures others { KeepsOthers self.shared.id.index keys.old keys.new }
    {
        let RankedShared { shared, rank: _ } = self;
        shared.into_value(keys)
    }
}
