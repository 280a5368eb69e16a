// A value under a reader-writer lock that its readers share.
ghost use Rattle.std.specs.Prelude.{◌≡◌, ◌+◌, ◌<◌, IfOk, length, false};
ghost use Rattle.std.specs.Fn.{FnOnceReturnsAt, FnOnceReturnsAtMut};
ghost use Rattle.lk_domain.specs.Calls.{holds_in, terms_of};
ghost use Rattle.lk_domain.specs.Seats.{calls_of};
ghost use Rattle.lk_domain.specs.declared.plan.TheConstants.{MOST_LOCKS};
ghost use Rattle.lk_law.specs.Agree.{halts};
ghost use Rattle.lk_lock.specs.Cells.{AreKeysOf, names_of};
ghost use Rattle.lk_lock.specs.Made.{IsSharedAmong, Keeps, KeepsShared};
ghost use Rattle.lk_lock.specs.Standing.{HasRead, HasWritten, IsAsBefore, IsSharedUnder, holds_of};
ghost use Rattle.lk_rows.specs.declared.setup.Verb.TheVariants.{Read, Write};

use crate::locks::Locks;
use crate::seat::Seat;
use crate::turning::{Aim, Place, turn_at};
use crate::working::{copy_of, set_copies, work_on_own};
use crate::writing::{enter, leave};
use lk_cell::{Any, Key, KeyCell};
use lk_domain::LockId;
use lk_names::{Kind, List, Manner, Memory};
use std::alloc::Global;
use std::sync::Wait;

/// A value under a reader-writer lock, with a copy of it for each processor, so that readers share
/// it: each works on its own.
#[derive(Drop)]
pub struct Shared<T> {
    pub(crate) id: LockId,
    // The cells: the lock's own, and behind it that of each processor's copy.
    pub(crate) cells: List<KeyCell<T, Any>>,
}

// So many cells with this value, and their keys.
fn cells_with<T: Copy + Drop>(
    alloc: Global,
    value: T,
    count: usize,
) -> Result<(List<KeyCell<T, Any>>, List<Key>), Memory>
    ensures many { IfOk result (λ made. length made.0.items ≡ count) }
    ensures keys { IfOk result (λ made. AreKeysOf (names_of made.0.items) made.1.items) }
{
    let mut cells = List::new(alloc, count)?;
    let mut keys = List::new(alloc, count)?;
    for _ in 0..count {
        let (cell, key) = KeyCell::new(alloc, value)?;
        cells.push(cell);
        keys.push(key);
    }
    Ok((cells, keys))
}

impl Locks {
    /// One reader-writer lock more, and a value under it that its readers share. Each processor has
    /// a copy of the value.
    ///
    /// # Errors
    ///
    /// There is not enough memory.
    pub fn shared<T: Copy + Drop>(&mut self, value: T) -> Result<Shared<T>, Memory>
        requires room { length self.old.kinds.items < MOST_LOCKS }
        ensures kept { Keeps self.old self.new }
        ensures shared { KeepsShared self.old self.new }
        ensures threads { self.new.threads ≡ self.old.threads }
        ensures made { IfOk result (λ shared. IsSharedAmong self.new shared.id.index
            (names_of shared.cells.items)) }
        ensures number { IfOk result (λ shared. shared.id.index
            ≡ length self.old.kinds.items) }
        ensures count { IfOk result (λ _. length self.new.kinds.items
            ≡ length self.old.kinds.items + 1) }
    {
        let (cells, keys) = cells_with(self.alloc, value, 1 + self.threads as usize)?;
        let id = self.add(Kind::Rw, keys);
        self.copied = true;
        Ok(Shared { id, cells })
    }
}

impl<'a, R> Seat<'a, R> {
    /// Whether its processor holds the lock, as a reader or as the writer. Then it may not take it.
    pub fn holds_shared<T>(&self, shared: &Shared<T>) -> bool
        requires awake { halts self.now.domain.now.plan.mode ≡ false }
        ensures { result ≡ holds_in (holds_of self.now.cpu.now) shared.now.id.index }
    {
        self.holds_lock(shared.id)
    }
}

impl<'a, R: Wait> Seat<'a, R> {
    /// Takes the lock as a reader, maybe beside other readers, works on the value, and frees the
    /// lock. It waits for writers, so the processor may not hold the lock.
    ///
    /// When it returns, `work` was called once, on the copy of the value for its processor, in one
    /// critical section: the lock was taken once, as a reader, by a path of the rows, and is free. No
    /// other lock was taken meanwhile but its wait lock, once, by a call that has to queue. The
    /// processor holds what it held.
    pub fn read<T, U, W: FnOnce(&T) -> U>(&mut self, shared: &Shared<T>, work: W) -> U
        requires lock { IsSharedUnder self.old.domain.now.plan shared.now.id.index
            (names_of shared.now.cells.items) }
        requires free { holds_in (holds_of self.old.cpu.now) shared.now.id.index ≡ false }
        requires callable { W.IsAlwaysCallable work }
        ensures name { self.new.cpu.ghost_name ≡ self.old.cpu.ghost_name }
        ensures domain { self.new.domain.now ≡ self.old.domain.now }
        ensures before { IsAsBefore self.old.cpu.now self.new.cpu.now }
        ensures path { HasRead (terms_of self.old.domain.now.plan) self.old.cpu.now.number Read
            shared.now.id.index (calls_of self.old.cpu.now) (calls_of self.new.cpu.now) }
        ensures done { (x : T) × FnOnceReturnsAt W.FnOnce work x result }
    {
        let aim = Aim {
            lock: shared.id,
            manner: Manner::Reads,
        };
        let cell = copy_of(self.domain, shared, self.cpu.number());
        turn_at(
            self.cpu,
            self.rt,
            self.domain,
            Place { aim, cell },
            |value: &mut T| -> U
                requires callable { W.IsAlwaysCallable work }
                ensures read { FnOnceReturnsAt W.FnOnce work value.old result }
            { work(value) },
        )
    }

    /// Takes the lock as its writer, works on the value, sets the copy of each processor to what the
    /// work left, and frees the lock. It waits for the lock, so the processor may not hold it. It
    /// copies the value once for each processor of the domain.
    ///
    /// When it returns, `work` was called once, on the value; the lock was taken once, as a writer, by
    /// a path of the rows, and is free; so the work and the copies are one critical section, as that
    /// of [`Seat::write`]. The processor holds what it held. No clause says that all copies are then
    /// what the work left: tests show it.
    pub fn update<T: Copy + Drop, U, W: FnOnce(&mut T) -> U>(
        &mut self,
        shared: &Shared<T>,
        work: W,
    ) -> U
        requires lock { IsSharedUnder self.old.domain.now.plan shared.now.id.index
            (names_of shared.now.cells.items) }
        requires free { holds_in (holds_of self.old.cpu.now) shared.now.id.index ≡ false }
        requires callable { W.IsAlwaysCallable work }
        ensures name { self.new.cpu.ghost_name ≡ self.old.cpu.ghost_name }
        ensures domain { self.new.domain.now ≡ self.old.domain.now }
        ensures before { IsAsBefore self.old.cpu.now self.new.cpu.now }
        ensures path { HasWritten (terms_of self.old.domain.now.plan) self.old.cpu.now.number
            Write shared.now.id.index (calls_of self.old.cpu.now) (calls_of self.new.cpu.now) }
        ensures done { (x : T) × (y : T) × FnOnceReturnsAtMut W.FnOnce work x result y }
    {
        enter(self.cpu, self.rt, self.domain, shared.id);
        let (done, left) = work_on_own(self.cpu, self.domain, shared, work);
        set_copies(self.cpu, self.domain, shared, left);
        leave(self.cpu, self.domain, shared.id);
        done
    }
}
