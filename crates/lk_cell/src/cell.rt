// A value in place, and its key.
ghost use Rattle.std.specs.Prelude.{◌≡◌, IfOk};
ghost use Rattle.lk_cell.specs.Latched.{IsKey, IsOpen};
ghost use Rattle.lk_cell.specs.Work.{HasWorked, KeepsFit};

use crate::fits::Fits;
use crate::rule::{OneKey, Open, Shut};
use atomic_table::{Badge, Refused, Seat, Table};
use std::alloc::{AllocError, Global};
use std::mem;

/// What opens a cell. It has no bytes, and names no type of value.
pub type Key = Badge<bool>;

/// A value in place, which its key alone reaches.
#[derive(Drop)]
pub struct KeyCell<T, F: Fits<T>> {
    /// The table in which it lies: its `table_id` is the cell's name.
    pub table: Table<T, bool, (), OneKey<F>, Global>,
    ghost words: { table.shared.table_id.words ≡ 1 },
    ghost slots: { table.shared.table_id.slots ≡ 1 },
}

impl<T: Drop, F: Fits<T>> KeyCell<T, F> {
    /// A cell with this value, and its key.
    pub fn new(alloc: Global, value: T) -> Result<(KeyCell<T, F>, Key), AllocError>
        requires { F.fits value }
        ensures { IfOk result (λ made. IsKey made.0.table.shared.table_id made.1) }
    {
        let mut slots = Vec::with_capacity(alloc, 1)?;
        slots.push_reserved(value);
        match Table::new(alloc, &[0], slots, &()) {
            Ok((table, seat)) => Ok((KeyCell { table }, seat.into_badge())),
            Err(Refused { slots: _ }) => Err(AllocError),
        }
    }
}

impl<T, F: Fits<T>> KeyCell<T, F> {
    // Opens the cell.
    #[inline]
    pub fn open(&self, key: Key) -> Seat<T, bool>
        requires { IsKey self.now.table.shared.table_id key }
        ensures { IsOpen F.fits self.now.table.shared.table_id result }
    {
        let mut seat = key.into_seat();
        self.table.shared.load::<Open<F>>(&mut seat, 0);
        seat
    }

    // Shuts it, with a value that fits.
    #[inline]
    pub fn shut(&self, mut seat: Seat<T, bool>) -> Key
        requires { IsOpen F.fits self.now.table.shared.table_id seat }
        ensures { IsKey self.now.table.shared.table_id result }
    {
        self.table.shared.load::<Shut>(&mut seat, 0);
        seat.into_badge()
    }

    /// Works on the value in place, once, and gives back what the work answers. The key stays in its
    /// place. The work takes a value that fits, and has to leave one that fits.
    #[inline]
    pub fn with<U, W: FnOnce(&mut T) -> U>(&self, key: &mut Key, work: W) -> U
        requires key { IsKey self.now.table.shared.table_id key.old }
        requires work { KeepsFit W.FnOnce F.fits work }
        ensures key { IsKey self.now.table.shared.table_id key.new }
        ensures done { HasWorked W.FnOnce F.fits work result }
    {
        let mut seat = self.open(mem::replace(key, Key::blank()));
        let value = seat.slot_mut(&self.table.shared, 0);
        let done = work(value);
        *key = self.shut(seat);
        done
    }

    /// The value, which fits: the end of the cell.
    pub fn into_value(self, key: Key) -> T
        requires { IsKey self.table.shared.table_id key }
        ensures { F.fits result }
    {
        let seat = key.into_seat();
        let mut closed = self.table.close_with(seat);
        let value = closed.take(0);
        closed.free();
        value
    }
}
