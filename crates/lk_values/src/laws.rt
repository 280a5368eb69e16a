// What holds of values under locks, as clauses of functions that do nothing.
ghost use Rattle.lk_values.specs.Laws.{BringingKeeps, HolderFinds, IdleIsHome, NewSeatKeeps};
ghost use Rattle.lk_values.specs.Laws.{OneHasIt, StepKeeps, TakingKeeps};

use crate::rights::Rights;

/// The value of a lock is out with one seat at most, where no two seats hold a lock alone.
pub fn one_seat_has_a_value<S, V, R: Rights<S, V>>()
    ensures { OneHasIt R.own R.locks R.alone R.outs R.fits }
{}

/// A seat that holds a lock alone, and does not have its value out, finds the value at home.
pub fn holders_find<S, V, R: Rights<S, V>>()
    ensures { HolderFinds R.own R.locks R.alone R.outs R.fits }
{}

/// A step keeps the values guarded, if its seat still holds alone the locks whose values it has out.
pub fn steps_keep<S, V, R: Rights<S, V>>()
    ensures { StepKeeps R.own R.locks R.alone R.outs R.fits }
{}

/// A step keeps them guarded that takes the value of a lock out, which its seat holds alone.
pub fn takings_keep<S, V, R: Rights<S, V>>()
    ensures { TakingKeeps R.own R.locks R.alone R.outs R.fits }
{}

/// A step keeps them guarded that brings a value home which fits.
pub fn returns_keep<S, V, R: Rights<S, V>>()
    ensures { BringingKeeps R.own R.locks R.alone R.outs R.fits }
{}

/// A new seat, which has nothing out, keeps them guarded.
pub fn new_seats_keep<S, V, R: Rights<S, V>>()
    ensures { NewSeatKeeps R.own R.locks R.alone R.outs R.fits }
{}

/// Where no seat holds a lock alone, each value is at home, and fits its lock.
pub fn idle_values_are_home<S, V, R: Rights<S, V>>()
    ensures { IdleIsHome R.own R.locks R.alone R.outs R.fits }
{}
