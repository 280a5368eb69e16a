// The rule of a cell's table, and what its two steps tell.
ghost use Rattle.std.specs.Prelude.{false};
ghost use Rattle.lk_cell.specs.Latched.{Latched, Opens, Shuts};

use crate::fits::Fits;
use atomic_table::{Play, TableRule};
use std::marker::PhantomData;

// There is one key, and while the cell is shut its value is at home and fits.
pub struct OneKey<F> {
    marker: PhantomData<F>,
}

impl<T, F: Fits<T>> TableRule<T, bool, ()> for OneKey<F> {
    ghost holds = { λ _. Latched F.fits };

    ghost first = { λ _. false };
}

// The key opens the cell.
pub struct Open<F> {
    marker: PhantomData<F>,
}

impl<T, F: Fits<T>> Play<T, bool> for Open<F> {
    ghost then = { λ _ _ _. Opens F.fits };
}

// It shuts the cell.
pub struct Shut;

impl<T> Play<T, bool> for Shut {
    ghost then = { λ _ _ _. Shuts };
}
