// What `{:?}` shows of a lock: which one it is, and never its value.

use crate::held::Held;
use crate::keys::Keys;
use crate::locks::{Locks, Rw, Spin};
use crate::opening::Open;
use crate::seat::Seat;
use crate::shared::Shared;
use std::fmt::{Debug, Formatter, Result, Write};

impl<T> Debug for Spin<T> {
    fn fmt<W: Write>(&self, f: &mut Formatter<W>) -> Result {
        f.debug_struct("Spin")
            .field("id", &self.id)
            .finish_non_exhaustive()
    }
}

impl<T> Debug for Rw<T> {
    fn fmt<W: Write>(&self, f: &mut Formatter<W>) -> Result {
        f.debug_struct("Rw")
            .field("id", &self.id)
            .finish_non_exhaustive()
    }
}

impl<T> Debug for Shared<T> {
    fn fmt<W: Write>(&self, f: &mut Formatter<W>) -> Result {
        f.debug_struct("Shared")
            .field("id", &self.id)
            .finish_non_exhaustive()
    }
}

impl Debug for Locks {
    fn fmt<W: Write>(&self, f: &mut Formatter<W>) -> Result {
        f.debug_struct("Locks")
            .field("count", &self.count())
            .finish_non_exhaustive()
    }
}

impl Debug for Open {
    fn fmt<W: Write>(&self, f: &mut Formatter<W>) -> Result {
        f.debug_struct("Open")
            .field("mode", &self.domain.mode())
            .field("locks", &self.domain.locks())
            .field("cpus", &self.cpus.len())
            .finish()
    }
}

impl Debug for Keys {
    fn fmt<W: Write>(&self, f: &mut Formatter<W>) -> Result {
        f.debug_struct("Keys").finish_non_exhaustive()
    }
}

impl<R> Debug for Seat<'_, R> {
    fn fmt<W: Write>(&self, f: &mut Formatter<W>) -> Result {
        f.debug_struct("Seat")
            .field("cpu", &self.cpu.number())
            .finish_non_exhaustive()
    }
}

impl<T, R> Debug for Held<'_, T, R> {
    fn fmt<W: Write>(&self, f: &mut Formatter<W>) -> Result {
        f.debug_struct("Held")
            .field("cpu", &self.cpu.number())
            .field("spin", self.spin)
            .finish_non_exhaustive()
    }
}
