// What `{:?}` shows of a lock with a rank: its rank, and never its value.

use crate::ranks::Ranks;
use crate::rw::RankedRw;
use crate::shared::RankedShared;
use crate::spin::RankedSpin;
use std::fmt::{Debug, Formatter, Result, Write};

impl<T> Debug for RankedSpin<T> {
    fn fmt<W: Write>(&self, f: &mut Formatter<W>) -> Result {
        f.debug_struct("RankedSpin")
            .field("rank", &self.rank)
            .finish_non_exhaustive()
    }
}

impl<T> Debug for RankedRw<T> {
    fn fmt<W: Write>(&self, f: &mut Formatter<W>) -> Result {
        f.debug_struct("RankedRw")
            .field("rank", &self.rank)
            .finish_non_exhaustive()
    }
}

impl<T> Debug for RankedShared<T> {
    fn fmt<W: Write>(&self, f: &mut Formatter<W>) -> Result {
        f.debug_struct("RankedShared")
            .field("rank", &self.rank)
            .finish_non_exhaustive()
    }
}

impl Debug for Ranks {
    fn fmt<W: Write>(&self, f: &mut Formatter<W>) -> Result {
        f.debug_struct("Ranks")
            .field("count", &self.count())
            .finish_non_exhaustive()
    }
}
