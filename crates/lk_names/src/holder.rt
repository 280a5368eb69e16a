// Who holds a lock, and how.
ghost use Rattle.std.specs.Prelude.{◌≡◌};
ghost use Rattle.lk_names.specs.History.{is_writer};

use crate::names::Waiter;

/// How a lock is held: a spinlock, or a reader-writer lock as a reader or as the writer.
#[derive(Clone, Copy, Debug, PartialEq, Eq)]
pub enum Manner {
    /// A waiter holds a spinlock.
    Spins,
    /// A reader holds a reader-writer lock.
    Reads,
    /// The writer holds a reader-writer lock.
    Writes,
}

impl Manner {
    /// Whether the manner admits no other holder.
    pub fn is_writer(self) -> bool
        ensures { result ≡ is_writer self }
    {
        !matches!(self, Manner::Reads)
    }
}

/// A holder of a lock.
#[derive(Clone, Copy, Debug, PartialEq, Eq)]
pub struct Holder {
    /// The waiter that holds.
    pub waiter: Waiter,
    /// How it holds.
    pub manner: Manner,
}
