// One place of the table.

ghost use Rattle.std.specs.Prelude.{◌≡◌};
ghost use Rattle.lk_hash.specs.Table.{ends, is_vacant};

/// What stands at a place.
#[derive(Clone, Copy)]
pub(crate) enum Place {
    /// Nothing, from the beginning on: a probe ends here.
    Free,
    /// Nothing any more: a probe goes on, since it may have met an entry here when it entered its own.
    Removed,
    /// A lock, with its node.
    Taken { lock: u32, node: u32 },
}

impl Place {
    /// Whether a probe for a lock ends here: with the lock, or without it.
    pub(crate) fn ends(self, sought: u32) -> bool
        ensures { result ≡ ends sought self }
    {
        match self {
            Place::Free => true,
            Place::Removed => false,
            Place::Taken { lock, .. } => lock == sought,
        }
    }

    /// Whether an entry may come here.
    pub(crate) fn is_vacant(self) -> bool
        ensures { result ≡ is_vacant self }
    {
        !matches!(self, Place::Taken { .. })
    }
}
