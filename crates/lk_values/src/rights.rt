// Who may have a value out.
ghost use Rattle.std.specs.Prelude.{ℕ, List};

/// What a table's rule knows of the locks whose values lie in its slots.
pub trait Rights<S, V> {
    // How many slots the table has of its own, before those of the locks.
    ghost own: { ℕ };

    // How many locks it has.
    ghost locks: { ℕ };

    // A seat with this view holds the lock alone.
    ghost alone: { ℕ → V → Type 0 };

    // The locks whose values a seat with this view has out, the newest first.
    ghost outs: { V → List ℕ };

    // What may lie under the lock.
    ghost fits: { ℕ → S → Type 0 };
}
