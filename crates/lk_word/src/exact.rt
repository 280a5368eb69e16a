//! The law that packing is exact.

ghost use Rattle.std.specs.Prelude.{◌≡◌, ◌≢◌, ◌<◌, ◌^◌, ℕ, IfSome, IfNone};
ghost use Rattle.lk_word.specs.declared.spin_word.Layout.{Layout};
ghost use Rattle.lk_word.specs.declared.spin_word.Fields.{Fields};
ghost use Rattle.lk_word.specs.declared.rw_word.RwFields.{RwFields};
ghost use Rattle.lk_word.specs.SpinWord.{IsPackable, packed, unpacked};
ghost use Rattle.lk_word.specs.RwWord.{IsPackableRw, packed_rw, unpacked_rw};

/// Packing is exact, in each layout of a spinlock's word and for a reader-writer lock's word.
///
/// Different fields pack to different words. A packed word is below 2^32, and unpacks to the
/// fields that it was packed from. A word unpacks to nothing only if no fields pack to it. The
/// function does nothing: its contract is the law.
pub fn packing_is_exact()
    ensures injective { (layout : Layout) (f g : Fields) → IsPackable layout f
        → IsPackable layout g → packed layout f ≡ packed layout g → f ≡ g }
    ensures bounded { (layout : Layout) (f : Fields) → IsPackable layout f
        → packed layout f < 2 ^ 32 }
    ensures unpacks { (layout : Layout) (f : Fields) → IsPackable layout f
        → unpacked layout (packed layout f) ≡ Some f }
    ensures packs { (layout : Layout) (word : ℕ) → word < 2 ^ 32 →
        IfSome (unpacked layout word) (λ f. IsPackable layout f × (packed layout f ≡ word)) }
    ensures refuses { (layout : Layout) (word : ℕ) →
        IfNone (unpacked layout word)
        ((f : Fields) → IsPackable layout f → packed layout f ≢ word) }

    // the same of the reader-writer word, whose readers need no bound but for its 32 bits
    ensures rw_injective { (f g : RwFields) → packed_rw f ≡ packed_rw g → f ≡ g }
    ensures rw_bounded { (f : RwFields) → IsPackableRw f → packed_rw f < 2 ^ 32 }
    ensures rw_unpacks { (f : RwFields) → unpacked_rw (packed_rw f) ≡ Some f }
    ensures rw_packs { (word : ℕ) → word < 2 ^ 32 →
        IfSome (unpacked_rw word) (λ f. IsPackableRw f × (packed_rw f ≡ word)) }
    ensures rw_refuses { (word : ℕ) →
        IfNone (unpacked_rw word) ((f : RwFields) → packed_rw f ≢ word) }
{}
