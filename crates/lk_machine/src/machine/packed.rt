// The packed words, and their fields.

ghost use Rattle.std.specs.Prelude.{◌≡◌};
ghost use Rattle.lk_word.specs.SpinWord.{IsPackable};
ghost use Rattle.lk_word.specs.RwWord.{IsPackableRw};
ghost use Rattle.lk_machine.specs.Packed.{fields_in, rw_fields_in, IsPacked, IsPackedRw};
ghost use Rattle.lk_rows.specs.Layouts.{layout_of};

use lk_names::Format;
use lk_word::{Fields, Layout, RwFields, pack, pack_rw, unpack, unpack_rw};

// The layout of the words of a format.
pub(super) fn layout_of(format: Format) -> Layout
    ensures { result ≡ layout_of format }
{
    match format {
        Format::One => Layout::Narrow,
        Format::Two => Layout::Wide,
    }
}

// The fields of the packed word of a spinlock or a wait lock.
#[inline]
pub(super) fn fields_in(layout: Layout, word: u32) -> Fields
    requires { IsPacked layout word }
    ensures fields { result ≡ fields_in layout word }
    ensures packable { IsPackable layout result }
{
    match unpack(layout, word) {
        Some(fields) => fields,
        None => unreachable!(),
    }
}

// The packed word with these fields.
#[inline]
#[tactic(auto, using(crate::proofs::Packed::packing))]
pub(super) fn word_of(layout: Layout, fields: Fields) -> u32
    requires { IsPackable layout fields }
    ensures packed { IsPacked layout result }
    ensures fields { fields_in layout result ≡ fields }
{
    pack(layout, fields)
}

// The fields of the packed word of a reader-writer lock.
#[inline]
pub(super) fn rw_fields_in(word: u32) -> RwFields
    requires { IsPackedRw word }
    ensures fields { result ≡ rw_fields_in word }
    ensures packable { IsPackableRw result }
{
    match unpack_rw(word) {
        Some(fields) => fields,
        None => unreachable!(),
    }
}

// The packed word of a reader-writer lock with these fields.
#[inline]
#[tactic(auto, using(crate::proofs::Packed::packing))]
pub(super) fn rw_word_of(fields: RwFields) -> u32
    requires { IsPackableRw fields }
    ensures packed { IsPackedRw result }
    ensures fields { rw_fields_in result ≡ fields }
{
    pack_rw(fields)
}
