//! A box as the pointer to its value, and back. Code in another language can keep a pointer. It can
//! keep no box.
#![tactic(auto)]

ghost use Rattle.std.specs.Prelude.{◌≡◌};
ghost use Rattle.std.specs.Box.Ownership.{box_owns};

use std::alloc::Allocator;
use std::marker::Model;

/// The pointer to a value on the heap, with the right to free it. It owns what a box of that value owns.
/// A parcel that is never unpacked is never freed.
pub struct Parcel<T, A: Allocator> {
    /// Where the value lies.
    pub at: *mut T,
    /// The allocator that frees it.
    pub alloc: A,
    pub ghost value: { T },
}

impl<T, A: Allocator> Model for Parcel<T, A> {
    ghost also_owns = { λ p. box_owns (A.dealloc_token p.alloc) T.row p.at p.value };
}

impl<T, A: Allocator> Parcel<T, A> {
    /// The parcel of a box.
    pub fn pack(whole: Box<T, A>) -> Parcel<T, A>
    where
        T: Drop,
        ensures { result.value ≡ whole.value }
    {
        let (at, alloc) = Box::into_raw_with_allocator(whole);
        Parcel { at, alloc }
    }

    /// The box of a parcel.
    pub fn unpack(self) -> Box<T, A>
        ensures { result.value ≡ self.value }
    {
        let Parcel { at, alloc } = self;
        unsafe { Box::from_raw(alloc, at) }
    }
}
