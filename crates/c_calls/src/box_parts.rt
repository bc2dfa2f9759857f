//! A box in its parts: the pointer, the allocator, and what lies there.
ghost use Rattle.std.specs.Prelude.{◌≡◌};
ghost use Rattle.std.specs.Box.Ownership.{box_owns};

use std::alloc::Allocator;
use std::marker::Model;

/// What a box is made of, with its fields in sight of the modules here.
pub struct BoxParts<T, A: Allocator> {
    pub(crate) ptr: *mut T,
    pub(crate) alloc: A,
    pub ghost value: { T },
}

impl<T, A: Allocator> Model for BoxParts<T, A> {
    ghost also_owns = { λ p. box_owns (A.dealloc_token p.alloc) T.row p.ptr p.value };
}

impl<T, A: Allocator> BoxParts<T, A> {
    /// The parts of a box. They own what the box owned.
    pub fn of(b: Box<T, A>) -> BoxParts<T, A>
    where
        T: Drop,
        ensures { result.value ≡ b.value }
    {
        let (ptr, alloc) = Box::into_raw_with_allocator(b);
        BoxParts { ptr, alloc }
    }

    /// The box of these parts.
    pub fn into_box(self) -> Box<T, A>
        ensures { result.value ≡ self.value }
    {
        let BoxParts { ptr, alloc } = self;
        // SAFETY: what `from_raw` asks for is what the parts own: the value at the pointer, and the right to free
        // its block by this allocator. They are taken apart here, so nobody else has it.
        unsafe { Box::from_raw(alloc, ptr) }
    }
}
