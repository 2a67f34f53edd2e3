//! A value on the heap as the place at which it stands.
ghost use Rattle.std.specs.Prelude.{◌≡◌};

use std::alloc::Allocator;
use std::marker::Model;

/// A value on the heap, by its place.
pub(crate) struct Room<T, A: Allocator> {
    pub(crate) at: *mut T,
    pub(crate) heap: A,
    pub(crate) ghost value: { T },
}

impl<T, A: Allocator> Model for Room<T, A> {
    ghost use Rattle.std.specs.Box.Ownership.{box_owns};

    ghost also_owns = { λ r. box_owns (A.dealloc_token r.heap) T.row r.at r.value };
}

impl<T: Drop, A: Allocator> Room<T, A> {
    pub(crate) fn of(value: Box<T, A>) -> Room<T, A>
        ensures { result.value ≡ value.value }
    {
        let (at, heap) = Box::into_raw_with_allocator(value);
        Room { at, heap }
    }

    pub(crate) fn into_box(self) -> Box<T, A>
        ensures { result.value ≡ self.value }
    {
        let Room { at, heap } = self;
        unsafe { Box::from_raw(heap, at) }
    }
}
