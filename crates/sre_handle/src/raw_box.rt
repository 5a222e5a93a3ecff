//! A box as its raw pointer.

ghost use Rattle.std.specs.Prelude.{◌≡◌};
ghost use Rattle.sre_handle.specs.Heap.{heap_box};

use std::alloc::Global;
use std::marker::Model;

/// A box of the C library's heap, by its pointer.
pub struct RawBox<T> {
    pub at: *mut T,
    pub ghost value: { T },
}

impl<T> Model for RawBox<T> {
    ghost also_owns = { λ b. heap_box T.row b.at b.value };
}

impl<T> RawBox<T> {
    /// The pointer of a box, which owns it from now on.
    pub fn of(value: Box<T>) -> RawBox<T>
    where
        T: Drop,
        ensures { result.value ≡ value.value }
    {
        RawBox {
            at: Box::into_raw(value),
        }
    }

    /// The box again.
    pub fn into_box(self, alloc: Global) -> Box<T>
        ensures { result.value ≡ self.value }
    {
        let RawBox { at } = self;
        unsafe { Box::from_raw(alloc, at) }
    }
}
