//! A box of the heap, or nothing, as one pointer.

ghost use Rattle.std.specs.Prelude.{◌≡◌, Option, Some, None};
ghost use Rattle.std.specs.Coded.{coded_option};
ghost use Rattle.std.specs.Option.{MatchOption};
ghost use Rattle.nullable_box.specs.Held.{held};

use std::alloc::Global;
use std::marker::Model;
use std::ptr::null_mut;

/// A box of the heap, or nothing, as one pointer, which is null where there is nothing.
pub struct NullableBox<T> {
    /// Where the value is.
    pub at: *mut T,
    /// The value, if there is one.
    pub ghost value: { Option T } by { coded_option T.code },
}

impl<T> Model for NullableBox<T> {
    ghost also_owns = { λ b. held T.row b.at b.value };
}

impl<T> NullableBox<T> {
    /// Nothing.
    pub fn none() -> NullableBox<T>
        ensures { result.value ≡ None }
    {
        NullableBox { at: null_mut() }
    }
}

impl<T: Drop> NullableBox<T> {
    /// A box.
    pub fn of(value: Box<T, Global>) -> NullableBox<T>
        ensures { result.value ≡ Some value.value }
    {
        NullableBox {
            at: Box::into_raw(value),
        }
    }

    /// The box, if there is one.
    pub fn into_box(self, alloc: Global) -> Option<Box<T, Global>>
        ensures { MatchOption result (self.value ≡ None) (λ b. self.value ≡ Some b.value) }
    {
        let NullableBox { at } = self;
        if at.is_null() {
            return None;
        }
        Some(unsafe { Box::from_raw(alloc, at) })
    }
}
