//! What is lent, or nothing, as one pointer.

ghost use Rattle.std.specs.Prelude.{◌≡◌, Option, Some, None};
ghost use Rattle.std.specs.Coded.{coded_option};
ghost use Rattle.std.specs.Option.{MatchOption};
ghost use Rattle.nullable_box.specs.Shown.{lent};

use std::marker::Model;

/// A value that is lent, or nothing, as one pointer, which is null where there is nothing.
pub struct NullableRef<T> {
    /// Where the value is.
    pub at: *const T,
    /// The value, if there is one.
    pub ghost value: { Option T } by { coded_option T.code },
}

impl<T> Model for NullableRef<T> {
    ghost also_owns = { λ r. lent T.row r.at r.value };
}

impl<T> NullableRef<T> {
    /// A reference to the value, if there is one.
    pub fn get<'a>(self) -> Option<&'a T>
        ensures { MatchOption result (self.value ≡ None) (λ r. self.value ≡ Some r.now) }
    {
        let NullableRef { at } = self;
        if at.is_null() {
            return None;
        }
        Some(unsafe { &*at })
    }
}
