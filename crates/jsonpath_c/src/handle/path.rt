//! A path that C holds.

ghost use Rattle.std.specs.Prelude.{◌≡◌, Option};
ghost use Rattle.jsonpath_c.specs.Words.{coded_option, held, lent};
ghost use Rattle.jsonpath_c.specs.contracts.compiled.Compiled.{the_row};
ghost use Rattle.jsonpath_c.specs.declared.compiled.Compiled.{Compiled};

use crate::compiled::Compiled;
use nullable_box::{Handle, Lent, NullableBox, NullableRef};
use std::marker::{Model, Send};

/// A path that C holds by a pointer, or nothing, where the pointer is null.
#[repr(C)]
pub struct PathHandle {
    at: *mut u8,
    /// What it holds.
    pub ghost value: { Option Compiled } by { coded_option (the_row).coded },
}

impl Model for PathHandle {
    ghost also_owns = { λ handle. held the_row handle.at handle.value };
}

unsafe impl Send for PathHandle {}

impl Handle for PathHandle {
    type Held = Compiled;

    ghost holds = { λ handle. handle.value };

    fn of(value: NullableBox<Compiled>) -> PathHandle
        ensures { result.value ≡ value.value }
    {
        let NullableBox { at } = value;
        PathHandle { at: at as *mut u8 }
    }

    fn into_nullable(self) -> NullableBox<Compiled>
        ensures { result.value ≡ self.value }
    {
        let PathHandle { at } = self;
        NullableBox {
            at: at as *mut Compiled,
        }
    }
}

/// A path that C lends for a call by a pointer, or nothing, where the pointer is null.
#[repr(C)]
#[derive(Drop)]
pub struct PathRef {
    at: *const u8,
    /// What it lends.
    pub ghost value: { Option Compiled } by { coded_option (the_row).coded },
}

impl Model for PathRef {
    ghost also_owns = { λ handle. lent the_row handle.at handle.value };
}

unsafe impl Send for PathRef {}

impl Lent for PathRef {
    type Held = Compiled;

    ghost lends = { λ handle. handle.value };

    fn into_nullable(self) -> NullableRef<Compiled>
        ensures { result.value ≡ self.value }
    {
        let PathRef { at } = self;
        NullableRef {
            at: at as *const Compiled,
        }
    }
}
