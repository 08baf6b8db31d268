//! A walk that C holds.

ghost use Rattle.std.specs.Prelude.{◌≡◌, Option};
ghost use Rattle.jsonpath_c.specs.Words.{coded_option, held};
ghost use Rattle.jsonpath_c.specs.contracts.handle.walk.HeldWalk.{the_row};
ghost use Rattle.jsonpath_c.specs.declared.handle.walk.HeldWalk.{HeldWalk};

use nullable_box::{Handle, NullableBox};
use serde_json_path::Walk;
use serde_json_path::functions::CachedPatterns;
use std::marker::Model;

/// A walk over the nodes that a path selects from a document, which C lends until it frees the walk.
#[derive(Drop)]
pub struct HeldWalk {
    /// The nodes that remain.
    pub walk: Walk<'static, 'static, CachedPatterns<'static>>,
}

/// A walk that C holds by a pointer, or nothing, where the pointer is null.
#[repr(C)]
pub struct WalkHandle {
    at: *mut u8,
    /// What it holds.
    pub ghost value: { Option HeldWalk } by { coded_option (the_row).coded },
}

impl Model for WalkHandle {
    ghost also_owns = { λ handle. held the_row handle.at handle.value };
}

impl Handle for WalkHandle {
    type Held = HeldWalk;

    ghost holds = { λ handle. handle.value };

    fn of(value: NullableBox<HeldWalk>) -> WalkHandle
        ensures { result.value ≡ value.value }
    {
        let NullableBox { at } = value;
        WalkHandle { at: at as *mut u8 }
    }

    fn into_nullable(self) -> NullableBox<HeldWalk>
        ensures { result.value ≡ self.value }
    {
        let WalkHandle { at } = self;
        NullableBox {
            at: at as *mut HeldWalk,
        }
    }
}
