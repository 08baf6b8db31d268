//! Nodes that C holds.

ghost use Rattle.std.specs.Prelude.{◌≡◌, Option};
ghost use Rattle.jsonpath_c.specs.Words.{coded_option, held, lent};
ghost use Rattle.jsonpath_c.specs.contracts.handle.nodes.Nodes.{the_row};
ghost use Rattle.jsonpath_c.specs.declared.handle.nodes.Nodes.{Nodes};

use jsonpath_owned_nodes::OwnedNodes;
use nullable_box::{Handle, Lent, NullableBox, NullableRef};
use std::marker::{Model, Send};

/// Nodes that a path selected from a document.
#[derive(Drop)]
pub struct Nodes {
    /// Which they are.
    pub nodes: OwnedNodes,
}

/// Nodes that C holds by a pointer, or nothing, where the pointer is null.
#[repr(C)]
pub struct NodesHandle {
    at: *mut u8,
    /// What it holds.
    pub ghost value: { Option Nodes } by { coded_option (the_row).coded },
}

impl Model for NodesHandle {
    ghost also_owns = { λ handle. held the_row handle.at handle.value };
}

unsafe impl Send for NodesHandle {}

impl Handle for NodesHandle {
    type Held = Nodes;

    ghost holds = { λ handle. handle.value };

    fn of(value: NullableBox<Nodes>) -> NodesHandle
        ensures { result.value ≡ value.value }
    {
        let NullableBox { at } = value;
        NodesHandle { at: at as *mut u8 }
    }

    fn into_nullable(self) -> NullableBox<Nodes>
        ensures { result.value ≡ self.value }
    {
        let NodesHandle { at } = self;
        NullableBox {
            at: at as *mut Nodes,
        }
    }
}

/// Nodes that C lends for a call by a pointer, or nothing, where the pointer is null.
#[repr(C)]
#[derive(Drop)]
pub struct NodesRef {
    at: *const u8,
    /// What it lends.
    pub ghost value: { Option Nodes } by { coded_option (the_row).coded },
}

impl Model for NodesRef {
    ghost also_owns = { λ handle. lent the_row handle.at handle.value };
}

unsafe impl Send for NodesRef {}

impl Lent for NodesRef {
    type Held = Nodes;

    ghost lends = { λ handle. handle.value };

    fn into_nullable(self) -> NullableRef<Nodes>
        ensures { result.value ≡ self.value }
    {
        let NodesRef { at } = self;
        NullableRef {
            at: at as *const Nodes,
        }
    }
}
