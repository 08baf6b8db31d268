//! A list of nodes that is filled within limits.

ghost use Rattle.std.specs.Prelude.{◌≡◌, ◌<◌, ◌+◌, ◌++◌, ◌∷◌, [], Ok, true, false};
ghost use Rattle.jsonpath_c.specs.Clauses.{MatchOption, located, kept, name_bytes, HasNoRoomFor, IsLeftAfter};

use crate::limits::Limits;
use jsonpath_owned_nodes::OwnedNodes;
use serde_json_path::{LocatedNode, NormalizedPath, PathElement};
use std::alloc::{AllocError, Global};

/// What is left of so many bytes after the names of a location have taken theirs, or `None` where these are too few.
fn without_names(bytes: usize, location: &NormalizedPath<'_>) -> Option<usize>
    ensures { MatchOption result (bytes < name_bytes location.now)
        (λ left. left + name_bytes location.now ≡ bytes) }
{
    let mut left = bytes;
    for element in location.iter() {
        if let PathElement::Name(name) = element {
            left = left.checked_sub(name.len())?;
        }
    }
    Some(left)
}

/// A list of nodes, and what limits leave for more.
#[derive(Drop)]
pub(crate) struct BoundedList {
    /// The nodes.
    pub(crate) nodes: OwnedNodes,
    /// How many nodes, and bytes of names, there is room for.
    pub(crate) left: Limits,
}

impl BoundedList {
    /// A list of no nodes within limits. Takes no memory.
    pub(crate) fn new(alloc: Global, limits: &Limits) -> BoundedList
        ensures nodes { result.nodes ≡ [] }
        ensures left { result.left ≡ limits.now }
    {
        BoundedList {
            nodes: OwnedNodes::new(alloc),
            left: *limits,
        }
    }

    /// Appends a node, and says whether there was room for it. Where there was none, nothing changes.
    pub(crate) fn push(&mut self, node: &LocatedNode<'_>) -> Result<bool, AllocError>
        ensures pushed { result ≡ Ok true
            → (self.new.nodes ≡ self.old.nodes ++ kept (located node.now) ∷ [])
            × IsLeftAfter (located node.now) self.old.left self.new.left }
        ensures full { result ≡ Ok false → HasNoRoomFor (located node.now) self.old.left
            × (self.new.nodes ≡ self.old.nodes) × (self.new.left ≡ self.old.left) }
    {
        let Some(nodes) = self.left.nodes.checked_sub(1) else {
            return Ok(false);
        };
        let Some(bytes) = without_names(self.left.bytes, node.location()) else {
            return Ok(false);
        };
        self.nodes.push(node)?;
        self.left = Limits { nodes, bytes };
        Ok(true)
    }
}
