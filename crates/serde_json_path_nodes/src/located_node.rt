//! A node with its location.

ghost use Rattle.std.specs.Prelude.{◌≡◌, map};
ghost use Rattle.serde_json.specs.View.{view};

use crate::normalized_path::NormalizedPath;
use crate::path_element::PathElement;
use serde_json::Value;
use std::cmp::Ordering;

/// A node of a document with its location (RFC 9535, section 1.1).
///
/// The node and the names of its location borrow the document.
#[derive(Drop)]
pub struct LocatedNode<'b> {
    location: NormalizedPath<'b>,
    node: &'b Value,
    /// The node's index in its list while `LocatedNodeList::dedup` works; without meaning otherwise.
    number: usize,
}

impl<'b> LocatedNode<'b> {
    ghost use Rattle.serde_json_path_nodes.specs.Words.{located, step_view, node_cmp};

    /// The node with this location. Takes no memory.
    pub fn new(location: NormalizedPath<'b>, node: &'b Value) -> LocatedNode<'b>
        ensures { located result ≡ record { location = location.entry; value = view node.now } }
    {
        LocatedNode {
            location,
            node,
            number: 0,
        }
    }

    /// The location of the node.
    pub fn location(&self) -> &NormalizedPath<'b>
        ensures { result.now ≡ (located self.now).location }
    {
        &self.location
    }

    /// The node, borrowed as long as the document is.
    pub fn node(&self) -> &'b Value
        ensures { view result.now ≡ (located self.now).value }
    {
        self.node
    }

    /// The steps of the node's location, in the vector that holds them, so that the next location can have its memory. Takes
    /// no memory.
    pub fn into_steps(self) -> Vec<PathElement<'b>>
        ensures { map step_view result.items ≡ (located self.entry).location }
    {
        self.location.into_steps()
    }

    /// The number that was set last.
    pub(crate) fn number(&self) -> usize
        ensures { result ≡ self.now.number }
    {
        self.number
    }

    /// Sets the node's number, its index in a list.
    pub(crate) fn set_number(&mut self, number: usize)
        ensures numbered { self.new.number ≡ number }
        ensures same { located self.new ≡ located self.old }
    {
        self.number = number;
    }

    /// By location, then by number.
    pub(crate) fn compare(&self, other: &LocatedNode<'b>) -> Ordering
        ensures { result ≡ node_cmp self.now other.now }
    {
        self.location
            .compare(&other.location)
            .then(self.number.cmp(&other.number))
    }
}
