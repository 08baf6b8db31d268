//! Nodes without their locations.

ghost use Rattle.std.specs.Prelude.{◌≡◌, ◌==◌, length, map, option_map, slice_get, IfOk, IfErr};

use crate::error::{AtMostOneError, ExactlyOneError};
use crate::iterators::Nodes;
use serde_json::Value;

/// The nodes that a query selects, in order; a node may be in it more than once (RFC 9535, section 1.1).
#[derive(Drop)]
pub struct NodeList<'b> {
    nodes: Vec<&'b Value>,
}

impl<'b> From<Vec<&'b Value>> for NodeList<'b> {
    ghost use Rattle.std.specs.Prelude.{◌≡◌, map};
    ghost use Rattle.serde_json_path_nodes.specs.Views.{node_value, node_values};

    ghost from_gives = { λ nodes list. node_values list ≡ map node_value nodes.items };

    /// The list of these nodes. Takes no memory.
    fn from(nodes: Vec<&'b Value>) -> NodeList<'b> {
        NodeList { nodes }
    }
}

impl<'b> NodeList<'b> {
    ghost use Rattle.serde_json_path_nodes.specs.Words.{node_value, node_values, node_values_left, at_most_one_of, exactly_one_of};

    /// The nodes as a vector, in order. Takes no memory.
    pub fn all(self) -> Vec<&'b Value>
        ensures { map node_value result.items ≡ node_values self.entry }
    {
        self.nodes
    }

    /// The first node, or `None` if the list is empty.
    pub fn first(&self) -> Option<&'b Value>
        ensures { option_map node_value result ≡ slice_get (node_values self.now) 0 }
    {
        self.nodes.first().copied()
    }

    /// How many nodes there are, duplicates counted.
    pub fn len(&self) -> usize
        ensures { result ≡ length (node_values self.now) }
    {
        self.nodes.len()
    }

    /// Whether there is no node.
    pub fn is_empty(&self) -> bool
        ensures { result ≡ (length (node_values self.now) == 0) }
    {
        self.nodes.is_empty()
    }

    /// The nodes in order.
    pub fn iter(&self) -> Nodes<'_, 'b>
        ensures { node_values_left result ≡ node_values self.now }
    {
        Nodes::of_nodes(self.nodes.as_slice())
    }

    /// The only node, or `None` if the list is empty.
    ///
    /// For more than one node the error says how many there are.
    pub fn at_most_one(&self) -> Result<Option<&'b Value>, AtMostOneError>
        ensures ok { IfOk result (λ node.
            at_most_one_of (node_values self.now) ≡ Ok (option_map node_value node)) }
        ensures err { IfErr result (λ error. at_most_one_of (node_values self.now) ≡ Err error) }
    {
        match self.nodes.as_slice() {
            [] => Ok(None),
            [node] => Ok(Some(*node)),
            nodes => Err(AtMostOneError(nodes.len())),
        }
    }

    /// The only node.
    ///
    /// The error is `Empty` for an empty list; for more than one node it is `MoreThanOne`, and says how many there are.
    pub fn exactly_one(&self) -> Result<&'b Value, ExactlyOneError>
        ensures ok { IfOk result (λ node.
            exactly_one_of (node_values self.now) ≡ Ok (node_value node)) }
        ensures err { IfErr result (λ error. exactly_one_of (node_values self.now) ≡ Err error) }
    {
        match self.nodes.as_slice() {
            [] => Err(ExactlyOneError::Empty),
            [node] => Ok(*node),
            nodes => Err(ExactlyOneError::MoreThanOne(nodes.len())),
        }
    }
}
