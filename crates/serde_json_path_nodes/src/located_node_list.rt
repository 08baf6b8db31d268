//! Nodes with their locations.

ghost use Rattle.std.specs.Prelude.{◌≡◌, ◌==◌, length, map, option_map, IfOk, IfErr};
ghost use Rattle.serde_json_path_nodes.specs.Words.{located, location_of, first_places, AreNumbered};

use crate::error::{AtMostOneError, ExactlyOneError};
use crate::iterators::{LocatedNodes, Locations, Nodes};
use crate::located_node::LocatedNode;
use crate::normalized_path::NormalizedPath;

/// The nodes that a query selects with their locations, in order; a node may be in it more than once (RFC 9535,
/// section 1.1).
#[derive(Drop)]
pub struct LocatedNodeList<'b> {
    nodes: Vec<LocatedNode<'b>>,
}

impl<'b> From<Vec<LocatedNode<'b>>> for LocatedNodeList<'b> {
    ghost use Rattle.std.specs.Prelude.{◌≡◌, map};
    ghost use Rattle.serde_json_path_nodes.specs.Views.{located, located_nodes};

    ghost from_gives = { λ nodes list. located_nodes list ≡ map located nodes.items };

    /// The list of these nodes. Takes no memory.
    fn from(nodes: Vec<LocatedNode<'b>>) -> LocatedNodeList<'b> {
        LocatedNodeList { nodes }
    }
}

impl<'b> LocatedNodeList<'b> {
    ghost use Rattle.serde_json_path_nodes.specs.Words.{located, located_nodes, located_nodes_left, location_of, value_of, node_values_left, first_places, at_most_one_of, exactly_one_of};

    /// How many entries there are, duplicates counted.
    pub fn len(&self) -> usize
        ensures { result ≡ length (located_nodes self.now) }
    {
        self.nodes.len()
    }

    /// Whether there is no entry.
    pub fn is_empty(&self) -> bool
        ensures { result ≡ (length (located_nodes self.now) == 0) }
    {
        self.nodes.is_empty()
    }

    /// The nodes with their locations, in order.
    pub fn iter(&self) -> LocatedNodes<'_, 'b>
        ensures { located_nodes_left result ≡ located_nodes self.now }
    {
        LocatedNodes::new(self.nodes.as_slice())
    }

    /// The nodes with their locations as a vector, in order. Takes no memory.
    pub fn all(self) -> Vec<LocatedNode<'b>>
        ensures { map located result.items ≡ located_nodes self.entry }
    {
        self.nodes
    }

    /// The nodes alone, in order.
    pub fn nodes(&self) -> Nodes<'_, 'b>
        ensures { node_values_left result ≡ map value_of (located_nodes self.now) }
    {
        Nodes::of_located(self.iter())
    }

    /// The locations alone, in order.
    pub fn locations(&self) -> Locations<'_, 'b>
        ensures { result ≡ map location_of (located_nodes self.now) }
    {
        Locations::new(self.nodes.as_slice())
    }

    /// Removes each entry whose location occurs earlier in the list; the others keep their order.
    ///
    /// Works in place and takes no memory. It sorts the entries by location and then back, so the time grows
    /// with the number of entries times its logarithm.
    pub fn dedup(mut self) -> LocatedNodeList<'b>
        ensures { located_nodes result ≡ first_places (located_nodes self.entry) }
    {
        number_nodes(self.nodes.as_mut_slice());
        // Entries of one location are now together, the first of them in front.
        self.nodes.sort_unstable_by(|a, b| a.compare(b));
        self.nodes
            .dedup_by(|next, kept| next.location() == kept.location());
        self.nodes.sort_unstable_by_key(|node| node.number());
        self
    }

    /// The only node with its location, or `None` if the list is empty.
    ///
    /// For more than one node the error says how many there are.
    pub fn at_most_one(mut self) -> Result<Option<LocatedNode<'b>>, AtMostOneError>
        ensures ok { IfOk result (λ node.
            at_most_one_of (located_nodes self.entry) ≡ Ok (option_map located node)) }
        ensures err { IfErr result (λ error.
            at_most_one_of (located_nodes self.entry) ≡ Err error) }
    {
        let found = self.len();
        if found > 1 {
            return Err(AtMostOneError(found));
        }
        Ok(self.nodes.pop())
    }

    /// The only node with its location.
    ///
    /// The error is `Empty` for an empty list; for more than one node it is `MoreThanOne`, and says how many there are.
    pub fn exactly_one(mut self) -> Result<LocatedNode<'b>, ExactlyOneError>
        ensures ok { IfOk result (λ node.
            exactly_one_of (located_nodes self.entry) ≡ Ok (located node)) }
        ensures err { IfErr result (λ error.
            exactly_one_of (located_nodes self.entry) ≡ Err error) }
    {
        let found = self.len();
        if found > 1 {
            return Err(ExactlyOneError::MoreThanOne(found));
        }
        self.nodes.pop().ok_or(ExactlyOneError::Empty)
    }
}

/// Gives each node its index in the list as its number.
fn number_nodes<'b>(nodes: &mut [LocatedNode<'b>])
    ensures numbered { AreNumbered nodes.new }
    ensures same { map located nodes.new ≡ map located nodes.old }
{
    for (number, node) in nodes.iter_mut().enumerate() {
        node.set_number(number);
    }
}
