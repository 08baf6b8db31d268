//! Nodes that outlive their document.

ghost use Rattle.std.specs.Prelude.{◌≡◌, ◌++◌, ◌∷◌, [], ◌==◌, length, slice_get, IfOk, OnOk, OnErr, option_map, option_and_then};
ghost use Rattle.jsonpath_owned_nodes.specs.Words.{view};

use crate::node_info::NodeInfo;
use crate::runs::Runs;
use crate::stored_location::{child, push_location};
use crate::stored_step::{StoredStep, element_of};
use serde_json::Value;
use serde_json_path_nodes::{LocatedNode, NormalizedPath};
use std::alloc::{AllocError, Global};
use std::marker::Model;

/// A list of nodes that borrows nothing. Of each node it keeps the location and a [`NodeInfo`], and not the value.
///
/// All steps stand in one vector and all names in one text, so a node takes no memory of its own. Contracts see the list
/// of what is kept of each node.
#[derive(Drop)]
pub struct OwnedNodes {
    infos: Vec<NodeInfo>,
    locations: Runs<StoredStep>,
    /// The names of all locations.
    names: String,
}

impl Model for OwnedNodes {
    ghost use Rattle.std.specs.Prelude.{List, string_bytes};
    ghost use Rattle.jsonpath_owned_nodes.specs.Kept.{KeptNode};

    ghost Value = { List KeptNode };

    ghost use Rattle.jsonpath_owned_nodes.specs.Inside.Stored.{nodes_in, AreParts};

    ghost view = { λ nodes.
        nodes_in (string_bytes nodes.names) nodes.locations.ended nodes.infos.items };

    ghost invariant = { λ nodes.
        AreParts (string_bytes nodes.names) nodes.locations.ended nodes.infos.items };
}

#[tactic(auto, using(crate::proofs::Kept::of_nodes))]
impl OwnedNodes {
    ghost use Rattle.jsonpath_owned_nodes.specs.Words.{located, kept, known_of, location_of, value_in};

    /// A list of no nodes. Takes no memory.
    pub fn new(alloc: Global) -> OwnedNodes
        ensures { result ≡ [] }
    {
        OwnedNodes {
            infos: Vec::new(alloc),
            locations: Runs::new(alloc),
            names: String::new(alloc),
        }
    }

    /// How many nodes there are, duplicates counted.
    pub fn len(&self) -> usize
        ensures { result ≡ length self.now }
    {
        self.infos.len()
    }

    /// Whether there is no node.
    pub fn is_empty(&self) -> bool
        ensures { result ≡ (length self.now == 0) }
    {
        self.infos.is_empty()
    }

    /// Appends a node.
    ///
    /// An error comes only where memory is refused; the list has the same nodes then.
    pub fn push(&mut self, node: &LocatedNode<'_>) -> Result<(), AllocError>
        ensures ok { OnOk result (self.new ≡ self.old ++ kept (located node.now) ∷ []) }
        ensures err { OnErr result (self.new ≡ self.old) }
    {
        // With room for the info, nothing is refused once the location is stored.
        self.infos.reserve(1)?;
        push_location(&mut self.locations, &mut self.names, node.location())?;
        self.infos.push_reserved(NodeInfo::of(node.node()));
        Ok(())
    }

    /// What is known of the node at `index`, from 0, or `None` past the last.
    pub fn get(&self, index: usize) -> Option<NodeInfo>
        ensures { result ≡ option_map known_of (slice_get self.now index) }
    {
        self.infos.get(index).copied()
    }

    /// The location of the node at `index`, from 0, or `None` past the last.
    ///
    /// An error comes only where memory is refused.
    pub fn location(
        &self,
        alloc: Global,
        index: usize,
    ) -> Result<Option<NormalizedPath<'_>>, AllocError>
        ensures { IfOk result
            (λ location. location ≡ option_map location_of (slice_get self.now index)) }
    {
        let Some(steps) = self.locations.get(index) else {
            return Ok(None);
        };
        let names = self.names.as_str();
        let mut elements = Vec::with_capacity(alloc, steps.len())?;
        for step in steps {
            elements.push(element_of(names, *step))?;
        }
        Ok(Some(NormalizedPath::from_steps(elements)))
    }

    /// The value in this document at the location of the node at `index`, from 0. `None` where the document has no value
    /// there, and past the last node.
    pub fn value_in<'d>(&self, index: usize, document: &'d Value) -> Option<&'d Value>
        ensures { option_map (λ value. view value.now) result
            ≡ option_and_then (value_in (view document.now)) (slice_get self.now index) }
    {
        let steps = self.locations.get(index)?;
        let names = self.names.as_str();
        let mut value = document;
        for step in steps {
            value = child(value, names, *step)?;
        }
        Some(value)
    }
}
