//! Iterators over locations and lists. Each knows exactly how many items remain.

ghost use Rattle.std.specs.Prelude.{◌≡◌, ◌≤◌, length, map, IfSome};
ghost use Rattle.std.specs.Iterator.{YieldsFirstRef, UpTo, at_most, item_count};

use crate::located_node::LocatedNode;
use crate::normalized_path::NormalizedPath;
use crate::path_element::PathElement;
use serde_json::Value;
use std::marker::Model;
use std::slice;

/// The elements of a location, by value, from the root on. Made by `NormalizedPath::iter`.
///
/// Contracts see it as the list of the remaining steps.
#[derive(Drop)]
pub struct PathElements<'a, 'b> {
    left: slice::Iter<'a, PathElement<'b>>,
}

impl<'a, 'b> Model for PathElements<'a, 'b> {
    ghost use Rattle.std.specs.Prelude.{List, map};
    ghost use Rattle.std.specs.Slice.Iter.{iter_rest};
    ghost use Rattle.serde_json_path_nodes.specs.Location.{Step};

    ghost Value = { List Step };

    ghost use Rattle.serde_json_path_nodes.specs.Views.{step_view};

    ghost view = { λ it. map step_view (iter_rest it.left) };
}

impl<'a, 'b> PathElements<'a, 'b> {
    ghost use Rattle.serde_json_path_nodes.specs.Views.{step_view};

    /// Iterates over the elements, in order.
    pub(crate) fn new(elements: &'a [PathElement<'b>]) -> PathElements<'a, 'b>
        ensures { result ≡ map step_view elements.now }
    {
        PathElements {
            left: elements.iter(),
        }
    }
}

impl<'a, 'b> Iterator for PathElements<'a, 'b> {
    ghost use Rattle.serde_json_path_nodes.specs.Words.{YieldsFirstBy, item_count, step_view};

    type Item = PathElement<'b>;

    ghost next_gives = { YieldsFirstBy step_view (λ left. left) };

    ghost remaining = { item_count (λ left. left) };

    fn next(&mut self) -> Option<PathElement<'b>> {
        self.left.next().copied()
    }

    fn size_hint(&self) -> (usize, Option<usize>)
        ensures lower { result.0 ≤ length self.now }
        ensures upper { IfSome result.1 (UpTo (at_most (length self.now))) }
        ensures exact { result ≡ (length self.now, Some (length self.now)) }
    {
        let len = self.left.len();
        (len, Some(len))
    }
}

impl<'a, 'b> ExactSizeIterator for PathElements<'a, 'b> {
    fn len(&self) -> usize {
        self.left.len()
    }
}

/// The nodes of a located list with their locations, in order. Made by `LocatedNodeList::iter`.
#[derive(Drop)]
pub struct LocatedNodes<'a, 'b> {
    left: slice::Iter<'a, LocatedNode<'b>>,
}

impl<'a, 'b> LocatedNodes<'a, 'b> {
    ghost use Rattle.serde_json_path_nodes.specs.Views.{located, located_nodes_left};

    /// Iterates over the nodes, in order.
    pub(crate) fn new(nodes: &'a [LocatedNode<'b>]) -> LocatedNodes<'a, 'b>
        ensures { located_nodes_left result ≡ map located nodes.now }
    {
        LocatedNodes { left: nodes.iter() }
    }
}

impl<'a, 'b> Iterator for LocatedNodes<'a, 'b> {
    ghost use Rattle.serde_json_path_nodes.specs.Words.{YieldsFirstBy, item_count, located, located_nodes_left};

    type Item = &'a LocatedNode<'b>;

    ghost next_gives = { YieldsFirstBy (λ node. located node.now) located_nodes_left };

    ghost remaining = { item_count located_nodes_left };

    fn next(&mut self) -> Option<&'a LocatedNode<'b>> {
        self.left.next()
    }

    fn size_hint(&self) -> (usize, Option<usize>)
        ensures lower { result.0 ≤ length (located_nodes_left self.now) }
        ensures upper { IfSome result.1 (UpTo (at_most (length (located_nodes_left self.now)))) }
        ensures exact { result
            ≡ (length (located_nodes_left self.now), Some (length (located_nodes_left self.now))) }
    {
        let len = self.left.len();
        (len, Some(len))
    }
}

impl<'a, 'b> ExactSizeIterator for LocatedNodes<'a, 'b> {
    fn len(&self) -> usize {
        self.left.len()
    }
}

/// The nodes of a list, in order. Made by `NodeList::iter` and `LocatedNodeList::nodes`.
#[derive(Drop)]
pub struct Nodes<'a, 'b> {
    store: Store<'a, 'b>,
}

/// The remaining nodes, of either kind of list.
#[derive(Drop)]
enum Store<'a, 'b> {
    Plain(slice::Iter<'a, &'b Value>),
    Located(LocatedNodes<'a, 'b>),
}

impl<'a, 'b> Nodes<'a, 'b> {
    ghost use Rattle.serde_json_path_nodes.specs.Views.{node_value, node_values_left, value_of, located_nodes_left};

    /// Iterates over the nodes, in order.
    pub(crate) fn of_nodes(nodes: &'a [&'b Value]) -> Nodes<'a, 'b>
        ensures { node_values_left result ≡ map node_value nodes.now }
    {
        Nodes {
            store: Store::Plain(nodes.iter()),
        }
    }

    /// Iterates over the nodes without their locations, in order.
    pub(crate) fn of_located(located: LocatedNodes<'a, 'b>) -> Nodes<'a, 'b>
        ensures { node_values_left result ≡ map value_of (located_nodes_left located.entry) }
    {
        Nodes {
            store: Store::Located(located),
        }
    }
}

impl<'a, 'b> Iterator for Nodes<'a, 'b> {
    ghost use Rattle.serde_json_path_nodes.specs.Words.{YieldsFirstBy, item_count, node_value, node_values_left};

    type Item = &'b Value;

    ghost next_gives = { YieldsFirstBy node_value node_values_left };

    ghost remaining = { item_count node_values_left };

    fn next(&mut self) -> Option<&'b Value> {
        match &mut self.store {
            Store::Plain(nodes) => nodes.next().copied(),
            Store::Located(nodes) => Some(nodes.next()?.node()),
        }
    }

    fn size_hint(&self) -> (usize, Option<usize>)
        ensures lower { result.0 ≤ length (node_values_left self.now) }
        ensures upper { IfSome result.1 (UpTo (at_most (length (node_values_left self.now)))) }
        ensures exact { result
            ≡ (length (node_values_left self.now), Some (length (node_values_left self.now))) }
    {
        let len = self.len();
        (len, Some(len))
    }
}

impl<'a, 'b> ExactSizeIterator for Nodes<'a, 'b> {
    fn len(&self) -> usize {
        match &self.store {
            Store::Plain(nodes) => nodes.len(),
            Store::Located(nodes) => nodes.len(),
        }
    }
}

/// The locations of a located list, in order. Made by `LocatedNodeList::locations`.
///
/// Contracts see it as the list of the remaining locations.
#[derive(Drop)]
pub struct Locations<'a, 'b> {
    left: slice::Iter<'a, LocatedNode<'b>>,
}

impl<'a, 'b> Model for Locations<'a, 'b> {
    ghost use Rattle.std.specs.Prelude.{List, map};
    ghost use Rattle.std.specs.Slice.Iter.{iter_rest};
    ghost use Rattle.serde_json_path_nodes.specs.Location.{Step};

    ghost Value = { List (List Step) };

    ghost use Rattle.serde_json_path_nodes.specs.Views.{located, location_of};

    ghost view = { λ it. map location_of (map located (iter_rest it.left)) };
}

impl<'a, 'b> Locations<'a, 'b> {
    ghost use Rattle.serde_json_path_nodes.specs.Views.{located, location_of};

    /// Iterates over the locations of the nodes, in order.
    pub(crate) fn new(nodes: &'a [LocatedNode<'b>]) -> Locations<'a, 'b>
        ensures { result ≡ map location_of (map located nodes.now) }
    {
        Locations { left: nodes.iter() }
    }
}

impl<'a, 'b> Iterator for Locations<'a, 'b> {
    type Item = &'a NormalizedPath<'b>;

    ghost next_gives = { YieldsFirstRef (λ left. left) };

    ghost remaining = { item_count (λ left. left) };

    fn next(&mut self) -> Option<&'a NormalizedPath<'b>> {
        Some(self.left.next()?.location())
    }

    fn size_hint(&self) -> (usize, Option<usize>)
        ensures lower { result.0 ≤ length self.now }
        ensures upper { IfSome result.1 (UpTo (at_most (length self.now))) }
        ensures exact { result ≡ (length self.now, Some (length self.now)) }
    {
        let len = self.left.len();
        (len, Some(len))
    }
}

impl<'a, 'b> ExactSizeIterator for Locations<'a, 'b> {
    fn len(&self) -> usize {
        self.left.len()
    }
}
