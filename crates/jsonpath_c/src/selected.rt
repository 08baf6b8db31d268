//! Lists of nodes within limits.

ghost use Rattle.std.specs.Prelude.{◌≡◌, List};
ghost use Rattle.jsonpath_c.specs.Clauses.{AreFirstNodes, AreLeft, IfOk, Located, OnlyMemoryOrPattern, document_of, first_places, kept, located, map, query_of, rest, set_of};

use crate::bounded_list::BoundedList;
use crate::limits::Limits;
use jsonpath_lines::distinct_nodes;
use jsonpath_owned_nodes::OwnedNodes;
use serde_json_path::functions::Functions;
use serde_json_path::{LocatedNode, QueryError, Walk};
use std::alloc::{AllocError, Global};

/// Nodes, as many as limits allow.
#[derive(Drop)]
pub(crate) struct FirstNodes {
    /// The nodes.
    pub(crate) nodes: OwnedNodes,
    /// Whether these are all.
    pub(crate) all: bool,
}

/// The first nodes that remain of a walk, as many as the limits allow. The walk goes no further than the node that would go
/// beyond.
pub(crate) fn first_nodes<F: Functions + Drop>(
    alloc: Global,
    limits: &Limits,
    walk: &mut Walk<'_, '_, F>,
) -> Result<FirstNodes, QueryError>
    ensures nodes { IfOk result (λ first.
        AreFirstNodes limits.now (rest walk.old) first.nodes first.all) }
    ensures stops { IfOk result (λ first. (shown : List Located)
        × (first.nodes ≡ map kept shown)
        × AreLeft (rest walk.old) shown first.all (rest walk.new)) }
    ensures refused { OnlyMemoryOrPattern (set_of walk.old) (query_of walk.old)
        (document_of walk.old) result }
{
    let mut bounded_list = BoundedList::new(alloc, limits);
    let mut steps = Vec::new(alloc);
    'nodes: while let Some(node) = walk.next_into(steps)? {
        if !bounded_list.push(&node)? {
            return Ok(FirstNodes {
                nodes: bounded_list.nodes,
                all: false,
            });
        }
        steps = node.into_steps();
    }
    Ok(FirstNodes {
        nodes: bounded_list.nodes,
        all: true,
    })
}

/// The first of some nodes, as many as the limits allow.
fn first_of(
    alloc: Global,
    limits: &Limits,
    found: &[LocatedNode<'_>],
) -> Result<FirstNodes, AllocError>
    ensures { IfOk result (λ first.
        AreFirstNodes limits.now (map located found.now) first.nodes first.all) }
{
    let mut bounded_list = BoundedList::new(alloc, limits);
    for node in found {
        if !bounded_list.push(node)? {
            return Ok(FirstNodes {
                nodes: bounded_list.nodes,
                all: false,
            });
        }
    }
    Ok(FirstNodes {
        nodes: bounded_list.nodes,
        all: true,
    })
}

/// The first nodes that remain of a walk, each location once, as many as the limits allow.
pub(crate) fn first_unique_nodes<F: Functions + Drop>(
    alloc: Global,
    limits: &Limits,
    walk: Walk<'_, '_, F>,
) -> Result<FirstNodes, QueryError>
    ensures nodes { IfOk result (λ first.
        AreFirstNodes limits.now (first_places (rest walk.entry)) first.nodes first.all) }
    ensures refused { OnlyMemoryOrPattern (set_of walk.entry) (query_of walk.entry)
        (document_of walk.entry) result }
{
    let found = distinct_nodes(alloc, Some(limits.nodes as u64), walk)?;
    Ok(first_of(alloc, limits, found.as_slice())?)
}
