//! Lists of selected nodes.

ghost use Rattle.std.specs.Prelude.{◌≡◌, ◌≢◌, ◌⊎◌, List, None, Err, IfOk, length, true, false};
ghost use Rattle.jsonpath_c.specs.Clauses.{MatchOption, Located, known_of, AreFirstNodes, CallsByPatternFrom, HasNode, HoldsFirst, IsAsked, IsPast, SelectThose, SelectsFrom, TellsEmpty, asked_of, told_of, view};

use crate::answers::query_status;
use crate::compiled::Compiled;
use crate::handle::document::DocumentRef;
use crate::handle::nodes::{Nodes, NodesHandle, NodesRef};
use crate::handle::path::PathRef;
use crate::limits::Limits;
use crate::node::Node;
use crate::output::put;
use crate::selected::{FirstNodes, first_nodes, first_unique_nodes};
use crate::status::{CUT_SHORT, DONE, EMPTY_HANDLE, NO_MEMORY, NO_SUCH_NODE};
use crate::walks::walk;
use nullable_box::{Handle, Lent, get_both};
use serde_json::Value;
use serde_json_path::QueryError;
use serde_json_path::functions::PatternStore;
use std::alloc::Global;

/// The first nodes that a path selects from a document, as many as the limits allow; each location once, where `unique` is not
/// 0.
fn selected(
    alloc: Global,
    path: &Compiled,
    document: &Value,
    unique: u8,
    limits: &Limits,
) -> Result<FirstNodes, QueryError>
    ensures nodes { IfOk result (λ first. (nodes : List Located)
        × SelectsFrom path.now (view document.now) nodes
        × AreFirstNodes limits.now (asked_of unique nodes) first.nodes first.all) }
    ensures refused { result ≡ Err QueryError.Pattern
        → CallsByPatternFrom path.now (view document.now) }
{
    let store = PatternStore::new();
    let mut nodes = walk(alloc, path, document, &store)?;
    match unique {
        0 => first_nodes(alloc, limits, &mut nodes),
        _ => first_unique_nodes(alloc, limits, nodes),
    }
}

/// Lists the nodes that a path selects from a document, in order; each location once, where `unique` is not 0: 0 with the list
/// in its handle, in the place of what was there; 8 with the first nodes there, where the limits cut the list short; 3 where
/// the query is refused for a pattern; 4 without memory; 7 where a handle is empty.
#[unsafe(no_mangle)]
pub extern "C" fn jsonpath_select(
    alloc: Global,
    path: PathRef,
    document: DocumentRef,
    unique: u8,
    limits: &Limits,
    nodes: &mut NodesHandle,
) -> u8
    ensures statuses { (result ≡ 0) ⊎ (result ≡ 3) ⊎ (result ≡ 4) ⊎ (result ≡ 7) ⊎ (result ≡ 8) }
    ensures done { result ≡ 0 → SelectThose path.value document.value
        (λ found. HoldsFirst nodes.new.value limits.now (asked_of unique found) true) }
    ensures cut { result ≡ 8 → SelectThose path.value document.value
        (λ found. HoldsFirst nodes.new.value limits.now (asked_of unique found) false) }
    ensures asked { IsAsked path.value document.value result }
    ensures kept { result ≢ 0 → result ≢ 8 → nodes.new.value ≡ nodes.old.value }
{
    let Some((asked, read)) = get_both(path, document) else {
        return EMPTY_HANDLE;
    };
    let found = selected(alloc, asked, &read.json, unique, limits);
    let first = match found {
        Ok(first) => first,
        Err(e) => return query_status(e),
    };
    let status = if first.all { DONE } else { CUT_SHORT };
    match nodes.hold(alloc, Nodes { nodes: first.nodes }) {
        Ok(()) => status,
        Err(_) => NO_MEMORY,
    }
}

/// Frees a list and empties its handle. Of an empty handle it does nothing.
#[unsafe(no_mangle)]
pub extern "C" fn jsonpath_nodes_free(alloc: Global, nodes: &mut NodesHandle)
    ensures { nodes.new.value ≡ None }
{
    drop(nodes.take(alloc));
}

/// Tells how many nodes a list has: 0, or 7 of an empty handle.
#[unsafe(no_mangle)]
pub extern "C" fn jsonpath_nodes_length(nodes: NodesRef, size: &mut usize) -> u8
    ensures statuses { (result ≡ 0) ⊎ (result ≡ 7) }
    ensures done { result ≡ 0 → MatchOption nodes.value ⊥ (λ list.
        size.new ≡ length list.nodes) }
    ensures empty { TellsEmpty nodes.value result }
    ensures kept_size { result ≢ 0 → size.new ≡ size.old }
{
    let Some(list) = nodes.get() else {
        return EMPTY_HANDLE;
    };
    *size = list.nodes.len();
    DONE
}

/// Tells what is known of the node at an index, from 0, without its document: 0; 7 of an empty handle; 10 past the last node.
#[unsafe(no_mangle)]
pub extern "C" fn jsonpath_node(nodes: NodesRef, index: usize, node: &mut Node) -> u8
    ensures statuses { (result ≡ 0) ⊎ (result ≡ 7) ⊎ (result ≡ 10) }
    ensures done { result ≡ 0 → HasNode nodes.value index
        (λ known. node.new ≡ told_of (known_of known)) }
    ensures past { result ≡ 10 → IsPast nodes.value index }
    ensures empty { TellsEmpty nodes.value result }
    ensures kept_node { result ≢ 0 → node.new ≡ node.old }
{
    let Some(list) = nodes.get() else {
        return EMPTY_HANDLE;
    };
    match list.nodes.get(index) {
        Some(info) => {
            *node = Node::of(info);
            DONE
        }
        None => NO_SUCH_NODE,
    }
}
