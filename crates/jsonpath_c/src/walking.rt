//! Nodes a few at a time.

ghost use Rattle.std.specs.Prelude.{◌≡◌, ◌≢◌, ◌<◌, ◌≤◌, ◌++◌, ◌⊎◌, [], List, None, IfOk, length, map};
ghost use Rattle.jsonpath_c.specs.Clauses.{BothHold, GivesNext, GoesOver, Located, MatchOption, MayRefusePattern, OnlyMemoryOrPattern, TellsEitherEmpty, TellsEmpty, document_of, kept, query_of, rest, set_of};

use crate::answers::query_status;
use crate::handle::document::DocumentRef;
use crate::handle::nodes::{Nodes, NodesHandle};
use crate::handle::path::PathRef;
use crate::handle::walk::{HeldWalk, WalkHandle};
use crate::status::{DONE, EMPTY_HANDLE, NO_MEMORY};
use jsonpath_owned_nodes::OwnedNodes;
use nullable_box::{Handle, get_both};
use serde_json_path::functions::{CachedPatterns, Functions};
use serde_json_path::{QueryError, Walk};
use std::alloc::Global;

/// Begins a walk over the nodes that a path selects from a document, in order: 0 with the walk in its handle, in the place of what
/// was there; 4 without memory; 7 where a handle is empty. The path and the document are lent until the walk is freed.
#[unsafe(no_mangle)]
pub extern "C" fn jsonpath_walk_new(
    alloc: Global,
    path: PathRef,
    document: DocumentRef,
    walk: &mut WalkHandle,
) -> u8
    ensures statuses { (result ≡ 0) ⊎ (result ≡ 4) ⊎ (result ≡ 7) }
    ensures done { result ≡ 0 → BothHold path.value document.value (GoesOver walk.new.value) }
    ensures empty { TellsEitherEmpty path.value document.value result }
    ensures kept { result ≢ 0 → walk.new.value ≡ walk.old.value }
{
    let Some((asked, read)) = get_both(path, document) else {
        return EMPTY_HANDLE;
    };
    let functions = CachedPatterns::without_store(alloc);
    let Ok(begun) = asked.path.walk_under(alloc, &read.json, functions) else {
        return NO_MEMORY;
    };
    match walk.hold(alloc, HeldWalk { walk: begun }) {
        Ok(()) => DONE,
        Err(_) => NO_MEMORY,
    }
}

/// The next nodes of a walk, at most so many; fewer are the last ones.
fn next_nodes<F: Functions + Drop>(
    alloc: Global,
    walk: &mut Walk<'_, '_, F>,
    most: usize,
) -> Result<OwnedNodes, QueryError>
    ensures nodes { IfOk result (λ nodes. (found : List Located)
        × (rest walk.old ≡ found ++ rest walk.new) × (nodes ≡ map kept found)
        × (length found ≤ most) × (length found < most → rest walk.new ≡ [])) }
    ensures set { IfOk result (λ _. set_of walk.new ≡ set_of walk.old) }
    ensures query { IfOk result (λ _. query_of walk.new ≡ query_of walk.old) }
    ensures document { IfOk result (λ _. document_of walk.new ≡ document_of walk.old) }
    ensures refused { OnlyMemoryOrPattern (set_of walk.old) (query_of walk.old)
        (document_of walk.old) result }
{
    let mut nodes = OwnedNodes::new(alloc);
    let mut steps = Vec::new(alloc);
    for _ in 0..most {
        match walk.next_into(steps)? {
            Some(node) => {
                nodes.push(&node)?;
                steps = node.into_steps();
            }
            None => return Ok(nodes),
        }
    }
    Ok(nodes)
}

/// Lists the next nodes of a walk, at most so many: 0 with the list in its handle, in the place of what was there, and fewer are
/// the last ones; 3 where the query is refused for a pattern; 4 without memory; 7 of an empty handle. With 3 and 4 the walk is
/// freed.
#[unsafe(no_mangle)]
pub extern "C" fn jsonpath_walk_next(
    alloc: Global,
    walk: &mut WalkHandle,
    most: usize,
    nodes: &mut NodesHandle,
) -> u8
    ensures statuses { (result ≡ 0) ⊎ (result ≡ 3) ⊎ (result ≡ 4) ⊎ (result ≡ 7) }
    ensures done { result ≡ 0 → BothHold walk.old.value walk.new.value (GivesNext most
        nodes.new.value) }
    ensures pattern_refused { result ≡ 3 → MatchOption walk.old.value ⊥ MayRefusePattern }
    ensures empty { TellsEmpty walk.old.value result }
    ensures ended { result ≢ 0 → walk.new.value ≡ None }
    ensures kept { result ≢ 0 → nodes.new.value ≡ nodes.old.value }
{
    let Some(mut held) = walk.take(alloc) else {
        return EMPTY_HANDLE;
    };
    let found = match next_nodes(alloc, &mut held.walk, most) {
        Ok(found) => found,
        Err(e) => return query_status(e),
    };
    match nodes.hold(alloc, Nodes { nodes: found }) {
        Ok(()) => {
            walk.put(alloc, held);
            DONE
        }
        Err(_) => NO_MEMORY,
    }
}

/// Frees a walk and empties its handle. Of an empty handle it does nothing.
#[unsafe(no_mangle)]
pub extern "C" fn jsonpath_walk_free(alloc: Global, walk: &mut WalkHandle)
    ensures { walk.new.value ≡ None }
{
    drop(walk.take(alloc));
}
