//! The nodes of a walk, each location once.

ghost use Rattle.std.specs.Prelude.{◌≡◌, ◌≤◌, IfOk, IfSome, false, length, map, true};
ghost use Rattle.jsonpath_lines.specs.Words.{first_places, located, OnlyMemoryOrPattern, document_of, query_of, rest, set_of, AreEnough, IsExceeded, most_held};

use serde_json_path::functions::Functions;
use serde_json_path::{LocatedNode, LocatedNodeList, QueryError, Sink, Taken, Walk};
use std::alloc::Global;
use std::mem::replace;

/// How many nodes are held, at least, before those are left out whose location came earlier.
const LEAST_ROOM: usize = 64;

/// The nodes whose location does not come earlier among them.
fn distinct<'b>(nodes: Vec<LocatedNode<'b>>) -> Vec<LocatedNode<'b>>
    ensures { map located result.items ≡ first_places (map located nodes.entry.items) }
{
    LocatedNodeList::from(nodes).dedup().all()
}

/// Whether a limit, if there is one, is exceeded.
fn is_exceeded(limit: Option<u64>, count: usize) -> bool
    ensures exceeded { result ≡ true → IsExceeded limit count }
    ensures within { result ≡ false → IfSome limit (λ most. count ≤ most) }
{
    match limit {
        Some(most) => most < count as u64,
        None => false,
    }
}

/// Nodes that differ in their locations, until there are more than the limit.
#[derive(Drop)]
struct DistinctNodes<'b> {
    /// The nodes; some that came earlier may be among them.
    nodes: Vec<LocatedNode<'b>>,
    /// How many are wanted at most; all where it is `None`.
    limit: Option<u64>,
    /// How many there may be before those are left out whose location came earlier.
    room: usize,
}

impl<'b> Sink<'b> for DistinctNodes<'b> {
    ghost use Rattle.jsonpath_lines.specs.Inside.{FilledDistinct, TookDistinct};

    ghost took = { TookDistinct };

    ghost filled = { FilledDistinct };

    fn take(&mut self, node: LocatedNode<'b>) -> Result<Taken<'b>, QueryError> {
        let alloc = *self.nodes.allocator();
        if self.nodes.len() >= self.room {
            let nodes = distinct(replace(&mut self.nodes, Vec::new(alloc)));
            let count = nodes.len();
            self.nodes = nodes;
            if is_exceeded(self.limit, count) {
                return Ok(Taken::Enough);
            }
            self.room = count.saturating_mul(4).max(LEAST_ROOM);
        }
        self.nodes.push(node)?;
        Ok(Taken::More(Vec::new(alloc)))
    }
}

/// The nodes that remain of a walk, each location once, where it comes first: all, or the first ones and more
/// than the limit.
///
/// At most `LEAST_ROOM` nodes are held meanwhile, or four times as many as differ in their locations, or as the limit says. The
/// error is `Memory` or, as that of `Walk::next`, `Pattern`.
///
/// ```text
/// distinct_nodes(alloc, Some(10), path.walk(alloc, &document, &Builtin)?)?
/// ```
pub fn distinct_nodes<'b, F: Functions + Drop>(
    alloc: Global,
    limit: Option<u64>,
    walk: Walk<'_, 'b, F>,
) -> Result<Vec<LocatedNode<'b>>, QueryError>
    ensures nodes { IfOk result (λ found.
        AreEnough limit (first_places (rest walk.entry)) (map located found.items)) }
    ensures few { IfOk result (λ found.
        IfSome limit (λ most. length found.items ≤ most_held most)) }
    ensures refused { OnlyMemoryOrPattern (set_of walk.entry) (query_of walk.entry)
        (document_of walk.entry) result }
{
    let mut found = DistinctNodes {
        nodes: Vec::new(alloc),
        limit,
        room: LEAST_ROOM,
    };
    if walk.feed(&mut found)? {
        return Ok(distinct(found.nodes));
    }
    Ok(found.nodes)
}
