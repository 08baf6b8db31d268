//! How many nodes a walk has left.

ghost use Rattle.std.specs.Prelude.{◌≡◌, IfOk, length};
ghost use Rattle.jsonpath_c.specs.Words.{OnlyMemoryOrPattern, document_of, query_of, rest, set_of};

use serde_json_path::functions::Functions;
use serde_json_path::{LocatedNode, QueryError, Sink, Taken, Walk};

/// How many nodes there were so far.
#[derive(Drop)]
struct NodeCount {
    count: usize,
}

impl<'b> Sink<'b> for NodeCount {
    ghost use Rattle.std.specs.Prelude.{◌≡◌, ◌+◌, length};

    ghost took = { λ before nodes now. now.count ≡ before.count + length nodes };

    ghost filled = { λ before nodes now. ⊥ };

    #[inline(always)]
    fn take(&mut self, node: LocatedNode<'b>) -> Result<Taken<'b>, QueryError> {
        // A walk that gave one node in each nanosecond would take 584 years to come to the error.
        self.count = self.count.checked_add(1).ok_or(QueryError::Memory)?;
        Ok(Taken::More(node.into_steps()))
    }
}

/// How many nodes remain of a walk.
pub(crate) fn count_of<F: Functions + Drop>(walk: Walk<'_, '_, F>) -> Result<usize, QueryError>
    ensures count { IfOk result (λ count. count ≡ length (rest walk.entry)) }
    ensures refused { OnlyMemoryOrPattern (set_of walk.entry) (query_of walk.entry)
        (document_of walk.entry) result }
{
    let mut counted = NodeCount { count: 0 };
    walk.feed(&mut counted)?;
    Ok(counted.count)
}
