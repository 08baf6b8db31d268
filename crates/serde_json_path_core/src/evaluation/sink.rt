//! What takes the nodes of a walk, one after the other.

ghost use Rattle.std.specs.Prelude.{◌≡◌, ◌++◌, [], ◌∷◌, List, IfErr, IfOk};
ghost use Rattle.serde_json_path_nodes.specs.Location.{Located};
ghost use Rattle.serde_json_path_nodes.specs.Views.{located};
ghost use Rattle.serde_json_path_functions.specs.declared.error.QueryError.TheVariants.{Memory};
ghost use Rattle.serde_json_path_core.specs.Sinks.{MatchTaken};

use serde_json_path_functions::QueryError;
use serde_json_path_nodes::{LocatedNode, PathElement};

/// What a sink makes of a node that it is given.
#[derive(Drop)]
pub enum Taken<'b> {
    /// It took the node and wants more. The steps give their memory to the next node's location; they may be none.
    More(Vec<PathElement<'b>>),
    /// It has enough, with this node or without it.
    Enough,
}

/// What takes nodes: a list, lines, a count. [`Walk::feed`](crate::Walk::feed) gives it the nodes of a walk.
///
/// An implementation says by its ghost members what it makes of the nodes, and shows it for one node at a time.
///
/// ```text
/// let mut nodes = Vec::new(alloc);
/// let all = walk.feed(&mut nodes)?;
/// ```
pub trait Sink<'b> {
    /// It was `before`, took these nodes in order, is as it is now, and wants more.
    ghost took: { Self → List Located → Self → Type 0 };

    /// It was `before`, took of these nodes as many as it wanted, and is as it is now.
    ghost filled: { Self → List Located → Self → Type 0 };

    /// Takes a node, or leaves it where it has enough. It fails only where memory is refused.
    fn take(&mut self, node: LocatedNode<'b>) -> Result<Taken<'b>, QueryError>
        ensures taken { IfOk result (λ taken. MatchTaken taken
            ((before : Self) → (nodes : List Located) → took before nodes self.old
            → took before (nodes ++ located node.entry ∷ []) self.new)
            ((before : Self) → (nodes later : List Located) → took before nodes self.old
            → filled before (nodes ++ located node.entry ∷ later) self.new)) }
        ensures refused { IfErr result (λ e. e ≡ Memory) };
}

impl<'b> Sink<'b> for Vec<LocatedNode<'b>> {
    ghost use Rattle.std.specs.Prelude.{◌≡◌, ◌++◌, map};
    ghost use Rattle.serde_json_path_nodes.specs.Views.{located};

    ghost took = { λ before nodes now. map located now.items ≡ map located before.items ++ nodes };

    ghost filled = { λ before nodes now. ⊥ };

    fn take(&mut self, node: LocatedNode<'b>) -> Result<Taken<'b>, QueryError> {
        let steps = Vec::new(*self.allocator());
        self.push(node)?;
        Ok(Taken::More(steps))
    }
}
