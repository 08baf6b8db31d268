//! A growing vector of nodes, in which each node refers to earlier ones.

ghost use Rattle.serde_json_path_syntax.specs.Flat.{IsGrown};
ghost use Rattle.serde_json_path_syntax.specs.Kinds.{AreFitting};

use crate::binding::Binding;
use crate::copies::{bound_copies_of, copies_of};
use crate::node::{Node, Part};
use std::alloc::{AllocError, Global};

/// The nodes of a tree, each after those that it refers to.
#[derive(Drop)]
pub(crate) struct Arena {
    nodes: Vec<Node>,
    ghost grown: { IsGrown nodes.items },
    ghost fitting: { AreFitting nodes.items },
}

impl Arena {
    ghost use Rattle.std.specs.Prelude.{ℕ, List, true, Some, ◌≡◌, ◌<◌, ◌≤◌, ◌++◌, ◌∷◌, [], IfOk, OnErr, OnOk, length, slice_get};
    ghost use Rattle.serde_json_path_syntax.specs.Words.{NamesBelow, bound_branches, pairs_of, value_in, called_by, calls_among, part_query, branch_at, branch_of, branches, segments_at, Signature, AreOfKind, IsOfKind, fits, is_query, is_segment, IsIn, parts_bound, segments_of};

    /// No nodes. Takes no memory.
    pub(crate) fn new(alloc: Global) -> Arena
        ensures { result.nodes.items ≡ [] }
    {
        Arena {
            nodes: Vec::new(alloc),
        }
    }

    /// Where the nodes take their memory.
    pub(crate) fn allocator(&self) -> Global {
        *self.nodes.allocator()
    }

    /// Appends a node whose children already exist.
    // Inlined, so that a caller writes the node straight into the vector.
    #[inline(always)]
    #[tactic(auto, using(crate::proofs::Tree::Growing::fitting_pushed))]
    pub(crate) fn push(&mut self, node: Node) -> Result<Part, AllocError>
        requires below { NamesBelow (length self.old.nodes.items) node }
        requires fits { fits (branches self.old.nodes.items) node ≡ true }
        ensures number { IfOk result (λ part. part.number ≡ length self.old.nodes.items) }
        ensures pushed { OnOk result (self.new.nodes.items ≡ self.old.nodes.items ++ node ∷ []) }
        ensures refused { OnErr result (self.new.nodes.items ≡ self.old.nodes.items) }
    {
        let number = self.nodes.len();
        self.nodes.push(node)?;
        Ok(Part { number })
    }

    /// A copy of the nodes. An error comes only where memory is refused.
    #[tactic(auto, using(crate::proofs::Tree::Growing::of_copies))]
    pub(crate) fn try_clone(&self, alloc: Global) -> Result<Arena, AllocError>
        ensures branches { IfOk result (λ copy.
            branches copy.nodes.items ≡ branches self.now.nodes.items) }
        ensures calls { IfOk result (λ copy.
            calls_among copy.nodes.items ≡ calls_among self.now.nodes.items) }
        ensures length { IfOk result (λ copy.
            length copy.nodes.items ≡ length self.now.nodes.items) }
    {
        let nodes = copies_of(self.nodes.as_slice(), alloc)?;
        Ok(Arena { nodes })
    }

    /// A copy of the nodes, in which texts of literals stand for others. An error comes only where memory is refused.
    #[tactic(auto, using(crate::proofs::Tree::Bound::of_bound_copies))]
    pub(crate) fn bound(&self, alloc: Global, bindings: &[Binding<'_>]) -> Result<Arena, AllocError>
        ensures branches { IfOk result (λ copy. branches copy.nodes.items
            ≡ bound_branches (value_in (pairs_of bindings.now)) (branches self.now.nodes.items)) }
        ensures calls { IfOk result (λ copy.
            calls_among copy.nodes.items ≡ calls_among self.now.nodes.items) }
        ensures length { IfOk result (λ copy.
            length copy.nodes.items ≡ length self.now.nodes.items) }
    {
        let nodes = bound_copies_of(self.nodes.as_slice(), bindings, alloc)?;
        Ok(Arena { nodes })
    }

    /// The nodes, in order.
    pub(crate) fn as_slice(&self) -> &[Node]
        ensures { result.now ≡ self.now.nodes.items }
    {
        self.nodes.as_slice()
    }

    /// The node of a part.
    #[inline]
    pub(crate) fn node(&self, part: Part) -> &Node
        requires { part.number < length self.now.nodes.items }
        ensures branch { branch_at self.now.nodes.items part.number
            ≡ branch_of (branches self.now.nodes.items) result.now }
        ensures below { NamesBelow part.number result.now }
        ensures fits { fits (branches self.now.nodes.items) result.now ≡ true }
        ensures called { (u : List ℕ × Signature) → IsIn u (called_by result.now)
            → IsIn u (calls_among self.now.nodes.items) }
        ensures is { slice_get self.now.nodes.items part.number ≡ Some result.now }
    {
        &self.nodes[part.number]
    }

    /// The segments of a query, in order.
    #[inline]
    pub(crate) fn segments(&self, query: Part) -> &[Part]
        requires within { query.number < length self.now.nodes.items }
        requires kind { IsOfKind is_query self.now.nodes.items query }
        ensures tree { segments_at self.now.nodes.items result.now
            ≡ segments_of (part_query self.now.nodes.items query) }
        ensures below { parts_bound result.now ≤ query.number }
        ensures are { AreOfKind is_segment self.now.nodes.items result.now }
    {
        match self.node(query) {
            Node::Query { segments, .. } => segments.as_slice(),
            _ => unreachable!(),
        }
    }
}
