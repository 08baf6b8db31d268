//! Copies of nodes. An error comes only where memory is refused.

ghost use Rattle.std.specs.Prelude.{◌≡◌, IfOk};
ghost use Rattle.serde_json_path_syntax.specs.Words.{AreBoundCopies, AreCopies, IsBoundCopy, IsCopy, pairs_of, value_in};

use crate::binding::Binding;
use crate::literal::LiteralValue;
use crate::node::{Node, Operand};
use std::alloc::{AllocError, Global};

/// Copies of so many nodes, one by one, in a vector that takes its memory once.
#[tactic(auto, using(std::proofs::lemmas::List::Elements::all_zip_more))]
pub(crate) fn copies_of(nodes: &[Node], alloc: Global) -> Result<Vec<Node>, AllocError>
    ensures { IfOk result (λ copies. AreCopies nodes.now copies.items) }
{
    let mut copies = Vec::with_capacity(alloc, nodes.len())?;
    for node in nodes {
        copies.push_reserved(copy_of(node)?);
    }
    Ok(copies)
}

/// A copy of a node.
#[tactic(auto, unfolding(crate::specs::Flat::parts_in))]
fn copy_of(node: &Node) -> Result<Node, AllocError>
    ensures { IfOk result (λ copy. IsCopy node.now copy) }
{
    node.clone()
}

/// Copies of so many nodes, in which texts of literals stand for others.
#[tactic(auto, using(std::proofs::lemmas::List::Elements::all_zip_more))]
pub(crate) fn bound_copies_of(
    nodes: &[Node],
    bindings: &[Binding<'_>],
    alloc: Global,
) -> Result<Vec<Node>, AllocError>
    ensures { IfOk result (λ copies.
        AreBoundCopies (value_in (pairs_of bindings.now)) nodes.now copies.items) }
{
    let mut copies = Vec::with_capacity(alloc, nodes.len())?;
    for node in nodes {
        copies.push_reserved(bound_copy_of(node, bindings, alloc)?);
    }
    Ok(copies)
}

/// A copy of a node, in which the text of a literal stands for another one where a binding says so.
#[tactic(auto, using(crate::proofs::Tree::Bound::of_bound_copy))]
fn bound_copy_of(node: &Node, bindings: &[Binding<'_>], alloc: Global) -> Result<Node, AllocError>
    ensures { IfOk result (λ copy.
        IsBoundCopy (value_in (pairs_of bindings.now)) node.now copy) }
{
    match node {
        Node::Operand(operand) => Ok(Node::Operand(bound_operand_of(operand, bindings, alloc)?)),
        _ => copy_of(node),
    }
}

/// The same of an operand.
#[tactic(auto, using(crate::proofs::Tree::Bound::of_bound_copy))]
fn bound_operand_of(
    operand: &Operand,
    bindings: &[Binding<'_>],
    alloc: Global,
) -> Result<Operand, AllocError>
    ensures { IfOk result (λ copy. IsBoundCopy (value_in (pairs_of bindings.now))
        (Node.Operand operand.now) (Node.Operand copy)) }
{
    match operand {
        Operand::Literal(literal) => Ok(Operand::Literal(literal.bound(bindings, alloc)?)),
        Operand::Query(part) => Ok(Operand::Query(*part)),
        Operand::Call(part) => Ok(Operand::Call(*part)),
    }
}

impl Clone for LiteralValue {
    ghost use Rattle.serde_json_path_syntax.specs.Words.{held_view, literal_fits};

    ghost is_clone = { λ old copy. (held_view copy ≡ held_view old)
        × (literal_fits copy ≡ literal_fits old) };

    fn clone(&self) -> Result<LiteralValue, AllocError> {
        self.try_clone()
    }
}
