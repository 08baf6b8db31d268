//! Equality of finished queries.

ghost use Rattle.std.specs.Prelude.{◌≡◌, ◌<◌, ◌≤◌, ◌↔◌, IsTrue, true, length};
ghost use Rattle.serde_json_path_syntax.specs.Words.{pointwise, basic_of, basic_parts, operand_of, operand_parts, held_view, branch_at, branches, branches_named, segment_of, segment_parts, selector_of, selector_parts, basic_fits, operand_fits, literal_fits, segment_fits, selector_fits, parts_bound, nodes_in, number_of, tree_of, slice_view};
ghost use Rattle.serde_json_path_syntax.specs.SameTree as trees;

use crate::checked::Checked;
use crate::literal::LiteralValue;
use crate::node::{Basic, Node, Operand, Part, Segment, Selector};
use crate::slice::Slice;
use serde_json::Value;

/// Two queries are equal where their trees are: the signatures that they keep are not compared.
impl PartialEq for Checked {
    ghost use Rattle.serde_json_path_syntax.specs.Words.{partial_equiv_from_equiv, same_trees-equiv};

    ghost eq = { λ mine theirs. trees.same_query (tree_of mine) (tree_of theirs) };

    ghost laws = { partial_equiv_from_equiv same_trees-equiv };

    fn eq(&self, other: &Checked) -> bool
        ensures computes { result ≡ trees.same_query (tree_of self.now) (tree_of other.now) }
        ensures same { IsTrue result ↔ (tree_of self.now ≡ tree_of other.now) }
    {
        // Both begin at the root.
        same_parts(self, self.segments(), other, other.segments())
    }
}

impl Eq for Checked {
    ghost use Rattle.serde_json_path_syntax.specs.Inside.SameLaws.{same_trees-equiv};

    ghost laws = { same_trees-equiv };
}

/// Whether parts are the same, one by one.
#[cycle(comparing)]
#[inline(always)]
#[tactic(auto, using(crate::proofs::Equality::of_parts))]
fn same_parts(mine: &Checked, lefts: &[Part], theirs: &Checked, rights: &[Part]) -> bool
    requires left_within { parts_bound lefts.now ≤ length (nodes_in mine.now) }
    requires right_within { parts_bound rights.now ≤ length (nodes_in theirs.now) }
    ensures { result ≡ pointwise trees.same_branch
        (branches_named (branches (nodes_in mine.now)) lefts.now)
        (branches_named (branches (nodes_in theirs.now)) rights.now) }
{
    if lefts.len() != rights.len() {
        return false;
    }
    for (left, right) in lefts.iter().zip(rights) {
        if !same_part(mine, *left, theirs, *right) {
            return false;
        }
    }
    true
}

/// Whether two parts are of one kind and the same.
#[cycle(comparing)]
#[tactic(auto, using(crate::proofs::Equality::of_kinds))]
fn same_part(mine: &Checked, left: Part, theirs: &Checked, right: Part) -> bool
    requires left_within { number_of left < length (nodes_in mine.now) }
    requires right_within { number_of right < length (nodes_in theirs.now) }
    ensures { result ≡ trees.same_branch
        (branch_at (nodes_in mine.now) (number_of left))
        (branch_at (nodes_in theirs.now) (number_of right)) }
{
    match (mine.node(left), theirs.node(right)) {
        (
            Node::Query { kind, segments },
            Node::Query {
                kind: other,
                segments: others,
            },
        ) => kind == other && same_parts(mine, segments.as_slice(), theirs, others.as_slice()),
        (
            Node::Segment { kind, segment },
            Node::Segment {
                kind: other,
                segment: others,
            },
        ) => kind == other && same_segment(mine, segment, theirs, others),
        (Node::Selector(left), Node::Selector(right)) => same_selector(mine, left, theirs, right),
        (Node::LogicalOr(lefts), Node::LogicalOr(rights)) => {
            same_parts(mine, lefts.as_slice(), theirs, rights.as_slice())
        }
        (Node::LogicalAnd(lefts), Node::LogicalAnd(rights)) => {
            same_parts(mine, lefts.as_slice(), theirs, rights.as_slice())
        }
        (Node::Basic(left), Node::Basic(right)) => same_basic(mine, left, theirs, right),
        (Node::Operand(left), Node::Operand(right)) => same_operand(mine, left, theirs, right),
        (
            Node::Call {
                name,
                arguments,
                ..
            },
            Node::Call {
                name: other,
                arguments: others,
                ..
            },
        ) => name == other && same_parts(mine, arguments.as_slice(), theirs, others.as_slice()),
        _ => false,
    }
}

/// Whether two segments select alike.
#[cycle(comparing)]
#[tactic(auto, using(crate::proofs::Equality::of_kinds))]
fn same_segment(mine: &Checked, left: &Segment, theirs: &Checked, right: &Segment) -> bool
    requires left_within { parts_bound (segment_parts left.now) ≤ length (nodes_in mine.now) }
    requires left_fits { segment_fits (branches (nodes_in mine.now)) left.now ≡ true }
    requires right_within { parts_bound (segment_parts right.now) ≤ length (nodes_in theirs.now) }
    requires right_fits { segment_fits (branches (nodes_in theirs.now)) right.now ≡ true }
    ensures { result ≡ trees.same_segment (segment_of (branches (nodes_in mine.now)) left.now)
        (segment_of (branches (nodes_in theirs.now)) right.now) }
{
    match (left, right) {
        (Segment::DotName(name), Segment::DotName(other)) => name == other,
        (Segment::DotWildcard, Segment::DotWildcard) => true,
        (Segment::LongHand(lefts), Segment::LongHand(rights)) => {
            same_parts(mine, lefts.as_slice(), theirs, rights.as_slice())
        }
        _ => false,
    }
}

/// Whether two selectors are the same.
#[cycle(comparing)]
#[tactic(auto, using(crate::proofs::Equality::of_kinds))]
fn same_selector(mine: &Checked, left: &Selector, theirs: &Checked, right: &Selector) -> bool
    requires left_within { parts_bound (selector_parts left.now) ≤ length (nodes_in mine.now) }
    requires left_fits { selector_fits (branches (nodes_in mine.now)) left.now ≡ true }
    requires right_within { parts_bound (selector_parts right.now) ≤ length (nodes_in theirs.now) }
    requires right_fits { selector_fits (branches (nodes_in theirs.now)) right.now ≡ true }
    ensures { result ≡ trees.same_selector (selector_of (branches (nodes_in mine.now)) left.now)
        (selector_of (branches (nodes_in theirs.now)) right.now) }
{
    match (left, right) {
        (Selector::Name(name), Selector::Name(other)) => name == other,
        (Selector::Wildcard, Selector::Wildcard) => true,
        (Selector::Index(index), Selector::Index(other)) => index == other,
        (Selector::Slice(slice), Selector::Slice(other)) => same_slice(*slice, *other),
        (Selector::Filter(test), Selector::Filter(other)) => same_part(mine, *test, theirs, *other),
        _ => false,
    }
}

/// Whether two operands of `&&` are the same.
#[cycle(comparing)]
#[tactic(auto, using(crate::proofs::Equality::of_kinds))]
fn same_basic(mine: &Checked, left: &Basic, theirs: &Checked, right: &Basic) -> bool
    requires left_within { parts_bound (basic_parts left.now) ≤ length (nodes_in mine.now) }
    requires left_fits { basic_fits (branches (nodes_in mine.now)) left.now ≡ true }
    requires right_within { parts_bound (basic_parts right.now) ≤ length (nodes_in theirs.now) }
    requires right_fits { basic_fits (branches (nodes_in theirs.now)) right.now ≡ true }
    ensures { result ≡ trees.same_basic (basic_of (branches (nodes_in mine.now)) left.now)
        (basic_of (branches (nodes_in theirs.now)) right.now) }
{
    match (left, right) {
        (
            Basic::Relation {
                left,
                operator,
                right,
            },
            Basic::Relation {
                left: other_left,
                operator: other,
                right: other_right,
            },
        ) => {
            operator == other
                && same_part(mine, *left, theirs, *other_left)
                && same_part(mine, *right, theirs, *other_right)
        }
        (
            Basic::Paren { negated, inner },
            Basic::Paren {
                negated: other,
                inner: others,
            },
        ) => negated == other && same_part(mine, *inner, theirs, *others),
        (
            Basic::Test { negated, operand },
            Basic::Test {
                negated: other,
                operand: others,
            },
        ) => negated == other && same_part(mine, *operand, theirs, *others),
        _ => false,
    }
}

/// Whether two operands are the same.
#[cycle(comparing)]
#[tactic(auto, using(crate::proofs::Equality::of_kinds))]
fn same_operand(mine: &Checked, left: &Operand, theirs: &Checked, right: &Operand) -> bool
    requires left_within { parts_bound (operand_parts left.now) ≤ length (nodes_in mine.now) }
    requires left_fits { operand_fits (branches (nodes_in mine.now)) left.now ≡ true }
    requires right_within { parts_bound (operand_parts right.now) ≤ length (nodes_in theirs.now) }
    requires right_fits { operand_fits (branches (nodes_in theirs.now)) right.now ≡ true }
    ensures { result ≡ trees.same_operand (operand_of (branches (nodes_in mine.now)) left.now)
        (operand_of (branches (nodes_in theirs.now)) right.now) }
{
    match (left, right) {
        (Operand::Literal(literal), Operand::Literal(other)) => same_literal(literal, other),
        (Operand::Query(left), Operand::Query(right))
        | (Operand::Call(left), Operand::Call(right)) => same_part(mine, *left, theirs, *right),
        _ => false,
    }
}

/// Whether two slices have the same parts.
fn same_slice(slice: Slice, other: Slice) -> bool
    ensures { result ≡ trees.same_slice (slice_view slice) (slice_view other) }
{
    slice.start == other.start && slice.end == other.end && slice.step == other.step
}

/// Whether two literals are the same.
fn same_literal(literal: &LiteralValue, other: &LiteralValue) -> bool
    requires left_fits { literal_fits literal.now ≡ true }
    requires right_fits { literal_fits other.now ≡ true }
    ensures { result ≡ trees.same_literal (held_view literal.now) (held_view other.now) }
{
    match (literal, other) {
        (LiteralValue::Number(number), LiteralValue::Number(other)) => {
            number.billionths() == other.billionths()
        }
        (LiteralValue::Decimal(held), LiteralValue::Decimal(other)) => {
            held.as_ref().decimal == other.as_ref().decimal
        }
        (LiteralValue::Value(value), LiteralValue::Value(other)) => match (value, other) {
            (Value::String(text), Value::String(other)) => text == other,
            (Value::Bool(truth), Value::Bool(other)) => truth == other,
            (Value::Null, Value::Null) => true,
            _ => false,
        },
        _ => false,
    }
}
