//! Finished syntax trees.

ghost use Rattle.std.specs.Prelude.{◌<◌, ◌≤◌, ◌≡◌, ◌↔◌, IfSome, ◌+◌, ◌^◌, [], ◌∷◌, IsSome, IsTrue, length, option_map, slice_get};
ghost use Rattle.std.specs.Option.{ForSome};
ghost use Rattle.serde_json_path_syntax.specs.Tree.{kind_of, root};
ghost use Rattle.serde_json_path_syntax.specs.Typing.{IsTyped};
ghost use Rattle.serde_json_path_syntax.specs.Depth.{depth};
ghost use Rattle.serde_json_path_syntax.specs.Used.{AreCalled, AreDeclared, deepest, each_once, signature_in};
ghost use Rattle.serde_json_path_syntax.specs.Flat.{called_by, calls_among, query_at};
ghost use Rattle.serde_json_path_syntax.specs.Kinds.{IsOfKind, is_query};
ghost use Rattle.serde_json_path_functions.specs.Functions.{Fits};
ghost use Rattle.serde_json_path_syntax.specs.Stages.{selector_view, stage_at};

use crate::arena::Arena;
use crate::binding::Binding;
use crate::node::{Node, Part, QueryKind, Segment, SegmentKind, Selector};
use crate::selector_ref::SelectorRef;
use serde_json_path_functions::{FunctionArgType, Functions, Numbers};
use std::alloc::{AllocError, Global};

/// A well-typed query from the document's root.
///
/// Contracts see it as its syntax tree, the signatures of the functions that it calls, and the rule by which its comparisons
/// take numbers. Those of its parts see the nodes of which the tree is made.
#[derive(Drop)]
pub struct Checked {
    arena: Arena,
    query: Option<Part>,
    numbers: Numbers,
    ghost within: { ForSome query (λ part. part.number < length arena.nodes.items) },
    ghost kind: { ForSome query (λ part. IsOfKind is_query arena.nodes.items part) },
    pub ghost rooted: { kind_of (query_at arena.nodes.items query) ≡ root },
    pub ghost typed: { ∥ IsTyped (signature_in (each_once (calls_among arena.nodes.items)))
        (query_at arena.nodes.items query) ∥₁ },
    ghost within_depth: { depth (query_at arena.nodes.items query) ≤ deepest },
    pub ghost called: { ∥ AreCalled (each_once (calls_among arena.nodes.items))
        (query_at arena.nodes.items query) ∥₁ },
    ghost agreed: { AreDeclared (signature_in (calls_among arena.nodes.items))
        (calls_among arena.nodes.items) },
}

impl Checked {
    ghost use Rattle.serde_json_path_syntax.specs.Words.{ℕ, List, true, map, Some, IfOk, string_bytes, AreOfKind, IsOfKind, fits, is_and, is_argument, is_basic, is_call, is_or, is_query, is_segment, is_selector, selector_ref_fits, IsIn, child, query, no_segments, segments_of, FunctionSet, Signature, arguments_of, name_of, MayFinish, or_at, ors_in, and_at, ands_in, call_at, arguments_in, part_query, segment_kind_view, branch_at, branch_of, branches, branches_named, segments_at, selector_at, selectors_at, bound, pairs_of, value_in, NamesBelow, selectors_list, query_text, nodes_in, number_of, tree_of, rule_of, signatures_of, whole_numbers, parts_bound, selector_bound, kind_view, numbers_view, query_kind_view};
    ghost use Rattle.serde_json_path_syntax.specs.Tree as tree;

    /// The query `$`. Takes no memory.
    pub fn new(alloc: Global) -> Checked
        ensures tree { tree_of result ≡ query root no_segments }
        ensures used { signatures_of result ≡ [] }
        ensures rule { rule_of result ≡ whole_numbers }
    {
        Checked {
            arena: Arena::new(alloc),
            query: None,
            numbers: Numbers::Whole,
        }
    }

    /// The tree of a part.
    pub(crate) fn of(arena: Arena, part: Part) -> Checked
        requires within { part.number < length arena.nodes.items }
        requires kind { IsOfKind is_query arena.nodes.items part }
        requires complete { MayFinish (calls_among arena.nodes.items)
            (part_query arena.nodes.items part) }
        ensures tree { tree_of result ≡ part_query arena.nodes.items part }
        ensures used { signatures_of result ≡ each_once (calls_among arena.nodes.items) }
        ensures rule { rule_of result ≡ whole_numbers }
    {
        Checked {
            arena,
            query: Some(part),
            numbers: Numbers::Whole,
        }
    }

    /// A copy of the query, with the signatures and the rule for numbers that it keeps.
    ///
    /// An error comes only where memory is refused.
    pub fn try_clone(&self, alloc: Global) -> Result<Checked, AllocError>
        ensures tree { IfOk result (λ copy. tree_of copy ≡ tree_of self.now) }
        ensures used { IfOk result (λ copy. signatures_of copy ≡ signatures_of self.now) }
        ensures rule { IfOk result (λ copy. rule_of copy ≡ rule_of self.now) }
    {
        let arena = self.arena.try_clone(alloc)?;
        Ok(Checked {
            arena,
            query: self.query,
            numbers: self.numbers,
        })
    }

    /// A copy of the query, in which each literal whose text has a binding stands for the value of the first one of that text.
    /// Names of members stay as they are, and so do the signatures and the rule for numbers.
    ///
    /// An error comes only where memory is refused.
    pub fn bound(&self, alloc: Global, bindings: &[Binding<'_>]) -> Result<Checked, AllocError>
        ensures tree { IfOk result (λ copy.
            tree_of copy ≡ bound (value_in (pairs_of bindings.now)) (tree_of self.now)) }
        ensures used { IfOk result (λ copy. signatures_of copy ≡ signatures_of self.now) }
        ensures rule { IfOk result (λ copy. rule_of copy ≡ rule_of self.now) }
    {
        let arena = self.arena.bound(alloc, bindings)?;
        let numbers = self.numbers;
        Ok(Checked {
            arena,
            query: self.query,
            numbers,
        })
    }

    /// The same query, whose comparisons take numbers by that rule.
    pub fn with_numbers(mut self, numbers: Numbers) -> Checked
        ensures tree { tree_of result ≡ tree_of self }
        ensures used { signatures_of result ≡ signatures_of self }
        ensures rule { rule_of result ≡ numbers_view numbers }
    {
        self.numbers = numbers;
        self
    }

    /// How its comparisons take numbers: as whole ones, unless `with_numbers` says otherwise.
    #[inline]
    pub fn numbers(&self) -> Numbers
        ensures { numbers_view result ≡ rule_of self.now }
    {
        self.numbers
    }

    /// The path as text, as Display prints it, in one growing text.
    ///
    /// An error comes only where memory is refused.
    pub fn to_text(&self, alloc: Global) -> Result<String, AllocError>
        ensures { IfOk result (λ text. string_bytes text ≡ query_text (tree_of self.now)) }
    {
        self.to_string(alloc)
    }

    /// Whether the set declares each function that the query calls, with the signature under which the query is
    /// well-typed (RFC 9535, section 2.4.3). Takes no memory.
    #[tactic(auto, using(crate::proofs::Tree::Growing::of_fits))]
    pub fn fits<F: Functions>(&self, functions: &F) -> bool
        ensures { IsTrue result ↔ Fits (F.set functions.now) (signatures_of self.now) }
    {
        for node in self.arena.as_slice() {
            if !declares(functions, node) {
                return false;
            }
        }
        true
    }

    /// The node of a part.
    #[inline]
    pub fn node(&self, part: Part) -> &Node
        requires { number_of part < length (nodes_in self.now) }
        ensures branch { branch_at (nodes_in self.now) (number_of part)
            ≡ branch_of (branches (nodes_in self.now)) result.now }
        ensures below { NamesBelow (number_of part) result.now }
        ensures fits { fits (branches (nodes_in self.now)) result.now ≡ true }
        ensures called { (u : List ℕ × Signature) → IsIn u (called_by result.now)
            → IsIn u (calls_among (nodes_in self.now)) }
    {
        self.arena.node(part)
    }

    /// Where the query begins: at the root.
    pub fn kind(&self) -> QueryKind
        ensures { query_kind_view result ≡ kind_of (tree_of self.now) }
    {
        QueryKind::Root
    }

    /// The query's segments, in order.
    #[inline]
    pub fn segments(&self) -> &[Part]
        ensures tree { segments_at (nodes_in self.now) result.now ≡ segments_of (tree_of self.now) }
        ensures within { parts_bound result.now ≤ length (nodes_in self.now) }
        ensures are { AreOfKind is_segment (nodes_in self.now) result.now }
    {
        match self.query {
            None => &[],
            Some(part) => self.part_segments(part),
        }
    }

    // Here and below the part is of the kind that is read, so the other branch is never reached.
    /// Where a query begins.
    #[inline]
    pub fn part_kind(&self, query: Part) -> QueryKind
        requires within { number_of query < length (nodes_in self.now) }
        requires kind { IsOfKind is_query (nodes_in self.now) query }
        ensures { query_kind_view result ≡ kind_of (part_query (nodes_in self.now) query) }
    {
        match self.node(query) {
            Node::Query { kind, .. } => *kind,
            _ => unreachable!(),
        }
    }

    /// The segments of a query, in order.
    #[inline]
    pub fn part_segments(&self, query: Part) -> &[Part]
        requires within { number_of query < length (nodes_in self.now) }
        requires kind { IsOfKind is_query (nodes_in self.now) query }
        ensures tree { segments_at (nodes_in self.now) result.now
            ≡ segments_of (part_query (nodes_in self.now) query) }
        ensures below { parts_bound result.now ≤ number_of query }
        ensures are { AreOfKind is_segment (nodes_in self.now) result.now }
    {
        self.arena.segments(query)
    }

    /// The operands of `||` in a logical expression.
    #[inline]
    pub fn or_parts(&self, expression: Part) -> &[Part]
        requires within { number_of expression < length (nodes_in self.now) }
        requires kind { IsOfKind is_or (nodes_in self.now) expression }
        ensures tree { or_at (nodes_in self.now) expression
            ≡ ors_in (branches_named (branches (nodes_in self.now)) result.now) }
        ensures below { parts_bound result.now ≤ number_of expression }
        ensures are { AreOfKind is_and (nodes_in self.now) result.now }
    {
        match self.node(expression) {
            Node::LogicalOr(parts) => parts.as_slice(),
            _ => unreachable!(),
        }
    }

    /// The operands of `&&` in an operand of `||`.
    #[inline]
    pub fn and_parts(&self, expression: Part) -> &[Part]
        requires within { number_of expression < length (nodes_in self.now) }
        requires kind { IsOfKind is_and (nodes_in self.now) expression }
        ensures tree { and_at (nodes_in self.now) expression
            ≡ ands_in (branches_named (branches (nodes_in self.now)) result.now) }
        ensures below { parts_bound result.now ≤ number_of expression }
        ensures are { AreOfKind is_basic (nodes_in self.now) result.now }
    {
        match self.node(expression) {
            Node::LogicalAnd(parts) => parts.as_slice(),
            _ => unreachable!(),
        }
    }

    /// The name of the function that a call calls.
    pub fn called_name(&self, call: Part) -> &str
        requires within { number_of call < length (nodes_in self.now) }
        requires kind { IsOfKind is_call (nodes_in self.now) call }
        ensures { result.now ≡ name_of (call_at (nodes_in self.now) call) }
    {
        match self.node(call) {
            Node::Call { name, .. } => name.as_str(),
            _ => unreachable!(),
        }
    }

    /// The types of the parameters of the function that a call calls.
    pub fn parameters(&self, call: Part) -> &[FunctionArgType]
        requires within { number_of call < length (nodes_in self.now) }
        requires kind { IsOfKind is_call (nodes_in self.now) call }
        ensures { (F : FunctionSet) (s : Signature) → Fits F (signatures_of self.now)
            → F.signature (name_of (call_at (nodes_in self.now) call)) ≡ Some s
            → map kind_view result.now ≡ s.params }
    {
        match self.node(call) {
            Node::Call { signature, .. } => signature.params(),
            _ => unreachable!(),
        }
    }

    /// The arguments of a call, in order.
    pub fn arguments(&self, call: Part) -> &[Part]
        requires within { number_of call < length (nodes_in self.now) }
        requires kind { IsOfKind is_call (nodes_in self.now) call }
        ensures tree { arguments_of (call_at (nodes_in self.now) call)
            ≡ arguments_in (branches_named (branches (nodes_in self.now)) result.now) }
        ensures below { parts_bound result.now ≤ number_of call }
        ensures are { AreOfKind is_argument (nodes_in self.now) result.now }
    {
        match self.node(call) {
            Node::Call { arguments, .. } => arguments.as_slice(),
            _ => unreachable!(),
        }
    }

    /// How far a segment goes down.
    #[inline]
    pub fn segment_kind(&self, segment: Part) -> SegmentKind
        requires within { number_of segment < length (nodes_in self.now) }
        requires kind { IsOfKind is_segment (nodes_in self.now) segment }
        ensures { segment_kind_view result ≡ (stage_at (nodes_in self.now) segment).kind }
    {
        match self.node(segment) {
            Node::Segment { kind, .. } => *kind,
            _ => unreachable!(),
        }
    }

    /// A selector in brackets.
    #[inline]
    pub(crate) fn selector(&self, part: Part) -> SelectorRef<'_>
        requires within { part.number < length (nodes_in self.now) }
        requires kind { IsOfKind is_selector (nodes_in self.now) part }
        ensures selector_ref { selector_view (nodes_in self.now) result
            ≡ selector_at (nodes_in self.now) part }
        ensures below { selector_bound result ≤ part.number }
        ensures fits { selector_ref_fits (branches (nodes_in self.now)) result ≡ true }
    {
        match self.node(part) {
            Node::Selector(selector) => match selector {
                Selector::Name(name) => SelectorRef::Name(name.as_str()),
                Selector::Wildcard => SelectorRef::Wildcard,
                Selector::Index(index) => SelectorRef::Index(*index),
                Selector::Slice(slice) => SelectorRef::Slice(*slice),
                Selector::Filter(test) => SelectorRef::Filter(*test),
            },
            _ => unreachable!(),
        }
    }

    /// The selector at that index, from 0, among those in brackets.
    #[inline]
    #[tactic(auto, using(crate::proofs::Tree::NamedParts::of_one_selector))]
    fn bracketed(&self, selectors: &[Part], number: usize) -> Option<SelectorRef<'_>>
        requires within { parts_bound selectors.now ≤ length (nodes_in self.now) }
        requires are { AreOfKind is_selector (nodes_in self.now) selectors.now }
        ensures more { IsSome result → number + 1 < 2 ^ 64 }
        ensures below { IfSome result (λ selector_ref.
            selector_bound selector_ref ≤ parts_bound selectors.now) }
        ensures fits { IfSome result (λ selector_ref.
            selector_ref_fits (branches (nodes_in self.now)) selector_ref ≡ true) }
        ensures selector_ref { option_map (selector_view (nodes_in self.now)) result
            ≡ slice_get (selectors_list (selectors_at (nodes_in self.now) selectors.now)) number }
    {
        match selectors.get(number) {
            Some(part) => Some(self.selector(*part)),
            None => None,
        }
    }

    /// The selector at that index, from 0, in a segment.
    #[inline]
    pub fn selector_ref(&self, segment: Part, number: usize) -> Option<SelectorRef<'_>>
        requires within { number_of segment < length (nodes_in self.now) }
        requires kind { IsOfKind is_segment (nodes_in self.now) segment }
        ensures more { IsSome result → number + 1 < 2 ^ 64 }
        ensures below { IfSome result (λ selector_ref.
            selector_bound selector_ref ≤ number_of segment) }
        ensures fits { IfSome result (λ selector_ref.
            selector_ref_fits (branches (nodes_in self.now)) selector_ref ≡ true) }
        ensures selector_ref { option_map (selector_view (nodes_in self.now)) result
            ≡ slice_get (stage_at (nodes_in self.now) segment).selectors number }
    {
        match self.node(segment) {
            Node::Segment { segment, .. } => match segment {
                Segment::DotName(name) => only(SelectorRef::Name(name.as_str()), number),
                Segment::DotWildcard => only(SelectorRef::Wildcard, number),
                Segment::LongHand(selectors) => self.bracketed(selectors.as_slice(), number),
            },
            _ => unreachable!(),
        }
    }
    /// The selector of a child segment that has one; `None` for any other segment.
    #[inline]
    pub fn only_selector(&self, segment: Part) -> Option<SelectorRef<'_>>
        requires within { number_of segment < length (nodes_in self.now) }
        requires kind { IsOfKind is_segment (nodes_in self.now) segment }
        ensures found { IfSome result (λ only. stage_at (nodes_in self.now) segment
            ≡ record { kind = child; selectors = selector_view (nodes_in self.now) only ∷ [] }) }
        ensures complete { (only : tree.Selector) → stage_at (nodes_in self.now) segment
            ≡ record { kind = child; selectors = only ∷ [] } → IsSome result }
    {
        match self.node(segment) {
            Node::Segment { kind, segment } => match (*kind, segment) {
                (SegmentKind::Descendant, _) => None,
                (SegmentKind::Child, Segment::DotName(name)) => {
                    Some(SelectorRef::Name(name.as_str()))
                }
                (SegmentKind::Child, Segment::DotWildcard) => Some(SelectorRef::Wildcard),
                (SegmentKind::Child, Segment::LongHand(selectors)) => {
                    self.only_bracketed(selectors.as_slice())
                }
            },
            _ => unreachable!(),
        }
    }

    /// The selector in brackets, if there is only one.
    #[inline]
    #[tactic(auto, using(crate::proofs::Tree::NamedParts::of_one_selector, crate::proofs::Tree::NamedParts::one_named))]
    fn only_bracketed(&self, selectors: &[Part]) -> Option<SelectorRef<'_>>
        requires within { parts_bound selectors.now ≤ length (nodes_in self.now) }
        requires are { AreOfKind is_selector (nodes_in self.now) selectors.now }
        ensures found { IfSome result (λ only.
            selectors_list (selectors_at (nodes_in self.now) selectors.now)
            ≡ selector_view (nodes_in self.now) only ∷ []) }
        ensures complete { (only : tree.Selector) →
            selectors_list (selectors_at (nodes_in self.now) selectors.now) ≡ only ∷ []
            → IsSome result }
    {
        if selectors.len() == 1 {
            Some(self.selector(selectors[0]))
        } else {
            None
        }
    }
}

/// Whether the set declares the name that a node calls, with the signature that the node keeps.
fn declares<F: Functions>(functions: &F, node: &Node) -> bool
    ensures { IsTrue result ↔ Fits (F.set functions.now) (called_by node.now) }
{
    match node {
        Node::Call {
            name,
            signature,
            ..
        } => match functions.signature(name.as_str()) {
            Some(declared) => declared.is_same(signature),
            None => false,
        },
        Node::Query { .. }
        | Node::Segment { .. }
        | Node::Selector(_)
        | Node::LogicalOr(_)
        | Node::LogicalAnd(_)
        | Node::Basic(_)
        | Node::Operand(_) => true,
    }
}

/// The selector at that index where there is only one.
#[inline]
fn only<'q>(selector_ref: SelectorRef<'q>, number: usize) -> Option<SelectorRef<'q>>
    ensures same { IfSome result (λ given. given ≡ selector_ref.entry) }
    ensures more { IsSome result → number + 1 < 2 ^ 64 }
    ensures selector_ref { result ≡ slice_get (selector_ref.entry ∷ []) number }
{
    if number == 0 {
        Some(selector_ref)
    } else {
        None
    }
}
