//! The builder of syntax trees.

use crate::arena::Arena;
use crate::argument_ref::ArgumentRef;
use crate::checked::Checked;
use crate::literal::Literal;
use crate::node::{Basic, Node, Operand, Part, QueryKind, Segment, SegmentKind, Selector};
use crate::operator::ComparisonOperator;
use crate::parts::Parts;
use crate::singular::is_singular;
use crate::slice::Slice;
use serde_json_path_functions::Signature;
use std::alloc::{AllocError, Global};

/// Builds a syntax tree from its leaves up: each call makes a part out of finished parts.
///
/// A part belongs to the builder that made it, and stands for the same tree after every further call, refused or not.
/// A call fails only if memory is refused.
///
/// The builder keeps each function call that `call` makes, also one that the tree does not use, and `finish` asks that the
/// tree calls its name, with the same signature. So a call may be left out of the tree only where the tree calls that name
/// elsewhere; else begin with a new builder. Any other part may be left out.
#[derive(Drop)]
pub struct SyntaxBuilder {
    arena: Arena,
}

impl SyntaxBuilder {
    ghost use Rattle.std.specs.Prelude.{true, Some, ◌≡◌, ◌↔◌, ◌++◌, ◌∷◌, [], IfOk, OnErr, OnOk, IsTrue, string_bytes, length};
    ghost use Rattle.serde_json_path_syntax.specs.Words.{literal_view, operator_view, a_query, a_segment, a_selector, an_or, an_and, a_basic, an_operand, a_call, argument_branch, IsOptionalInteger, IsSeenAs, result_of_call, result_of_operand, called_by, query_kind_view, segment_kind_view, NamesBelow, parts_in, branch_of, branches, fits, slice_view, HasNoParts, IsPart, ArePartsOf, AreSelectorsOf, AreOrPartsOf, AreAndPartsOf, AreArgumentsOf, KeepsParts, KeepsTrees, calls_in, tree_of, rule_of, signatures_of, whole_numbers, MayFinish, each_once, signature_view};
    ghost use Rattle.serde_json_path_syntax.specs.Tree as tree;

    /// A builder with no parts. Takes no memory.
    pub fn new(alloc: Global) -> SyntaxBuilder
        ensures empty { HasNoParts result }
        ensures no_calls { calls_in result ≡ [] }
    {
        SyntaxBuilder {
            arena: Arena::new(alloc),
        }
    }

    /// Appends a node whose children already exist.
    #[inline(always)]
    #[tactic(auto, using(crate::proofs::Tree::Growing::of_push))]
    fn push(&mut self, node: Node) -> Result<Part, AllocError>
        requires below { NamesBelow (length self.old.arena.nodes.items) node }
        requires fits { fits (branches self.old.arena.nodes.items) node ≡ true }
        ensures made { IfOk result (λ part.
            IsPart self.new part (branch_of (branches self.old.arena.nodes.items) node)) }
        ensures keeps { called_by node ≡ [] → KeepsParts self.old self.new }
        ensures trees { KeepsTrees self.old self.new }
        ensures calls { OnOk result (calls_in self.new ≡ calls_in self.old ++ called_by node) }
        ensures unchanged { OnErr result (calls_in self.new ≡ calls_in self.old) }
        ensures number { IfOk result (λ part. part.number ≡ length self.old.arena.nodes.items) }
        ensures pushed { OnOk result (self.new.arena.nodes.items
            ≡ self.old.arena.nodes.items ++ node ∷ []) }
    {
        self.arena.push(node)
    }

    /// The segment `.name`.
    pub fn dot_name(&mut self, kind: SegmentKind, name: String) -> Result<Part, AllocError>
        ensures made { IfOk result (λ part.
            IsPart self.new part
            (a_segment (segment_kind_view kind) (tree.dot_name (string_bytes name)))) }
        ensures keeps { KeepsParts self.old self.new }
    {
        self.push(Node::Segment {
            kind,
            segment: Segment::DotName(name),
        })
    }

    /// The segment `.*`.
    pub fn dot_wildcard(&mut self, kind: SegmentKind) -> Result<Part, AllocError>
        ensures made { IfOk result (λ part.
            IsPart self.new part (a_segment (segment_kind_view kind) tree.dot_wildcard)) }
        ensures keeps { KeepsParts self.old self.new }
    {
        self.push(Node::Segment {
            kind,
            segment: Segment::DotWildcard,
        })
    }

    /// A bracket segment of one selector or more, in order.
    #[tactic(auto, using(crate::proofs::Tree::NamedParts::of_named_parts))]
    pub fn long_hand(&mut self, kind: SegmentKind, selectors: Parts) -> Result<Part, AllocError>
        requires { (sels : tree.Selectors) × AreSelectorsOf self.old (parts_in selectors) sels }
        ensures made { IfOk result (λ part.
            (sels : tree.Selectors) → AreSelectorsOf self.old (parts_in selectors) sels
            → IsPart self.new part (a_segment (segment_kind_view kind) (tree.long_hand sels))) }
        ensures keeps { KeepsParts self.old self.new }
    {
        self.push(Node::Segment {
            kind,
            segment: Segment::LongHand(selectors),
        })
    }

    /// A name selector in brackets.
    pub fn name(&mut self, name: String) -> Result<Part, AllocError>
        ensures made { IfOk result (λ part.
            IsPart self.new part (a_selector (tree.name (string_bytes name)))) }
        ensures keeps { KeepsParts self.old self.new }
    {
        self.push(Node::Selector(Selector::Name(name)))
    }

    /// A wildcard selector in brackets.
    pub fn wildcard(&mut self) -> Result<Part, AllocError>
        ensures made { IfOk result (λ part. IsPart self.new part (a_selector tree.wildcard)) }
        ensures keeps { KeepsParts self.old self.new }
    {
        self.push(Node::Selector(Selector::Wildcard))
    }

    /// An index selector, of -(2^53 - 1) to 2^53 - 1.
    pub fn index(&mut self, index: i64) -> Result<Part, AllocError>
        requires { tree.IsInteger index }
        ensures made { IfOk result (λ part. IsPart self.new part (a_selector (tree.index index))) }
        ensures keeps { KeepsParts self.old self.new }
    {
        self.push(Node::Selector(Selector::Index(index)))
    }

    /// A slice selector, whose numbers are of -(2^53 - 1) to 2^53 - 1.
    pub fn slice(&mut self, slice: Slice) -> Result<Part, AllocError>
        requires start { IsOptionalInteger slice.start }
        requires end { IsOptionalInteger slice.end }
        requires step { IsOptionalInteger slice.step }
        ensures made { IfOk result (λ part.
            IsPart self.new part (a_selector (tree.slice (slice_view slice)))) }
        ensures keeps { KeepsParts self.old self.new }
    {
        self.push(Node::Selector(Selector::Slice(slice)))
    }

    /// A filter selector, which selects the children for which a logical expression holds (RFC 9535, section 2.3.5).
    pub fn filter(&mut self, test: Part) -> Result<Part, AllocError>
        requires { (e : tree.LogicalOr) × IsPart self.old test (an_or e) }
        ensures made { IfOk result (λ part. (e : tree.LogicalOr) → IsPart self.old test (an_or e)
            → IsPart self.new part (a_selector (tree.filter e))) }
        ensures keeps { KeepsParts self.old self.new }
    {
        self.push(Node::Selector(Selector::Filter(test)))
    }

    /// A logical expression: one operand of `||` or more, in order (RFC 9535, section 2.3.5.1).
    #[tactic(auto, using(crate::proofs::Tree::NamedParts::of_named_parts))]
    pub fn logical_or(&mut self, parts: Parts) -> Result<Part, AllocError>
        requires { (e : tree.LogicalOr) × AreOrPartsOf self.old (parts_in parts) e }
        ensures made { IfOk result (λ part.
            (e : tree.LogicalOr) → AreOrPartsOf self.old (parts_in parts) e
            → IsPart self.new part (an_or e)) }
        ensures keeps { KeepsParts self.old self.new }
    {
        self.push(Node::LogicalOr(parts))
    }

    /// An operand of `||`: one operand of `&&` or more, in order (RFC 9535, section 2.3.5.1).
    #[tactic(auto, using(crate::proofs::Tree::NamedParts::of_named_parts))]
    pub fn logical_and(&mut self, parts: Parts) -> Result<Part, AllocError>
        requires { (e : tree.LogicalAnd) × AreAndPartsOf self.old (parts_in parts) e }
        ensures made { IfOk result (λ part.
            (e : tree.LogicalAnd) → AreAndPartsOf self.old (parts_in parts) e
            → IsPart self.new part (an_and e)) }
        ensures keeps { KeepsParts self.old self.new }
    {
        self.push(Node::LogicalAnd(parts))
    }

    /// A logical expression in parentheses, negated or not, as `(@.a || @.b)` and `!(@.a || @.b)` (RFC 9535, section 2.3.5.1).
    pub fn paren(&mut self, negated: bool, inner: Part) -> Result<Part, AllocError>
        requires { (e : tree.LogicalOr) × IsPart self.old inner (an_or e) }
        ensures made { IfOk result (λ part. (e : tree.LogicalOr) → IsPart self.old inner (an_or e)
            → IsPart self.new part (a_basic (tree.paren negated e))) }
        ensures keeps { KeepsParts self.old self.new }
    {
        self.push(Node::Basic(Basic::Paren { negated, inner }))
    }

    /// A comparison of two operands, as `@.a < 1`; of queries singular ones alone may be compared (RFC 9535, section 2.3.5.1).
    #[tactic(auto, using(crate::proofs::Tree::NamedParts::comparable_is))]
    pub fn relation(
        &mut self,
        left: Part,
        operator: ComparisonOperator,
        right: Part,
    ) -> Result<Part, AllocError>
        requires left { (a : tree.Operand) × IsPart self.old left (an_operand a)
            × tree.IsComparable a }
        requires right { (b : tree.Operand) × IsPart self.old right (an_operand b)
            × tree.IsComparable b }
        ensures made { IfOk result (λ part.
            (a b : tree.Operand) → IsPart self.old left (an_operand a)
            → IsPart self.old right (an_operand b)
            → IsPart self.new part (a_basic (tree.relation a (operator_view operator) b))) }
        ensures keeps { KeepsParts self.old self.new }
    {
        self.push(Node::Basic(Basic::Relation {
            left,
            operator,
            right,
        }))
    }

    /// A test of a query or of a call's answer, negated or not, as `@.a` and `!match(@.a, 'b')` (RFC 9535, sections 2.3.5.1
    /// and 2.4.2).
    #[tactic(auto, using(crate::proofs::Tree::NamedParts::tested_is))]
    pub fn test(&mut self, negated: bool, operand: Part) -> Result<Part, AllocError>
        requires { (o : tree.Operand) × IsPart self.old operand (an_operand o) × tree.IsTested o }
        ensures made { IfOk result (λ part. (o : tree.Operand)
            → IsPart self.old operand (an_operand o)
            → IsPart self.new part (a_basic (tree.test negated o))) }
        ensures keeps { KeepsParts self.old self.new }
    {
        self.push(Node::Basic(Basic::Test { negated, operand }))
    }

    /// A literal as an operand (RFC 9535, section 2.3.5.1).
    pub fn literal(&mut self, literal: Literal) -> Result<Part, AllocError>
        ensures made { IfOk result (λ part.
            IsPart self.new part (an_operand (tree.literal (literal_view literal)))) }
        ensures keeps { KeepsParts self.old self.new }
    {
        let literal = literal.held(self.arena.allocator())?;
        self.push(Node::Operand(Operand::Literal(literal)))
    }

    /// A query as an operand (RFC 9535, section 2.3.5.1).
    pub fn queried(&mut self, query: Part) -> Result<Part, AllocError>
        requires { (q : tree.Query) × IsPart self.old query (a_query q) }
        ensures made { IfOk result (λ part. (q : tree.Query) → IsPart self.old query (a_query q)
            → IsPart self.new part (an_operand (tree.queried q))) }
        ensures keeps { KeepsParts self.old self.new }
    {
        self.push(Node::Operand(Operand::Query(query)))
    }

    /// Whether the part is a singular query: only child segments, each of one name or one index (RFC 9535, section
    /// 2.3.5.1). Takes no memory.
    pub fn is_singular(&self, query: Part) -> bool
        requires { (q : tree.Query) × IsPart self.now query (a_query q) }
        ensures { (q : tree.Query) → IsPart self.now query (a_query q) → IsTrue result
            ↔ tree.IsSingular q }
    {
        is_singular(&self.arena, query)
    }

    /// A call as an operand, as `length(@.a)` (RFC 9535, section 2.4).
    #[tactic(auto, using(crate::proofs::Tree::Growing::called_result))]
    pub fn called(&mut self, call: Part) -> Result<Part, AllocError>
        requires { (c : tree.Call) × IsPart self.old call (a_call c) }
        ensures made { IfOk result (λ part. (c : tree.Call) → IsPart self.old call (a_call c)
            → IsPart self.new part (an_operand (tree.called c))) }
        ensures result { IfOk result (λ part.
            result_of_operand self.new part ≡ result_of_call self.old call) }
        ensures keeps { KeepsParts self.old self.new }
    {
        self.push(Node::Operand(Operand::Call(call)))
    }

    /// A call of a function by name, which keeps that signature, with its arguments in order, each of which is an operand or a
    /// logical expression (RFC 9535, section 2.4).
    ///
    /// The builder keeps the name and the signature for good, and a tree that does not call the name cannot be finished.
    #[tactic(auto, using(crate::proofs::Tree::NamedParts::of_named_parts))]
    pub fn call(
        &mut self,
        name: String,
        signature: Signature,
        arguments: Vec<Part>,
    ) -> Result<Part, AllocError>
        requires { (args : tree.Arguments) × AreArgumentsOf self.old arguments.items args }
        ensures made { IfOk result (λ part.
            (args : tree.Arguments) → AreArgumentsOf self.old arguments.items args
            → IsPart self.new part (a_call (tree.call (string_bytes name) args))) }
        ensures result { IfOk result (λ part.
            result_of_call self.new part ≡ Some (signature_view signature).result) }
        ensures keeps { KeepsTrees self.old self.new }
        // The call is the last one of the builder, with that signature.
        ensures calls { OnOk result (calls_in self.new
            ≡ calls_in self.old ++ (string_bytes name, signature_view signature) ∷ []) }
        ensures unchanged { OnErr result (calls_in self.new ≡ calls_in self.old) }
    {
        self.push(Node::Call {
            name,
            signature,
            arguments,
        })
    }

    /// What stands as this operand or argument, a part that `literal`, `queried`, `called` or `logical_or` made (RFC 9535,
    /// sections 2.3.5.1 and 2.4). Of a call it tells the type of the result, by the signature that the call keeps. Takes no
    /// memory.
    #[tactic(auto, using(crate::proofs::Tree::NamedParts::of_argument))]
    pub fn argument(&self, part: Part) -> ArgumentRef<'_>
        requires { (x : tree.Argument) × IsPart self.now part (argument_branch x) }
        ensures { (x : tree.Argument) → IsPart self.now part (argument_branch x)
            → IsSeenAs self.now part result x }
    {
        match self.arena.node(part) {
            Node::Operand(Operand::Literal(literal)) => ArgumentRef::Literal(literal),
            Node::Operand(Operand::Query(query)) => ArgumentRef::Query(*query),
            Node::Operand(Operand::Call(call)) => match self.arena.node(*call) {
                Node::Call { signature, .. } => ArgumentRef::Call(signature.result()),
                _ => unreachable!(),
            },
            Node::LogicalOr(_) => ArgumentRef::Logical,
            _ => unreachable!(),
        }
    }

    /// A query of these segments, in order.
    #[tactic(auto, using(crate::proofs::Tree::NamedParts::of_named_parts))]
    pub fn query(&mut self, kind: QueryKind, segments: Parts) -> Result<Part, AllocError>
        requires { (segs : tree.Segments) × ArePartsOf self.old (parts_in segments) segs }
        ensures made { IfOk result (λ part.
            (segs : tree.Segments) → ArePartsOf self.old (parts_in segments) segs
            → IsPart self.new part (a_query (tree.query (query_kind_view kind) segs))) }
        ensures keeps { KeepsParts self.old self.new }
    {
        self.push(Node::Query { kind, segments })
    }

    /// The finished tree of a part. Takes no memory.
    ///
    /// The query starts at the root, nests at most 128 filters, parentheses and calls, and calls exactly the names of the
    /// calls that the builder has made, those that the tree does not use among them. Each name always has the same
    /// signature, and the query is well-typed under these signatures (RFC 9535, section 2.4.3).
    pub fn finish(self, part: Part) -> Checked
        requires { (q : tree.Query) × IsPart self part (a_query q) × MayFinish (calls_in self) q }
        ensures tree { (q : tree.Query) → IsPart self part (a_query q) → tree_of result ≡ q }
        ensures used { signatures_of result ≡ each_once (calls_in self) }
        ensures rule { rule_of result ≡ whole_numbers }
    {
        Checked::of(self.arena, part)
    }
}
