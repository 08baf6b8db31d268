//! The nodes of a syntax tree.

use crate::literal::LiteralValue;
use crate::operator::ComparisonOperator;
use crate::parts::Parts;
use crate::slice::Slice;
use serde_json_path_functions::Signature;

/// Where a query starts (RFC 9535, sections 2.2.1 and 2.3.5.1).
#[derive(Clone, Copy, Debug, PartialEq, Eq)]
pub enum QueryKind {
    /// `$`: at the document's root.
    Root,
    /// `@`: at the current node of a filter.
    Current,
}

/// How far a segment goes down (RFC 9535, sections 2.5.1 and 2.5.2).
#[derive(Clone, Copy, Debug, PartialEq, Eq)]
pub enum SegmentKind {
    /// To the children of a node.
    Child,
    /// To the children of a node and of all below it.
    Descendant,
}

/// A node of the tree that a builder makes, by its index.
#[derive(Clone, Copy, Debug)]
pub struct Part {
    pub(crate) number: usize,
}

/// The selectors of a segment, in the form in which they are written.
#[derive(Clone, Drop)]
pub enum Segment {
    /// `.name`
    DotName(String),
    /// `.*`
    DotWildcard,
    /// Selectors in brackets.
    LongHand(Parts),
}

/// A selector in brackets.
#[derive(Clone, Drop)]
pub enum Selector {
    /// The member of that name.
    Name(String),
    /// All children.
    Wildcard,
    /// The item at that position.
    Index(i64),
    /// The items at some positions.
    Slice(Slice),
    /// The children for which a logical expression holds.
    Filter(Part),
}

/// An operand of `&&`.
#[derive(Clone, Copy)]
pub enum Basic {
    /// A logical expression in parentheses.
    Paren {
        /// Whether `!` stands before the parentheses.
        negated: bool,
        /// The expression.
        inner: Part,
    },
    /// A comparison of two operands.
    Relation {
        /// The operand before the operator.
        left: Part,
        /// The operator.
        operator: ComparisonOperator,
        /// The operand after it.
        right: Part,
    },
    /// A test of an operand.
    Test {
        /// Whether `!` stands before the operand.
        negated: bool,
        /// The operand: a query or a call.
        operand: Part,
    },
}

/// What is compared, tested or an argument.
#[derive(Clone, Drop)]
pub enum Operand {
    /// A literal.
    Literal(LiteralValue),
    /// A query.
    Query(Part),
    /// A call.
    Call(Part),
}

/// A node of a syntax tree. It refers only to nodes that were made before it.
#[derive(Clone, Drop)]
pub enum Node {
    /// A query and its segments.
    Query {
        kind: QueryKind,
        segments: Parts,
    },
    /// A segment.
    Segment {
        kind: SegmentKind,
        segment: Segment,
    },
    /// A selector.
    Selector(Selector),
    /// Operands of `||`.
    LogicalOr(Parts),
    /// Operands of `&&`.
    LogicalAnd(Parts),
    /// An operand of `&&`.
    Basic(Basic),
    /// What is compared, tested or an argument.
    Operand(Operand),
    /// A call of a function, with the signature that the name had when the call was made. Each argument is an operand or a
    /// logical expression.
    Call {
        name: String,
        signature: Signature,
        arguments: Vec<Part>,
    },
}
