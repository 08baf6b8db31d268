//! Syntax trees of JSONPath queries (RFC 9535), kept as one vector of nodes.
//!
//! A [`SyntaxBuilder`] makes the parts of a tree from finished ones; a [`Part`] is the number of a node. A finished query is
//! a [`Checked`]: it is well-typed, at most 128 deep, and keeps the signatures of the functions that it calls.
//!
//! ```text
//! let mut builder = SyntaxBuilder::new(alloc);
//! let mut segments = Parts::new(alloc);
//! segments.push(builder.dot_name(SegmentKind::Child, name)?)?;
//! let query = builder.query(QueryKind::Root, segments)?;
//! ```
//!
//! Definitions are in `specs/`: `Tree` has the trees, `WellFormed` the range of their numbers, `Typing` which are
//! well-typed, `Depth` how deep they nest, `Calls` what they call, `Text` how they print,
//! `SameTree` when they are the same, `Bound` what is left of one where texts stand for others.
#![tactic(auto)]

mod arena;
mod argument_ref;
mod binding;
mod builder;
mod checked;
mod copies;
mod equal;
mod literal;
mod node;
mod operator;
mod parts;
mod print;
mod selector_ref;
mod singular;
mod slice;

pub use argument_ref::ArgumentRef;
pub use binding::Binding;
pub use builder::SyntaxBuilder;
pub use checked::Checked;
pub use literal::{HeldDecimal, Literal, LiteralValue, NumberLiteral};
pub use node::{Basic, Node, Operand, Part, QueryKind, Segment, SegmentKind, Selector};
pub use operator::ComparisonOperator;
pub use parts::Parts;
pub use selector_ref::SelectorRef;
pub use slice::Slice;
