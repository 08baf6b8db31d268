//! Functions of filters, their arguments and answers (RFC 9535, section 2.4), and why a query is refused.
//!
//! [`Functions`] is the trait of a function set: it declares names with their [`Signature`]s, and answers their calls.
//! [`Builtin`] is the set of `length`, `count`, `value`, `match` and `search`, and [`CachedPatterns`] the same with the patterns
//! that it has read; [`Both`] puts one set before another. Arguments and answers are [`FunctionValue`]s. By which rule
//! comparisons take numbers ([`Numbers`]), a query says.
//!
//! ```text
//! let functions = Both(&own, Builtin);
//! let signature = functions.signature("count");
//! let args = Vec::from_array(alloc, [FunctionValue::Nodes(NodesType::from(nodes))])?;
//! let answer = functions.call(alloc, "count", args)?;
//! ```
//!
//! Definitions are in `specs/`: `Functions` has what a set is and what the built-in names mean, `Patterns` what `match`
//! and `search` mean, in the words of `regex`'s specification, and where that is promised; `Terms` what contracts see of
//! arguments and answers.
#![tactic(auto)]

mod both;
mod builtin;
mod cached;
mod error;
mod numbers;
mod patterns;
mod set;
mod signature;
mod types;

pub use both::Both;
pub use builtin::Builtin;
pub use cached::{CachedPatterns, PatternStore};
pub use error::QueryError;
pub use numbers::Numbers;
pub use set::Functions;
pub use signature::Signature;
pub use types::{FunctionArgType, FunctionValue, LogicalType, NodesType, ValueType};
