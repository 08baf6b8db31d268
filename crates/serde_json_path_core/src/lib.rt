//! What syntax trees of JSONPath queries (RFC 9535) select from `serde_json` values.
//!
//! [`evaluate_located`] gives the nodes that a [`Checked`] query selects, with their locations, in order; [`evaluate`] gives
//! them without locations; a [`Walk`] gives one node at a time. A list with locations is a full run of the walk.
//!
//! ```text
//! let mut walk = walk(alloc, &query, &document, Builtin)?;
//! while let Some(node) = walk.next()? {
//!     println!(rt; "{}", node.location())?;
//! }
//! ```
//!
//! Definitions are in `specs/`: `Slices` has the items that a slice takes, `Compared` what `==`, `!=` and `<` mean,
//! `Derivation` the derivations of a query and their order, `Meaning` what a query selects, `PatternCalls` which calls may be
//! refused for their pattern, `Laws` the laws of results.
#![tactic(auto)]

mod child;
mod evaluation;
mod filter;
mod laws;

pub use evaluation::sink::{Sink, Taken};
pub use evaluation::walks::Walk;
pub use evaluation::{evaluate, evaluate_located, walk};
pub use laws::{
    law_append, law_before_is_asymmetric, law_descendants_in_document_order,
    law_each_document_has_a_height, law_equality_is_an_equivalence, law_less_or_equal_is_either,
    law_not_equal_negates_equal, law_order_is_total, law_result_exists, law_result_is_unique,
    law_singular_query_selects_at_most_one,
};
pub use serde_json_path_functions as functions;
pub use serde_json_path_functions::{Numbers, QueryError};
pub use serde_json_path_nodes::{
    AtMostOneError, ExactlyOneError, LocatedNode, LocatedNodeList, LocatedNodes, Locations,
    NodeList, Nodes, NormalizedPath, PathElement, PathElements, law_texts_tell_locations,
};
pub use serde_json_path_numbers::{
    Decimal, law_equality_of_numbers, law_integers_keep_their_order, law_numbers_are_finite,
    law_order_of_numbers,
};
pub use serde_json_path_syntax::{
    Binding, Checked, ComparisonOperator, Literal, NumberLiteral, Part, Parts, QueryKind,
    SegmentKind, Slice, SyntaxBuilder,
};
