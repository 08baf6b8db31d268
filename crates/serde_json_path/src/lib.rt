//! JSONPath (RFC 9535) over `serde_json` values: which nodes of a document a path selects, in which order, and where they
//! are.
//!
//! [`JsonPath`] is a path. Parse one, query a document, and go over the nodes:
//!
//! ```text
//! let path = JsonPath::parse(alloc, "$..book[-1:].title")?;
//! let nodes = path.query_located(alloc, &document)?;
//! for node in nodes.iter() {
//!     println!(rt; "{}\t{}", node.location(), node.node())?;
//! }
//! ```
//!
//! # Syntax
//!
//! | Form | Selects |
//! |---|---|
//! | `$` | the document; `@` in a filter is the node under test |
//! | `.name`, `['name']` | a member of an object |
//! | `.*`, `[*]` | all children |
//! | `[0]`, `[-1]` | an item of an array, from the start or from the end |
//! | `[1:9:2]` | a slice: start, end and step, each of which may be missing |
//! | `[?@.a == 1 && !@.b]` | children for which a logical expression holds |
//! | `[0, 'name', ?@.a]` | what each selector selects, one after the other |
//! | `..name`, `..[0]` | the same at a node and at all nodes below it |
//!
//! Filters test queries and calls, and compare literals, singular queries and calls by `==`, `!=`, `<`, `<=`, `>` and `>=`.
//! The built-in functions are `length`, `count`, `value`, `match` and `search`; a [`functions::Functions`] of your own adds
//! others ([`JsonPath::parse_with`]).
//!
//! # Documents
//!
//! [`read_for`] reads of a document's bytes what some paths can reach, and passes over the rest: each path selects from the value
//! what it selects from the whole document. A [`DocumentReader`] does so for many documents.
//!
//! ```text
//! let document = read_for(alloc, bytes, &[path.tree()])?;
//! let nodes = path.query_located(alloc, &document)?;
//! ```
//!
//! # Limits
//!
//! Filters, parentheses and calls may be nested 128 deep. Indexes go up to 2^53 - 1. Unless the path takes all numbers
//! ([`JsonPath::parse_by`]), number literals have at most nine digits of a fraction and no exponent, one with a fraction is no
//! argument of a function, and a number of a document that is not held as an integer equals nothing and is not ordered.
//!
//! # Untrusted input
//!
//! Any text may be parsed: a path of n bytes is looked at no more than 32(n + 1) times, and no call ends in a panic, an
//! overflow or an endless loop. A path may select many nodes, and a node many times, so a list may be much larger than the
//! document; [`JsonPath::walk`] gives one node at a time and keeps few places. Patterns are handed to `regex`. Nested values
//! are compared by recursion, and `serde_json` reads, prints and drops them so: bound the depth of a document that you do not
//! read from bytes.
//!
//! # Definitions
//!
//! Contracts cite relations in the terms of the RFC: the grammar is in `specs/` of `serde_json_path_parser`, trees and their
//! typing in those of `serde_json_path_syntax`, what a query selects in those of `serde_json_path_core`. `Paths` here is
//! what contracts see of a path, `FromJson` what reading one from a JSON value answers, `Laws` the law that joins grammar and
//! meaning. The laws of results, of texts and of locations are functions with empty bodies, whose contracts are the laws.
#![tactic(auto)]

mod equal;
mod ext;
mod json;
mod laws;
mod path;
mod print;
mod source;

pub use ext::JsonPathExt;
pub use json::FromJsonError;
pub use laws::{law_locations_are_proper, law_normal, law_set_before_itself};
pub use path::JsonPath;
pub use serde_json_path_core::{
    AtMostOneError, Binding, ExactlyOneError, LocatedNode, LocatedNodeList, LocatedNodes,
    Locations, NodeList, Nodes, NormalizedPath, Numbers, PathElement, PathElements, QueryError,
    Sink, Taken, Walk, functions, law_append, law_before_is_asymmetric,
    law_descendants_in_document_order, law_each_document_has_a_height,
    law_equality_is_an_equivalence, law_equality_of_numbers, law_integers_keep_their_order,
    law_less_or_equal_is_either, law_not_equal_negates_equal, law_numbers_are_finite,
    law_order_is_total, law_order_of_numbers, law_result_exists, law_result_is_unique,
    law_singular_query_selects_at_most_one, law_texts_tell_locations,
};
pub use serde_json_path_parser::{
    ParseError, ParseErrorKind, PathSource, TextSource, law_all_numbers_read_more,
    law_one_tree_at_most, law_print,
};
pub use serde_json_path_reach::{DocumentReader, read_for};
pub use source::parse_source;
