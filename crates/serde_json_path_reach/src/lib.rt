//! Reads of a JSON document what JSONPath queries (RFC 9535) can reach.
//!
//! [`read_for`] gives a value from which each of some queries selects what it selects from the whole document: the same
//! nodes in the same order, with the same locations and values. What no query can reach is passed over, and takes no memory.
//!
//! ```text
//! let document = read_for(alloc, bytes, &[&path])?;
//! let nodes = evaluate_located(alloc, &path, &document, Builtin)?;
//! ```
//!
//! Definitions are in `specs/`: `Alike` says what the value has in common with the document.
#![tactic(auto)]

mod bits;
mod document;
mod leaf;
mod number;
mod passed;
mod plan;
mod read;
mod refused;
mod row;
mod steps;

pub use document::{DocumentReader, read_for};
