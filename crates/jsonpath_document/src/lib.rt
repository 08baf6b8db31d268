//! Documents from bytes, and what stands where bytes are no document.
//!
//! [`read_document`] reads a document, and says of what is no JSON where it goes wrong, and what stands there.
//!
//! Definitions are in `specs/`: `Document` says which value bytes are, and what may be told of a place in a text, `Place` what
//! stands before it, and `Begins` what a text begins by from there on.
#![tactic(auto)]

mod begins;
mod document;
mod faults;
mod place;
mod reading;

pub use document::{DocumentError, DocumentFault, read_document};
