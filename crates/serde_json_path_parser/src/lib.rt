//! The typed grammar of JSONPath (RFC 9535), and its parser.
//!
//! [`parse`] reads the path that a [`PathSource`] holds, from left to right, into a finished query. A
//! [`ParseError`] says why a text is refused, and at which position.
//!
//! ```text
//! let mut source = TextSource::new("$..book[-1:].title");
//! let query = parse(alloc, &mut source, &Builtin, Numbers::Whole)?;
//! ```
//!
//! Definitions are in `specs/`: `Lexical` has names, strings and numbers, `Grammar` which text reads as which tree, `Accepted`
//! the typed grammar, `Parse` what a parse accepts, `Reported` which refusal it reports, `Errors` messages, `Source` what a
//! source holds and counts. `src/parser` follows the grammar, one module for each part.
#![tactic(auto)]

mod error;
mod laws;
mod parser;
mod source;

pub use error::{ParseError, ParseErrorKind};
pub use laws::{law_all_numbers_read_more, law_one_tree_at_most, law_print};
pub use parser::parse;
pub use source::{PathSource, TextSource};
