//! The lines that a path selects from a document, and the program `jsonpath` over any streams.
//!
//! [`report::report`] makes the lines from the bytes of a document: of each node its location, a tab, and its JSON. It takes a
//! function set.
//!
//! ```text
//! let lines = report(alloc, "$.foo.bar[0]", b"{\"foo\":{\"bar\":[\"baz\",42]}}", &Builtin)?;
//! assert_eq!(rt; lines.as_str(), "$['foo']['bar'][0]\t\"baz\"\n");
//! ```
//!
//! [`run::run`] reads the document, writes the lines or tells a fault in a line, and answers the exit status of the program.
//! [`arguments::words_after_first`] takes the program's name off its words.
//!
//! Definitions are in `specs/`: `Report` says what a report is, `Run` what the statuses mean and what is reported. A document's reading
//! is that of `jsonpath_document`, and lines are those of `jsonpath_lines`.
#![tactic(auto)]

pub mod arguments;
pub mod report;
pub mod run;
