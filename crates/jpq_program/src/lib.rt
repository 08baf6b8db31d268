//! The program `jpq` over any inputs and writers: JSONPath (RFC 9535) on the command line.
//!
//! [`run::run`] reads the words, the paths and the documents, writes what is selected, tells what is refused, and answers the
//! exit status. [`answers::push_answer`] is what it shows of a document, for a path. Files are opened by [`inputs::Inputs`], so
//! that a test may hand in its own, and [`streams::Streams`] has what is written and told.
#![tactic(auto)]

mod answering;
pub mod answers;
mod asked_path;
mod bindings;
mod caret;
pub mod colours;
mod documents;
mod dress;
mod empty_answer;
mod encodings;
mod inexact;
pub mod inputs;
mod meant;
mod members;
mod paths;
mod patterns;
mod refusal;
mod rows;
pub mod run;
mod showing;
mod source;
pub mod streams;
mod tables;
mod tokens;
mod written;
