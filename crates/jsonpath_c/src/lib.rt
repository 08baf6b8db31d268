//! The engine for programs in C, and in languages that call C: the exports of `include/jsonpath.h`.
//!
//! Each call takes texts as a pointer and a length, and answers a status. It writes its text to what the caller lends, or says
//! how much it needs. Some read a path and a document each time; others ask those of handles, where a program keeps what was
//! compiled and read once. What is proved holds where the caller keeps to what the header says of memory, threads and the stack.
//!
//! ```text
//! size_t length;
//! struct jsonpath_refusal refusal;
//! uint8_t status = jsonpath_report(path, path_length, document, document_length, out, out_length, &length, &refusal);
//! ```
#![tactic(auto)]

mod answers;
mod bounded;
mod bounded_list;
mod bytes;
mod check;
mod compiled;
mod counted;
mod documents;
mod handle;
mod limits;
mod lines;
mod node;
mod node_texts;
mod nodes;
mod output;
mod paths;
mod refusal;
mod selected;
mod status;
mod walking;
mod walks;

ghost use Rattle.std.specs.Prelude.{◌≡◌};

pub use answers::{jsonpath_count, jsonpath_exists, jsonpath_lines};
pub use bytes::{jsonpath_count_in, jsonpath_exists_in, jsonpath_lines_in};
pub use check::{jsonpath_check, jsonpath_hint, jsonpath_message};
pub use compiled::Compiled;
pub use documents::{
    jsonpath_document_free, jsonpath_document_message, jsonpath_document_new,
    jsonpath_document_share,
};
pub use handle::document::{Document, DocumentHandle, DocumentRef};
pub use handle::nodes::{Nodes, NodesHandle, NodesRef};
pub use handle::path::{PathHandle, PathRef};
pub use handle::walk::{HeldWalk, WalkHandle};
pub use limits::Limits;
pub use lines::{jsonpath_locations, jsonpath_report, jsonpath_values};
pub use node::Node;
pub use node_texts::{
    jsonpath_node_json, jsonpath_node_location, jsonpath_node_pointer, jsonpath_node_text,
};
pub use nodes::{jsonpath_node, jsonpath_nodes_free, jsonpath_nodes_length, jsonpath_select};
pub use paths::{
    jsonpath_path_equals, jsonpath_path_free, jsonpath_path_new, jsonpath_path_share,
    jsonpath_path_text,
};
pub use refusal::Refusal;
pub use walking::{jsonpath_walk_free, jsonpath_walk_new, jsonpath_walk_next};

/// The version, of 0.7.2.
const VERSION: u32 = 702;

/// The version: major * 10000 + minor * 100 + patch.
#[unsafe(no_mangle)]
pub extern "C" fn jsonpath_version() -> u32
    ensures { result ≡ 702 }
{
    VERSION
}
