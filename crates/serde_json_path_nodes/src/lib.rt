//! Node lists, locations and their texts, for JSONPath (RFC 9535) over `serde_json` values.
//!
//! A query selects nodes. Without their locations they are a [`NodeList`]; with them a [`LocatedNodeList`], in which each
//! [`LocatedNode`] has its [`NormalizedPath`]: the steps that lead to it from the document's root. All of them borrow the
//! document.
//!
//! ```text
//! let steps = Vec::from_array(alloc, [PathElement::Name("book"), PathElement::Index(0)])?;
//! let location = NormalizedPath::from_steps(steps);
//! location.to_text(alloc)? == "$['book'][0]"
//! location.to_json_pointer(alloc)? == "/book/0"
//! ```
//!
//! Contracts see a location as the list of its steps, and a list of nodes as the list of their values, or of locations
//! with values. Definitions are in `specs/`: `Location` has steps and the order of a document, `Text` the printed texts,
//! `Lists` what the calls of a list answer, `Laws` the law that texts tell locations apart.
#![tactic(auto)]

mod error;
mod escape;
mod iterators;
mod laws;
mod located_node;
mod located_node_list;
mod node_list;
mod normalized_path;
mod path_element;
mod quoted;

pub use error::{AtMostOneError, ExactlyOneError};
pub use escape::escaped;
pub use iterators::{LocatedNodes, Locations, Nodes, PathElements};
pub use laws::law_texts_tell_locations;
pub use located_node::LocatedNode;
pub use located_node_list::LocatedNodeList;
pub use node_list::NodeList;
pub use normalized_path::NormalizedPath;
pub use path_element::PathElement;
pub use quoted::Quoted;
