//! Lists of selected nodes that outlive the document in which they were selected.
//!
//! A [`LocatedNode`](serde_json_path_nodes::LocatedNode) borrows its document. An [`OwnedNodes`] keeps of each node its
//! location and what is known without the document: its kind, the number of a number, and how long a string, an array or an
//! object is ([`NodeInfo`]). The value itself is found again in a document ([`OwnedNodes::value_in`]).
//!
//! ```text
//! let mut nodes = OwnedNodes::new(alloc);
//! for node in path.query_located(alloc, &document)?.iter() {
//!     nodes.push(node)?;
//! }
//! nodes.get(0) == Some(NodeInfo::Integer(1))
//! ```
//!
//! Contracts see a list as what is kept of each node, `kept` of `specs/Kept`; `specs/Info` says what is known of a value.
#![tactic(auto)]

mod node_info;
mod owned_nodes;
mod runs;
mod stored_location;
mod stored_step;

pub use node_info::NodeInfo;
pub use owned_nodes::OwnedNodes;
pub use runs::Runs;
