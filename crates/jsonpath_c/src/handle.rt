//! What C holds by pointers: paths, documents and nodes.
//!
//! A handle is a pointer to a box, which is null where it holds nothing. A call that fills a handle or frees what it holds is
//! handed the variable of the pointer, as `PathHandle`. A call that asks is handed the pointer, as `PathRef`, and reads what is
//! there by a shared reference, as any number of calls may at once.
//!
//! What is in the box of a path or a document is one of the owners of an `Arc`: `jsonpath_path_share` makes another box of another.
//! A walk borrows both, as long as C keeps it, and has one holder, the variable of its pointer.

pub mod document;
pub mod nodes;
pub mod path;
pub mod walk;
