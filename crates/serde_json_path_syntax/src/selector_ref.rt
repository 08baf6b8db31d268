//! Selectors, after dots or in brackets.

use crate::node::Part;
use crate::slice::Slice;

/// A selector of a segment, after its dots or in its brackets.
#[derive(Clone, Copy)]
pub enum SelectorRef<'q> {
    /// The member of that name.
    Name(&'q str),
    /// All children.
    Wildcard,
    /// The item at that position.
    Index(i64),
    /// The items at some positions.
    Slice(Slice),
    /// The children for which a logical expression holds.
    Filter(Part),
}
