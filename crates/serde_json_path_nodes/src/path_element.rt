//! The elements of a normalised path.

ghost use Rattle.std.specs.Prelude.{◌≡◌};

use std::cmp::Ordering;

/// An element of a normalised path: one step into a document (RFC 9535, section 2.7).
#[derive(Clone, Copy, Debug, PartialEq, Eq)]
pub enum PathElement<'b> {
    /// The name of an object's member, borrowed from the document.
    Name(&'b str),
    /// The index of an array's item, from 0.
    Index(usize),
}

impl<'b> PathElement<'b> {
    ghost use Rattle.serde_json_path_nodes.specs.Words.{step_cmp, step_view};

    /// A total order: names before indexes, names by their bytes.
    pub(crate) fn compare(&self, other: &PathElement<'b>) -> Ordering
        ensures { result ≡ step_cmp (step_view self.now) (step_view other.now) }
    {
        match (self, other) {
            (PathElement::Name(mine), PathElement::Name(theirs)) => mine.cmp(theirs),
            (PathElement::Name(_), PathElement::Index(_)) => Ordering::Less,
            (PathElement::Index(_), PathElement::Name(_)) => Ordering::Greater,
            (PathElement::Index(mine), PathElement::Index(theirs)) => mine.cmp(theirs),
        }
    }
}
