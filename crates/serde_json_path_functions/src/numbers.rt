//! How comparisons take numbers (RFC 9535, section 2.3.5.2.2).

/// How the comparisons of a query take the numbers of documents.
#[derive(Clone, Copy, Debug, PartialEq, Eq)]
pub enum Numbers {
    /// By value, if they are held as integers. Any other number equals none, and is not ordered.
    Whole,
    /// All by their exact value. A literal with a fraction is the double nearest to it.
    All,
}
