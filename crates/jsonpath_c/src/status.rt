//! What the exports answer, as `include/jsonpath.h` has it.

/// All is written to `out`.
pub(crate) const DONE: u8 = 0;
/// The path is refused.
pub(crate) const PATH_REFUSED: u8 = 1;
/// The document is refused.
pub(crate) const DOCUMENT_REFUSED: u8 = 2;
/// The query is refused, for a pattern.
pub(crate) const QUERY_REFUSED: u8 = 3;
/// Memory was refused.
pub(crate) const NO_MEMORY: u8 = 4;
/// `out` is too small.
pub(crate) const NO_ROOM: u8 = 5;
/// The path is not UTF-8.
pub(crate) const NOT_UTF8: u8 = 6;
/// A handle is empty.
pub(crate) const EMPTY_HANDLE: u8 = 7;
/// The limits cut the answer short.
pub(crate) const CUT_SHORT: u8 = 8;
/// The document nests too deep.
pub(crate) const DOCUMENT_TOO_DEEP: u8 = 9;
/// There is no such node, or it has none of what is asked for.
pub(crate) const NO_SUCH_NODE: u8 = 10;
