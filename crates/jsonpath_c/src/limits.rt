//! How much a call may answer.

/// The greatest number of nodes, and of bytes: `struct jsonpath_limits`.
#[repr(C)]
#[derive(Clone, Copy)]
pub struct Limits {
    /// How many nodes there may be.
    pub nodes: usize,
    /// How many bytes their lines may have together; of a list, the names in their locations.
    pub bytes: usize,
}
