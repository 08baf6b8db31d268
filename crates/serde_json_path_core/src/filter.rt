//! What the parts of a filter stand for (RFC 9535, section 2.3.5).

pub(crate) mod call;
mod compare;
pub(crate) mod comparison;
mod equality;
pub(crate) mod logic;
pub(crate) mod query;
mod side;
