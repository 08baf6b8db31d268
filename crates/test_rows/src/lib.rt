//! What all tests use. Tables hold their rows by `rows`, and tell what comes of these by `texts`; `sets` has function sets.
#![tactic(auto)]

mod rows;
mod sets;
mod texts;

pub use crate::rows::{
    Called, Came, Table, alike, ends, fields, hold_answers, hold_nested, hold_pairs, hold_row,
    hold_rows, holds,
};
pub use crate::sets::{Overriding, Own};
pub use crate::texts::{
    BOOKSTORE, Nesting, located, locations, long, nested, of_calls, of_located, of_nodes, of_walk,
    values,
};
