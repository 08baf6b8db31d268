//! Types of functions, what the built-in functions answer, sets of functions, and errors.

mod both;
mod builtin;
mod errors;
mod patterns;

use serde_json_path_functions::QueryError;
use std::alloc::Global;
use std::test::Fail;
use test_rows::{Came, hold_pairs};

const ERRORS: &[(QueryError, &str)] = &[
    (QueryError::Memory, "no memory"),
    (QueryError::Pattern, "pattern refused"),
];

/// The text of an error.
fn text(alloc: Global, error: QueryError) -> Came {
    Ok(error.to_string(alloc)?)
}

#[test]
fn prints_errors(rt: HostRuntime) -> Result<(), Fail> {
    hold_pairs(&rt, ERRORS, text)
}
