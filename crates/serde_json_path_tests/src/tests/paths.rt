//! The ways to make a path.

use crate::tests::rows::{queried, told};
use serde_json_path::JsonPath;
use std::alloc::Global;
use std::test::Fail;
use test_rows::{Came, alike, fields, hold_row, hold_rows};

#[test]
fn the_new_path_is_the_root(rt: HostRuntime) -> Result<(), Fail> {
    let row = (r#"{"a":[1]}"#, "the new path", r#"$ ~ {"a":[1]}"#);
    let path = JsonPath::new(rt.alloc());
    hold_row(&rt, row, queried(rt.alloc(), &path, row.0))
}

/// A path, a document, and the locations and the values of what the path selects there.
const SELECTED: &[&str] = &[r#"$.a[-1] ~ {"a":[1,2]} -> $['a'][1] ~ 2"#];

/// What a path selects, where `from_str` reads it.
fn selected(alloc: Global, given: &str) -> Came {
    let (path, document) = fields(given)?;
    queried(alloc, &JsonPath::from_str(alloc, path)?, document)
}

/// A text, and the kind and the position of its refusal.
const REFUSED: &[&str] = &[
    " -> ExpectedRoot 1",
    "$. -> BadMemberName 3",
    "$['a -> ExpectedEndingQuote 5",
];

/// How `parse` and `from_str` refuse a text alike.
fn refused(alloc: Global, text: &str) -> Came {
    let one = told(alloc, JsonPath::parse(alloc, text))?;
    alike(one, told(alloc, JsonPath::from_str(alloc, text))?)
}

#[test]
fn from_str_reads_as_parse(rt: HostRuntime) -> Result<(), Fail> {
    hold_rows(&rt, SELECTED, selected)?;
    hold_rows(&rt, REFUSED, refused)
}
