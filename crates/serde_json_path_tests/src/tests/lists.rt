//! What the lists of a query answer.

use crate::tests::rows::{nodes, read};
use serde_json::Value;
use std::alloc::Global;
use std::test::Fail;
use test_rows::{Came, hold_rows, locations};

/// A path, a document, and the locations of what the path selects, each once, in the order of their first places.
const ONCE: &[&str] = &[
    r#"$['a','a'] ~ {"a":1} -> $['a']"#,
    r#"$[1,0,1,0] ~ ["a","b"] -> $[1] $[0]"#,
];

/// The locations of what a path selects from a document, each once.
fn once(alloc: Global, given: &str) -> Came {
    let (path, document) = read(alloc, given)?;
    locations(alloc, &path.query_located(alloc, &document)?.dedup())
}

/// A path, a document, and the JSON pointers of what the path selects, with a `;` after each.
const POINTED: &[&str] = &[
    r#"$..* ~ {"a/~":[0]} -> /a~1~0;/a~1~0/0;"#,
    r#"$ ~ {"a/~":[0]} -> ;"#,
];

/// The JSON pointers of what a path selects from a document.
fn pointed(alloc: Global, given: &str) -> Came {
    let (path, document) = read(alloc, given)?;
    let mut text = String::new(alloc);
    for location in path.query_located(alloc, &document)?.locations() {
        write!(text, "{};", location.to_json_pointer(alloc)?)?;
    }
    Ok(text)
}

/// A path, how many nodes it selects from an object of two members, and how their list refuses to be exactly one node and
/// to be one at most.
const COUNTED: &[&str] = &[
    "$.* -> 2, Some(MoreThanOne(2)), Some(AtMostOneError(2))",
    "$.c -> 0, Some(Empty), None",
];

/// How many nodes a path selects from an object of two members, and how their list refuses.
fn counted(alloc: Global, path: &str) -> Came {
    let document = Value::from_str(alloc, r#"{"a":1,"b":2}"#)?;
    let nodes = nodes(alloc, path, &document)?;
    let one = nodes.exactly_one().err();
    let most = nodes.at_most_one().err();
    Ok(format!(in alloc; "{}, {one:?}, {most:?}", nodes.len())?)
}

#[test]
fn lists_answer(rt: HostRuntime) -> Result<(), Fail> {
    hold_rows(&rt, ONCE, once)?;
    hold_rows(&rt, POINTED, pointed)?;
    hold_rows(&rt, COUNTED, counted)
}
