//! A rule engine's test of a document: prints of each rule whether it holds for the JSON document on standard input.
//!
//! A rule is a name and a path. It holds where the path selects a node. A path may call `starts_with`, a function of the
//! program's own, beside the built-in ones.
#![tactic(auto)]

ghost use Rattle.std.specs.Prelude.{◌≡◌, ◌==◌, not, length, List, IfOk};
ghost use Rattle.serde_json.specs.View.{view};
ghost use Rattle.serde_json_path_nodes.specs.Location.{Located};
ghost use Rattle.serde_json_path_functions.specs.Functions.{Fits};
ghost use Rattle.serde_json_path_functions.specs.Patterns.{before_builtin};
ghost use Rattle.serde_json_path_core.specs.Selects.{Selects};
ghost use Rattle.serde_json_path.specs.Paths.{path_signatures, path_tree, with_rule_of};
ghost use Rattle.example_rules.specs.Prefixes.{prefixes};

mod prefixes;

use crate::prefixes::Prefixes;
use serde_json::Value;
use serde_json_path::{JsonPath, ParseError, QueryError};
use std::alloc::Global;
use std::io;
use thiserror::Error;

/// The rules: a name, and the path that selects a node where the rule holds.
const RULES: &[(&str, &str)] = &[
    ("a book has an ISBN", "$.store.book[?@.isbn]"),
    ("a book has no ISBN", "$.store.book[?!@.isbn]"),
    ("something costs less than 400", "$.store[?@.price < 400]"),
    ("a book costs less than 10", "$.store.book[?@.price < 10]"),
    ("there are five books", "$.store[?length(@) >= 5]"),
    (
        "a title begins with S",
        "$..book[?starts_with(@.title, 'S')]",
    ),
    (
        "an ISBN begins with 1",
        "$..book[?starts_with(@.isbn, '1')]",
    ),
    ("a title is one word", "$..book[?match(@.title, '[^ ]+')]"),
    (
        "an author is named Melville",
        "$..book[?search(@.author, 'Melville')]",
    ),
];

/// Why there is no answer.
#[derive(Debug, Drop, Error)]
enum Failure {
    #[error("input: {0}")]
    Input(#[from] io::Error),
    #[error("document: {0}")]
    Document(#[from] serde_json::Error),
    #[error("path: {0}")]
    Path(#[from] ParseError),
    #[error("query: {0}")]
    Query(#[from] QueryError),
}

/// Whether the path selects a node of the document. It stops at the first one.
fn holds(alloc: Global, path: &JsonPath, document: &Value) -> Result<bool, QueryError>
    requires { Fits (before_builtin prefixes) (path_signatures path.now) }
    ensures { IfOk result (λ holds. (nodes : List Located)
        × Selects (with_rule_of path.now (before_builtin prefixes)) (path_tree path.now)
        (view document.now) nodes
        × (holds ≡ not (length nodes == 0))) }
{
    let mut walk = path.walk(alloc, document, &Prefixes)?;
    Ok(walk.next()?.is_some())
}

fn main(rt: HostRuntime) -> Result<(), Failure> {
    let alloc = rt.alloc();
    let text = io::read_to_string(alloc, rt.stdin())?;
    let document = Value::from_str(alloc, text.as_str())?;
    for &(name, path) in RULES {
        let path = JsonPath::parse_with(alloc, path, &Prefixes)?;
        let answer = if holds(alloc, &path, &document)? {
            "yes"
        } else {
            "no"
        };
        println!(rt; "{name}: {answer}")?;
    }
    Ok(())
}
