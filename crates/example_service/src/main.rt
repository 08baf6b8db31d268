//! A service that takes paths from strangers: reads a path from each line of standard input, and answers in a line.
//!
//! A path is accepted, and printed in its canonical form with the number of nodes that it selects in a document, or it is
//! refused, with the position and the reason. Two bounds hold, whatever the lines are: on the looks at all paths together,
//! and on the nodes that are counted for each.
#![tactic(auto)]

ghost use Rattle.std.specs.Prelude.{◌≤◌, ◌+◌, ◌*◌, length, IfOk};
ghost use Rattle.serde_json_path_functions.specs.Functions.{Fits, whole_numbers};
ghost use Rattle.serde_json_path_functions.specs.Patterns.{before_builtin, builtin_functions};
ghost use Rattle.serde_json_path.specs.Paths.{IsRead, path_signatures};

use serde_json::Value;
use serde_json_path::functions::{Builtin, CachedPatterns, PatternStore};
use serde_json_path::{JsonPath, Numbers, ParseError, QueryError, TextSource, parse_source};
use std::alloc::{AllocError, Global};
use std::io;
use thiserror::Error;

/// The document that all paths are asked of.
const DOCUMENT: &str = r#"{"books":[
    {"title":"Sayings of the Century","price":9},
    {"title":"Moby Dick","isbn":"0-553-21311-3","price":9},
    {"title":"The Lord of the Rings","isbn":"0-395-19395-8","price":23}
]}"#;

/// How many looks at the bytes of all paths there may be.
const LOOKS: u128 = 3_000;

/// How many nodes of an answer are counted.
const NODES: usize = 10;

/// Why the service ends.
#[derive(Debug, Drop, Error)]
enum Failure {
    #[error("input or output: {0}")]
    Stream(#[from] io::Error),
    #[error("document: {0}")]
    Document(#[from] serde_json::Error),
    #[error("no memory")]
    Memory(#[from(alloc)] AllocError),
}

/// Parses a path, and takes the looks at its text off those that are left.
fn parse(alloc: Global, text: &str, looks: &mut u128) -> Result<JsonPath, ParseError>
    requires { 32 * (length text.now + 1) ≤ looks.old }
    ensures read { IsRead whole_numbers (before_builtin builtin_functions) text.now result }
    ensures falls { looks.new ≤ looks.old }
    ensures spends { looks.old ≤ looks.new + 32 * (length text.now + 1) }
{
    let mut source = TextSource::new(text);
    let parsed = parse_source(alloc, &mut source, &Builtin, Numbers::Whole);
    *looks -= source.looks();
    parsed
}

/// How many nodes the path selects from the document, counted up to `NODES`.
fn count(alloc: Global, path: &JsonPath, document: &Value) -> Result<usize, QueryError>
    requires { Fits (before_builtin builtin_functions) (path_signatures path.now) }
    ensures { IfOk result (λ n. n ≤ NODES) }
{
    let store = PatternStore::new();
    let functions = CachedPatterns::new(alloc, &store);
    let mut walk = path.walk(alloc, document, &functions)?;
    for nodes in 0..NODES {
        if walk.next()?.is_none() {
            return Ok(nodes);
        }
    }
    Ok(NODES)
}

/// The answer to an accepted path: its canonical form, and how many nodes it selects.
fn accepted(alloc: Global, path: &JsonPath, document: &Value) -> Result<String, AllocError>
    requires { Fits (before_builtin builtin_functions) (path_signatures path.now) }
{
    match count(alloc, path, document) {
        Ok(NODES) => format!(in alloc; "accepted: {path} (nodes: {NODES} or more)"),
        Ok(nodes) => format!(in alloc; "accepted: {path} (nodes: {nodes})"),
        Err(e) => format!(in alloc; "accepted: {path} (query: {e})"),
    }
}

/// The answer to a line, which takes looks off those that are left.
fn answer(
    alloc: Global,
    text: &str,
    document: &Value,
    looks: &mut u128,
) -> Result<String, AllocError>
    ensures { looks.new ≤ looks.old }
{
    if *looks / 32 < text.len() as u128 + 1 {
        return format!(in alloc; "refused: too long for the looks that are left");
    }
    match parse(alloc, text, looks) {
        Ok(path) => accepted(alloc, &path, document),
        Err(e) => format!(in alloc; "refused: {e}"),
    }
}

fn main(rt: HostRuntime) -> Result<(), Failure> {
    let alloc = rt.alloc();
    let document = Value::from_str(alloc, DOCUMENT)?;
    let mut looks = LOOKS;
    for line in rt.lines(alloc) {
        let answer = answer(alloc, line?.as_str(), &document, &mut looks)?;
        println!(rt; "{answer}")?;
    }
    Ok(())
}
