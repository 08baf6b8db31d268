//! Redaction: prints where e-mail addresses and cards are in the JSON document on standard input, as normalised paths and as
//! JSON pointers, and then the document without them.
#![tactic(auto)]

ghost use Rattle.serde_json_path_functions.specs.Functions.{Fits};
ghost use Rattle.serde_json_path_functions.specs.Patterns.{builtin_functions};
ghost use Rattle.serde_json_path.specs.Paths.{path_signatures};

use serde_json::Value;
use serde_json_path::{JsonPath, ParseError, QueryError};
use std::alloc::{AllocError, Global};
use std::io;
use thiserror::Error;

/// Why nothing was redacted.
#[derive(Debug, Drop, Error)]
enum Failure {
    #[error("input: {0}")]
    Input(#[from] io::Error),
    #[error("document: {0}")]
    Document(#[from] serde_json::Error),
    #[error("path: {0}")]
    Path(#[from] ParseError),
    #[error("query: {0}")]
    Query(#[from] QueryError),
    #[error("no memory")]
    Memory(#[from(alloc)] AllocError),
}

/// Prints the location of each node that the path selects, once, with its JSON pointer. Returns the pointers.
fn pointers(
    rt: &(impl Print + AllocGlobal),
    path: &JsonPath,
    document: &Value,
) -> Result<Vec<String>, Failure>
    requires { Fits builtin_functions (path_signatures path.now) }
{
    let mut pointers = Vec::new(rt.alloc());
    let nodes = path.query_located(rt.alloc(), document)?.dedup();
    for location in nodes.locations() {
        let pointer = location.to_json_pointer(rt.alloc())?;
        println!(rt; "{location}\t{pointer}")?;
        pointers.push(pointer)?;
    }
    Ok(pointers)
}

/// Puts a text in the place of the value at each pointer. A value within one that is gone already is passed over.
fn redact(alloc: Global, document: &mut Value, pointers: &[String]) -> Result<(), AllocError> {
    for pointer in pointers {
        if let Some(value) = document.pointer_mut(pointer.as_str()) {
            *value = Value::try_from_str(alloc, "redacted")?;
        }
    }
    Ok(())
}

fn main(rt: HostRuntime) -> Result<(), Failure> {
    let alloc = rt.alloc();
    let text = io::read_to_string(alloc, rt.stdin())?;
    let mut document = Value::from_str(alloc, text.as_str())?;
    let path = JsonPath::parse(alloc, "$..['email','card']")?;
    let pointers = pointers(&rt, &path, &document)?;
    redact(alloc, &mut document, &pointers)?;
    println!(rt; "{document}")?;
    Ok(())
}
