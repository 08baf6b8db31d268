//! What comes of the paths of rows, as texts.

ghost use Rattle.serde_json_path.specs.Words.{IfOk, Fits, before_builtin, builtin_functions, path_signatures};

use serde_json::Value;
use serde_json_path::functions::Functions;
use serde_json_path::{JsonPath, LocatedNodeList, NodeList, ParseError, law_set_before_itself};
use std::alloc::Global;
use std::test::Fail;
use test_rows::{Came, alike, fields, holds, located, values};

/// The locations and the values of what both queries select, or `nothing`. Fails where their values differ.
fn both(alloc: Global, nodes: &NodeList<'_>, with_locations: &LocatedNodeList<'_>) -> Came {
    alike(
        values(alloc, nodes.iter())?,
        values(alloc, with_locations.nodes())?,
    )?;
    located(alloc, with_locations)
}

/// What a path selects from a document, as [`both`] gives it.
pub(crate) fn queried(alloc: Global, path: &JsonPath, document: &str) -> Came
    requires { Fits builtin_functions (path_signatures path.now) }
{
    let document = Value::from_str(alloc, document)?;
    let nodes = path.query(alloc, &document)?;
    let with_locations = path.query_located(alloc, &document)?;
    both(alloc, &nodes, &with_locations)
}

/// What a path selects from a document under a set, as [`both`] gives it.
pub(crate) fn selected<F: Functions>(alloc: Global, functions: &F, row: (&str, &str)) -> Came {
    let (path, document) = read_with(alloc, functions, row)?;
    let nodes = path.query_with(alloc, &document, functions)?;
    let with_locations = path.query_located_with(alloc, &document, functions)?;
    both(alloc, &nodes, &with_locations)
}

/// The path and the document of a row.
pub(crate) fn read(alloc: Global, row: &str) -> Result<(JsonPath, Value), Fail>
    ensures fits { IfOk result (λ read. Fits builtin_functions (path_signatures read.0)) }
    ensures before { IfOk result (λ read.
        Fits (before_builtin builtin_functions) (path_signatures read.0)) }
{
    law_set_before_itself();
    let (path, document) = fields(row)?;
    let path = JsonPath::parse(alloc, path)?;
    Ok((path, Value::from_str(alloc, document)?))
}

/// A path that is read under a set, and a document.
pub(crate) fn read_with<F: Functions>(
    alloc: Global,
    functions: &F,
    row: (&str, &str),
) -> Result<(JsonPath, Value), Fail>
    ensures { IfOk result (λ read.
        Fits (before_builtin (F.set functions.now)) (path_signatures read.0)) }
{
    let path = JsonPath::parse_with(alloc, row.0, functions)?;
    Ok((path, Value::from_str(alloc, row.1)?))
}

/// The nodes that a path selects from a document.
pub(crate) fn nodes<'b>(
    alloc: Global,
    path: &str,
    document: &'b Value,
) -> Result<NodeList<'b>, Fail> {
    Ok(JsonPath::parse(alloc, path)?.query(alloc, document)?)
}

/// The nodes that a path selects from a document, with their locations.
pub(crate) fn located_nodes<'b>(
    alloc: Global,
    path: &str,
    document: &'b Value,
) -> Result<LocatedNodeList<'b>, Fail> {
    Ok(JsonPath::parse(alloc, path)?.query_located(alloc, document)?)
}

/// How many nodes a path selects from a document. Fails where the two queries select different numbers.
pub(crate) fn count(alloc: Global, path: &str, document: &str) -> Came {
    let document = Value::from_str(alloc, document)?;
    let count = nodes(alloc, path, &document)?.len();
    let located = located_nodes(alloc, path, &document)?.len();
    holds(located == count, "the two queries select different numbers")?;
    Ok(format!(in alloc; "{count}")?)
}

/// What a parse answers: the kind and the position of its refusal, or `accepted`.
pub(crate) fn told(alloc: Global, answer: Result<JsonPath, ParseError>) -> Came {
    match answer {
        Ok(_) => Ok(String::from_str(alloc, "accepted")?),
        Err(e) => Ok(format!(in alloc; "{:?} {}", e.kind(), e.position())?),
    }
}

/// What the parse of a text answers.
pub(crate) fn parsed(alloc: Global, text: &str) -> Came {
    told(alloc, JsonPath::parse(alloc, text))
}
