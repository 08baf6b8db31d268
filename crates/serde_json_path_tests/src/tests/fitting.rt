//! Asking whether a path fits a set, and then querying by it.

ghost use Rattle.std.specs.Prelude.{◌≡◌, [], Some, IfOk, IfErr, IfSome, IsTrue, ◌↔◌};
ghost use Rattle.serde_json_path.specs.Words.{view, node_values, SelectsValues, before_builtin, builtin_functions, path_tree, with_rule_of};

use serde_json::Value;
use serde_json_path::functions::{Builtin, Functions};
use serde_json_path::{JsonPath, NodeList, QueryError, law_set_before_itself};
use std::alloc::Global;
use std::test::Fail;
use test_rows::{Came, hold_row, values};

/// The nodes that a path selects, if it fits the built-in functions.
fn query_if_it_fits<'b>(
    alloc: Global,
    path: &JsonPath,
    document: &'b Value,
) -> Result<Option<NodeList<'b>>, QueryError>
    ensures { IfOk result (λ found. IfSome found (λ list.
        SelectsValues (with_rule_of path.now builtin_functions) (path_tree path.now)
        (view document.now) (node_values list))) }
{
    law_set_before_itself();
    if !path.fits(&Builtin) {
        return Ok(None);
    }
    Ok(Some(path.query(alloc, document)?))
}

/// The nodes that a path selects under a set, if it fits.
fn query_with_if_it_fits<'b, F: Functions>(
    alloc: Global,
    path: &JsonPath,
    document: &'b Value,
    functions: &F,
) -> Result<Option<NodeList<'b>>, QueryError>
    ensures { IfOk result (λ found. IfSome found (λ list.
        SelectsValues (with_rule_of path.now (before_builtin (F.set functions.now)))
        (path_tree path.now) (view document.now) (node_values list))) }
{
    if !path.fits(functions) {
        return Ok(None);
    }
    Ok(Some(path.query_with(alloc, document, functions)?))
}

/// The values that an answer gives, or `nothing` where the path does not fit.
fn given(alloc: Global, answer: Result<Option<NodeList<'_>>, QueryError>) -> Came {
    match answer? {
        Some(nodes) => values(alloc, nodes.iter()),
        None => Ok(String::from_str(alloc, "nothing")?),
    }
}

#[test]
fn queries_where_the_path_fits(rt: HostRuntime) -> Result<(), Fail> {
    let alloc = rt.alloc();
    let row = ("[[1,2],[3]]", "$[?length(@) == 2]", "[1,2]");
    let document = Value::from_str(alloc, row.0)?;
    let path = JsonPath::parse(alloc, row.1)?;
    let nodes = query_if_it_fits(alloc, &path, &document);
    hold_row(&rt, row, given(alloc, nodes))?;
    let nodes = query_with_if_it_fits(alloc, &path, &document, &Builtin);
    hold_row(&rt, row, given(alloc, nodes))
}
