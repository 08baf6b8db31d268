//! Reports. One that tells of no memory is made again, and is then as its row says.

use jsonpath_program::report::{DocumentError, ReportError, report};
use serde_json_path::functions::{Builtin, Functions};
use serde_json_path::{ParseErrorKind, QueryError};
use std::alloc::Global;
use std::test::Fail;
use test_rows::{Came, Own, fields, hold_rows};

/// Where a report met a refused request.
fn refused_at(e: &ReportError) -> Option<&'static str> {
    match e {
        ReportError::Path(e) if e.kind() == ParseErrorKind::NoMemory => Some("path"),
        ReportError::Document(DocumentError::Memory) => Some("document"),
        ReportError::Query(QueryError::Memory) => Some("query"),
        _ => None,
    }
}

/// The report of a path and a document under a set. It is made again where memory is refused.
fn reported<F: Functions>(alloc: Global, functions: &F, row: &str) -> Came {
    let (path, document) = fields(row)?;
    let refused = match report(alloc, path, document.as_bytes(), functions) {
        Ok(text) => return Ok(text),
        Err(e) => refused_at(&e),
    };
    let place = refused.ok_or("refused otherwise")?;
    let text = report(alloc, path, document.as_bytes(), functions)?;
    Ok(format!(in alloc; "{text}, after no memory for the {place}")?)
}

/// Holds the report of a row's path and document to its lines.
fn hold_report(rt: &(impl Eprint + AllocGlobal), row: &str) -> Result<(), Fail> {
    hold_rows(rt, &[row], |alloc, row| reported(alloc, &Builtin, row))
}

#[test]
fn report_of_descendants(rt: HostRuntime) -> Result<(), Fail> {
    let row =
        "$.foo..baz ~ {\"foo\":{\"bar\":{\"baz\":1},\"baz\":2},\"baz\":3} -> $['foo']['baz']\t2\n$['foo']['bar']['baz']\t1\n";
    hold_report(&rt, row)
}

#[test]
fn report_of_an_escaped_name(rt: HostRuntime) -> Result<(), Fail> {
    let row = "$.* ~ {\"a'b\\\\\\u000b\":1} -> $['a\\'b\\\\\\u000b']\t1\n";
    hold_report(&rt, row)
}

#[test]
fn report_of_a_set(rt: HostRuntime) -> Result<(), Fail> {
    let row = "$[?first(@.*) == 4] ~ [[1,2,3],[4,5,6],[7,8,9]] -> $[1]\t[4,5,6]\n";
    let own = Own::refusing(0);
    hold_rows(&rt, &[row], |alloc, row| reported(alloc, &own, row))
}

#[test]
fn report_of_filters(rt: HostRuntime) -> Result<(), Fail> {
    let row =
        "$[?@.a[?@ > $.min]] ~ {\"min\":3,\"x\":{\"a\":[1,5]},\"y\":{\"a\":[2]}} -> $['x']\t{\"a\":[1,5]}\n";
    hold_report(&rt, row)
}

#[test]
fn report_of_readings(rt: HostRuntime) -> Result<(), Fail> {
    let row =
        "$.readings[? @.val > $.threshold ].msg ~ {\"threshold\":40,\"readings\":[{\"val\":35,\"msg\":\"foo\"},{\"val\":40,\"msg\":\"bar\"},{\"val\":42,\"msg\":\"biz\"},{\"val\":48,\"msg\":\"bop\"}]} -> $['readings'][2]['msg']\t\"biz\"\n$['readings'][3]['msg']\t\"bop\"\n";
    hold_report(&rt, row)
}

#[test]
fn report_of_nothing(rt: HostRuntime) -> Result<(), Fail> {
    let row = "$.foo['bar'][1:10][?@.baz > 10 && @.foo.bar < 20] ~ null -> ";
    hold_report(&rt, row)
}
