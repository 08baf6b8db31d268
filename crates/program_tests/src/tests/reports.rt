//! The lines of reports, and refusals of paths and documents.

use jsonpath_lines::Form;
use jsonpath_program::report::{report, report_in, report_under};
use serde_json_path::functions::{Builtin, Functions};
use std::alloc::Global;
use std::test::Fail;
use test_rows::{BOOKSTORE, Came, Own, fields, hold_rows, nested};

/// Readings with messages, and a threshold.
pub(crate) const READINGS: &str = concat!(
    r#"{"threshold":40,"readings":[{"val":35,"msg":"foo"},{"val":40,"msg":"bar"},"#,
    r#"{"val":42,"msg":"biz"},{"val":48,"msg":"bop"}]}"#
);

/// A path, a document, and the lines of their report.
const LINES: &[&str] = &[
    "$ ~ null -> $\tnull\n",
    "$ ~ {\"b\":1,\"a\":[true]} -> $\t{\"a\":[true],\"b\":1}\n",
    "$[0] ~ [1.5] -> $[0]\t1.5\n",
    "$[9007199254740991] ~ [1] -> ",
    "$[*] ~ [false,-7,18446744073709551615,-9223372036854775808] -> $[0]\tfalse\n$[1]\t-7\n$[2]\t18446744073709551615\n$[3]\t-9223372036854775808\n",
    "$.é ~ {\"é\":1} -> $['é']\t1\n",
    "$.foo.bar[0] ~ {\"foo\":{\"bar\":[\"baz\",42]}} -> $['foo']['bar'][0]\t\"baz\"\n",
    "$['a','a'] ~ {\"a\":[1]} -> $['a']\t[1]\n$['a']\t[1]\n",
    "$[1][0] ~ [0,[true]] -> $[1][0]\ttrue\n",
    "$..baz ~ {\"foo\":{\"bar\":{\"baz\":1},\"baz\":2},\"baz\":3} -> $['baz']\t3\n$['foo']['baz']\t2\n$['foo']['bar']['baz']\t1\n",
    "$[?@.a == @.b] ~ [{},{\"a\":1},{\"a\":1,\"b\":1}] -> $[0]\t{}\n$[2]\t{\"a\":1,\"b\":1}\n",
    "$[?@.a[?@ > $.min]] ~ {\"min\":3,\"x\":{\"a\":[1,5]},\"y\":{\"a\":[2]}} -> $['x']\t{\"a\":[1,5]}\n",
    "$[?@ == 1.5] ~ [1.5,1] -> ",
    "$[?@ < 2] ~ [1.5,1] -> $[1]\t1\n",
];

/// A path, and the lines of its report of [`READINGS`].
const OF_READINGS: &[&str] = &[
    "$.readings[? @.val > $.threshold ].msg -> $['readings'][2]['msg']\t\"biz\"\n$['readings'][3]['msg']\t\"bop\"\n",
];

/// A path, and the lines of its report of [`BOOKSTORE`].
const OF_BOOKSTORE: &[&str] = &[
    "$..[?@.price < 399.5] -> $['store']['bicycle']\t{\"color\":\"red\",\"price\":399}\n",
    "$.store.book[?@.price < 399.5 && match(@.author, '.*e.*')].title -> ",
    "$.store.book[?@.category == 'fiction' && match(@.author, '.*Mel.*')].title -> $['store']['book'][2]['title']\t\"Moby Dick\"\n",
];

/// The report of a path and a document under a set.
pub(crate) fn reported<F: Functions>(alloc: Global, functions: &F, row: (&str, &str)) -> Came {
    Ok(report(alloc, row.0, row.1.as_bytes(), functions)?)
}

/// The same of a path and a document, the two fields of a row.
fn of_row<F: Functions>(alloc: Global, functions: &F, given: &str) -> Came {
    reported(alloc, functions, fields(given)?)
}

#[test]
fn lines_of_paths(rt: HostRuntime) -> Result<(), Fail> {
    hold_rows(&rt, LINES, |alloc, row| of_row(alloc, &Builtin, row))?;
    for (document, rows) in [(READINGS, OF_READINGS), (BOOKSTORE, OF_BOOKSTORE)] {
        hold_rows(&rt, rows, |alloc, path| {
            reported(alloc, &Builtin, (path, document))
        })?;
    }
    Ok(())
}

/// A path that calls [`Own`], a document, and the lines of their report.
const OF_OWN: &[&str] = &[
    "$[?first(@.*) == 4] ~ [[4],[5,5],[5]] -> $[0]\t[4]\n",
    "$[?first(@.*) == 5 && length(@) == 1] ~ [[4],[5,5],[5]] -> $[2]\t[5]\n",
];

#[test]
fn lines_under_a_set(rt: HostRuntime) -> Result<(), Fail> {
    let own = Own::refusing(0);
    hold_rows(&rt, OF_OWN, |alloc, row| of_row(alloc, &own, row))
}

/// A path, a document, the lines of its locations, and those of its values.
const HALVES: &[&str] = &[
    "$ ~ null -> $\n ~ null\n",
    "$.a ~ [] ->  ~ ",
    "$[*] ~ [false,-7,2.5] -> $[0]\n$[1]\n$[2]\n ~ false\n-7\n2.5\n",
    "$['a','a'] ~ {\"a\":[\"\\t\"]} -> $['a']\n$['a']\n ~ [\"\\t\"]\n[\"\\t\"]\n",
];

/// The report of a path and a document in each of the two forms, under a set before the built-in one and alone.
fn halves(alloc: Global, given: &str) -> Came {
    let (path, document) = fields(given)?;
    let document = document.as_bytes();
    let locations = report_in(alloc, Form::Location, path, document, &Builtin)?;
    let values = report_under(alloc, Form::Value, path, document, Builtin)?;
    Ok(format!(in alloc; "{locations} ~ {values}")?)
}

#[test]
fn locations_alone_and_values_alone(rt: HostRuntime) -> Result<(), Fail> {
    hold_rows(&rt, HALVES, halves)
}

/// A path, a document, and the text of the refusal.
const REFUSED: &[&str] = &[
    "x ~ { -> at position 1, expected '$'",
    "$.a  ~ null -> at position 4, text after the path",
    "$ ~ 1 2 -> not JSON",
    "$.a ~ { -> not JSON",
    "$[?length(@.author)] ~ { -> at position 4, in long-hand segment, function with incorrect return type used",
    "$[?first(@.*) == 4] ~ { -> at position 4, in long-hand segment, undefined function",
];

/// Why the report of a path and a document is refused, or `accepted`.
pub(crate) fn refusal(alloc: Global, path: &str, document: &[u8]) -> Came {
    match report(alloc, path, document, &Builtin) {
        Ok(_) => Ok(String::from_str(alloc, "accepted")?),
        Err(e) => Ok(e.to_string(alloc)?),
    }
}

#[test]
fn refusals_of_paths_and_documents(rt: HostRuntime) -> Result<(), Fail> {
    hold_rows(&rt, REFUSED, |alloc, given| {
        let (path, document) = fields(given)?;
        refusal(alloc, path, document.as_bytes())
    })
}

#[test]
fn nested_arrays(rt: HostRuntime) -> Result<(), Fail> {
    let alloc = rt.alloc();
    let most = nested(alloc, ("", "[", "", "]", ""), 127)?;
    let lines = report(alloc, "$", most.as_str().as_bytes(), &Builtin)?;
    assert!(rt; lines.len() == 2 + 2 * 127 + 1);
    let more = nested(alloc, ("", "[", "", "]", ""), 128)?;
    let refused = refusal(alloc, "$", more.as_str().as_bytes())?;
    assert!(rt; refused.as_str() == "not JSON");
    Ok(())
}
