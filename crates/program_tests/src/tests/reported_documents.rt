//! Documents that are no JSON, and documents with unusual names and texts.

use crate::tests::cuts::cut;
use crate::tests::reports::{refusal, reported};
use serde_json_path::functions::Builtin;
use std::alloc::Global;
use std::test::Fail;
use test_rows::{Came, fields, hold_row, hold_rows, long};

/// Bytes that are no JSON text.
const NO_JSON: &[&[u8]] = &[
    b"",
    b" ",
    b"\xef\xbb\xbf1",
    b"\xff",
    b"\"\xff\"",
    b"{\"\xff\":1}",
    b"\"\xc3\"",
    b"\"\xed\xa0\x80\"",
    b"\"\\ud800\"",
    b"\"\\udc00\"",
    b"\"\\ud800\\u0041\"",
    b"\"\\x\"",
    b"\"\n\"",
    b"NaN",
    b"Infinity",
    b"1e400",
    b"-1e400",
    b"01",
    b"1.",
    b"[1,]",
    b"{1:1}",
    b"{\"a\"}",
    b"nul",
    b"1x",
    b"1 2",
    b"[]]",
    b"{}{}",
    b"null\0",
];

#[test]
fn refuses_what_is_no_json(rt: HostRuntime) -> Result<(), Fail> {
    for &document in NO_JSON {
        let came = refusal(rt.alloc(), "$", document)?;
        assert_eq!(rt; came.as_str(), "not JSON", "{document:?}");
    }
    Ok(())
}

/// A path, a document, and the lines of their report.
const UNUSUAL: &[&str] = &[
    "$ ~  [ ]  -> $\t[]\n",
    "$ ~ {\"a\":1,\"a\":2} -> $\t{\"a\":2}\n",
    "$.a ~ {\"a\":[1],\"b\":0,\"a\":[2,3]} -> $['a']\t[2,3]\n",
    "$.* ~ {\"\\u0000\":1} -> $['\\u0000']\t1\n",
    "$ ~ {\"\\u0000\":\"\\u0000\"} -> $\t{\"\\u0000\":\"\\u0000\"}\n",
    "$.* ~ {\"'\":1,\"\\\"\":2} -> $['\"']\t2\n$['\\'']\t1\n",
    "$ ~ {\"'\":1,\"\\\"\":2} -> $\t{\"\\\"\":2,\"'\":1}\n",
    "$.* ~ {\"\\n\":\"a\\nb\"} -> $['\\n']\t\"a\\nb\"\n",
    "$.* ~ {\"\u{1f600}\":\"\u{10ffff}\"} -> $['\u{1f600}']\t\"\u{10ffff}\"\n",
    "$.* ~ {\"\\ud83d\\ude00\":1} -> $['\u{1f600}']\t1\n",
    "$.* ~ {\"\":1} -> $['']\t1\n",
];

/// The report of a row's path and document, which is cut at each byte.
fn cut_and_reported(alloc: Global, given: &str) -> Came {
    let row = fields(given)?;
    cut(alloc, row.1.as_bytes())?;
    reported(alloc, &Builtin, row)
}

#[test]
fn reports_unusual_names_and_texts(rt: HostRuntime) -> Result<(), Fail> {
    hold_rows(&rt, UNUSUAL, cut_and_reported)
}

#[test]
fn reports_a_million_letters(rt: HostRuntime) -> Result<(), Fail> {
    let document = long(rt.alloc(), "[\"", "abcdefghij", 100_000, "\"]")?;
    let lines = long(rt.alloc(), "$[0]\t\"", "abcdefghij", 100_000, "\"\n")?;
    let came = reported(rt.alloc(), &Builtin, ("$[0]", document.as_str()));
    hold_row(&rt, ("a million letters", "$[0]", lines.as_str()), came)
}
