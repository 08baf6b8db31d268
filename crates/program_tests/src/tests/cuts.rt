//! Documents cut at each byte.

use crate::tests::reports::READINGS;
use jsonpath_program::report::{DocumentError, ReportError, report};
use serde_json_path::functions::Builtin;
use std::alloc::Global;
use std::test::Fail;
use test_rows::{BOOKSTORE, Came, Table, holds};

/// Documents of the other tests, and of the language's examples.
const DOCUMENTS: &[&str] = &[
    "null",
    "[1]",
    "[1,2]",
    "[1, 1.5]",
    "[0,1]",
    "[18446744073709551615]",
    r#"{"a":1}"#,
    r#"{"a":[1]}"#,
    r#"{"a":1,"b":2}"#,
    r#"{"foo":{"bar":{"baz":1},"baz":2},"baz":3}"#,
    r#"["a","b","c","d","e","f","g"]"#,
    "{\"\u{1f600}\":1}",
    r#"{"a'b\\\u000b":1}"#,
    r#"[{},{"a":1},{"a":1,"b":1}]"#,
    r#"["ax","xb","xbx"]"#,
    r#"[{"foo":"bar"},{"foo":"biz"}]"#,
    "[[1,2,3],[4,5,6],[7,8,9]]",
    r#"{"min":3,"x":{"a":[1,5]},"y":{"a":[2]}}"#,
    "[\"\u{1f600}\",\"ab\",[0],{\"k\":1},7]",
    r#"[{"a":1},{"a":{"a":1}}]"#,
    r#"[{"a":1,"b":2},{"a":1,"b":1},{"b":3}]"#,
    r#"[{},{"x":1}]"#,
    READINGS,
    BOOKSTORE,
];

/// Whether a text is one line.
fn is_line(text: &str) -> bool {
    text.strip_suffix("\n")
        .is_some_and(|line| !line.contains("\n"))
}

/// Fails where the report of a document under `$` is not one line, and the document is a JSON text.
fn is_line_or_no_json(alloc: Global, document: &[u8]) -> Result<(), Fail> {
    match report(alloc, "$", document, &Builtin) {
        Ok(lines) => holds(is_line(lines.as_str()), lines.as_str()),
        Err(ReportError::Document(DocumentError::NotJson)) => Ok(()),
        Err(e) => Err(Fail::from(e)),
    }
}

/// Reports on each beginning of a document.
pub(crate) fn cut(alloc: Global, document: &[u8]) -> Came {
    for end in 0..document.len() + 1 {
        if let Some(start) = document.get(..end) {
            is_line_or_no_json(alloc, start)?;
        }
    }
    Ok(String::new(alloc))
}

#[test]
fn cuts_documents(rt: HostRuntime) -> Result<(), Fail> {
    let mut table = Table::new(&rt);
    for &document in DOCUMENTS {
        table.hold(("cut", document, ""), cut(rt.alloc(), document.as_bytes()));
    }
    table.end()
}
