//! Paths read from JSON values, and values queried by a path.

use serde_json::Value;
use serde_json_path::{FromJsonError, JsonPath, JsonPathExt};
use std::alloc::Global;
use std::test::Fail;
use test_rows::{Came, fields, hold_rows, values};

/// A JSON value, and why it is not read as a path.
const REFUSED: &[&str] = &[
    "7 -> not a string",
    "null -> not a string",
    "true -> not a string",
    r#"["$"] -> not a string"#,
    r#"{"path":"$"} -> not a string"#,
    r#""x" -> at position 1, expected '$'"#,
    r#""" -> at position 1, expected '$'"#,
    r#""$[?first(@.*) == 4]" -> at position 4, in long-hand segment, undefined function"#,
    r#""$.a['b']tail" -> at position 9, text after the path"#,
];

/// A JSON string, a document, and the values that the string's path selects from it.
const READ: &[&str] = &[
    r#""$" ~ [1,{"a":null}] -> [1,{"a":null}]"#,
    r#""$.foo['bar'][1:10][?@.baz > 10 && @.foo.bar < 20]" ~ {"foo":{"bar":[0,[{"baz":11,"foo":{"bar":1}},{"baz":9,"foo":{"bar":1}}]]}} -> {"baz":11,"foo":{"bar":1}}"#,
    r#""$..\u0061" ~ {"a":[{"a":1}],"b":{"a":"x"}} -> [{"a":1}] 1 "x""#,
    r#""$[?match(@, 'a.')]" ~ ["ab","a","b"] -> "ab""#,
];

/// Why a value is not read as a path, or `accepted`.
fn refusal(alloc: Global, value: &str) -> Came {
    let value = Value::from_str(alloc, value)?;
    match JsonPath::from_json(alloc, &value).err() {
        Some(e) => Ok(e.to_string(alloc)?),
        None => Ok(String::from_str(alloc, "accepted")?),
    }
}

#[test]
fn refuses_values_that_are_not_paths(rt: HostRuntime) -> Result<(), Fail> {
    let answer = JsonPath::from_json(rt.alloc(), &Value::from(7)).err();
    assert!(rt; answer == Some(FromJsonError::NotAString));
    hold_rows(&rt, REFUSED, refusal)
}

/// The values that the path of a JSON string selects from a document, which is asked for them.
fn read(alloc: Global, given: &str) -> Came {
    let (value, document) = fields(given)?;
    let value = Value::from_str(alloc, value)?;
    let path = JsonPath::from_json(alloc, &value)?;
    let document = Value::from_str(alloc, document)?;
    let nodes = document.json_path(alloc, &path)?;
    values(alloc, nodes.iter())
}

#[test]
fn reads_paths_from_strings(rt: HostRuntime) -> Result<(), Fail> {
    hold_rows(&rt, READ, read)
}
