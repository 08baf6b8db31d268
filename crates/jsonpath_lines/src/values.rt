//! The JSON of values, appended to a text.

ghost use Rattle.std.specs.Prelude.{◌≡◌, ◌++◌, codes, IfOk, IsTrue, OnOk, string_bytes};
ghost use Rattle.json.specs.Print.{escape};
ghost use Rattle.jsonpath_lines.specs.Words.{IsUtf8, tokens, ArePrintable, view, located, Appends, IsIndented, IsItem, IsLaid, path_string};

use crate::forms::Layout;
use itoa::Buffer;
use json::{Pretty, Reader, Scratch};
use serde_json::Value;
use serde_json_path::LocatedNode;
use std::alloc::{AllocError, Global};

/// The JSON of a value in a layout, as `serde_json` writes it.
fn printed(alloc: Global, layout: Layout, value: &Value) -> Result<String, AllocError>
    ensures { IfOk result (λ json. IsLaid layout (view value.now) (string_bytes json)) }
{
    match layout {
        Layout::Compact => value.to_string(alloc),
        Layout::Pretty => value.to_string_pretty(alloc),
    }
}

/// Appends the JSON of a value as `serde_json` writes it.
fn push_printed(
    alloc: Global,
    layout: Layout,
    text: &mut String,
    value: &Value,
) -> Result<(), AllocError>
    ensures { OnOk result (Appends (IsLaid layout (view value.now))
        (string_bytes text.old) (string_bytes text.new)) }
{
    let json = printed(alloc, layout, value)?;
    text.push_str(json.as_str())
}

/// Appends the JSON of a value, with few steps where the value is held as an integer.
#[inline(always)]
fn push_number(
    alloc: Global,
    layout: Layout,
    text: &mut String,
    value: &Value,
) -> Result<(), AllocError>
    ensures { OnOk result (Appends (IsLaid layout (view value.now))
        (string_bytes text.old) (string_bytes text.new)) }
{
    if let Some(n) = value.as_u64() {
        return text.push_str(Buffer::new().format(n));
    }
    if let Some(n) = value.as_i64() {
        if n < 0 {
            return text.push_str(Buffer::new().format(n));
        }
    }
    push_printed(alloc, layout, text, value)
}

/// Whether no byte of a text has an escape in JSON.
#[inline(always)]
fn has_no_escape(text: &str) -> bool
    ensures { IsTrue result → escape text.now ≡ text.now }
{
    let bytes = text.as_bytes();
    for byte in bytes {
        if *byte < b' ' || *byte == b'"' || *byte == b'\\' {
            return false;
        }
    }
    true
}

/// Appends a text in double quotes.
#[inline(always)]
fn push_in_quotes(text: &mut String, own: &str) -> Result<(), AllocError>
    ensures { OnOk result (string_bytes text.new
        ≡ string_bytes text.old ++ (codes "\"" ++ (own.now ++ codes "\""))) }
{
    text.push('"')?;
    text.push_str(own)?;
    text.push('"')
}

/// Appends the JSON of a value.
#[inline(always)]
pub(crate) fn push_json(
    alloc: Global,
    layout: Layout,
    text: &mut String,
    value: &Value,
) -> Result<(), AllocError>
    ensures { OnOk result (Appends (IsLaid layout (view value.now))
        (string_bytes text.old) (string_bytes text.new)) }
{
    match value {
        Value::Null => text.push_str("null"),
        Value::Bool(true) => text.push_str("true"),
        Value::Bool(false) => text.push_str("false"),
        Value::Number(_) => push_number(alloc, layout, text, value),
        Value::String(own) if has_no_escape(own.as_str()) => push_in_quotes(text, own.as_str()),
        _ => push_printed(alloc, layout, text, value),
    }
}

/// Appends the JSON string of a node's normalised path.
fn push_path(alloc: Global, text: &mut String, node: &LocatedNode<'_>) -> Result<(), AllocError>
    ensures { OnOk result
        (string_bytes text.new ≡ string_bytes text.old ++ path_string (located node.now)) }
{
    let path = Value::String(node.location().to_text(alloc)?);
    let json = path.to_string(alloc)?;
    text.push_str(json.as_str())
}

/// Appends a node's object in one line: its path and its value.
pub(crate) fn push_item(
    alloc: Global,
    text: &mut String,
    node: &LocatedNode<'_>,
) -> Result<(), AllocError>
    ensures { OnOk result (Appends (IsItem (located node.now))
        (string_bytes text.old) (string_bytes text.new)) }
{
    text.push_str("{\"path\":")?;
    push_path(alloc, text, node)?;
    text.push_str(",\"value\":")?;
    push_printed(alloc, Layout::Compact, text, node.node())?;
    text.push('}')
}

/// A text of bytes that are one.
fn text_of(bytes: Vec<u8>) -> String
    requires { IsUtf8 bytes.items }
    ensures { string_bytes result ≡ bytes.items }
{
    match String::from_utf8(bytes) {
        Ok(text) => text,
        Err(_) => unreachable!(),
    }
}

/// The same JSON in the indented layout of `serde_json`.
#[tactic(auto, unfolding(json::specs::Print::ArePrintable))]
pub(crate) fn indented(alloc: Global, json: &str) -> Result<String, AllocError>
    requires { ArePrintable (tokens json.now) }
    ensures { IfOk result (λ text. IsIndented json.now (string_bytes text)) }
{
    let mut scratch = Scratch::new(alloc);
    let mut reader = Reader::new(json, &mut scratch)?;
    let mut indented = Pretty::new(alloc);
    'tokens: while let Some(token) = reader.next() {
        indented.token(token)?;
    }
    Ok(text_of(indented.into_inner()))
}
