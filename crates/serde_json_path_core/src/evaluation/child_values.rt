//! The values of all children, without a frame.

ghost use Rattle.std.specs.Prelude.{◌≡◌, IfOk, map};
ghost use Rattle.serde_json_path_core.specs.Inside.Words.{view, node_value, children};

use crate::evaluation::cursor::Cursor;
use serde_json::Value;
use std::alloc::{AllocError, Global};

/// How many children a value has.
fn child_count(value: &Value) -> usize {
    match value {
        Value::Array(items) => items.len(),
        Value::Object(members) => members.len(),
        _ => 0,
    }
}

/// The values of all children of a value, in document order.
pub(crate) fn child_values<'x, 'b: 'x>(
    alloc: Global,
    value: &'b Value,
) -> Result<Vec<&'x Value>, AllocError>
    ensures { IfOk result (λ found.
        map node_value found.items ≡ map (λ c. c.1) (children (view value.now))) }
{
    let mut found: Vec<&'x Value> = Vec::with_capacity(alloc, child_count(value))?;
    let mut left = Cursor::all(value);
    while let Some(child) = left.peek() {
        let value: &'x Value = child.value;
        found.push(value)?;
        left.pass();
    }
    Ok(found)
}
