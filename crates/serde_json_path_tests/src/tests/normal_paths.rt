//! The way back from a location: its normalised path, parsed and queried, gives the node there alone.

use crate::tests::headline::find_again;
use serde_json::Value;
use serde_json_path::functions::Builtin;
use serde_json_path::{NormalizedPath, PathElement};
use std::test::Fail;
use test_rows::{hold_row, located};

#[test]
fn finds_the_root_again(rt: HostRuntime) -> Result<(), Fail> {
    let alloc = rt.alloc();
    let root = NormalizedPath::from_steps(Vec::new(alloc));
    let row = (r#"[{"a":7}]"#, "the root", r#"$ ~ [{"a":7}]"#);
    let document = Value::from_str(alloc, row.0)?;
    let nodes = find_again(alloc, &root, &document, &Builtin)?;
    hold_row(&rt, row, located(alloc, &nodes))
}

#[test]
fn finds_an_item_again(rt: HostRuntime) -> Result<(), Fail> {
    let alloc = rt.alloc();
    let mut items = Vec::new(alloc);
    items.push(Value::Null)?;
    items.push(Value::Bool(true))?;
    let document = Value::Array(items);
    let mut steps = Vec::new(alloc);
    steps.push(PathElement::Index(1))?;
    let location = NormalizedPath::from_steps(steps);
    let nodes = find_again(alloc, &location, &document, &Builtin)?;
    let row = ("[null,true]", "the second item", "$[1] ~ true");
    hold_row(&rt, row, located(alloc, &nodes))
}
