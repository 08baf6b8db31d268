//! Walks, one node at a time.

use crate::tests::rows::{read, read_with};
use serde_json::Value;
use serde_json_path::functions::{Builtin, CachedPatterns, Functions, PatternStore};
use serde_json_path::{JsonPath, PathElement, QueryError, Walk};
use std::alloc::Global;
use std::test::Fail;
use test_rows::{Came, Own, Table, fields, hold_rows, long};

/// What a walk answers to so many calls: locations, `none` for none, and how many of the calls are refused memory.
fn walked<F: Functions + Drop>(alloc: Global, mut walk: Walk<'_, '_, F>, calls: u32) -> Came {
    let mut text = String::new(alloc);
    let mut refused = 0_u32;
    for _ in 0..calls {
        match walk.next() {
            Ok(Some(node)) => write!(text, "{}, ", node.location())?,
            Ok(None) => text.push_str("none, ")?,
            Err(QueryError::Memory) => refused = refused.saturating_add(1),
            Err(e) => return Err(Fail::from(e)),
        }
    }
    write!(text, "{refused} refused")?;
    Ok(text)
}

/// What the walk of a path over a document answers to so many calls, as [`walked`] gives it.
pub(crate) fn of_walk<F: Functions>(
    alloc: Global,
    functions: &F,
    row: (&str, &str),
    calls: u32,
) -> Came {
    let (path, document) = read_with(alloc, functions, row)?;
    walked(alloc, path.walk(alloc, &document, functions)?, calls)
}

/// A path, a document, and what five calls of the walk answer.
const WALKED: &[&str] = &[
    r#"$['a','a'] ~ {"a":1} -> $['a'], $['a'], none, none, none, 0 refused"#,
    "$[?@ > 1] ~ [1,2,3] -> $[1], $[2], none, none, none, 0 refused",
    r#"$..baz ~ {"foo":{"bar":{"baz":1},"baz":2},"baz":3} -> $['baz'], $['foo']['baz'], $['foo']['bar']['baz'], none, none, 0 refused"#,
];

#[test]
fn walks_give_one_node_after_the_other(rt: HostRuntime) -> Result<(), Fail> {
    hold_rows(&rt, WALKED, |alloc, row| {
        of_walk(alloc, &Builtin, fields(row)?, 5)
    })
}

/// What a walk answers to so many calls that hand in the steps of the node before, as [`walked`] gives it.
fn walked_into<F: Functions + Drop>(alloc: Global, mut walk: Walk<'_, '_, F>, calls: u32) -> Came {
    let mut text = String::new(alloc);
    let mut steps = Vec::new(alloc);
    for _ in 0..calls {
        match walk.next_into(steps)? {
            Some(node) => {
                write!(text, "{}, ", node.location())?;
                steps = node.into_steps();
            }
            None => {
                text.push_str("none, ")?;
                steps = Vec::new(alloc);
            }
        }
    }
    text.push_str("0 refused")?;
    Ok(text)
}

#[test]
fn walks_give_the_same_into_steps(rt: HostRuntime) -> Result<(), Fail> {
    hold_rows(&rt, WALKED, |alloc, given| {
        let (path, document) = read(alloc, given)?;
        walked_into(alloc, path.walk(alloc, &document, &Builtin)?, 5)
    })
}

/// A path, a document, and what three calls of a walk under a set that keeps patterns answer.
const UNDER_A_SET: &[&str] = &[
    r#"$[?match(@, 'b.')] ~ ["ab","bc","bcd"] -> $[1], none, none, 0 refused"#,
    r#"$[?search(@.a, @.b)] ~ [{"a":"xy","b":"y"},{"a":"xy","b":"z"},{"a":"x","b":"["}] -> $[0], none, none, 0 refused"#,
];

#[test]
fn walks_go_under_a_set_alone(rt: HostRuntime) -> Result<(), Fail> {
    hold_rows(&rt, UNDER_A_SET, |alloc, given| {
        let (path, document) = read(alloc, given)?;
        let store = PatternStore::new();
        let functions = CachedPatterns::new(alloc, &store);
        walked(alloc, path.walk_under(alloc, &document, functions)?, 3)
    })
}

/// Which calls of `kids` are refused, and how many are before the sixth that is not: the filter is asked of six items.
const REFUSED: [(u64, u32); 6] = [
    (0, 0),
    (1, 1),
    (0b10, 1),
    (0b1111, 4),
    (0b0101_0101_0101, 6),
    (0b0110_1101_1011, 8),
];

#[test]
fn walks_go_on_where_memory_was_refused(rt: HostRuntime) -> Result<(), Fail> {
    let alloc = rt.alloc();
    let given = ("$[?kids(@.*)]", "[[],[1],[[]],[],0,[2]]");
    let mut table = Table::new(&rt);
    for (refused, times) in REFUSED {
        let wanted = format!(in alloc; "$[1], $[2], $[5], none, {times} refused")?;
        let (own, calls) = (Own::refusing(refused), times.saturating_add(4));
        let came = of_walk(alloc, &own, given, calls);
        table.hold(("a set that refuses", given.0, wanted.as_str()), came);
    }
    table.end()
}

/// The walk keeps one or two places before each item, and none after the last.
#[test]
fn walks_keep_few_places(rt: HostRuntime) -> Result<(), Fail> {
    let alloc = rt.alloc();
    let document = long(alloc, "[0", ",0", 999, "]")?;
    let document = Value::from_str(alloc, document.as_str())?;
    let path = JsonPath::parse_with(alloc, "$..*", &Builtin)?;
    let mut walk = path.walk(alloc, &document, &Builtin)?;
    for number in 0..1000 {
        assert!(rt; matches!(walk.places(), 1 | 2));
        let node = walk.next()?.ok_or("too few nodes")?;
        assert!(rt; node.location().get(0) == Some(PathElement::Index(number)));
    }
    assert!(rt; walk.next()?.is_none());
    assert!(rt; walk.places() == 0);
    Ok(())
}
