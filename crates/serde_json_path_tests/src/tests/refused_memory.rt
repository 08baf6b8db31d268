//! Calls that are refused a request for memory. `tools/refuse_memory` refuses each request of each of these tests in turn,
//! and reads how the test ends.
//!
//! A call that answers no memory is made again, and then answers as its row says. A test whose name begins with
//! `takes_none` makes requests only for what it hands in.

use crate::tests::rows::{located_nodes, nodes, read, read_with};
use serde_json::Value;
use serde_json_path::functions::{
    Builtin, CachedPatterns, FunctionArgType, Functions, LogicalType, PatternStore, Signature,
};
use serde_json_path::{
    Binding, FromJsonError, JsonPath, JsonPathExt, LocatedNode, LocatedNodeList, NodeList, Numbers,
    ParseError, ParseErrorKind, PathSource, TextSource, parse_source,
};
use serde_json_path_nodes::escaped;
use serde_json_path_syntax::{Checked, SyntaxBuilder};
use std::alloc::Global;
use std::process::Abort;
use std::test::Fail;
use test_rows::{
    Called, Came, Own, fields, hold_answers, hold_rows, holds, long, of_calls, of_located,
    of_nodes, of_walk,
};

/// A text, and the text that its path prints, or the refusal.
const TEXTS: &[&str] = &[
    "$.foo..baz -> $.foo..baz",
    "$.* -> $.*",
    "$[?@.a[?@ > $.min]] -> $[?@.a[?@ > $.min]]",
    "$.readings[? @.val > $.threshold ].msg -> $.readings[?@.val > $.threshold].msg",
    "$.foo['bar'][1:10][?@.baz > 10 && @.foo.bar < 20] -> $.foo['bar'][1:10][?@.baz > 10 && @.foo.bar < 20]",
    "$[?first(@.*) == 4] -> at position 4, in long-hand segment, undefined function",
];

/// A text, and what its path prints, of which the last one fits [`Own`] alone.
const PRINTED: &[&str] = &[
    "$.foo..baz -> $.foo..baz",
    "$.* -> $.*",
    "$[?@.a[?@ > $.min]] -> $[?@.a[?@ > $.min]]",
    "$.readings[?@.val > $.threshold].msg -> $.readings[?@.val > $.threshold].msg",
    "$.foo['bar'][1:10][?@.baz > 10 && @.foo.bar < 20] -> $.foo['bar'][1:10][?@.baz > 10 && @.foo.bar < 20]",
    "$[?first(@.*) == 4] -> $[?first(@.*) == 4]",
];

/// The text of what is read, or nothing where memory is refused.
fn told(alloc: Global, answer: Result<JsonPath, ParseError>) -> Called {
    match answer {
        Ok(path) => Ok(Some(path.to_text(alloc)?)),
        Err(e) if e.kind() == ParseErrorKind::NoMemory => Ok(None),
        Err(e) => Ok(Some(e.to_string(alloc)?)),
    }
}

#[test]
fn parse(rt: HostRuntime) -> Result<(), Fail> {
    hold_answers(&rt, TEXTS, |alloc, text| {
        told(alloc, JsonPath::parse(alloc, text))
    })
}

#[test]
fn from_str(rt: HostRuntime) -> Result<(), Fail> {
    hold_answers(&rt, TEXTS, |alloc, text| {
        told(alloc, JsonPath::from_str(alloc, text))
    })
}

/// The text of what is read under a set, which the path fits.
fn told_with<F: Functions>(alloc: Global, functions: &F, text: &str) -> Called {
    let answer = JsonPath::parse_with(alloc, text, functions);
    let is_fit = answer.as_ref().is_ok_and(|path| path.fits(functions));
    holds(is_fit == answer.is_ok(), "does not fit")?;
    told(alloc, answer)
}

#[test]
fn parse_with(rt: HostRuntime) -> Result<(), Fail> {
    hold_answers(&rt, TEXTS, |alloc, text| told_with(alloc, &Builtin, text))?;
    let own = Own::refusing(0);
    hold_answers(&rt, PRINTED, |alloc, text| told_with(alloc, &own, text))
}

/// A source may be looked at no more often than the bound says.
#[test]
fn parses_a_source(rt: HostRuntime) -> Result<(), Fail> {
    hold_answers(&rt, TEXTS, |alloc, text| {
        let mut source = TextSource::new(text);
        let answer = parse_source(alloc, &mut source, &Builtin, Numbers::Whole);
        let most = 32 * (text.len() as u128 + 1);
        holds(source.looks() <= most, "too many looks")?;
        told(alloc, answer)
    })
}

#[test]
fn from_json(rt: HostRuntime) -> Result<(), Fail> {
    hold_answers(&rt, TEXTS, |alloc, text| {
        let value = Value::String(String::from_str(alloc, text)?);
        match JsonPath::from_json(alloc, &value) {
            Err(FromJsonError::Path(refused)) => told(alloc, Err(refused)),
            answer => told(alloc, Ok(answer?)),
        }
    })
}

/// The path of a text that may call functions of [`Own`].
fn own_path(alloc: Global, text: &str) -> Result<JsonPath, Fail> {
    Ok(JsonPath::parse_with(alloc, text, &Own::refusing(0))?)
}

/// The text of a copy, which is equal to its path and fits the same sets.
fn copied(alloc: Global, text: &str) -> Called {
    let path = own_path(alloc, text)?;
    let Ok(copy) = path.try_clone(alloc) else {
        return Ok(None);
    };
    let is_own = text.contains("first");
    holds(copy == path && copy.fits(&Own::refusing(0)), "another path")?;
    holds(copy.fits(&Builtin) != is_own, "fits another set")?;
    Ok(Some(copy.to_text(alloc)?))
}

#[test]
fn try_clone(rt: HostRuntime) -> Result<(), Fail> {
    hold_answers(&rt, PRINTED, copied)
}

/// A path, and the text that it prints with `c` for `b`.
const BOUND: &[&str] = &[
    "$[?@.a[?@ == 'b']] -> $[?@.a[?@ == 'c']]",
    "$[?first(@.*) == 'b' || @['b'] == 'a'] -> $[?first(@.*) == 'c' || @['b'] == 'a']",
];

/// The text of a path with a value for a text.
fn with_value(alloc: Global, text: &str) -> Called {
    let path = own_path(alloc, text)?;
    let Ok(path) = path.bound(
        alloc,
        &[Binding {
            text: "b",
            value: "c",
        }],
    ) else {
        return Ok(None);
    };
    Ok(Some(path.to_text(alloc)?))
}

#[test]
fn bound(rt: HostRuntime) -> Result<(), Fail> {
    hold_answers(&rt, BOUND, with_value)
}

#[test]
fn to_text(rt: HostRuntime) -> Result<(), Fail> {
    hold_answers(&rt, PRINTED, |alloc, text| {
        Ok(own_path(alloc, text)?.to_text(alloc).ok())
    })
}

#[test]
fn to_json(rt: HostRuntime) -> Result<(), Fail> {
    hold_answers(&rt, PRINTED, |alloc, text| {
        match own_path(alloc, text)?.to_json(alloc) {
            Ok(Value::String(text)) => Ok(Some(text)),
            _ => Ok(None),
        }
    })
}

/// A path, a document, and the locations of what the path selects there.
const LOCATIONS: &[&str] = &[
    r#"$.foo..baz ~ {"foo":{"bar":{"baz":1},"baz":2},"baz":3} -> $['foo']['baz'] $['foo']['bar']['baz']"#,
    r#"$.* ~ {"a'b\\\u000b":1} -> $['a\'b\\\u000b']"#,
    r#"$[?@.a[?@ > $.min]] ~ {"min":3,"x":{"a":[1,5]},"y":{"a":[2]}} -> $['x']"#,
    r#"$.readings[? @.val > $.threshold ].msg ~ {"threshold":40,"readings":[{"val":35,"msg":"foo"},{"val":40,"msg":"bar"},{"val":42,"msg":"biz"},{"val":48,"msg":"bop"}]} -> $['readings'][2]['msg'] $['readings'][3]['msg']"#,
    "$.foo['bar'][1:10][?@.baz > 10 && @.foo.bar < 20] ~ null -> ",
];

/// A path, a document, and the values of what the path selects there.
const VALUES: &[&str] = &[
    r#"$.foo..baz ~ {"foo":{"bar":{"baz":1},"baz":2},"baz":3} -> 2 1"#,
    r#"$.* ~ {"a'b\\\u000b":1} -> 1"#,
    r#"$[?@.a[?@ > $.min]] ~ {"min":3,"x":{"a":[1,5]},"y":{"a":[2]}} -> {"a":[1,5]}"#,
    r#"$.readings[? @.val > $.threshold ].msg ~ {"threshold":40,"readings":[{"val":35,"msg":"foo"},{"val":40,"msg":"bar"},{"val":42,"msg":"biz"},{"val":48,"msg":"bop"}]} -> "biz" "bop""#,
    "$.foo['bar'][1:10][?@.baz > 10 && @.foo.bar < 20] ~ null -> ",
];

/// The same, where the path has a pattern of its own and those of the document, one of which `regex` cannot read.
const BY_PATTERNS: &[&str] = &[
    r#"$[?match(@[0], 'b+') || search(@[0], @[1])] ~ [["b"],["xcx","c"],["x","("],["y"],["z","c"],["y","("],["c","c"]] -> $[0] $[1] $[6]"#,
];

// The same two under [`Own`].
const OWN_LOCATIONS: &[&str] = &["$[?first(@.*) == 4] ~ [[1,2,3],[4,5,6],[7,8,9]] -> $[1]"];

const OWN_VALUES: &[&str] = &["$[?first(@.*) == 4] ~ [[1,2,3],[4,5,6],[7,8,9]] -> [4,5,6]"];

#[test]
fn query(rt: HostRuntime) -> Result<(), Fail> {
    hold_answers(&rt, VALUES, |alloc, row| {
        let (path, document) = read(alloc, row)?;
        of_nodes(alloc, path.query(alloc, &document))
    })
}

/// What a query gives under a set.
fn values_with<F: Functions>(alloc: Global, functions: &F, row: &str) -> Called {
    let (path, document) = read_with(alloc, functions, fields(row)?)?;
    of_nodes(alloc, path.query_with(alloc, &document, functions))
}

#[test]
fn query_with(rt: HostRuntime) -> Result<(), Fail> {
    let own = Own::refusing(0);
    hold_answers(&rt, VALUES, |alloc, row| values_with(alloc, &Builtin, row))?;
    hold_answers(&rt, OWN_VALUES, |alloc, row| values_with(alloc, &own, row))
}

#[test]
fn json_path(rt: HostRuntime) -> Result<(), Fail> {
    hold_answers(&rt, VALUES, |alloc, row| {
        let (path, document) = read(alloc, row)?;
        of_nodes(alloc, document.json_path(alloc, &path))
    })
}

/// The locations that a query gives.
fn of_query(alloc: Global, row: &str) -> Called {
    let (path, document) = read(alloc, row)?;
    of_located(alloc, path.query_located(alloc, &document))
}

#[test]
fn query_located(rt: HostRuntime) -> Result<(), Fail> {
    hold_answers(&rt, LOCATIONS, of_query)?;
    hold_answers(&rt, BY_PATTERNS, of_query)
}

/// The locations that a query gives under a set.
fn located<F: Functions>(alloc: Global, functions: &F, row: &str) -> Called {
    let (path, document) = read_with(alloc, functions, fields(row)?)?;
    of_located(alloc, path.query_located_with(alloc, &document, functions))
}

#[test]
fn query_located_with(rt: HostRuntime) -> Result<(), Fail> {
    let own = Own::refusing(0);
    hold_answers(&rt, LOCATIONS, |alloc, row| located(alloc, &Builtin, row))?;
    hold_answers(&rt, OWN_LOCATIONS, |alloc, row| located(alloc, &own, row))
}

/// The locations that a walk gives under a set.
fn walked<F: Functions>(alloc: Global, functions: &F, row: &str) -> Called {
    let (path, document) = read_with(alloc, functions, fields(row)?)?;
    of_walk(alloc, path.walk(alloc, &document, functions))
}

#[test]
fn walk(rt: HostRuntime) -> Result<(), Fail> {
    let own = Own::refusing(0);
    hold_answers(&rt, LOCATIONS, |alloc, row| walked(alloc, &Builtin, row))?;
    hold_answers(&rt, OWN_LOCATIONS, |alloc, row| walked(alloc, &own, row))
}

/// The locations that a walk gives under a set, of which a call that is refused is made again.
fn of_next<F: Functions>(alloc: Global, functions: &F, row: &str) -> Came {
    let (path, document) = read_with(alloc, functions, fields(row)?)?;
    of_calls(alloc, path.walk(alloc, &document, functions)?)
}

#[test]
fn next(rt: HostRuntime) -> Result<(), Fail> {
    let own = Own::refusing(0);
    hold_rows(&rt, LOCATIONS, |alloc, row| of_next(alloc, &Builtin, row))?;
    hold_rows(&rt, OWN_LOCATIONS, |alloc, row| of_next(alloc, &own, row))
}

/// Where the set keeps patterns, the next call finds what a refused call has kept.
#[test]
fn next_by_patterns(rt: HostRuntime) -> Result<(), Fail> {
    hold_rows(&rt, BY_PATTERNS, |alloc, row| {
        let store = PatternStore::new();
        of_next(alloc, &CachedPatterns::new(alloc, &store), row)
    })
}

/// A path, a document, and the pointer of the one node that the path selects there.
const POINTED: &[&str] = &[
    r#"$.foo.bar.baz ~ {"foo":{"bar":{"baz":1},"baz":2},"baz":3} -> /foo/bar/baz"#,
    "$.* ~ {\"a'b\\\\\\u000b\":1} -> /a'b\\\u{b}",
    r#"$[?@.a[?@ > $.min]] ~ {"min":3,"x":{"a":[1,5]},"y":{"a":[2]}} -> /x"#,
    r#"$[0] ~ [0] -> /0"#,
];

/// The pointer of the one node that a path selects from a document, or nothing where memory is refused.
fn pointed(alloc: Global, row: &str) -> Called {
    let (path, document) = read(alloc, row)?;
    let node = path.query_located(alloc, &document)?.exactly_one()?;
    Ok(node.location().to_json_pointer(alloc).ok())
}

#[test]
fn to_json_pointer(rt: HostRuntime) -> Result<(), Fail> {
    hold_answers(&rt, POINTED, pointed)
}

/// Texts without a root.
const ROOTLESS: &[&str] = &["", "x", " $", "@.a", "é"];

#[test]
fn takes_none_where_the_root_is_missing(rt: HostRuntime) -> Result<(), Fail> {
    for &text in ROOTLESS {
        let refusal = JsonPath::parse(rt.alloc(), text).err();
        assert!(rt; refusal.map(|e| e.kind()) == Some(ParseErrorKind::ExpectedRoot));
    }
    Ok(())
}

#[test]
fn takes_none_of_the_new_path(rt: HostRuntime) -> Result<(), Fail> {
    let path = JsonPath::new(rt.alloc());
    let store = PatternStore::new();
    let functions = CachedPatterns::new(rt.alloc(), &store);
    assert!(rt; path == JsonPath::new(rt.alloc()) && path.fits(&functions));
    assert!(rt; JsonPath::parse(rt.alloc(), "$").ok() == Some(path));
    Ok(())
}

#[test]
fn takes_none_at_blanks(rt: HostRuntime) -> Result<(), Fail> {
    let text = long(rt.alloc(), "$", " ", 10_000, "x")?;
    let mut source = TextSource::new(text.as_str());
    let refusal = parse_source(rt.alloc(), &mut source, &Builtin, Numbers::Whole).err();
    let told = refusal.map(|e| (e.kind(), e.position()));
    assert!(rt; told == Some((ParseErrorKind::TextAfterPath, 2)));
    assert!(rt; source.looks() <= 32 * (source.len() as u128 + 1));
    Ok(())
}

/// Asks a list of the nodes of `$[1,0,1,0]` for all that it tells.
fn asks_nodes(rt: &impl Abort, nodes: &NodeList<'_>) {
    assert!(rt; nodes.len() == 4 && !nodes.is_empty() && nodes.first().is_some());
    assert!(rt; nodes.at_most_one().is_err() && nodes.exactly_one().is_err());
    assert!(rt; nodes.iter().count() == 4);
}

/// Asks a located node of an array's text for its parts.
fn asks_node(rt: &impl Abort, node: &LocatedNode<'_>) {
    let location = node.location();
    assert!(rt; node.node().is_string() && location.len() == 1 && !location.is_empty());
    assert!(rt; location.get(0).is_some() && location.iter().count() == 1);
}

/// Asks a list of the located nodes of `$[1,0,1,0]` for all that it tells.
fn asks_located(rt: &impl Abort, nodes: &LocatedNodeList<'_>) {
    assert!(rt; nodes.len() == 4 && !nodes.is_empty() && nodes.iter().count() == 4);
    assert!(rt; nodes.nodes().count() == 4 && nodes.locations().count() == 4);
    for node in nodes.iter() {
        asks_node(rt, node);
    }
}

/// The document of which `$[1,0,1,0]` selects four nodes, two of them twice.
const TWO: &str = r#"["a","b"]"#;

#[test]
fn takes_none_of_nodes(rt: HostRuntime) -> Result<(), Fail> {
    let document = Value::from_str(rt.alloc(), TWO)?;
    let nodes = nodes(rt.alloc(), "$[1,0,1,0]", &document)?;
    asks_nodes(&rt, &nodes);
    assert_eq!(rt; nodes.all().len(), 4);
    Ok(())
}

#[test]
fn takes_none_of_located_nodes(rt: HostRuntime) -> Result<(), Fail> {
    let document = Value::from_str(rt.alloc(), TWO)?;
    let nodes = located_nodes(rt.alloc(), "$[1,0,1,0]", &document)?;
    asks_located(&rt, &nodes);
    assert!(rt; nodes.at_most_one().is_err());
    let nodes = located_nodes(rt.alloc(), "$[1,0,1,0]", &document)?;
    assert_eq!(rt; nodes.all().len(), 4);
    let nodes = located_nodes(rt.alloc(), "$[1,0,1,0]", &document)?.dedup();
    assert!(rt; nodes.len() == 2 && nodes.exactly_one().is_err());
    Ok(())
}

#[test]
fn takes_none_to_begin(rt: HostRuntime) -> Result<(), Fail> {
    let query = Checked::new(rt.alloc());
    assert!(rt; query.segments().is_empty() && query.fits(&Builtin));
    let _builder = SyntaxBuilder::new(rt.alloc());
    let source = TextSource::new("$");
    assert!(rt; source.looks() == 0 && source.len() == 1);
    assert!(rt; escaped('a').is_none() && escaped('\n').is_some());
    Ok(())
}

#[test]
fn takes_none_of_signatures(rt: HostRuntime) -> Result<(), Fail> {
    assert!(rt; Builtin.signature("none").is_none());
    let signature = Signature::new(&[FunctionArgType::Value], FunctionArgType::Value);
    let signature = signature.ok_or("no signature")?;
    assert_eq!(rt;
        (signature.params().len(), signature.result()),
        (1, FunctionArgType::Value)
    );
    assert_eq!(rt; LogicalType::from(false), LogicalType::default());
    Ok(())
}
