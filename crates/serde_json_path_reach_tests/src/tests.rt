//! What is read of a document for a path: what the path can reach.

ghost use Rattle.serde_json_path_functions.specs.Functions.{Fits};
ghost use Rattle.serde_json_path_functions.specs.Patterns.{builtin_functions};
ghost use Rattle.serde_json_path.specs.Paths.{path_signatures};

use serde_json::Value;
use serde_json_path::JsonPath;
use serde_json_path_reach::{DocumentReader, read_for};
use std::alloc::{AllocError, Global};
use std::test::Fail;
use test_rows::{Came, Nesting, alike, fields, hold_rows, holds, located, locations, nested};

/// A path or two, a document, and what is read of it for them.
const ROWS: &[&str] = &[
    r#"$ ~ {"a":[1,{"b":2}]} -> {"a":[1,{"b":2}]}"#,
    r#"$.a ~ {"a":1,"b":2} -> {"a":1}"#,
    r#"$.a ~ {"b":[1],"c":{"a":1}} -> null"#,
    r#"$.a ~ [{"a":1}] -> null"#,
    r#"$.a.b ~ {"a":{"b":[1],"c":2},"b":3} -> {"a":{"b":[1]}}"#,
    r#"$['a','c'] ~ {"a":1,"b":2,"c":[]} -> {"a":1,"c":[]}"#,
    r#"$.*.a ~ {"x":{"a":1,"b":2},"y":3} -> {"x":{"a":1}}"#,
    "$.* ~ 5 -> 5",
    r#"$.*[?@.a] ~ [5,{"b":1}] -> [5,{"b":1}]"#,
    // Items keep their places.
    "$[1] ~ [1,[2],3] -> [null,[2],null]",
    "$[0] ~ [1,2] -> [1,null]",
    r#"$[-1].t ~ [{"t":1,"u":2},{"u":1},[],{"t":[]}] -> [{"t":1},null,null,{"t":[]}]"#,
    r#"$[1:2].a ~ [{"a":1,"b":2},{"a":3}] -> [{"a":1},{"a":3}]"#,
    r#"$[*][0] ~ [[1,2],{"0":1},[]] -> [[1,null],null,null]"#,
    // At any depth.
    r#"$..p ~ {"p":1,"q":{"p":[2],"r":3},"s":[{"p":4},5,[6]]} -> {"p":1,"q":{"p":[2]},"s":[{"p":4},null,null]}"#,
    r#"$..a.b ~ {"a":{"b":1,"c":2,"a":{"b":3}},"b":4} -> {"a":{"a":{"b":3},"b":1}}"#,
    "$..* ~ [1,[2]] -> [1,[2]]",
    // What filters ask.
    r#"$[?@.p < 2].t ~ [{"p":1,"t":2,"u":3},{"p":3},4] -> [{"p":1,"t":2},{"p":3},null]"#,
    r#"$[?@.p] ~ [{"p":1,"u":3},4] -> [{"p":1,"u":3},4]"#,
    r#"$.l[?@.p == $.m].t ~ {"l":[{"p":1,"t":2,"u":3}],"m":1,"n":2} -> {"l":[{"p":1,"t":2}],"m":1}"#,
    r#"$.l[?!(@.p.q || $.m[0])].t ~ {"l":[{"p":{"q":1,"r":2}}],"m":[1,2]} -> {"l":[{"p":{"q":1}}],"m":[1,null]}"#,
    r#"$.l[?length(@.a) == 1].b ~ {"k":3,"l":[{"a":"x","b":1,"c":2}]} -> {"l":[{"a":"x","b":1}]}"#,
    r#"$.l[?count(@..a) == 1].b ~ {"l":[{"b":1,"c":{"a":2,"d":3}}]} -> {"l":[{"b":1,"c":{"a":2}}]}"#,
    r#"$.l[?match(@.a, $.p)].b ~ {"l":[{"a":"x","b":1}],"p":"x","q":2} -> {"l":[{"a":"x","b":1}],"p":"x"}"#,
    r#"$.l[?@.a[?@.x == $.m]].b ~ {"l":[{"a":[{"x":2,"y":3}],"b":1,"c":4}],"m":2} -> {"l":[{"a":[{"x":2,"y":3}],"b":1}],"m":2}"#,
    r#"$.l['k',?@.a == 1].b ~ {"l":{"k":{"a":1,"b":2,"c":3}}} -> {"l":{"k":{"a":1,"b":2}}}"#,
    // Of members of one name the last one counts.
    r#"$.a ~ {"a":1,"b":2,"a":3} -> {"a":3}"#,
    r#"$.a.b ~ {"a":{"b":1},"a":{"c":2}} -> {"a":null}"#,
    r#"$.a.b ~ {"a":{"c":1},"a":{"b":2}} -> {"a":{"b":2}}"#,
    // Names.
    r#"$[''] ~ {"":1,"b":2} -> {"":1}"#,
    r#"$.a ~ {"\u0061":1,"b":2} -> {"a":1}"#,
    r#"$['\n'] ~ {"\n":1,"n":2} -> {"\n":1}"#,
    // What is passed over is read too.
    r#"$.a ~ {"a":1,"b":1e400} -> refused"#,
    r#"$.a ~ {"a":1,"b":[-1e400]} -> refused"#,
    r#"$.a ~ {"a":1,"b":1E400} -> refused"#,
    r#"$.a ~ {"a":1,"b":[1e308,123456789,-0.5,12345678901234567890123,1.7976931348623157e308]} -> {"a":1}"#,
    r#"$.a ~ {"a":1,"b":[1,]} -> refused"#,
    r#"$.a ~ {"a":1,"b":{"c":1]} -> refused"#,
    r#"$.a ~ {"a":1,"b":"\x"} -> refused"#,
    r#"$.a ~ {"a":1} 2 -> refused"#,
    r#"$.a ~ {"a":1 -> refused"#,
    "$.a ~  -> refused",
    // Two paths.
    r#"$.a and $.b.c ~ {"a":1,"b":{"a":2,"c":3},"c":4} -> {"a":1,"b":{"c":3}}"#,
    r#"$.a.b and $.a ~ {"a":{"b":1,"c":2},"c":4} -> {"a":{"b":1,"c":2}}"#,
    r#"$[?@.a].b and $..c ~ [{"a":1,"b":2,"c":3,"d":4}] -> [{"a":1,"b":2,"c":3}]"#,
];

/// The text, with so many spaces after it that the document is not read whole for being short.
fn long(alloc: Global, text: &str) -> Result<String, AllocError> {
    format!(in alloc; "{text:<1100}")
}

/// The locations and the values of what a path selects from a document. Fails where it selects otherwise from what is read.
fn selected(alloc: Global, path: &JsonPath, document: &Value, reached: &Value) -> Came
    requires { Fits builtin_functions (path_signatures path.now) }
{
    let of_document = path.query_located(alloc, document)?;
    let of_reached = path.query_located(alloc, reached)?;
    alike(located(alloc, &of_document)?, located(alloc, &of_reached)?)
}

/// What is read for one path or two, as a text. Fails where one of them does not select the same from the whole document.
fn reached(alloc: Global, row: &str) -> Came {
    let (paths, text) = fields(row)?;
    let (one, other) = paths.split_once(" and ").unwrap_or((paths, paths));
    let one = JsonPath::parse(alloc, one)?;
    let other = JsonPath::parse(alloc, other)?;
    let text = long(alloc, text)?;
    let read = read_for(alloc, text.as_bytes(), &[one.tree(), other.tree()]);
    match (read, Value::from_str(alloc, text.as_str())) {
        (Ok(reached), Ok(document)) => {
            selected(alloc, &one, &document, &reached)?;
            selected(alloc, &other, &document, &reached)?;
            Ok(reached.to_string(alloc)?)
        }
        (Err(e), Err(other)) => {
            alike(e.to_string(alloc)?, other.to_string(alloc)?)?;
            Ok(String::from_str(alloc, "refused")?)
        }
        _ => Err(Fail::new("one of the readings is refused")),
    }
}

#[test]
fn reads_what_is_reached(rt: HostRuntime) -> Result<(), Fail> {
    hold_rows(&rt, ROWS, reached)
}

/// A path, a document, and what is read of it where places are enough.
const PLACES: &[&str] = &[
    r#"$ ~ {"a":1} -> null"#,
    r#"$.a ~ {"a":{"b":1},"b":2} -> {"a":null}"#,
    "$[*] ~ [1,[2],{}] -> [null,null,null]",
    "$[1] ~ [1,[2],3] -> [null,null,null]",
    r#"$..* ~ [1,[2,{"a":[]}]] -> [null,[null,{"a":null}]]"#,
    r#"$..a ~ {"a":{"a":1,"b":2},"c":[{"a":3}]} -> {"a":{"a":null},"c":[{"a":null}]}"#,
    r#"$.a ~ {"a":1,"b":2,"a":{"c":3}} -> {"a":null}"#,
    r#"$.a.b ~ {"a":{"b":1},"a":2} -> {"a":null}"#,
    // What filters ask keeps its value.
    r#"$[?@.p < 2] ~ [{"p":1,"t":2},{"p":3},4] -> [{"p":1},{"p":3},null]"#,
    r#"$[?@.p == $[0]].q ~ [5,{"p":5,"q":{"r":1}}] -> [5,{"p":5,"q":null}]"#,
    r#"$[?count(@..a) == 1] ~ [{"b":{"a":1}},2] -> [{"b":{"a":1}},null]"#,
    r#"$[?@.a] ~ {"k":{"a":[1,2],"b":3},"l":4} -> {"k":{"a":[1,2]},"l":null}"#,
];

/// What is read of a document where the places of a path's nodes are enough, as a text. Fails where the path does not select
/// at the same locations of the whole document.
fn places(alloc: Global, row: &str) -> Came {
    let (path, text) = fields(row)?;
    let path = JsonPath::parse(alloc, path)?;
    let text = long(alloc, text)?;
    let document = Value::from_str(alloc, text.as_str())?;
    let paths = [path.tree()];
    let reached = DocumentReader::of_places(alloc, &paths)?.read(alloc, text.as_bytes())?;
    alike(
        locations(alloc, &path.query_located(alloc, &document)?)?,
        locations(alloc, &path.query_located(alloc, &reached)?)?,
    )?;
    Ok(reached.to_string(alloc)?)
}

#[test]
fn keeps_the_places_that_are_reached(rt: HostRuntime) -> Result<(), Fail> {
    hold_rows(&rt, PLACES, places)
}

/// Documents that one reader reads after another, and what it reads of them for `$.a`.
const IN_TURN: &[&str] = &[
    r#"{"a":1,"b":2} -> {"a":1}"#,
    r#"{"b":[1]} -> null"#,
    r#"{"a":"\n","b":2} -> {"a":"\n"}"#,
    r#"[{"a":1}] -> null"#,
];

#[test]
fn one_reader_serves_many_documents(rt: HostRuntime) -> Result<(), Fail> {
    let alloc = rt.alloc();
    let path = JsonPath::parse(alloc, "$.a")?;
    let paths = [path.tree()];
    let reader = DocumentReader::new(alloc, &paths)?;
    for row in IN_TURN {
        let Some((text, wanted)) = row.split_once(" -> ") else {
            return Err(Fail::new("a row has no arrow"));
        };
        let read = reader.read(alloc, long(alloc, text)?.as_bytes())?;
        holds(
            read.to_string(alloc)?.as_str() == wanted,
            "a later document is read otherwise",
        )?;
    }
    Ok(())
}

/// As many levels as a document may have below an array.
const LEVELS: usize = 126;

/// An array with a part that is passed over, and which nests.
const PASSED: Nesting<'static> = ("[0,", "[", "", "]", "]");

/// A path with more segments than a plan has bits, and a document that it reaches.
const STEPS: Nesting<'static> = ("$", ".a", "", "", "");

const BELOW: Nesting<'static> = ("", r#"{"b":0,"a":"#, "1", "}", "");

#[test]
fn reads_long_paths_and_deep_documents(rt: HostRuntime) -> Result<(), Fail> {
    let alloc = rt.alloc();
    let path = JsonPath::parse(alloc, "$[0]")?;
    let deepest = long(alloc, nested(alloc, PASSED, LEVELS)?.as_str())?;
    let read = read_for(alloc, deepest.as_bytes(), &[path.tree()]);
    holds(read.is_ok(), "a document is refused that is not too deep")?;
    let too_deep = long(alloc, nested(alloc, PASSED, LEVELS + 1)?.as_str())?;
    let read = read_for(alloc, too_deep.as_bytes(), &[path.tree()]);
    holds(read.is_err(), "a document is read that is too deep")?;
    let path = JsonPath::parse(alloc, nested(alloc, STEPS, 100)?.as_str())?;
    let text = long(alloc, nested(alloc, BELOW, 100)?.as_str())?;
    let reached = read_for(alloc, text.as_bytes(), &[path.tree()])?;
    let nodes = path.query(alloc, &reached)?;
    holds(
        nodes.len() == 1,
        "a long path does not select from what it reaches",
    )
}
