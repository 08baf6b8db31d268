//! The headline as a program that knows `serde_json_path` alone: for every path text, document and function set.

ghost use Rattle.std.specs.Prelude.{◌≡◌, ◌∷◌, [], Some, IfOk, IsTrue};
ghost use Rattle.serde_json.specs.Data.{Data};
ghost use Rattle.serde_json.specs.View.{view};
ghost use Rattle.serde_json_path_nodes.specs.Location.{at};
ghost use Rattle.serde_json_path_nodes.specs.Views.{located_nodes};
ghost use Rattle.serde_json_path_syntax.specs.Tree.{QueryKind, Segments, SegmentKind, Segment, query, current, segment, no_segments};
ghost use Rattle.serde_json_path_functions.specs.Functions.{Fits};
ghost use Rattle.serde_json_path_functions.specs.Patterns.{before_builtin};
ghost use Rattle.serde_json_path_core.specs.Laws.{AreResultsAt, with_segment};
ghost use Rattle.serde_json_path.specs.Laws.{ArePositionsWritten};
ghost use Rattle.serde_json_path.specs.Paths.{path_rule, path_signatures, path_tree, with_rule_of};

use crate::tests::rows::count;
use serde_json::Value;
use serde_json_path::functions::{Builtin, Functions};
use serde_json_path::{
    JsonPath, LocatedNodeList, NormalizedPath, ParseErrorKind, PathElement, QueryError, law_append,
    law_locations_are_proper, law_normal, law_print, law_result_is_unique,
};
use std::alloc::Global;
use std::test::Fail;
use test_rows::{Came, fields, hold_row, hold_rows, holds, located};

/// The greatest index that a path can write: 2^53 - 1.
const LARGEST_INDEX: usize = 9_007_199_254_740_991;

/// Whether a path can write each index of a location.
fn can_be_written(location: &NormalizedPath<'_>) -> bool
    ensures { IsTrue result → ArePositionsWritten location.now }
{
    for step in location.iter() {
        match step {
            PathElement::Name(_) => {}
            PathElement::Index(position) => {
                if position > LARGEST_INDEX {
                    return false;
                }
            }
        }
    }
    true
}

/// What the normalised path of a location selects: the node at the location alone. Nothing but memory is refused.
pub(crate) fn find_again<'b, F: Functions>(
    alloc: Global,
    location: &NormalizedPath<'_>,
    document: &'b Value,
    functions: &F,
) -> Result<LocatedNodeList<'b>, Fail>
    requires there { (v : Data) × (at (view document.now) location.now ≡ Some v) }
    requires written { ArePositionsWritten location.now }
    ensures { IfOk result (λ list. (v : Data) → at (view document.now) location.now ≡ Some v
        → located_nodes list ≡ record { location = location.now; value = v } ∷ []) }
{
    law_locations_are_proper();
    law_normal();
    law_result_is_unique();
    let text = location.to_text(alloc)?;
    let path = match JsonPath::parse_with(alloc, text.as_str(), functions) {
        Ok(path) => path,
        Err(e) => match e.kind() {
            ParseErrorKind::NoMemory => return Err(Fail::new(format_args!("{e}"))),
            _ => unreachable!(),
        },
    };
    match path.query_located_with(alloc, document, functions) {
        Ok(nodes) => Ok(nodes),
        Err(QueryError::Memory) => Err(Fail::new(format_args!("no memory"))),
        Err(QueryError::Pattern) => unreachable!(),
    }
}

/// Whether each node that a path selects is found again, alone, by the normalised path that its location prints: always, by the
/// contracts of these calls.
fn lead_back<F: Functions>(
    alloc: Global,
    text: &str,
    document: &Value,
    functions: &F,
) -> Result<bool, Fail>
    ensures { IfOk result IsTrue }
{
    let path = JsonPath::parse_with(alloc, text, functions)?;
    let nodes = path.query_located_with(alloc, document, functions)?;
    for node in nodes.iter() {
        if !can_be_written(node.location()) {
            return Err(Fail::new(format_args!("an index beyond 2^53 - 1")));
        }
        let found = find_again(alloc, node.location(), document, functions)?;
        let again = match found.exactly_one() {
            Ok(again) => again,
            Err(_) => return Ok(false),
        };
        let same = again.location() == node.location();
        if !same {
            return Ok(false);
        }
    }
    Ok(true)
}

/// Whether a path that is parsed, printed and parsed again under one function set is equal to the first: always, by the
/// contracts of these calls. The second parse is refused for nothing but memory.
fn comes_back<F: Functions>(alloc: Global, text: &str, functions: &F) -> Result<bool, Fail>
    ensures { IfOk result IsTrue }
{
    law_print();
    let path = JsonPath::parse_with(alloc, text, functions)?;
    let printed = path.to_text(alloc)?;
    match JsonPath::parse_with(alloc, printed.as_str(), functions) {
        Ok(again) => Ok(again == path),
        Err(e) => match e.kind() {
            ParseErrorKind::NoMemory => Err(Fail::new(format_args!("{e}"))),
            _ => unreachable!(),
        },
    }
}

/// What two paths of one rule for numbers select, of which the second has one more segment: at each node of the first one's
/// list, in order, what that segment selects there.
fn append<'b, F: Functions>(
    alloc: Global,
    shorter: &JsonPath,
    longer: &JsonPath,
    document: &'b Value,
    functions: &F,
) -> Result<(LocatedNodeList<'b>, LocatedNodeList<'b>), QueryError>
    requires shorter_fits { Fits (before_builtin (F.set functions.now))
        (path_signatures shorter.now) }
    requires longer_fits { Fits (before_builtin (F.set functions.now))
        (path_signatures longer.now) }
    requires rule { path_rule longer.now ≡ path_rule shorter.now }
    ensures { IfOk result (λ lists.
        (kind : QueryKind) (segs : Segments) (reach : SegmentKind) (seg : Segment)
        → path_tree shorter.now ≡ query kind segs
        → path_tree longer.now ≡ query kind (with_segment segs reach seg)
        → AreResultsAt (with_rule_of shorter.now (before_builtin (F.set functions.now)))
        (view document.now) (query current (segment reach seg no_segments))
        (located_nodes lists.0) (located_nodes lists.1)) }
{
    law_append();
    let nodes = shorter.query_located_with(alloc, document, functions)?;
    let more = longer.query_located_with(alloc, document, functions)?;
    Ok((nodes, more))
}

/// A path, a document, and how many nodes the path selects from it.
const FOUND: &[&str] = &[
    r#"$ ~ [{"a":7}] -> 1"#,
    "$[1] ~ [null,true] -> 1",
    r#"$..* ~ {"it's":[1,{"\\":2}],"\u0001":[]} -> 5"#,
    r#"$[?@.a == 1 && !match(@.b, 'c.*')]['a','b'] ~ [{"a":1,"b":"d"},{"a":1,"b":"cd"}] -> 2"#,
];

/// How many nodes a path selects. Fails where one of them is not found again, or where the path does not come back.
fn found_again(alloc: Global, given: &str) -> Came {
    let (path, text) = fields(given)?;
    let document = Value::from_str(alloc, text)?;
    holds(lead_back(alloc, path, &document, &Builtin)?, "no way back")?;
    holds(comes_back(alloc, path, &Builtin)?, "another path")?;
    count(alloc, path, text)
}

#[test]
fn leads_back_from_each_node(rt: HostRuntime) -> Result<(), Fail> {
    hold_rows(&rt, FOUND, found_again)
}

#[test]
fn appends_a_segment(rt: HostRuntime) -> Result<(), Fail> {
    let alloc = rt.alloc();
    let text = r#"[{"a":1},{"b":2},{"a":3}]"#;
    let document = Value::from_str(alloc, text)?;
    let shorter = JsonPath::parse_with(alloc, "$[*]", &Builtin)?;
    let longer = JsonPath::parse_with(alloc, "$[*].a", &Builtin)?;
    let (nodes, more) = append(alloc, &shorter, &longer, &document, &Builtin)?;
    let all = r#"$[0] $[1] $[2] ~ {"a":1} {"b":2} {"a":3}"#;
    hold_row(&rt, (text, "$[*]", all), located(alloc, &nodes))?;
    let row = (text, "$[*].a", "$[0]['a'] $[2]['a'] ~ 1 3");
    hold_row(&rt, row, located(alloc, &more))
}
