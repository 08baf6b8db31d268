//! Lists and locations: that calls succeed, and the texts that readers of the RFC expect.

use serde_json::Value;
use serde_json_path_nodes::PathElement::{Index, Name};
use serde_json_path_nodes::{
    LocatedNode, LocatedNodeList, NodeList, NormalizedPath, PathElement, escaped,
    law_texts_tell_locations,
};
use std::alloc::Global;
use std::fmt::Display;
use std::process::Abort;
use std::test::Fail;
use test_rows::{Came, hold_pairs, hold_rows, holds, locations};

/// The steps of a location.
type Steps = &'static [PathElement<'static>];

/// The location that these steps make up.
fn location<'b>(alloc: Global, steps: &[PathElement<'b>]) -> Result<NormalizedPath<'b>, Fail> {
    let mut elements = Vec::new(alloc);
    elements.extend_from_slice(steps)?;
    Ok(NormalizedPath::from_steps(elements))
}

/// The node at each of these positions of an array, in that order.
fn located<'b>(
    alloc: Global,
    node: &'b Value,
    positions: &[usize],
) -> Result<LocatedNodeList<'b>, Fail> {
    let mut nodes = Vec::new(alloc);
    for position in positions {
        let location = location(alloc, &[Index(*position)])?;
        nodes.push(LocatedNode::new(location, node))?;
    }
    Ok(LocatedNodeList::from(nodes))
}

/// A character, and what stands for it in a normalised path.
const ESCAPES: &[(char, &str)] = &[
    ('\'', "\\'"),
    ('\\', "\\\\"),
    ('\u{8}', "\\b"),
    ('\t', "\\t"),
    ('\n', "\\n"),
    ('\u{c}', "\\f"),
    ('\r', "\\r"),
    ('\u{0}', "\\u0000"),
    ('\u{b}', "\\u000b"),
    ('\u{10}', "\\u0010"),
    ('\u{1f}', "\\u001f"),
    (' ', "itself"),
    ('"', "itself"),
    ('/', "itself"),
    ('a', "itself"),
    ('\u{7f}', "itself"),
    ('\u{1f600}', "itself"),
];

/// What stands for a character.
fn escape(alloc: Global, character: char) -> Came {
    Ok(String::from_str(alloc, escaped(character).unwrap_or("itself"))?)
}

#[test]
fn characters_print_as_the_rfc_says(rt: HostRuntime) -> Result<(), Fail> {
    hold_pairs(&rt, ESCAPES, escape)
}

/// A document with names that are escaped.
const NAMED: &str = "{\"a/~\":[1],\"a'b\\\\\\u000b\":2,\"é\":{\"\":3},\"plain é'\\n😀 text\\\\\":4}";

/// Steps, and the normalised path and the JSON pointer of their location, and the number there, if it is one.
const POINTED: &[(Steps, &str)] = &[
    (&[], "$ ~  ~ None"),
    (&[Name("a/~")], "$['a/~'] ~ /a~1~0 ~ None"),
    (&[Name("a/~"), Index(0)], "$['a/~'][0] ~ /a~1~0/0 ~ Some(1)"),
    (&[Name("a'b\\\u{b}")], ESCAPED),
    (&[Name("é"), Name("")], "$['é'][''] ~ /é/ ~ Some(3)"),
    (&[Name("plain é'\n😀 text\\")], PARTLY_ESCAPED),
];

const ESCAPED: &str = "$['a\\'b\\\\\\u000b'] ~ /a'b\\\u{b} ~ Some(2)";

const PARTLY_ESCAPED: &str = "$['plain é\\'\\n😀 text\\\\'] ~ /plain é'\n😀 text\\ ~ Some(4)";

/// The normalised path and the JSON pointer of a location, and the number that [`NAMED`] has there, if it is one.
fn pointed(alloc: Global, steps: Steps) -> Came {
    let document = Value::from_str(alloc, NAMED)?;
    let location = location(alloc, steps)?;
    let pointer = location.to_json_pointer(alloc)?;
    let node = document.pointer(pointer.as_str()).ok_or("no node")?;
    let mut text = String::from_str(alloc, "at ")?;
    location.push_to(&mut text)?;
    let shown = format!(in alloc; "at {location}")?;
    if text != shown || location.to_text(alloc)?.as_str() != &text[3..] {
        return Err(Fail::new("a location has two texts"));
    }
    Ok(format!(in alloc; "{location} ~ {pointer} ~ {:?}", node.as_u64())?)
}

#[test]
fn locations_print_and_point(rt: HostRuntime) -> Result<(), Fail> {
    hold_pairs(&rt, POINTED, pointed)
}

/// Two steps.
const STEPS: Steps = &[Name("a"), Index(7)];

#[test]
fn locations_are_lists_of_steps(rt: HostRuntime) -> Result<(), Fail> {
    let location = location(rt.alloc(), STEPS)?;
    assert!(rt; location.len() == 2 && !location.is_empty() && location.iter().len() == 2);
    assert!(rt; location.get(1) == Some(STEPS[1]) && location.get(2).is_none());
    assert!(rt; location.iter().eq(STEPS.iter().copied()));
    Ok(())
}

/// Steps of two locations, and whether these are equal.
const COMPARED: &[((Steps, Steps), &str)] = &[
    ((STEPS, STEPS), "true"),
    ((STEPS, &[Name("a")]), "false"),
    ((&[Name("a")], &[Index(7)]), "false"),
    ((&[Name("a"), Index(7)], &[Name("b"), Index(7)]), "false"),
];

/// Whether the locations of two lists of steps are equal.
fn equality(alloc: Global, (one, other): (Steps, Steps)) -> Came {
    law_texts_tell_locations();
    Ok(format!(in alloc; "{}", location(alloc, one)? == location(alloc, other)?)?)
}

#[test]
fn locations_are_equal_by_their_steps(rt: HostRuntime) -> Result<(), Fail> {
    hold_pairs(&rt, COMPARED, equality)
}

/// Positions, and the locations that are left of them.
const REPEATED: &[(&[usize], &str)] = &[
    (&[], ""),
    (&[4, 4], "$[4]"),
    (&[1, 0, 1, 0], "$[1] $[0]"),
    (&[2, 1, 2, 3, 1, 0], "$[2] $[1] $[3] $[0]"),
];

/// The locations at positions, each once.
fn once(alloc: Global, positions: &[usize]) -> Came {
    locations(alloc, &located(alloc, &Value::Null, positions)?.dedup())
}

#[test]
fn repeated_locations_leave_their_first_place(rt: HostRuntime) -> Result<(), Fail> {
    hold_pairs(&rt, REPEATED, once)
}

/// Whether a list has so many nodes, by each call that tells of their number.
fn has(list: &NodeList<'_>, count: usize) -> bool {
    list.len() == count
        && list.iter().count() == count
        && list.is_empty() == (count == 0)
        && list.first().is_some() == (count > 0)
}

/// What a list answers where one node is expected, or one at most.
fn found<E: Display + Drop>(alloc: Global, answer: Result<Option<&Value>, E>) -> Came {
    match answer {
        Ok(None) => Ok(String::from_str(alloc, "none")?),
        Ok(Some(_)) => Ok(String::from_str(alloc, "one")?),
        Err(error) => Ok(format!(in alloc; "{error}")?),
    }
}

/// A number of nodes, and what the list answers where at most one is expected, and where one is.
const COUNTED: &[&str] = &[
    "0 -> none; one node expected, found none",
    "1 -> one; one",
    "2 -> at most one node expected, found 2; one node expected, found 2",
];

/// What a list of so many nodes answers. Fails where it tells another number.
fn answered(alloc: Global, count: &str) -> Came {
    let (count, node) = (count.parse::<usize>()?, Value::Null);
    let mut nodes = Vec::new(alloc);
    for _ in 0..count {
        nodes.push(&node)?;
    }
    let list = NodeList::from(nodes);
    let most = found(alloc, list.at_most_one())?;
    let one = found(alloc, list.exactly_one().map(Some))?;
    holds(has(&list, count), "another number")?;
    holds(list.all().len() == count, "another number of all")?;
    Ok(format!(in alloc; "{most}; {one}")?)
}

#[test]
fn lists_answer_by_their_length(rt: HostRuntime) -> Result<(), Fail> {
    hold_rows(&rt, COUNTED, answered)
}

/// Holds a list to two pairs of null and a location of one step.
fn are_pairs(rt: &impl Abort, list: &LocatedNodeList<'_>) {
    assert!(rt; list.len() == 2 && !list.is_empty() && list.iter().len() == 2);
    assert!(rt; list.nodes().len() == 2 && list.locations().len() == 2);
    assert!(rt; list.nodes().all(|node| node.is_null()));
    for pair in list.iter() {
        assert!(rt; pair.node().is_null() && pair.location().len() == 1);
    }
}

#[test]
fn located_lists_answer_as_lists_of_pairs(rt: HostRuntime) -> Result<(), Fail> {
    let node = Value::Null;
    let list = located(rt.alloc(), &node, &[5, 6])?;
    are_pairs(&rt, &list);
    assert!(rt; locations(rt.alloc(), &list)?.as_str() == "$[5] $[6]");
    assert!(rt; list.all().len() == 2);
    Ok(())
}

/// Positions, and why a list of the nodes there is not exactly one node, and not one at most.
const LOCATED: &[(&[usize], &str)] = &[
    (&[], "Some(Empty), None"),
    (&[5], "None, None"),
    (&[5, 6], "Some(MoreThanOne(2)), Some(AtMostOneError(2))"),
];

/// Why a list of the nodes at positions is not exactly one node, and not one at most.
fn refused(alloc: Global, positions: &[usize]) -> Came {
    let node = Value::Null;
    let one = located(alloc, &node, positions)?.exactly_one().err();
    let most = located(alloc, &node, positions)?.at_most_one().err();
    Ok(format!(in alloc; "{one:?}, {most:?}")?)
}

#[test]
fn located_lists_answer_by_their_length(rt: HostRuntime) -> Result<(), Fail> {
    hold_pairs(&rt, LOCATED, refused)
}
