//! Filters, parentheses and calls within each other (RFC 9535, section 2.3.5.1), of which 128 are taken.

use crate::tests::cuts::cut;
use crate::tests::printed::reads_back;
use crate::tests::rows::parsed;
use serde_json_path::functions::Builtin;
use std::alloc::Global;
use std::test::Fail;
use test_rows::{Came, Nesting, hold_nested, hold_rows, nested};

// What nests: filters, also below one that compares, parentheses, negated ones, and calls.
pub(crate) const FILTERS: Nesting<'static> = ("$", "[?@", "", "]", "");

pub(crate) const COMPARED: Nesting<'static> = ("$", "[?@", "[?@", "]", " == 1]");

pub(crate) const PARENTHESES: Nesting<'static> = ("$[?", "(", "@", ")", "]");

const NEGATED: Nesting<'static> = ("$[?", "!(", "@", ")", "]");

pub(crate) const CALLS: Nesting<'static> = ("$[?", "length(", "@", ")", " == 1]");

/// What nests, how often, and what the parse of that text answers.
const NESTED: &[(Nesting<'static>, usize, &str)] = &[
    (FILTERS, 127, "accepted"),
    (FILTERS, 128, "accepted"),
    (FILTERS, 129, "NestedTooDeep 387"),
    (COMPARED, 127, "NonSingularQuery 4"),
    (PARENTHESES, 126, "accepted"),
    (PARENTHESES, 127, "accepted"),
    (PARENTHESES, 128, "NestedTooDeep 131"),
    (NEGATED, 127, "accepted"),
    (NEGATED, 128, "NestedTooDeep 259"),
    (CALLS, 126, "accepted"),
    (CALLS, 127, "accepted"),
    (CALLS, 128, "NestedTooDeep 893"),
];

/// What the parse of a text answers. A path reads back, and a refused text is cut at each character.
fn of_text(alloc: Global, text: &str) -> Came {
    let told = parsed(alloc, text)?;
    match told.as_str() {
        "accepted" => reads_back(alloc, &Builtin, text)?,
        _ => cut(alloc, &Builtin, text)?,
    }
    Ok(told)
}

#[test]
fn nests(rt: HostRuntime) -> Result<(), Fail> {
    hold_nested(&rt, NESTED, of_text)
}

/// A segment that stands within 126 filters, parentheses and calls in turn, and what the parse of that text answers. Where
/// the segment nests three times more, the third opening comes after the others.
const IN_TURN: &[&str] = &[
    "[?@] -> accepted",
    "[?(@)] -> accepted",
    "[?!(@)] -> accepted",
    "[?count(@) == 1] -> accepted",
    "[?@[?@]] -> accepted",
    "[?((@))] -> NestedTooDeep 425",
    "[?(!(@))] -> NestedTooDeep 426",
    "[?(count(@) == 1)] -> NestedTooDeep 425",
    "[?(none(@))] -> NestedTooDeep 425",
    "[?(@[?@])] -> NestedTooDeep 427",
    "[?@[?(@)]] -> NestedTooDeep 427",
    "[?@[?@[?@]]] -> NestedTooDeep 429",
    "[?count(@[?@]) == 1] -> NestedTooDeep 432",
];

/// What the parse of a text answers, in which the segment stands within the others.
fn within(alloc: Global, segment: &str) -> Came {
    let nesting = ("$", "[?(count(@", segment, ") == 1)]", "");
    let text = nested(alloc, nesting, 42)?;
    parsed(alloc, text.as_str())
}

#[test]
fn nests_all_in_turn(rt: HostRuntime) -> Result<(), Fail> {
    hold_rows(&rt, IN_TURN, within)
}
