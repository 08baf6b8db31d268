//! Long texts, of paths and of documents.

use crate::tests::nesting::{CALLS, COMPARED, FILTERS, PARENTHESES};
use crate::tests::rows::{count, parsed, selected, told};
use serde_json_path::functions::Builtin;
use serde_json_path::{JsonPath, Numbers, PathSource, TextSource, parse_source};
use std::alloc::Global;
use std::test::Fail;
use test_rows::{
    Came, Nesting, alike, fields, hold_nested, hold_row, hold_rows, holds, long, nested,
};

/// What is long, how often it stands there, and what the parse of that text answers. The texts are cut, too.
pub(crate) const CUT: &[(Nesting<'static>, usize, &str)] = &[
    (("$[", "9", "]", "", ""), 10_000, "IntegerOutOfRange 3"),
    (("$[?@ == ", "9", "]", "", ""), 10_000, "NumberOutOfRange 9"),
    (("$", " ", "x", "", ""), 10_000, "TextAfterPath 2"),
];

// Digits after a point, and calls, one after the other.
const FRACTION: Nesting<'static> = ("$[?@ == 0.", "0", "]", "", "");

const SEVERAL: Nesting<'static> = ("$[?count(@) == 1", " || count(@) == 1", "]", "", "");

/// The same, of texts of which the nesting of the last three ends and is not counted.
const LONG: &[(Nesting<'static>, usize, &str)] = &[
    (FRACTION, 10_000, "FractionTooLong 9"),
    (("$[?(@)", " && (@)", "]", "", ""), 200, "accepted"),
    (SEVERAL, 200, "accepted"),
    (("$", "[?@]", "", "", ""), 200, "accepted"),
];

#[test]
fn parses_long_texts(rt: HostRuntime) -> Result<(), Fail> {
    hold_nested(&rt, CUT, parsed)?;
    hold_nested(&rt, LONG, parsed)
}

/// What a path, which prints itself, selects from a document.
fn of_path(alloc: Global, path: &str, document: &str) -> Came {
    let printed = JsonPath::parse(alloc, path)?.to_text(alloc)?;
    holds(printed.as_str() == path, "the path prints otherwise")?;
    selected(alloc, &Builtin, (path, document))
}

#[test]
fn selects_deep_nodes(rt: HostRuntime) -> Result<(), Fail> {
    let document = nested(rt.alloc(), ("", "[", "0", "]", ""), 20)?;
    let path = long(rt.alloc(), "$", "[0]", 20, "")?;
    let wanted = long(rt.alloc(), "$", "[0]", 20, " ~ 0")?;
    let came = of_path(rt.alloc(), path.as_str(), document.as_str());
    hold_row(&rt, ("a deep node", path.as_str(), wanted.as_str()), came)
}

/// Texts of which a thousand make a long name, each as it is in quotes of a path, and as it is in JSON.
const REPEATED: &[&str] = &[
    "a ~ a -> selected",
    "é ~ é -> selected",
    r"\' ~ ' -> selected",
    r#"\n ~ \n -> selected"#,
    r#"" ~ \" -> selected"#,
    "😀 ~ 😀 -> selected",
];

/// Selects the member of a name of a thousand such texts, and the item that is equal to a literal of a thousand.
fn of_repeated(alloc: Global, given: &str) -> Came {
    let (in_path, in_json) = fields(given)?;
    let path = long(alloc, "$['", in_path, 1000, "']")?;
    let document = long(alloc, "{\"", in_json, 1000, "\":1}")?;
    let wanted = long(alloc, "$['", in_path, 1000, "'] ~ 1")?;
    alike(of_path(alloc, path.as_str(), document.as_str())?, wanted)?;
    let path = long(alloc, "$[?@ == '", in_path, 1000, "']")?;
    let document = long(alloc, "[0,\"", in_json, 1000, "\"]")?;
    let wanted = long(alloc, "$[1] ~ \"", in_json, 1000, "\"")?;
    alike(of_path(alloc, path.as_str(), document.as_str())?, wanted)?;
    Ok(String::from_str(alloc, "selected")?)
}

#[test]
fn selects_by_long_names_and_literals(rt: HostRuntime) -> Result<(), Fail> {
    hold_rows(&rt, REPEATED, of_repeated)
}

#[test]
fn counts_a_thousand_items(rt: HostRuntime) -> Result<(), Fail> {
    let zeros = long(rt.alloc(), "[0", ",0", 999, "]")?;
    let came = count(rt.alloc(), "$..*", zeros.as_str());
    hold_row(&rt, ("a thousand zeros", "$..*", "1000"), came)
}

/// What a parse answers, and the length of its text. Fails where it looks at a byte twice.
fn of_looks(alloc: Global, text: &str) -> Came {
    let mut source = TextSource::new(text);
    let told = told(
        alloc,
        parse_source(alloc, &mut source, &Builtin, Numbers::Whole),
    )?;
    holds(source.looks() <= source.len() as u128, "looks twice")?;
    Ok(format!(in alloc; "{told}, {} bytes", source.len())?)
}

/// What nests, how often, what the parse of that text answers, and the length of the text.
const LOOKED: &[(Nesting<'static>, usize, &str)] = &[
    (("", "", "", "", ""), 0, "ExpectedRoot 1, 0 bytes"),
    (("$.", "a", "", "", ""), 1000, "accepted, 1002 bytes"),
    (PARENTHESES, 127, "accepted, 259 bytes"),
    (FILTERS, 128, "accepted, 513 bytes"),
    (COMPARED, 127, "NonSingularQuery 4, 518 bytes"),
    (CALLS, 127, "accepted, 1026 bytes"),
];

#[test]
fn looks_at_texts(rt: HostRuntime) -> Result<(), Fail> {
    hold_nested(&rt, LOOKED, of_looks)
}

/// After how many members of a document its patterns come again, and how many members match theirs.
const CYCLES: &[&str] = &["1 -> 300", "2 -> 300", "12 -> 300", "300 -> 300"];

/// How many of 300 members match their pattern, where these come again after so many members, and not the next pattern.
fn of_cycle(alloc: Global, cycle: &str) -> Came {
    let cycle = cycle.parse::<usize>()?;
    let mut document = String::from_str(alloc, "[")?;
    for member in 0..300usize {
        let before = if member == 0 { "" } else { "," };
        let number = if cycle == 0 { 0 } else { member % cycle };
        write!(
            document,
            r#"{before}["n{number}","n{number}","n{number}x"]"#
        )?;
    }
    document.push(']')?;
    let path = "$[?match(@[0], @[1]) && !search(@[0], @[2])]";
    count(alloc, path, document.as_str())
}

#[test]
fn patterns_come_again(rt: HostRuntime) -> Result<(), Fail> {
    hold_rows(&rt, CYCLES, of_cycle)
}
