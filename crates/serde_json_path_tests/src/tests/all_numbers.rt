//! Comparisons that take all numbers, beside those that take whole numbers alone.

use crate::tests::rows::{parsed, read_with, told};
use serde_json::Value;
use serde_json_path::functions::{Builtin, Functions};
use serde_json_path::{JsonPath, Numbers};
use std::alloc::Global;
use std::test::Fail;
use test_rows::{BOOKSTORE, Came, Own, fields, hold_row, hold_rows, holds, locations};

/// The locations of what a path selects from a document under a set, where comparisons take numbers by a rule. A copy of the
/// path keeps that, and is equal to it.
fn located<F: Functions>(
    alloc: Global,
    functions: &F,
    numbers: Numbers,
    row: (&str, &str),
) -> Came {
    let (path, document) = read_with(alloc, functions, row)?;
    let copy = path.with_numbers(numbers).try_clone(alloc)?;
    holds(copy.numbers() == numbers, "another rule")?;
    holds(
        copy == JsonPath::parse_with(alloc, row.0, functions)?,
        "another path",
    )?;
    let nodes = copy.query_located_with(alloc, &document, functions)?;
    locations(alloc, &nodes)
}

/// The same under the built-in functions by all numbers, and by whole numbers.
fn by_both_rules(alloc: Global, row: (&str, &str)) -> Came {
    let all = located(alloc, &Builtin, Numbers::All, row)?;
    let whole = located(alloc, &Builtin, Numbers::Whole, row)?;
    Ok(format!(in alloc; "{all} ~ {whole}")?)
}

/// A path, and what it selects from [`BOOKSTORE`] by all numbers, and by whole numbers.
const BOOKS: &[&str] = &[
    "$..book[?@.price < 10].title -> $['store']['book'][0]['title'] $['store']['book'][2]['title'] ~ ",
    "$..book[?@.price == 8.95] -> $['store']['book'][0] ~ ",
    "$..book[?@.price < 8.95] ->  ~ ",
    "$..book[?@.price <= 8.95] -> $['store']['book'][0] ~ ",
    "$..book[?@.price != 8.95] -> $['store']['book'][1] $['store']['book'][2] $['store']['book'][3] ~ $['store']['book'][0] $['store']['book'][1] $['store']['book'][2] $['store']['book'][3]",
    "$..book[?@.price > 8.95 && @.price < 13] -> $['store']['book'][1] $['store']['book'][2] ~ ",
];

/// A path, a document, and what the path selects there by all numbers, and by whole numbers.
const ROWS: &[&str] = &[
    r#"$[?@ == 4] ~ [4,4.0,4e0,40e-1,"4"] -> $[0] $[1] $[2] $[3] ~ $[0]"#,
    r#"$[?@ == 4.0] ~ [4,4.0,4e0,40e-1,"4"] -> $[0] $[1] $[2] $[3] ~ $[0]"#,
    "$[?@ == 100] ~ [1e2,100] -> $[0] $[1] ~ $[1]",
    "$[?@ == 9007199254740993] ~ [9007199254740993,9007199254740992.0,9007199254740993.0] -> $[0] ~ $[0]",
    "$[?@ == 9007199254740992] ~ [9007199254740993,9007199254740992.0,9007199254740993.0] -> $[1] $[2] ~ ",
    "$[?@ > $[1]] ~ [9007199254740993,9007199254740992.0] -> $[0] ~ ",
    "$[?@ < @] ~ [18446744073709551615,18446744073709551615.0] ->  ~ ",
    "$[?@ == 18446744073709551615] ~ [18446744073709551615,18446744073709551615.0] -> $[0] ~ $[0]",
    "$[?@ > 18446744073709551615] ~ [18446744073709551615,18446744073709551615.0] -> $[1] ~ ",
    "$[?@ == 0] ~ [-0.0,0,0.0] -> $[0] $[1] $[2] ~ $[1]",
    "$[?@ == -0.0] ~ [-0.0,0,0.0] -> $[0] $[1] $[2] ~ $[1]",
    "$[?@ < 0] ~ [-0.0,0,0.0] ->  ~ ",
    "$[?@ > 0] ~ [5e-324,1e308,-1e308] -> $[0] $[1] ~ ",
    "$[?@ < 0.000000001] ~ [5e-324,1e308,-1e308] -> $[0] $[2] ~ ",
    "$[?@ >= 18446744073709551615] ~ [5e-324,1e308,-1e308] -> $[1] ~ ",
    r#"$[?@ == @] ~ [1,1.5,[1.5],{"a":1.5}] -> $[0] $[1] $[2] $[3] ~ $[0]"#,
    r#"$[?@ == $[0]] ~ [[1.0,{"a":2}],[1,{"a":2.0}]] -> $[0] $[1] ~ "#,
    r#"$[?@ == $[0]] ~ [{"a":1.0,"b":[2]},{"a":1,"b":[2.0]},{"a":1}] -> $[0] $[1] ~ "#,
    "$[?@ == 0.1] ~ [0.1,0.10,0.2] -> $[0] $[1] ~ ",
    "$[?@ < 1.5] ~ [1,1.5,2] -> $[0] ~ $[0]",
    "$[?0.1 == 0.10 && 1.5 > 1 && 2 >= 2.0] ~ [0] -> $[0] ~ $[0]",
    r#"$[?@.a == 1.5 || @.b < 2.5] ~ [{"a":1.5},{"b":2.25},{"b":3}] -> $[0] $[1] ~ "#,
    r#"$[?value(@.a) == 1.5] ~ [{"a":1.5},{"a":2}] -> $[0] ~ "#,
    r#"$[?value(@.a) < value(@.b)] ~ [{"a":1.5,"b":2},{"a":2,"b":1.5}] -> $[0] ~ "#,
    r#"$[?length(@) == 2.0] ~ ["ab","a"] -> $[0] ~ $[0]"#,
    r#"$[?@ < 'b'] ~ ["a","c",1.5] -> $[0] ~ $[0]"#,
];

#[test]
fn compares_all_numbers_where_the_path_says_so(rt: HostRuntime) -> Result<(), Fail> {
    hold_rows(
        &rt,
        BOOKS,
        |alloc, path| by_both_rules(alloc, (path, BOOKSTORE)),
    )?;
    hold_rows(&rt, ROWS, |alloc, row| by_both_rules(alloc, fields(row)?))
}

#[test]
fn takes_numbers_by_the_path_under_each_set(rt: HostRuntime) -> Result<(), Fail> {
    let (alloc, own) = (rt.alloc(), Own::refusing(0));
    let (path, document) = ("$[?none() == none() && @ == 1.5]", "[1.5]");
    for (numbers, found) in [(Numbers::All, "$[0]"), (Numbers::Whole, "")] {
        let given = located(alloc, &own, numbers, (path, document));
        hold_row(&rt, (document, path, found), given)?;
    }
    Ok(())
}

/// A path that calls with a number, and what it is by all numbers, and by whole numbers.
const ARGUMENTS: &[&str] = &[
    "$[?length(1.5) == 1] -> accepted ~ WrongArgumentType 11",
    "$[?match(-0.000000001, 'a')] -> accepted ~ WrongArgumentType 10",
    "$[?@.a == 1.5 && search('a', 0.1)] -> accepted ~ WrongArgumentType 30",
    "$[?length(4.0) == 1] -> accepted ~ accepted",
    "$[?count(1.5) == 1] -> WrongArgumentType 10 ~ WrongArgumentType 10",
];

#[test]
fn takes_any_literal_as_an_argument_by_all_numbers(rt: HostRuntime) -> Result<(), Fail> {
    hold_rows(&rt, ARGUMENTS, |alloc, text| {
        let all = told(alloc, JsonPath::parse_by(alloc, text, Numbers::All))?;
        Ok(format!(in alloc; "{all} ~ {}", parsed(alloc, text)?)?)
    })
}

/// A path with a number literal, a document, and by all numbers the printed path, which is read back, and what it selects;
/// then how whole numbers refuse it.
const LITERALS: &[&str] = &[
    "$[?@ > 1e6] ~ [1000000,1000001,1e7] -> $[?@ > 1000000] ~ $[1] $[2] ~ ExponentOrEmptyFraction 8",
    "$[?@ == 0.0000000001] ~ [1e-10,0,0.0000000002] -> $[?@ == 1e-10] ~ $[0] ~ FractionTooLong 9",
    "$[?@ == -1.5e+10] ~ [-15000000000,-1.5e10,1.5e10] -> $[?@ == -15000000000] ~ $[0] $[1] ~ ExponentOrEmptyFraction 9",
    "$[?@ < 1E-2] ~ [0.01,0.009999999999999999,0] -> $[?@ < 0.01] ~ $[1] $[2] ~ ExponentOrEmptyFraction 8",
    "$[?@ == 3.141592653589793] ~ [3.141592653589793,3.1415926535897927] -> $[?@ == 3.141592653589793] ~ $[0] ~ FractionTooLong 9",
    "$[?@ == 18446744073709551616] ~ [18446744073709551615,18446744073709551616] -> $[?@ == 18446744073709552e3] ~ $[1] ~ NumberOutOfRange 9",
    "$[?@ == 9007199254740993e0] ~ [9007199254740992,9007199254740993,9007199254740994] -> $[?@ == 9007199254740993] ~ $[1] ~ ExponentOrEmptyFraction 9",
    "$[?@ > 0.1000000000000000055511151231257827] ~ [0.1,0.10000000000000002] -> $[?@ > 0.1] ~ $[1] ~ FractionTooLong 8",
    "$[?@ == 1e-400] ~ [0,5e-324] -> $[?@ == 0] ~ $[0] ~ ExponentOrEmptyFraction 9",
    "$[?1e400 == @] ~ [0] -> NumberOutOfRange 4 ~ ExponentOrEmptyFraction 4",
    "$[?@ == 1.e5] ~ [0] -> ExponentOrEmptyFraction 9 ~ ExponentOrEmptyFraction 9",
    "$[?@ == 1e+] ~ [0] -> ExponentOrEmptyFraction 9 ~ ExponentOrEmptyFraction 9",
    "$[?length(1e-10) == 1] ~ [0] -> $[?length(1e-10) == 1] ~  ~ ExponentOrEmptyFraction 11",
    "$[?1e-10 < 2e-10 && -1e30 < @] ~ [0,-1e31] -> $[?1e-10 < 2e-10 && -1e30 < @] ~ $[0] ~ ExponentOrEmptyFraction 4",
];

/// A path by all numbers: its text, which is read back, and what it selects; or its refusal.
fn printed_and_located(alloc: Global, (text, document): (&str, &str)) -> Came {
    let path = match JsonPath::parse_by(alloc, text, Numbers::All) {
        Ok(path) => path,
        Err(e) => return Ok(format!(in alloc; "{:?} {}", e.kind(), e.position())?),
    };
    let printed = path.to_text(alloc)?;
    let again = JsonPath::parse_by(alloc, printed.as_str(), Numbers::All)?;
    holds(
        again == path && path.try_clone(alloc)? == path,
        "another path",
    )?;
    let document = Value::from_str(alloc, document)?;
    let nodes = path.query_located(alloc, &document)?;
    Ok(format!(in alloc; "{printed} ~ {}", locations(alloc, &nodes)?)?)
}

#[test]
fn reads_any_literal_by_all_numbers(rt: HostRuntime) -> Result<(), Fail> {
    serde_json_path::law_all_numbers_read_more();
    hold_rows(&rt, LITERALS, |alloc, row| {
        let (text, document) = fields(row)?;
        let all = printed_and_located(alloc, (text, document))?;
        Ok(format!(in alloc; "{all} ~ {}", parsed(alloc, text)?)?)
    })
}

#[test]
fn takes_whole_numbers_unless_told(rt: HostRuntime) -> Result<(), Fail> {
    let path = JsonPath::parse(rt.alloc(), "$[?@ == 1.5]")?;
    assert_eq!(rt; path.numbers(), Numbers::Whole);
    let path = path.with_numbers(Numbers::All);
    let again = JsonPath::from_json(rt.alloc(), &path.to_json(rt.alloc())?)?;
    assert!(rt; again == path && again.numbers() == Numbers::Whole);
    assert_eq!(rt; JsonPath::new(rt.alloc()).numbers(), Numbers::Whole);
    let path = JsonPath::parse_by(rt.alloc(), "$", Numbers::All)?;
    assert_eq!(rt; path.numbers(), Numbers::All);
    Ok(())
}
