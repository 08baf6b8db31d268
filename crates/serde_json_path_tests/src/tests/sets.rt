//! Paths whose filters call functions of other sets.

use crate::tests::rows::{read_with, told};
use crate::tests::tables::of_row;
use crate::tests::walks::of_walk;
use serde_json_path::functions::{Builtin, Functions};
use serde_json_path::{JsonPath, QueryError};
use std::alloc::Global;
use std::test::Fail;
use test_rows::{Came, Nesting, Overriding, Own, hold_nested, hold_row, hold_rows, locations};

/// Paths and documents with what is selected, and texts with their refusals, where filters call [`Own`].
const OWN: &[&str] = &[
    "$[?kids(@.*)] ~ [[],[1]] -> $[1] ~ [1]",
    "$[?!kids(@.*)] ~ [[],[1]] -> $[0] ~ []",
    "$[?kids(kids(@.*))] ~ [[],[1]] -> $[1] ~ [1]",
    "$[?count(kids(@.*)) == 2] ~ [[1,1],[1]] -> $[0] ~ [1,1]",
    r#"$[?length(@) == 2] ~ ["ab"] -> $[0] ~ "ab""#,
    "$[?f()] ~ [1,2] -> $[0] $[1] ~ 1 2",
    "$[?f( )] ~ [1,2] -> $[0] $[1] ~ 1 2",
    "$[?true()] ~ [0] -> $[0] ~ 0",
    "$[?@ == true || true()] ~ [0] -> $[0] ~ 0",
    "$[?eight(1,2,3,4,5,6,7,8)] ~ [0] -> $[0] ~ 0",
    "$[?@.a && refuse()] ~ [{}] -> nothing",
    r#"$[?@.a || refuse()] ~ [{"a":1}] -> $[0] ~ {"a":1}"#,
    r#"$[?both(@.a, @.b > 1)] ~ [{"a":1,"b":2},{"a":1,"b":1},{"b":3}] -> $[0] ~ {"a":1,"b":2}"#,
    r#"$[?none() == @.x] ~ [{},{"x":1}] -> $[0] ~ {}"#,
    r#"$[?both(both(@.a, @.b), !@.c)] ~ [{"a":1,"b":1},{"a":1,"b":1,"c":1}] -> $[0] ~ {"a":1,"b":1}"#,
    r#"$[?both((@.a), @.b || @.c)] ~ [{"a":0,"c":0},{"a":0}] -> $[0] ~ {"a":0,"c":0}"#,
    r#"$[?both(!(@.a), 1 == @.c && @.d)] ~ [{"c":1,"d":0},{"a":0,"c":1,"d":0}] -> $[0] ~ {"c":1,"d":0}"#,
    r#"$[?both(match(@.a, 'x'), @)] ~ [{"a":"x"},{"a":"y"}] -> $[0] ~ {"a":"x"}"#,
    r#"$[?both(length(@) == 1, @.*)] ~ [{"a":0},"a"] -> $[0] ~ {"a":0}"#,
    "$[?first(@.*) == 4] ~ [[1,2,3],[4,5,6],[7,8,9]] -> $[1] ~ [4,5,6]",
    r#"$[?first(@.*) == @.x] ~ [{},{"x":1},{"y":1}] -> $[0] $[1] ~ {} {"x":1}"#,
    "$[?kids(@.*) == 1] -> WrongReturnType 4",
    "$[?1 == kids(@.*)] -> WrongReturnType 9",
    "$[?kids(1)] -> WrongArgumentType 9",
    "$[?length(kids(@.*)) == 1] -> WrongArgumentType 11",
    "$[?true == true()] -> WrongReturnType 12",
    "$[?eight(1,2,3,4,5,6,7,8,9)] -> WrongNumberOfArguments 4",
    "$[?eight(1,2,3,4,5,6,7)] -> WrongNumberOfArguments 4",
    "$[?f(@)] -> WrongNumberOfArguments 4",
    "$[?f() == 1] -> WrongReturnType 4",
    "$[?g()] -> UndefinedFunction 4",
    "$[?true] -> ExpectedComparisonOperator 8",
    "$[?both(true, @)] -> WrongArgumentType 9",
    "$[?both(@.a, none())] -> WrongArgumentType 14",
    "$[?both(@.a && 1, @)] -> ExpectedComparisonOperator 17",
    "$[?both((1), @)] -> ExpectedComparisonOperator 11",
    "$[?both(length(@), @)] -> WrongArgumentType 9",
    "$[?both(length(@) && @, @)] -> WrongReturnType 9",
    "$[?both(@.a)] -> WrongNumberOfArguments 4",
    "$[?both(1 == 1, 1)] -> WrongArgumentType 17",
    "$[?both(!1, @)] -> ExpectedExpression 10",
    "$[?none()] -> WrongReturnType 4",
    "$[?none(@) == 1] -> WrongNumberOfArguments 4",
    "$[?first(@.*)] -> WrongReturnType 4",
    "$[?third(@.*) == 4] -> UndefinedFunction 4",
];

/// Two shelves of books.
const SHELVES: &str = concat!(
    r#"[{"books":[{"author":"Alexandre Dumas","title":"The Three Musketeers","price":14.99},"#,
    r#"{"author":"Leo Tolstoy","title":"War and Peace","price":19.99}]},"#,
    r#"{"books":[{"author":"Charles Dickens","title":"Great Expectations","price":13.99},"#,
    r#"{"author":"Fyodor Dostoevsky","title":"The Brothers Karamazov","price":12.99}]}]"#
);

/// A path that calls [`Own`], and the locations of what it selects from [`SHELVES`].
const OF_SHELVES: &[&str] = &[
    "$[? first(@.books.*.author) == 'Alexandre Dumas'] -> $[0]",
    "$[? length(first(@.books.*.title)) == 18 ] -> $[1]",
];

/// The locations of what a path that calls [`Own`] selects from [`SHELVES`].
fn of_shelves(alloc: Global, path: &str) -> Came {
    let own = Own::refusing(0);
    let (path, document) = read_with(alloc, &own, (path, SHELVES))?;
    locations(alloc, &path.query_located_with(alloc, &document, &own)?)
}

/// Paths and documents with what is selected, and texts with their refusals, where filters call [`Overriding`].
const OTHER: &[&str] = &[
    "$[?length(@.*) == 3] ~ [[1,2],[1]] -> $[0] ~ [1,2]",
    "$[?count(@.*) == 1] ~ [[1,2],[1]] -> $[1] ~ [1]",
    "$[?length(1) == 3] -> WrongArgumentType 11",
];

#[test]
fn calls_functions_of_sets(rt: HostRuntime) -> Result<(), Fail> {
    let own = Own::refusing(0);
    hold_rows(&rt, OWN, |alloc, row| of_row(alloc, &own, row))?;
    hold_rows(&rt, OF_SHELVES, of_shelves)?;
    hold_rows(&rt, OTHER, |alloc, row| of_row(alloc, &Overriding, row))
}

/// A path that gives the first item of a document of two, and is refused at the second, and the document.
const REFUSED: (&str, &str) = ("$[?@.a || refuse()]", r#"[{"a":1},{}]"#);

#[test]
fn refuses_where_a_function_is_refused(rt: HostRuntime) -> Result<(), Fail> {
    let (alloc, own) = (rt.alloc(), Own::refusing(0));
    let (path, document) = read_with(alloc, &own, REFUSED)?;
    let located = path.query_located_with(alloc, &document, &own).err();
    assert!(rt; located == Some(QueryError::Memory));
    let values = path.query_with(alloc, &document, &own).err();
    assert!(rt; values == Some(QueryError::Memory));
    let walked = of_walk(alloc, &own, REFUSED, 4);
    hold_row(&rt, (REFUSED.1, REFUSED.0, "$[0], 3 refused"), walked)
}

/// Whether the path of a text, as it is read under a set, fits the built-in functions, [`Own`] and [`Overriding`].
fn fitting<F: Functions>(alloc: Global, functions: &F, text: &str) -> Came {
    let path = JsonPath::parse_with(alloc, text, functions)?;
    let own = path.fits(&Own::refusing(0));
    let other = path.fits(&Overriding);
    Ok(format!(in alloc; "{}, {own}, {other}", path.fits(&Builtin))?)
}

/// A path, and whether it fits the built-in functions, [`Own`] and [`Overriding`].
const FITTING: &[&str] = &[
    "$.a -> true, true, true",
    "$[?count(@.*) == 3] -> true, true, true",
    "$[?length(@) == 3] -> true, true, false",
];

/// The same where the path is read under [`Own`].
const FIT_OWN: &[&str] = &[
    "$[?kids(@.*)] -> false, true, false",
    "$[?first(@.*) == 4] -> false, true, false",
];

#[test]
fn fits_the_sets_that_declare_its_calls(rt: HostRuntime) -> Result<(), Fail> {
    let own = Own::refusing(0);
    hold_rows(&rt, FITTING, |alloc, text| fitting(alloc, &Builtin, text))?;
    hold_rows(&rt, FIT_OWN, |alloc, text| fitting(alloc, &own, text))?;
    let rows = ["$[?length(@.*) == 3] -> false, false, true"];
    hold_rows(&rt, &rows, |alloc, text| fitting(alloc, &Overriding, text))
}

/// Parentheses around a call, of which an argument that is a logical expression adds no level.
const CALL: Nesting<'static> = ("$[?", "(", "both(@.a && @.b, !@)", ")", "]");

#[test]
fn nests_logical_arguments(rt: HostRuntime) -> Result<(), Fail> {
    let rows = [(CALL, 126, "accepted"), (CALL, 127, "NestedTooDeep 131")];
    hold_nested(&rt, &rows, |alloc, text| {
        told(alloc, JsonPath::parse_with(alloc, text, &Own::refusing(0)))
    })
}
