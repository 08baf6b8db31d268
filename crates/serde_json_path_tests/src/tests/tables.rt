//! The tables of rows, and what comes of their rows.

use crate::tests::cuts::cut;
use crate::tests::printed::reads_back;
use crate::tests::rows::{selected, told};
use crate::tests::{
    blanks, bookstore, calls, comparisons, descendants, filter_refusals, filters, literals, names,
    numbers, operators, refusals, slices, strings, words,
};
use serde_json_path::JsonPath;
use serde_json_path::functions::{Builtin, Functions};
use std::alloc::Global;
use std::test::Fail;
use test_rows::{BOOKSTORE, Came, Table, hold_rows};

/// What a path selects from a document under a set. The path's text is cut at each character, and what it prints reads back.
fn of_path<F: Functions>(alloc: Global, functions: &F, row: (&str, &str)) -> Came {
    cut(alloc, functions, row.0)?;
    reads_back(alloc, functions, row.0)?;
    selected(alloc, functions, row)
}

/// What the parse of a text answers under a set. The text is cut at each character.
pub(crate) fn of_text<F: Functions>(alloc: Global, functions: &F, text: &str) -> Came {
    cut(alloc, functions, text)?;
    told(alloc, JsonPath::parse_with(alloc, text, functions))
}

/// What comes of a row under a set: what a path selects from a document, or else how a text is refused.
pub(crate) fn of_row<F: Functions>(alloc: Global, functions: &F, row: &str) -> Came {
    match row.split_once(" ~ ") {
        Some(row) => of_path(alloc, functions, row),
        None => of_text(alloc, functions, row),
    }
}

/// Holds the rows of a table under the built-in functions.
fn hold(rt: &(impl Eprint + AllocGlobal), rows: &[&str]) -> Result<(), Fail> {
    hold_rows(rt, rows, |alloc, row| of_row(alloc, &Builtin, row))
}

#[test]
fn selects_by_names_and_indexes(rt: HostRuntime) -> Result<(), Fail> {
    hold(&rt, names::ROWS)?;
    hold(&rt, slices::ROWS)?;
    hold(&rt, descendants::ROWS)?;
    hold(&rt, blanks::ROWS)
}

#[test]
fn selects_by_filters(rt: HostRuntime) -> Result<(), Fail> {
    hold(&rt, filters::ROWS)?;
    hold(&rt, comparisons::ROWS)?;
    hold(&rt, calls::ROWS)
}

#[test]
fn takes_literals_and_operators(rt: HostRuntime) -> Result<(), Fail> {
    hold(&rt, literals::ROWS)?;
    hold(&rt, strings::ROWS)?;
    hold(&rt, numbers::ROWS)?;
    hold(&rt, words::ROWS)?;
    hold(&rt, operators::ROWS)
}

#[test]
fn refuses_texts(rt: HostRuntime) -> Result<(), Fail> {
    hold(&rt, refusals::ROWS)?;
    hold(&rt, filter_refusals::ROWS)
}

/// A document, and the table of its paths.
const DOCUMENTS: &[(&str, &[&str])] = &[
    (BOOKSTORE, bookstore::BOOKS),
    (filters::EXAMPLE, filters::EXAMPLES),
    (filters::ITEMS, filters::OF_ITEMS),
    (filters::MEMBERS, filters::OF_MEMBERS),
    (filters::CHOICES, filters::OF_CHOICES),
    (filters::NESTED, filters::OF_NESTED),
    (comparisons::EXAMPLE, comparisons::EXAMPLES),
    (calls::NAMES, calls::OF_NAMES),
];

#[test]
fn selects_from_documents(rt: HostRuntime) -> Result<(), Fail> {
    let mut table = Table::new(&rt);
    for &(document, rows) in DOCUMENTS {
        table.hold_each(document, rows, |alloc, path| {
            of_path(alloc, &Builtin, (path, document))
        });
    }
    table.end()
}
