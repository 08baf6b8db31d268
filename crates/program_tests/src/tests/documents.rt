//! Documents that are refused: where, and why.

use jsonpath_document::read_document;
use std::alloc::Global;
use std::test::Fail;
use test_rows::{Came, Nesting, hold_nested, hold_pairs, hold_rows};

/// A text that is no document, and what is told of it.
const REFUSED: &[&str] = &[
    "\u{feff}{} -> line 1, column 1: a byte order mark, which JSON does not begin with",
    "{\n  // first\n} -> line 2, column 3: a comment, which JSON does not have",
    "[1, /* one */ 2] -> line 1, column 5: a comment, which JSON does not have",
    "# first\n{} -> line 1, column 1: a comment, which JSON does not have",
    "{}\n// last -> line 2, column 1: a comment, which JSON does not have",
    "{\"a\":1}\n{\"a\":2}\n -> line 2, column 1: a second document (is it NDJSON? use -L)",
    "1 2 -> line 1, column 3: a second document (is it NDJSON? use -L)",
    r#""[" "a" -> line 1, column 5: a second document (is it NDJSON? use -L)"#,
    " -> line 1, column 1: no document, the input is empty",
    " \t\r\n  -> line 2, column 2: no document, the input is empty",
    "{'a':1} -> line 1, column 2: a single quote, where JSON has double quotes",
    r#"{"é":'x'} -> line 1, column 6: a single quote, where JSON has double quotes"#,
    "[NaN] -> line 1, column 2: NaN or Infinity, which JSON does not have",
    r#"{"a": -Infinity} -> line 1, column 7: NaN or Infinity, which JSON does not have"#,
    "[1,] -> line 1, column 3: a comma with nothing after it",
    "{\"a\":1,\n} -> line 1, column 7: a comma with nothing after it",
    "1e400 -> line 1, column 1: a number that is too large",
    "[1, -1e400] -> line 1, column 5: a number that is too large",
    r#"{"a": [1, 2 -> line 1, column 12: the document ends too soon"#,
    "[\"abc\",\n -> line 2, column 1: the document ends too soon",
    r#"["abc -> line 1, column 6: the document ends too soon"#,
    r#"{"a":1}} -> line 1, column 8: not JSON"#,
    "[,] -> line 1, column 2: not JSON",
];

/// A text with a fault in a string, and what is told of it.
const IN_STRINGS: &[&str] = &[
    "[\"a\nb\"] -> line 1, column 4: a control character in a string, where JSON has an escape as \\t",
    "{\"é\tb\":1} -> line 1, column 4: a control character in a string, where JSON has an escape as \\t",
    "{\"a\": 1, \"b\": \"c\u{1}\", \"d\": \"\u{2}\"} -> line 1, column 17: a control character in a string, where JSON has an escape as \\t",
    r#"["\x"] -> line 1, column 3: a backslash that begins no escape of JSON"#,
    r#"["a\\", "\"\u12G4"] -> line 1, column 12: a backslash that begins no escape of JSON"#,
    r#"{"\n\'":1} -> line 1, column 5: a backslash that begins no escape of JSON"#,
    r#"["\ud83d\ude00\ud83d\udeGG"] -> line 1, column 21: a backslash that begins no escape of JSON"#,
    r#""\ud800" -> line 1, column 2: an escape of half a pair of surrogates"#,
    r#"["\uD83D\uDE00\udc00"] -> line 1, column 15: an escape of half a pair of surrogates"#,
    r#"["\ud83d\n"] -> line 1, column 3: an escape of half a pair of surrogates"#,
    r#"["\ud83d\\ude00"] -> line 1, column 3: an escape of half a pair of surrogates"#,
];

/// A text that lacks a comma, a colon or quotes, and what is told of it.
const LACKING: &[&str] = &[
    "[1 2] -> line 1, column 4: a comma is missing before this",
    r#"{"a":1 "b":2} -> line 1, column 8: a comma is missing before this"#,
    "{\"a\":\"x\"\n\"b\":2} -> line 2, column 1: a comma is missing before this",
    r#"[["a"] "b"] -> line 1, column 8: a comma is missing before this"#,
    r#"{"a":{"b":1} c:2} -> line 1, column 14: a comma is missing before this"#,
    r#"["a" "b\x"] -> line 1, column 6: a comma is missing before this"#,
    "[true null] -> line 1, column 7: a comma is missing before this",
    r#"{"a":"he said "yes""} -> line 1, column 16: a comma is missing before this"#,
    r#"{"a" 1} -> line 1, column 6: a colon is missing after a name"#,
    r#"{"a":1, "b" "c"} -> line 1, column 13: a colon is missing after a name"#,
    r#"{"a"} -> line 1, column 5: a colon is missing after a name"#,
    r#"{"a" , 1} -> line 1, column 6: a colon is missing after a name"#,
    r#"{"x":[{"a" = 1}]} -> line 1, column 12: a colon is missing after a name"#,
    "{a:1} -> line 1, column 2: a name without double quotes",
    r#"{"a":1, b: 2} -> line 1, column 9: a name without double quotes"#,
    "{1 : 2} -> line 1, column 2: a name without double quotes",
    "{true, 2} -> line 1, column 2: a name without double quotes",
    "{None: 2} -> line 1, column 2: a name without double quotes",
];

/// A text with a word or a number that is none of JSON, and what is told of it.
const WORDS: &[&str] = &[
    "[True] -> line 1, column 2: a word that JSON writes as true, false or null",
    r#"{"a": None} -> line 1, column 7: a word that JSON writes as true, false or null"#,
    "FALSE -> line 1, column 1: a word that JSON writes as true, false or null",
    "[1, Null, 2] -> line 1, column 5: a word that JSON writes as true, false or null",
    "[1, nULL] -> line 1, column 5: a word that JSON writes as true, false or null",
    "[01] -> line 1, column 2: a number that begins with 0 and a digit",
    "-01 -> line 1, column 1: a number that begins with 0 and a digit",
    r#"{"a": +1} -> line 1, column 7: a number with a plus sign before it"#,
    "[.5] -> line 1, column 2: a point without digits on both sides",
    "[1, -.5] -> line 1, column 6: a point without digits on both sides",
    "[12.] -> line 1, column 4: a point without digits on both sides",
    "[1.e5] -> line 1, column 3: a point without digits on both sides",
    r#"{"a": 1e400, "b": 2} -> line 1, column 7: a number that is too large"#,
    "[1e400 ]\n -> line 1, column 2: a number that is too large",
    "[1e400,0] -> line 1, column 2: a number that is too large",
    "[1e400 -> line 1, column 2: a number that is too large",
];

/// A text that no document goes on with after some byte, and the place of that byte.
const BROKEN: &[&str] = &[
    "nil -> line 1, column 2: not JSON",
    "[tru] -> line 1, column 5: not JSON",
    "[truth] -> line 1, column 5: not JSON",
    "[nullable] -> line 1, column 6: a comma is missing before this",
    "[Nulls] -> line 1, column 2: not JSON",
    "[...] -> line 1, column 2: not JSON",
    "[1,,2] -> line 1, column 4: not JSON",
    "[-] -> line 1, column 3: not JSON",
    "[--1] -> line 1, column 3: not JSON",
    "[1e] -> line 1, column 4: not JSON",
    "[1e+x] -> line 1, column 5: not JSON",
    "[1.5.2] -> line 1, column 5: not JSON",
    r#"["a": 1] -> line 1, column 5: not JSON"#,
    r#"[{"a":} 2] -> line 1, column 7: not JSON"#,
    r#"{"a":1,"b"} -> line 1, column 11: a colon is missing after a name"#,
    "{,} -> line 1, column 2: not JSON",
    "{[1]:2} -> line 1, column 2: not JSON",
    "[[1} 2] -> line 1, column 4: not JSON",
    "[1},3] -> line 1, column 3: not JSON",
    "]0 -> line 1, column 1: not JSON",
    "{} , -> line 1, column 4: not JSON",
    "{1:2} -> line 1, column 2: a name without double quotes",
    "{1e4 -> line 1, column 2: a name without double quotes",
    "\u{c} -> line 1, column 1: not JSON",
    "\u{a0} -> line 1, column 1: not JSON",
    "[1\u{a0}] -> line 1, column 3: a comma is missing before this",
    "{}\u{feff} -> line 1, column 3: not JSON",
    "{}[] -> line 1, column 3: a second document (is it NDJSON? use -L)",
    // Of several faults the first one counts.
    "[1,] 2} -> line 1, column 3: a comma with nothing after it",
    "nul // x -> line 1, column 4: not JSON",
    r#"[1 "\x" -> line 1, column 4: a comma is missing before this"#,
    "[01 1e400] -> line 1, column 2: a number that begins with 0 and a digit",
];

/// A text that ends within a word, a number, a string or an object, and the byte after it.
const CUT_SHORT: &[&str] = &[
    "tru -> 4",
    "[-0. -> 5",
    "[1e -> 4",
    "[1e- -> 5",
    "{ -> 2",
    "{\"a -> 4",
    "{\"a\": -> 6",
    "[1, -> 4",
    r#""\ -> 3"#,
    r#""\ud83d -> 8"#,
    r#""\ud83d\u -> 10"#,
];

/// A value with a fault in it, and the byte of that, counted from the value, and what it is.
const FAULTS: &[&str] = &[
    "nil -> 2: not JSON",
    "[1,] -> 3: a comma with nothing after it",
    "[1 2] -> 4: a comma is missing before this",
    r#"{"a" 1} -> 6: a colon is missing after a name"#,
    "{a:1} -> 2: a name without double quotes",
    "True -> 1: a word that JSON writes as true, false or null",
    "-01 -> 1: a number that begins with 0 and a digit",
    "+1 -> 1: a number with a plus sign before it",
    "-.5 -> 2: a point without digits on both sides",
    "1.x -> 2: a point without digits on both sides",
    "-Infinity -> 1: NaN or Infinity, which JSON does not have",
    "1e400 -> 1: a number that is too large",
    "'a' -> 1: a single quote, where JSON has double quotes",
    "[// a\n] -> 2: a comment, which JSON does not have",
    "\"a\tb\" -> 3: a control character in a string, where JSON has an escape as \\t",
    r#""a\x" -> 3: a backslash that begins no escape of JSON"#,
    r#""\\\udc00" -> 4: an escape of half a pair of surrogates"#,
    ". -> 1: not JSON",
];

/// What stands before a value: nothing, an array, an object, another line, and characters beyond ASCII.
const FRONTS: &[&str] = &[
    "",
    "[",
    "[[0.5e1,-0], ",
    r#"{"a\"{": "#,
    "{\"a\":\r\n\t",
    "[\"\u{e9}\u{20ac}\u{1f600}\",\n",
];

/// Bytes that are not UTF-8, and what is told of them.
const NOT_UTF8: &[(&[u8], &str)] = &[
    (b"[\"\xc3\xa9\",\n\"\xc3\xa9\xff\"]", LATER_BYTE),
    (b"\xff\xfe{\x00}\x00", FIRST_BYTE),
    (b"\xc3", FIRST_BYTE),
    (b"\"\xc3\xa9\n\xff\"", CONTROL),
    (b"[1,]\xff", COMMA),
    (b"[\"\xf0\x9f\x98", CUT),
    (b"{\"\xf0\x9f\x98", CUT),
];

const LATER_BYTE: &str = "line 2, column 3: a byte that is not UTF-8";

const FIRST_BYTE: &str = "line 1, column 1: a byte that is not UTF-8";

const CONTROL: &str =
    "line 1, column 3: a control character in a string, where JSON has an escape as \\t";

const COMMA: &str = "line 1, column 3: a comma with nothing after it";

const CUT: &str = "line 1, column 4: the document ends too soon";

/// What is told of bytes, or the JSON of the document that they are.
fn told(alloc: Global, bytes: &[u8]) -> Came {
    Ok(match read_document(alloc, bytes) {
        Ok(value) => value.to_string(alloc)?,
        Err(e) => format!(in alloc; "{e}")?,
    })
}

/// What is told of a text.
fn told_of_text(alloc: Global, text: &str) -> Came {
    told(alloc, text.as_bytes())
}

/// Whether a text is read, or what is told of it.
fn outcome(alloc: Global, text: &str) -> Came {
    Ok(match read_document(alloc, text.as_bytes()) {
        Ok(_) => String::from_str(alloc, "read")?,
        Err(e) => format!(in alloc; "{e}")?,
    })
}

/// Bytes that are no document, and the number of the byte where that shows.
const POSITIONS: &[&str] = &[
    " -> 1",
    "[1,2 -> 5",
    "{\"\u{e9}\":1,\n'a'} -> 10",
    "[\"\u{1f600}\",\n // x\n1] -> 11",
];

/// The number of the byte where bytes turn out to be no document.
fn position(alloc: Global, text: &str) -> Came {
    Ok(match read_document(alloc, text.as_bytes()) {
        Ok(value) => value.to_string(alloc)?,
        Err(e) => e.position.to_string(alloc)?,
    })
}

#[test]
fn tells_the_byte(rt: HostRuntime) -> Result<(), Fail> {
    hold_rows(&rt, POSITIONS, position)
}

#[test]
fn tells_the_end(rt: HostRuntime) -> Result<(), Fail> {
    hold_rows(&rt, CUT_SHORT, position)
}

/// The byte of the fault of a value that stands after a text, counted from the value, and what it is.
fn fault_after(alloc: Global, front: &str, value: &str) -> Came {
    let text = format!(in alloc; "{front}{value}")?;
    Ok(match read_document(alloc, text.as_bytes()) {
        Ok(value) => value.to_string(alloc)?,
        Err(e) => {
            let byte = e.position.saturating_sub(front.len());
            let fault = e.fault;
            format!(in alloc; "{byte}: {fault}")?
        }
    })
}

#[test]
fn tells_the_byte_anywhere(rt: HostRuntime) -> Result<(), Fail> {
    for &front in FRONTS {
        hold_rows(&rt, FAULTS, |alloc, value| fault_after(alloc, front, value))?;
    }
    Ok(())
}

/// An array of many numbers before a word.
const LONG: Nesting<'static> = ("[\n", "10, ", "nil", "", "]");

/// Arrays within each other, before a number and a bracket with no comma between them, or with one.
const MISSING: Nesting<'static> = ("", "[", "5[", "", "");

const NUMBER_FIRST: Nesting<'static> = ("", "[", "5,[", "", "");

/// A number of many digits, before a bracket and before the end.
const LARGE: Nesting<'static> = ("[1", "0", "", "", "]");

const LARGE_AT_THE_END: Nesting<'static> = ("[1", "0", "", "", "");

#[test]
fn tells_places_in_long_texts(rt: HostRuntime) -> Result<(), Fail> {
    let rows = [
        (LONG, 5000, "line 2, column 20002: not JSON"),
        (
            MISSING,
            127,
            "line 1, column 129: a comma is missing before this",
        ),
        (
            NUMBER_FIRST,
            127,
            "line 1, column 130: more than 127 levels of arrays and objects",
        ),
        (LARGE, 400, "line 1, column 2: a number that is too large"),
        // An exponent may make the number smaller.
        (
            LARGE_AT_THE_END,
            400,
            "line 1, column 403: the document ends too soon",
        ),
    ];
    hold_nested(&rt, &rows, outcome)
}

/// An array of a text with brackets and of arrays within each other.
const ARRAYS: Nesting<'static> = ("[\"]\\\"{\",\n", "[", "0", "]", "]");

#[test]
fn takes_127_levels(rt: HostRuntime) -> Result<(), Fail> {
    let deep = "line 2, column 127: more than 127 levels of arrays and objects";
    let rows = [
        (ARRAYS, 126, "read"),
        (ARRAYS, 127, deep),
        (ARRAYS, 999, deep),
    ];
    hold_nested(&rt, &rows, outcome)
}

#[test]
fn tells_what_is_no_document(rt: HostRuntime) -> Result<(), Fail> {
    hold_rows(&rt, REFUSED, told_of_text)?;
    hold_pairs(&rt, NOT_UTF8, told)
}

#[test]
fn tells_what_is_wrong_in_strings(rt: HostRuntime) -> Result<(), Fail> {
    hold_rows(&rt, IN_STRINGS, told_of_text)
}

#[test]
fn tells_what_is_missing(rt: HostRuntime) -> Result<(), Fail> {
    hold_rows(&rt, LACKING, told_of_text)
}

#[test]
fn tells_words_and_numbers(rt: HostRuntime) -> Result<(), Fail> {
    hold_rows(&rt, WORDS, told_of_text)
}

#[test]
fn tells_the_byte_that_breaks(rt: HostRuntime) -> Result<(), Fail> {
    hold_rows(&rt, BROKEN, told_of_text)
}
