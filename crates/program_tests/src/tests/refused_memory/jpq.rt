//! Words, files of paths, documents and runs. A call that answers no memory, or a run that tells of it, is made again, and then
//! answers as its row says.

use crate::tests::inputs::run_line;
use crate::tests::options::{of_asked, words_of};
use jpq_options::options::{command, read};
use jpq_options::paths::path_lines;
use jsonpath_document::{DocumentFault, read_document};
use std::alloc::Global;
use std::test::Fail;
use test_rows::{Called, fields, hold_answers};

/// The words after the program's name, and what they ask for.
const WORDS: &[&str] = &[
    "-v -n 3 $.a x.json y.json -> $.a, of x.json, of y.json, Value, most 3",
    "-v -l $.a -> ArgumentConflict: error: the argument '--values' cannot be used with '--locations'",
];

/// What the words of a row ask for, or nothing where memory is refused.
fn asked(alloc: Global, given: &str) -> Called {
    let words = words_of(alloc, given)?;
    match read(alloc, words.as_slice()) {
        Ok(asked) => Ok(Some(of_asked(alloc, asked)?)),
        Err(_) => Ok(None),
    }
}

#[test]
fn read_words(rt: HostRuntime) -> Result<(), Fail> {
    hold_answers(&rt, WORDS, asked)
}

/// The version that the command prints.
const VERSION: &[&str] = &["--version -> jpq 0.7.2\n"];

#[test]
fn command_of_words(rt: HostRuntime) -> Result<(), Fail> {
    hold_answers(&rt, VERSION, |alloc, _| match command(alloc) {
        Ok(command) => Ok(Some(command.render_version()?)),
        Err(_) => Ok(None),
    })
}

/// A file's text, and the paths in it, joined.
const PATHS: &[&str] = &["$.a\n# none\n$.b\n -> $.a$.b"];

#[test]
fn paths_in_a_file(rt: HostRuntime) -> Result<(), Fail> {
    hold_answers(&rt, PATHS, |alloc, given| match path_lines(alloc, given) {
        Ok(paths) => Ok(Some(paths.as_slice().concat(alloc)?)),
        Err(_) => Ok(None),
    })
}

/// A document's text, and its JSON or what is told of it.
const DOCUMENTS: &[&str] = &[
    "{\"a\": [1, \"b\"]} -> {\"a\":[1,\"b\"]}",
    "[1,] -> line 1, column 3: a comma with nothing after it",
    "[\"b\"] 2 -> line 1, column 7: a second document (is it NDJSON? use -L)",
];

#[test]
fn read_documents(rt: HostRuntime) -> Result<(), Fail> {
    hold_answers(&rt, DOCUMENTS, |alloc, given| {
        match read_document(alloc, given.as_bytes()) {
            Ok(value) => Ok(Some(value.to_string(alloc)?)),
            Err(e) if e.fault == DocumentFault::Memory => Ok(None),
            Err(e) => Ok(Some(format!(in alloc; "{e}")?)),
        }
    })
}

/// What a run writes and tells, after its status, or nothing where it tells of memory.
fn answered(alloc: Global, given: &str) -> Called {
    let (line, standard) = fields(given)?;
    let ran = run_line(alloc, line, standard)?;
    if ran.err.contains("memory") {
        return Ok(None);
    }
    Ok(Some(format!(in alloc; "{}: {}{}", ran.status, ran.out, ran.err)?))
}

/// The words, with two blanks between them, and standard input, and the status, what is written and what is told.
const RUNS: &[&str] = &[
    "$..b[?@ > 1.5] ~ {\"a\":{\"b\":[1,2]}} -> 0: $['a']['b'][1]\t2\n",
    "-j  --pretty  -u  $[0,0] ~ [\"a\"] -> 0: [\n  {\n    \"path\": \"$[0]\",\n    \"value\": \"a\"\n  }\n]\n",
    "-L  --color=always  -v  -e  $.a  -e  $.b ~ {\"a\":1}\n{\"b\":2} -> 0: 1\t\u{1b}[36m1\u{1b}[0m\n2\t\u{1b}[36m2\u{1b}[0m\n",
    "$[?@.price = 10] ~ null -> 2: jpq: the path is refused at byte 12: expected closing ']', found '='\n  $[?@.price = 10]\n             ^\n  equality is written ==\n",
    "-c  --whole-numbers  $[?@ == 1] ~ [1,1.5] -> 0: 1\n",
];

#[test]
fn run_of_words(rt: HostRuntime) -> Result<(), Fail> {
    hold_answers(&rt, RUNS, answered)
}
