//! The program over a reader and two writers.

ghost use Rattle.std.specs.Prelude.{◌≡◌, ◌≢◌, ◌↔◌, ◌⊎◌, ℕ, List, length, codes, OnOk};
ghost use Rattle.jsonpath_program.specs.Words.{Appends, IsAtEnd, whole_numbers, builtin_functions, path_view, kind_of, position_of, IsParseOf, ReportsFirst, IsNoPath, status_of, line_of, IsStatus, IsDocumentLine, IsQueryLine, IsOneWord, IsReportOfRun, MayBeDocument, AppendsBeginning};
ghost use Rattle.serde_json_path_parser.specs.declared.error.ParseError as path_error;

use crate::report::{Afterwards, DocumentError, ReportError, report_by};
use jsonpath_lines::{Form, write_text};
use serde_json_path::functions::{CachedPatterns, PatternStore};
use serde_json_path::{ParseError, ParseErrorKind, QueryError};
use std::alloc::Global;
use std::io;
use std::io::{Read, Write};

/// All lines were written.
const DONE: u8 = 0;
/// The path is refused.
const PATH_REFUSED: u8 = 1;
/// The document is refused, or the input cannot be read.
const DOCUMENT_REFUSED: u8 = 2;
/// The query is refused.
const QUERY_REFUSED: u8 = 3;
/// The lines could not be written, or only a part of them. The same status as that of a refused query.
const OUTPUT_FAILED: u8 = 3;
/// There is not exactly one word.
const USAGE: u8 = 64;

/// Tells why a path is refused. Where memory for the line is refused, only its beginning is written.
fn tell_path<E: Write>(alloc: Global, e: &ParseError, err: &mut E)
    requires { kind_of e.now ≡ ParseErrorKind.NoMemory → position_of e.now ≡ 1 }
    ensures { AppendsBeginning (E.contents err.old) (E.contents err.new)
        (line_of (ReportError.Path e.now)) }
{
    if e.kind() == ParseErrorKind::NoMemory {
        let _ = write_text("jsonpath: path: at position 1, no memory\n", err);
        return;
    }
    let _ = match format!(in alloc; "jsonpath: path: {e}\n") {
        Ok(line) => write_text(line.as_str(), err),
        Err(_) => write_text("jsonpath: path: ", err),
    };
}

/// The line of a refused document, which takes no memory, unlike its Display.
fn document_line(e: &DocumentError) -> &'static str
    ensures { result.now ≡ line_of (ReportError.Document e.now) }
{
    match e {
        DocumentError::NotJson => "jsonpath: document: not JSON\n",
        DocumentError::Memory => "jsonpath: document: no memory\n",
    }
}

/// The line of a refused query, which takes no memory, unlike its Display.
fn query_line(e: &QueryError) -> &'static str
    ensures { result.now ≡ line_of (ReportError.Query e.now) }
{
    match e {
        QueryError::Memory => "jsonpath: query: no memory\n",
        QueryError::Pattern => "jsonpath: query: pattern refused\n",
    }
}

/// Tells a refusal in one line, and returns its status, even if the line cannot be written.
pub fn refuse<E: Write>(alloc: Global, e: &ReportError, err: &mut E) -> u8
    requires { (path : path_error.ParseError) → e.now ≡ ReportError.Path path
        → kind_of path ≡ ParseErrorKind.NoMemory → position_of path ≡ 1 }
    ensures status { result ≡ status_of e.now }
    ensures reported { AppendsBeginning (E.contents err.old) (E.contents err.new) (line_of e.now) }
{
    match e {
        ReportError::Path(e) => {
            tell_path(alloc, e, err);
            PATH_REFUSED
        }
        ReportError::Document(e) => {
            let _ = write_text(document_line(e), err);
            DOCUMENT_REFUSED
        }
        ReportError::Query(e) => {
            let _ = write_text(query_line(e), err);
            QUERY_REFUSED
        }
    }
}

/// Writes the lines and flushes them.
fn write_lines<W: Write>(lines: &str, out: &mut W) -> io::Result<()>
    ensures whole { OnOk result (Appends (W.contents out.old) (W.contents out.new) lines.now) }
    ensures beginning { AppendsBeginning (W.contents out.old) (W.contents out.new) lines.now }
{
    write_text(lines, out)?;
    out.flush()
}

/// Writes the lines, and returns the status.
fn print<W: Write, E: Write>(lines: &str, out: &mut W, err: &mut E) -> u8
    ensures either { (result ≡ 0) ⊎ (result ≡ 3) }
    ensures whole { result ≡ 0 → Appends (W.contents out.old) (W.contents out.new) lines.now }
    ensures beginning { AppendsBeginning (W.contents out.old) (W.contents out.new) lines.now }
    ensures nothing_reported { result ≡ 0 → err.new ≡ err.old }
    ensures reported { result ≡ 3
        → AppendsBeginning (E.contents err.old) (E.contents err.new)
        (codes "jsonpath: output failed\n") }
{
    if write_lines(lines, out).is_ok() {
        return DONE;
    }
    let _ = write_text("jsonpath: output failed\n", err);
    OUTPUT_FAILED
}

/// The program: `jsonpath PATH` with a document as its input. Returns the exit status.
///
/// With exactly one word the input is read to its end, then the path and the document are read, then all lines are made,
/// and only then written. Any fault is reported to `err` in its line, or a beginning of it, which may be empty, and then nothing
/// goes to `out`, unless it is the write that failed:
///
/// | Status | When |
/// |---|---|
/// | 0 | done, also for no node |
/// | 1 | the path is refused |
/// | 2 | the document is refused, or the input cannot be read |
/// | 3 | the query is refused; or writing failed, where a part may have gone out |
/// | 64 | there is not exactly one word; the input is not read |
pub fn run<R: Read, W: Write, E: Write>(
    alloc: Global,
    words: &[String],
    input: &mut R,
    out: &mut W,
    err: &mut E,
) -> u8
    ensures statuses { IsStatus result }
    ensures usage { (result ≡ 64) ↔ (length words.now ≢ 1) }

    // The input is read to its end, unless it is not read at all or cannot be.
    ensures unread { length words.now ≢ 1 → input.new ≡ input.old }
    ensures read_whole { result ≢ 2 → result ≢ 64 → IsAtEnd (R.remaining input.new) }

    // When a run is done, over a reader and a writer that tell their bytes: its report went out, and nothing else.
    ensures report_out { result ≡ 0
        → (text : List ℕ) × IsReportOfRun words.now (R.remaining input.old) text
        × Appends (W.contents out.old) (W.contents out.new) text }
    ensures nothing_reported { result ≡ 0 → err.new ≡ err.old }

    // Nothing else goes out, but a part of the lines where writing failed.
    ensures nothing_out { result ≢ 0 → result ≢ 3 → out.new ≡ out.old }
    ensures part_out { result ≡ 3 → (out.new ≡ out.old)
        ⊎ ((text : List ℕ) × IsReportOfRun words.now (R.remaining input.old) text
        × AppendsBeginning (W.contents out.old) (W.contents out.new) text) }

    // A fault is reported in its line, or a beginning of it. A path is refused only as the parse refuses it.
    ensures usage_reported { result ≡ 64
        → AppendsBeginning (E.contents err.old) (E.contents err.new)
        (codes "usage: jsonpath PATH\n") }
    ensures path_reported { result ≡ 1 → (path : List ℕ) × IsOneWord words.now path
        × ((e : path_error.ParseError)
        × IsParseOf path_view whole_numbers builtin_functions.signature path (Err e)
        × ReportsFirst path_view whole_numbers builtin_functions.signature path (Err e)
        × AppendsBeginning (E.contents err.old) (E.contents err.new)
        (line_of (ReportError.Path e))) }
    ensures path_first { (path : List ℕ) → IsOneWord words.now path
        → IsNoPath builtin_functions path
        → (result ≡ 1) ⊎ ((result ≡ 2)
        × AppendsBeginning (E.contents err.old) (E.contents err.new)
        (codes "jsonpath: document: cannot be read\n")) }
    ensures document_reported { result ≡ 2
        → (line : List ℕ) × IsDocumentLine (R.remaining input.old) line
        × AppendsBeginning (E.contents err.old) (E.contents err.new) line }
    ensures query_last { result ≡ 3 → MayBeDocument (R.remaining input.old) }
    ensures query_reported { result ≡ 3
        → (line : List ℕ) × IsQueryLine words.now (R.remaining input.old) line
        × ((line ≡ codes "jsonpath: output failed\n") ⊎ (out.new ≡ out.old))
        × AppendsBeginning (E.contents err.old) (E.contents err.new) line }
{
    let [path] = words else {
        let _ = write_text("usage: jsonpath PATH\n", err);
        return USAGE;
    };
    let mut document = Vec::new(alloc);
    if input.read_to_end(&mut document).is_err() {
        let _ = write_text("jsonpath: document: cannot be read\n", err);
        return DOCUMENT_REFUSED;
    }
    let store = PatternStore::new();
    let functions = CachedPatterns::new(alloc, &store);
    let (form, document) = (Form::LocationAndValue, document.as_slice());
    match report_by(
        alloc,
        form,
        path.as_str(),
        document,
        functions,
        Afterwards::Left,
    ) {
        Ok(lines) => print(lines.as_str(), out, err),
        Err(e) => refuse(alloc, &e, err),
    }
}
