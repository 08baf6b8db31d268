//! The lines of a report on a path and a document.

ghost use Rattle.std.specs.Prelude.{◌≡◌, [], ◌∷◌, List, IfOk, string_bytes};
ghost use Rattle.jsonpath_program.specs.Words.{Data, view, Located, Fits, whole_numbers, with_rule, before_builtin, OnlyMemoryOrPattern, Selects, path_view, rule_of, signatures_of, tree_of, IsParseOf, ReportsFirst, ReadsAs, IsReadFor, AreLines, compact_lines, IsAnswer, IsNoPath, CallsByPatternOn, IsReport, IsReportIn};
ghost use Rattle.serde_json_path_parser.specs.declared.error.ParseError as path_error;

use jsonpath_document::{DocumentError as ReadError, DocumentFault, read_document};
use jsonpath_lines::{Form, Output, write_nodes};
use serde_json::Value;
use serde_json_path::functions::{Both, CachedPatterns, Functions, PatternStore};
use serde_json_path::{Numbers, ParseError, QueryError, read_for};
use serde_json_path_core::walk;
use serde_json_path_parser::{TextSource, parse};
use serde_json_path_syntax::Checked;
use std::alloc::Global;
use std::mem::forget;
use thiserror::Error;

/// Why a document is refused.
#[derive(Debug, Drop, Error)]
pub enum DocumentError {
    /// `serde_json` does not read the bytes. It takes 127 levels, and no number beyond those of floats.
    #[error("not JSON")]
    NotJson,
    /// Memory was refused.
    #[error("no memory")]
    Memory,
}

/// Why there is no report.
#[derive(Debug, Drop, Error)]
pub enum ReportError {
    /// The path is refused.
    #[error("{0}")]
    Path(ParseError),
    /// The document is refused.
    #[error("{0}")]
    Document(DocumentError),
    /// The query is refused, or memory for the lines.
    #[error("{0}")]
    Query(QueryError),
}

impl From<ReadError> for DocumentError {
    ghost use Rattle.std.specs.Prelude.{◌≡◌};
    ghost use Rattle.jsonpath_program.specs.Report.{refusal_of};

    ghost from_gives = { λ e error. error ≡ refusal_of e.fault };

    fn from(e: ReadError) -> DocumentError {
        match e.fault {
            DocumentFault::Memory => DocumentError::Memory,
            _ => DocumentError::NotJson,
        }
    }
}

/// Reads a document from its bytes.
fn document(alloc: Global, bytes: &[u8]) -> Result<Value, DocumentError>
    ensures ok { IfOk result (λ value. ReadsAs bytes.now (view value)) }
    ensures not_json { result ≡ Err DocumentError.NotJson → (d : Data) → ReadsAs bytes.now d → ⊥ }
{
    Ok(read_document(alloc, bytes)?)
}

/// Reads of a document what a path can reach.
fn document_for(alloc: Global, bytes: &[u8], path: &Checked) -> Result<Value, DocumentError>
    ensures ok { IfOk result (λ value. IsReadFor bytes.now (tree_of path.now ∷ []) (view value)) }
    ensures not_json { result ≡ Err DocumentError.NotJson → (d : Data) → ReadsAs bytes.now d → ⊥ }
{
    match read_for(alloc, bytes, &[path]) {
        Ok(value) => Ok(value),
        Err(_) => document(alloc, bytes),
    }
}

/// Room for lines, so large that the allocator maps it alone, and it grows without a copy.
const ROOM: usize = 262_144;

/// An empty text with room for lines, if there is memory for it.
///
/// It is asked for before the document is read: a large request after a document's many small pieces has the allocator go over
/// those that are free.
fn room(alloc: Global) -> String
    ensures { string_bytes result ≡ [] }
{
    match String::with_capacity(alloc, ROOM) {
        Ok(text) => text,
        Err(_) => String::new(alloc),
    }
}

/// The text, in a form, of the nodes that a path selects, in order, in a text that is empty before.
fn selected<F: Functions + Drop>(
    alloc: Global,
    form: Form,
    text: String,
    path: &Checked,
    document: &Value,
    functions: F,
) -> Result<String, QueryError>
    requires empty { string_bytes text ≡ [] }
    requires fits { Fits (F.set functions) (signatures_of path.now) }
    ensures lines { IfOk result (λ text. (nodes : List Located)
        × AreLines (compact_lines form) [] nodes (string_bytes text)
        × Selects (with_rule (rule_of path.now) (F.set functions)) (tree_of path.now)
        (view document.now) nodes) }
    ensures refused { OnlyMemoryOrPattern (with_rule (rule_of path.now) (F.set functions))
        (tree_of path.now) (view document.now) result }
{
    let walk = walk(alloc, path, document, functions)?;
    Ok(write_nodes(alloc, &Output::compact_lines(form), "", text, walk)?.text)
}

/// What becomes of a document of which all is shown.
#[derive(Clone, Copy)]
pub(crate) enum Afterwards {
    /// Its memory is given back.
    Freed,
    /// The program ends, so it need not be freed piece by piece.
    Left,
}

/// Frees the document, or leaves it to the end of the program.
fn leave(document: Value, afterwards: Afterwards) {
    match afterwards {
        Afterwards::Freed => drop(document),
        Afterwards::Left => forget(document),
    }
}

/// What a path selects from the document that the bytes are, of which what the path can reach is read.
fn answer<F: Functions>(
    alloc: Global,
    form: Form,
    path: &Checked,
    bytes: &[u8],
    functions: &F,
    afterwards: Afterwards,
) -> Result<String, ReportError>
    requires { Fits (F.set functions.now) (signatures_of path.now) }
    ensures { IsAnswer form (with_rule (rule_of path.now) (F.set functions.now)) (tree_of path.now)
        bytes.now result }
{
    let text = room(alloc);
    let value = match document_for(alloc, bytes, path) {
        Ok(value) => value,
        Err(e) => return Err(ReportError::Document(e)),
    };
    let selected = selected(alloc, form, text, path, &value, functions);
    leave(value, afterwards);
    match selected {
        Ok(text) => Ok(text),
        Err(QueryError::Memory) => Err(ReportError::Query(QueryError::Memory)),
        Err(QueryError::Pattern) => answer_whole(alloc, form, path, bytes, functions),
    }
}

/// The same of the whole document, of which it is told that a pattern is refused.
fn answer_whole<F: Functions>(
    alloc: Global,
    form: Form,
    path: &Checked,
    bytes: &[u8],
    functions: &F,
) -> Result<String, ReportError>
    requires { Fits (F.set functions.now) (signatures_of path.now) }
    ensures { IsAnswer form (with_rule (rule_of path.now) (F.set functions.now)) (tree_of path.now)
        bytes.now result }
{
    let value = match document(alloc, bytes) {
        Ok(value) => value,
        Err(e) => return Err(ReportError::Document(e)),
    };
    match selected(alloc, form, String::new(alloc), path, &value, functions) {
        Ok(text) => Ok(text),
        Err(e) => Err(ReportError::Query(e)),
    }
}

/// One line for each node of the document that the path selects, in order: its normalised path, a tab, its compact JSON
/// and a line feed.
///
/// The path is read first, then the document, and then the query runs. Filters may call the functions of a set as well as
/// the built-in ones. If both define a name, the set's function is used. Comparisons take whole numbers.
///
/// ```text
/// report(alloc, "$.foo.bar[0]", b"{\"foo\":{\"bar\":[\"baz\",42]}}", &Builtin)
/// gives $['foo']['bar'][0]<tab>"baz"
/// ```
pub fn report<F: Functions>(
    alloc: Global,
    path: &str,
    document: &[u8],
    functions: &F,
) -> Result<String, ReportError>
    ensures { IsReport Form.LocationAndValue (before_builtin (F.set functions.now)) path.now
        document.now result }
{
    report_in(alloc, Form::LocationAndValue, path, document, functions)
}

/// The same in a form.
///
/// ```text
/// report_in(alloc, Form::Value, "$.foo.bar[0]", b"{\"foo\":{\"bar\":[\"baz\",42]}}", &Builtin)
/// gives "baz"
/// ```
pub fn report_in<F: Functions>(
    alloc: Global,
    form: Form,
    path: &str,
    document: &[u8],
    functions: &F,
) -> Result<String, ReportError>
    ensures { IsReport form (before_builtin (F.set functions.now)) path.now document.now result }
{
    let store = PatternStore::new();
    let functions = Both(functions, CachedPatterns::new(alloc, &store));
    report_by(alloc, form, path, document, functions, Afterwards::Freed)
}

/// The same under a function set alone: the built-in functions are there only if the set has them. So a set that keeps patterns
/// can stand in the place of the built-in functions.
///
/// ```text
/// let store = PatternStore::new();
/// report_under(alloc, Form::Value, path, document, CachedPatterns::new(alloc, &store))
/// ```
pub fn report_under<F: Functions + Drop>(
    alloc: Global,
    form: Form,
    path: &str,
    document: &[u8],
    functions: F,
) -> Result<String, ReportError>
    ensures lines { IfOk result (λ text.
        IsReportIn form (F.set functions) path.now document.now (string_bytes text)) }

    // A path is refused as the parse refuses it, and before the document is looked at.
    ensures path_refused { (e : path_error.ParseError) → result ≡ Err (ReportError.Path e)
        → IsParseOf path_view whole_numbers (F.set functions).signature path.now (Err e) }
    ensures path_reported { (e : path_error.ParseError) → result ≡ Err (ReportError.Path e)
        → ReportsFirst path_view whole_numbers (F.set functions).signature path.now (Err e) }
    ensures path_first { IsNoPath (F.set functions) path.now
        → (e : path_error.ParseError) × (result ≡ Err (ReportError.Path e)) }

    ensures not_json { result ≡ Err (ReportError.Document DocumentError.NotJson) → (d : Data)
        → ReadsAs document.now d → ⊥ }
    ensures pattern_refused { result ≡ Err (ReportError.Query QueryError.Pattern)
        → CallsByPatternOn (F.set functions) path.now document.now }

    // A query is refused only where the document is read.
    ensures query_last { (e : QueryError) → result ≡ Err (ReportError.Query e)
        → (d : Data) × ReadsAs document.now d }
{
    report_by(alloc, form, path, document, functions, Afterwards::Freed)
}

/// The same, and what becomes of the document.
pub(crate) fn report_by<F: Functions + Drop>(
    alloc: Global,
    form: Form,
    path: &str,
    document: &[u8],
    functions: F,
    afterwards: Afterwards,
) -> Result<String, ReportError>
    ensures { IsReport form (F.set functions) path.now document.now result }
{
    let mut source = TextSource::new(path);
    match parse(alloc, &mut source, &functions, Numbers::Whole) {
        Ok(path) => answer(alloc, form, &path, document, &functions, afterwards),
        Err(e) => Err(ReportError::Path(e)),
    }
}
