//! The lines that a path selects from a document.

ghost use Rattle.jsonpath_c.specs.Exports.{AnswersLines};

use crate::output::put;
use crate::refusal::{Refusal, put_refusal};
use crate::status::{DOCUMENT_REFUSED, NO_MEMORY, NOT_UTF8, QUERY_REFUSED};
use jsonpath_lines::Form;
use jsonpath_program::report::{DocumentError, ReportError, report_under};
use serde_json_path::QueryError;
use serde_json_path::functions::{CachedPatterns, PatternStore};
use std::alloc::Global;

/// Puts the lines in a form, or tells the refusal. Returns the status.
fn lines(
    alloc: Global,
    form: Form,
    path: &[u8],
    document: &[u8],
    out: &mut [u8],
    size: &mut usize,
    refusal: &mut Refusal,
) -> u8
    ensures { AnswersLines form path.now document.now out.old out.new size.old size.new
        refusal.old refusal.new result }
{
    let Ok(path) = str::from_utf8(path) else {
        return NOT_UTF8;
    };
    let store = PatternStore::new();
    let functions = CachedPatterns::new(alloc, &store);
    match report_under(alloc, form, path, document, functions) {
        Ok(text) => put(text.as_str(), out, size),
        Err(ReportError::Path(e)) => put_refusal(&e, refusal),
        Err(ReportError::Document(DocumentError::NotJson)) => DOCUMENT_REFUSED,
        Err(ReportError::Query(QueryError::Pattern)) => QUERY_REFUSED,
        Err(
            ReportError::Document(DocumentError::Memory) | ReportError::Query(QueryError::Memory),
        ) => NO_MEMORY,
    }
}

/// A line for each node that the path selects: its normalised path, a tab, its compact JSON and a line feed.
#[unsafe(no_mangle)]
pub extern "C" fn jsonpath_report(
    alloc: Global,
    path: &[u8],
    document: &[u8],
    out: &mut [u8],
    size: &mut usize,
    refusal: &mut Refusal,
) -> u8
    ensures { AnswersLines Form.LocationAndValue path.now document.now out.old out.new
        size.old size.new refusal.old refusal.new result }
{
    lines(
        alloc,
        Form::LocationAndValue,
        path,
        document,
        out,
        size,
        refusal,
    )
}

/// A line for each node that the path selects: its compact JSON and a line feed.
#[unsafe(no_mangle)]
pub extern "C" fn jsonpath_values(
    alloc: Global,
    path: &[u8],
    document: &[u8],
    out: &mut [u8],
    size: &mut usize,
    refusal: &mut Refusal,
) -> u8
    ensures { AnswersLines Form.Value path.now document.now out.old out.new size.old size.new
        refusal.old refusal.new result }
{
    lines(alloc, Form::Value, path, document, out, size, refusal)
}

/// A line for each node that the path selects: its normalised path and a line feed.
#[unsafe(no_mangle)]
pub extern "C" fn jsonpath_locations(
    alloc: Global,
    path: &[u8],
    document: &[u8],
    out: &mut [u8],
    size: &mut usize,
    refusal: &mut Refusal,
) -> u8
    ensures { AnswersLines Form.Location path.now document.now out.old out.new size.old size.new
        refusal.old refusal.new result }
{
    lines(alloc, Form::Location, path, document, out, size, refusal)
}
