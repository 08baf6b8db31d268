//! What compiled paths select from documents that are read: lines, how many nodes, whether there is one.

ghost use Rattle.std.specs.Prelude.{◌≡◌, ◌≢◌, ◌⊎◌, ◌↔◌, Err, IfOk, List, length};
ghost use Rattle.jsonpath_c.specs.Clauses.{AnswersLinesOf, AreLinesFrom, ArePut, BothHold, CallsByPatternFrom, IsAsked, Located, OnlyMemoryOrPattern, SelectThose, SelectsFrom, TellsEitherEmpty, TellsNext, TellsSome, document_of, form_of, query_of, rest, set_of, view};

use crate::bounded::{FirstLines, first_lines};
use crate::compiled::Compiled;
use crate::counted::count_of;
use crate::handle::document::DocumentRef;
use crate::handle::path::PathRef;
use crate::limits::Limits;
use crate::output::{put, put_answer};
use crate::status::{CUT_SHORT, DONE, EMPTY_HANDLE, NO_MEMORY, QUERY_REFUSED};
use crate::walks::{plain_walk, walk};
use jsonpath_lines::Form;
use nullable_box::get_both;
use serde_json::Value;
use serde_json_path::functions::{Functions, PatternStore};
use serde_json_path::{QueryError, Walk};
use std::alloc::Global;

/// The status of a refused query.
pub(crate) fn query_status(e: QueryError) -> u8
    ensures statuses { (result ≡ 3) ⊎ (result ≡ 4) }
    ensures pattern { (result ≡ 3) ↔ (e ≡ QueryError.Pattern) }
{
    match e {
        QueryError::Pattern => QUERY_REFUSED,
        QueryError::Memory => NO_MEMORY,
    }
}

/// The form of lines that a number names.
pub(crate) fn form_named(form: u8) -> Form
    ensures { result ≡ form_of form }
{
    match form {
        1 => Form::Value,
        2 => Form::Location,
        _ => Form::LocationAndValue,
    }
}

/// The lines of what a path selects from a document, as many as the limits allow.
pub(crate) fn lines_of(
    alloc: Global,
    form: Form,
    limits: &Limits,
    path: &Compiled,
    document: &Value,
) -> Result<FirstLines, QueryError>
    ensures lines { IfOk result (λ lines.
        AreLinesFrom form limits.now path.now (view document.now) lines) }
    ensures refused { result ≡ Err QueryError.Pattern
        → CallsByPatternFrom path.now (view document.now) }
{
    if !path.may_call {
        let mut found = plain_walk(alloc, path, document)?;
        return first_lines(alloc, form, limits, &mut found);
    }
    let store = PatternStore::new();
    let mut found = walk(alloc, path, document, &store)?;
    first_lines(alloc, form, limits, &mut found)
}

/// Puts lines. Returns the status.
pub(crate) fn put_lines(lines: &FirstLines, out: &mut [u8], size: &mut usize) -> u8
    ensures { ArePut lines.now out.old out.new size.new result }
{
    match put(lines.text.as_str(), out, size) {
        DONE if !lines.all => CUT_SHORT,
        status => status,
    }
}

/// Puts a line for each node that a path selects from a document, in order: 0. The form is 1 for values alone, 2 for locations
/// alone, and else both. 8 where the limits cut the lines short, which are put then too; 5 where those lines find no room;
/// 3 where the query is refused for a pattern; 4 without memory; 7 where a handle is empty.
#[unsafe(no_mangle)]
pub extern "C" fn jsonpath_lines(
    alloc: Global,
    path: PathRef,
    document: DocumentRef,
    form: u8,
    limits: &Limits,
    out: &mut [u8],
    size: &mut usize,
) -> u8
    ensures answers { result ≢ 7 → BothHold path.value document.value (λ c d.
        AnswersLinesOf (form_of form) limits.now c (view d.json.value) out.old out.new size.old
        size.new result) }
    ensures empty { TellsEitherEmpty path.value document.value result }
    ensures kept_out { result ≡ 7 → out.new ≡ out.old }
    ensures kept_size { result ≡ 7 → size.new ≡ size.old }
{
    let Some((asked, read)) = get_both(path, document) else {
        return EMPTY_HANDLE;
    };
    let found = lines_of(alloc, form_named(form), limits, asked, &read.json);
    match found {
        Ok(lines) => put_lines(&lines, out, size),
        Err(e) => query_status(e),
    }
}

/// How many nodes a path selects from a document.
pub(crate) fn counted(alloc: Global, path: &Compiled, document: &Value) -> Result<usize, QueryError>
    ensures count { IfOk result (λ count. (nodes : List Located)
        × SelectsFrom path.now (view document.now) nodes × (count ≡ length nodes)) }
    ensures refused { result ≡ Err QueryError.Pattern
        → CallsByPatternFrom path.now (view document.now) }
{
    if !path.may_call {
        return count_of(plain_walk(alloc, path, document)?);
    }
    let store = PatternStore::new();
    let nodes = walk(alloc, path, document, &store)?;
    count_of(nodes)
}

/// Counts the nodes that a path selects from a document: 0; 3 where the query is refused for a pattern; 4 without memory; 7
/// where a handle is empty.
#[unsafe(no_mangle)]
pub extern "C" fn jsonpath_count(
    alloc: Global,
    path: PathRef,
    document: DocumentRef,
    count: &mut usize,
) -> u8
    ensures statuses { (result ≡ 0) ⊎ (result ≡ 3) ⊎ (result ≡ 4) ⊎ (result ≡ 7) }
    ensures done { result ≡ 0 → SelectThose path.value document.value
        (λ nodes. count.new ≡ length nodes) }
    ensures asked { IsAsked path.value document.value result }
    ensures kept_count { result ≢ 0 → count.new ≡ count.old }
{
    let Some((asked, read)) = get_both(path, document) else {
        return EMPTY_HANDLE;
    };
    let found = counted(alloc, asked, &read.json);
    put_answer(found.map_err(query_status), count)
}

/// Whether a node remains of a walk, which goes no further than to that.
#[inline(always)]
fn has_next<F: Functions + Drop>(walk: &mut Walk<'_, '_, F>) -> Result<bool, QueryError>
    ensures next { IfOk result (λ has. TellsNext has (rest walk.old) (rest walk.new)) }
    ensures refused { OnlyMemoryOrPattern (set_of walk.old) (query_of walk.old)
        (document_of walk.old) result }
{
    Ok(walk.next()?.is_some())
}

/// Whether a path that calls no function selects a node from a document, 1 or 0.
// Not inlined, as the next: each makes room for its own walk alone.
#[inline(never)]
fn selects_plainly(alloc: Global, path: &Compiled, document: &Value) -> Result<u8, QueryError>
    ensures some { IfOk result (λ some. (nodes : List Located)
        × SelectsFrom path.now (view document.now) nodes × TellsSome some nodes) }
    ensures refused { result ≡ Err QueryError.Pattern
        → CallsByPatternFrom path.now (view document.now) }
{
    let mut nodes = plain_walk(alloc, path, document)?;
    Ok(u8::from(has_next(&mut nodes)?))
}

/// The same of any path.
#[inline(never)]
fn selects_by_patterns(alloc: Global, path: &Compiled, document: &Value) -> Result<u8, QueryError>
    ensures some { IfOk result (λ some. (nodes : List Located)
        × SelectsFrom path.now (view document.now) nodes × TellsSome some nodes) }
    ensures refused { result ≡ Err QueryError.Pattern
        → CallsByPatternFrom path.now (view document.now) }
{
    let store = PatternStore::new();
    let mut nodes = walk(alloc, path, document, &store)?;
    Ok(u8::from(has_next(&mut nodes)?))
}

/// Whether a path selects a node from a document, 1 or 0. It stops at the first.
pub(crate) fn selects_some(
    alloc: Global,
    path: &Compiled,
    document: &Value,
) -> Result<u8, QueryError>
    ensures some { IfOk result (λ some. (nodes : List Located)
        × SelectsFrom path.now (view document.now) nodes × TellsSome some nodes) }
    ensures refused { result ≡ Err QueryError.Pattern
        → CallsByPatternFrom path.now (view document.now) }
{
    if path.may_call {
        selects_by_patterns(alloc, path, document)
    } else {
        selects_plainly(alloc, path, document)
    }
}

/// Tells whether a path selects a node from a document, and stops at the first: 0 with 1 or 0 in `exists`; 3 where the query is
/// refused for a pattern; 4 without memory; 7 where a handle is empty.
#[unsafe(no_mangle)]
pub extern "C" fn jsonpath_exists(
    alloc: Global,
    path: PathRef,
    document: DocumentRef,
    exists: &mut u8,
) -> u8
    ensures statuses { (result ≡ 0) ⊎ (result ≡ 3) ⊎ (result ≡ 4) ⊎ (result ≡ 7) }
    ensures done { result ≡ 0 → SelectThose path.value document.value
        (TellsSome exists.new) }
    ensures asked { IsAsked path.value document.value result }
    ensures kept_exists { result ≢ 0 → exists.new ≡ exists.old }
{
    let Some((asked, read)) = get_both(path, document) else {
        return EMPTY_HANDLE;
    };
    let found = selects_some(alloc, asked, &read.json);
    put_answer(found.map_err(query_status), exists)
}
