//! Questions about documents that are bytes.

ghost use Rattle.std.specs.Prelude.{◌≡◌, ◌≢◌, ◌⊎◌, [], Err, IfErr, IfOk, IfSome, List, Ok, length};
ghost use Rattle.jsonpath_c.specs.Clauses.{AnswersLinesOf, HoldOf, IsAskedOf, IsNoAnswer, IsReached, Located, ReadsAs, SelectsFrom, TellsFault, TellsSome, form_of, status_of, view};

use crate::answers::{counted, form_named, lines_of, put_lines, query_status, selects_some};
use crate::compiled::Compiled;
use crate::documents::document_in;
use crate::handle::path::PathRef;
use crate::limits::Limits;
use crate::output::put_answer;
use crate::status::{EMPTY_HANDLE, NO_MEMORY};
use jsonpath_lines::Form;
use nullable_box::Lent;
use serde_json::Value;
use serde_json_path::{DocumentReader, QueryError, read_for};
use std::alloc::Global;

/// What a path can reach of the document that bytes are, if they are one and memory is there: the nodes, or where a form shows
/// locations alone, their places.
fn reached(alloc: Global, form: Form, path: &Compiled, bytes: &[u8]) -> Option<Value>
    ensures { IfSome result (λ value. IsReached form path.now bytes.now (view value)) }
{
    let paths = [path.tree()];
    match form {
        Form::Location => match DocumentReader::of_places(alloc, &paths) {
            Ok(reader) => reader.read(alloc, bytes).ok(),
            Err(_) => None,
        },
        _ => read_for(alloc, bytes, &paths).ok(),
    }
}

/// What a question gives of what a path can reach of the document that bytes are. Where that cannot be read, or a pattern is
/// refused on it, the whole document is asked, so that a refusal is true of that.
fn asked_of<T, A: Fn(&Value) -> Result<T, QueryError>>(
    alloc: Global,
    form: Form,
    path: &Compiled,
    bytes: &[u8],
    position: &mut usize,
    ask: A,
) -> Result<T, u8>
    requires { A.IsAlwaysCallable ask }
    ensures answered { IfOk result (λ answer. (value : _)
        × IsReached form path.now bytes.now (view value.now) × A.post ask value (Ok answer)) }
    ensures statuses { IfErr result (λ status.
        (status ≡ 2) ⊎ (status ≡ 3) ⊎ (status ≡ 4) ⊎ (status ≡ 9)) }
    ensures fault { TellsFault bytes.now position.old position.new (status_of result) }
    ensures pattern_refused { result ≡ Err 3 → (value : _)
        × ReadsAs bytes.now (view value.now) × A.post ask value (Err QueryError.Pattern) }
{
    if let Some(value) = reached(alloc, form, path, bytes) {
        match ask(&value) {
            Ok(answer) => return Ok(answer),
            Err(QueryError::Memory) => return Err(NO_MEMORY),
            Err(QueryError::Pattern) => {}
        }
    }
    let value = document_in(alloc, bytes, position)?;
    match ask(&value) {
        Ok(answer) => Ok(answer),
        Err(e) => Err(query_status(e)),
    }
}

/// Puts a line for each node that a path selects from the document that bytes are, as `jsonpath_lines` does of a document:
/// statuses and what is put are as there. 2 where the bytes are not JSON and 9 where an array or an object begins within 127
/// others, with the byte, from 1, where that shows.
#[unsafe(no_mangle)]
pub extern "C" fn jsonpath_lines_in(
    alloc: Global,
    path: PathRef,
    document: &[u8],
    form: u8,
    limits: &Limits,
    out: &mut [u8],
    size: &mut usize,
    position: &mut usize,
) -> u8
    ensures answers { IsNoAnswer result ⊎ HoldOf path.value document.now (λ c d.
        AnswersLinesOf (form_of form) limits.now c d out.old out.new size.old size.new result) }
    ensures asked { IsAskedOf path.value document.now position.old position.new result }
    ensures kept_out { IsNoAnswer result → out.new ≡ out.old }
    ensures kept_size { IsNoAnswer result → size.new ≡ size.old }
{
    let Some(asked) = path.get() else {
        return EMPTY_HANDLE;
    };
    let form = form_named(form);
    let found = asked_of(alloc, form, asked, document, position, move |value| {
        lines_of(alloc, form, limits, asked, value)
    });
    match found {
        Ok(lines) => put_lines(&lines, out, size),
        Err(status) => status,
    }
}

/// Counts the nodes that a path selects from the document that bytes are, as `jsonpath_count` does of a document: 0, or a
/// status as there. 2 and 9 as of `jsonpath_lines_in`.
#[unsafe(no_mangle)]
pub extern "C" fn jsonpath_count_in(
    alloc: Global,
    path: PathRef,
    document: &[u8],
    count: &mut usize,
    position: &mut usize,
) -> u8
    ensures done { result ≡ 0 → HoldOf path.value document.now (λ c d.
        (nodes : List Located) × SelectsFrom c d nodes × (count.new ≡ length nodes)) }
    ensures asked { IsAskedOf path.value document.now position.old position.new result }
    ensures statuses { (result ≡ 0) ⊎ (result ≡ 3) ⊎ IsNoAnswer result }
    ensures kept_count { result ≢ 0 → count.new ≡ count.old }
{
    let Some(asked) = path.get() else {
        return EMPTY_HANDLE;
    };
    let found = asked_of(
        alloc,
        Form::Location,
        asked,
        document,
        position,
        move |value| { counted(alloc, asked, value) },
    );
    put_answer(found, count)
}

/// Tells whether a path selects a node from the document that bytes are, as `jsonpath_exists` does of a document: 0 with 1 or
/// 0 in `exists`, or a status as there. 2 and 9 as of `jsonpath_lines_in`.
#[unsafe(no_mangle)]
pub extern "C" fn jsonpath_exists_in(
    alloc: Global,
    path: PathRef,
    document: &[u8],
    exists: &mut u8,
    position: &mut usize,
) -> u8
    ensures done { result ≡ 0 → HoldOf path.value document.now (λ c d.
        (nodes : List Located) × SelectsFrom c d nodes × TellsSome exists.new nodes) }
    ensures asked { IsAskedOf path.value document.now position.old position.new result }
    ensures statuses { (result ≡ 0) ⊎ (result ≡ 3) ⊎ IsNoAnswer result }
    ensures kept_exists { result ≢ 0 → exists.new ≡ exists.old }
{
    let Some(asked) = path.get() else {
        return EMPTY_HANDLE;
    };
    let found = asked_of(
        alloc,
        Form::Location,
        asked,
        document,
        position,
        move |value| { selects_some(alloc, asked, value) },
    );
    put_answer(found, exists)
}
