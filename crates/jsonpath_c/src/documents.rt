//! Documents that are read once.

ghost use Rattle.std.specs.Prelude.{◌≡◌, ◌≢◌, ◌⊎◌, ◌↔◌, None, IfErr, IfOk};
ghost use Rattle.jsonpath_c.specs.Clauses.{AnswersText, BothHold, IsFaultTold, MatchOption, view, ReadsAs, TellsEmpty, TellsFault, status_of};

use crate::handle::document::{Document, DocumentHandle, DocumentRef};
use crate::output::put;
use crate::status::{DOCUMENT_REFUSED, DOCUMENT_TOO_DEEP, DONE, EMPTY_HANDLE, NO_MEMORY};
use jsonpath_document::{DocumentFault, read_document};
use nullable_box::{Handle, Lent};
use serde_json::Value;
use std::alloc::Global;

/// The status of a fault.
fn document_status(fault: DocumentFault) -> u8
    ensures memory { (result ≡ 4) ↔ (fault ≡ DocumentFault.Memory) }
    ensures statuses { (result ≡ 2) ⊎ (result ≡ 4) ⊎ (result ≡ 9) }
    ensures too_deep { (result ≡ 9) ↔ (fault ≡ DocumentFault.TooDeep) }
{
    match fault {
        DocumentFault::Memory => NO_MEMORY,
        DocumentFault::TooDeep => DOCUMENT_TOO_DEEP,
        _ => DOCUMENT_REFUSED,
    }
}

/// The document that bytes are; or tells why they are none: puts the place, and gives the status.
pub(crate) fn document_in(alloc: Global, bytes: &[u8], position: &mut usize) -> Result<Value, u8>
    ensures ok { IfOk result (λ value. ReadsAs bytes.now (view value)) }
    ensures statuses { IfErr result (λ status. (status ≡ 2) ⊎ (status ≡ 4) ⊎ (status ≡ 9)) }
    ensures fault { TellsFault bytes.now position.old position.new (status_of result) }
{
    let e = match read_document(alloc, bytes) {
        Ok(value) => return Ok(value),
        Err(e) => e,
    };
    let status = document_status(e.fault);
    if status != NO_MEMORY {
        *position = e.position;
    }
    Err(status)
}

/// Reads a document: 0 with the document in its handle, in the place of what was there; 2 where it is not JSON and 9 where an
/// array or an object begins within 127 others, with the byte, from 1, where that shows; 4 without memory.
#[unsafe(no_mangle)]
pub extern "C" fn jsonpath_document_new(
    alloc: Global,
    bytes: &[u8],
    document: &mut DocumentHandle,
    position: &mut usize,
) -> u8
    ensures statuses { (result ≡ 0) ⊎ (result ≡ 2) ⊎ (result ≡ 4) ⊎ (result ≡ 9) }
    ensures done { result ≡ 0 → MatchOption document.new.value ⊥ (λ d.
        ReadsAs bytes.now (view d.json.value)) }
    ensures fault { TellsFault bytes.now position.old position.new result }
    ensures kept { result ≢ 0 → document.new.value ≡ document.old.value }
{
    let value = match document_in(alloc, bytes, position) {
        Ok(value) => value,
        Err(status) => return status,
    };
    let Ok(read) = Document::new(alloc, value) else {
        return NO_MEMORY;
    };
    match document.hold(alloc, read) {
        Ok(()) => DONE,
        Err(_) => NO_MEMORY,
    }
}

/// Why bytes are no document, in words, or an empty text of a document: 0, 4 without memory, 5 where it finds no room.
#[unsafe(no_mangle)]
pub extern "C" fn jsonpath_document_message(
    alloc: Global,
    bytes: &[u8],
    out: &mut [u8],
    size: &mut usize,
) -> u8
    ensures text { AnswersText (IsFaultTold bytes.now) out.old out.new size.old size.new result }
    ensures statuses { (result ≡ 0) ⊎ (result ≡ 4) ⊎ (result ≡ 5) }
{
    match read_document(alloc, bytes) {
        Ok(_) => put("", out, size),
        Err(e) if e.fault == DocumentFault::Memory => NO_MEMORY,
        Err(e) => put(e.fault.message(), out, size),
    }
}

/// Makes another owner of a document: 0 with the same document in the handle, in the place of what was there; 4 without memory;
/// 7 of an empty handle.
#[unsafe(no_mangle)]
pub extern "C" fn jsonpath_document_share(
    alloc: Global,
    document: DocumentRef,
    other: &mut DocumentHandle,
) -> u8
    ensures statuses { (result ≡ 0) ⊎ (result ≡ 4) ⊎ (result ≡ 7) }
    ensures empty { TellsEmpty document.value result }
    ensures done { result ≡ 0 → BothHold document.value other.new.value (λ d e.
        e.json.value ≡ d.json.value) }
    ensures kept { result ≢ 0 → other.new.value ≡ other.old.value }
{
    let Some(read) = document.get() else {
        return EMPTY_HANDLE;
    };
    let Ok(shared) = read.share() else {
        return NO_MEMORY;
    };
    match other.hold(alloc, shared) {
        Ok(()) => DONE,
        Err(_) => NO_MEMORY,
    }
}

/// Frees a document and empties its handle. Of an empty handle it does nothing.
#[unsafe(no_mangle)]
pub extern "C" fn jsonpath_document_free(alloc: Global, document: &mut DocumentHandle)
    ensures { document.new.value ≡ None }
{
    drop(document.take(alloc));
}
