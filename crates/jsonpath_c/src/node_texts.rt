//! The texts of selected nodes: their locations, and what stands there in a document.

ghost use Rattle.std.specs.Prelude.{◌≡◌, ◌⊎◌, ℕ, List, None, IfOk, slice_get, string_bytes, ⊤};
ghost use Rattle.jsonpath_c.specs.Clauses.{MatchOption, string, normal, pointer, location_of, IsJsonOf, AnswersText, HasValueAt, IsOfNode, IsPast, StandsAt, TellsEitherEmpty, TellsEmpty, location_text};

use crate::handle::document::{Document, DocumentRef};
use crate::handle::nodes::{Nodes, NodesRef};
use crate::output::put;
use crate::status::{EMPTY_HANDLE, NO_MEMORY, NO_SUCH_NODE};
use nullable_box::{Lent, get_both};
use serde_json::Value;
use serde_json_path::NormalizedPath;
use std::alloc::{AllocError, Global};

/// How a location is written.
#[derive(Clone, Copy)]
pub enum LocationForm {
    /// As a normalised path.
    Path,
    /// As a JSON pointer.
    Pointer,
}

/// The text of a location.
fn printed(
    alloc: Global,
    location: &NormalizedPath<'_>,
    form: LocationForm,
) -> Result<String, AllocError>
    ensures { IfOk result (λ text. string_bytes text ≡ location_text form location.now) }
{
    match form {
        LocationForm::Path => location.to_text(alloc),
        LocationForm::Pointer => location.to_json_pointer(alloc),
    }
}

/// Puts the location of a node.
fn put_location(
    alloc: Global,
    list: &Nodes,
    index: usize,
    form: LocationForm,
    out: &mut [u8],
    size: &mut usize,
) -> u8
    ensures text { AnswersText (λ text. MatchOption (slice_get list.now.nodes index) ⊥ (λ node.
        text ≡ location_text form (location_of node))) out.old out.new size.old size.new result }
    ensures statuses { (result ≡ 0) ⊎ (result ≡ 4) ⊎ (result ≡ 5) ⊎ (result ≡ 10) }
    ensures past { result ≡ 10 → slice_get list.now.nodes index ≡ None }
{
    let location = match list.nodes.location(alloc, index) {
        Ok(Some(location)) => location,
        Ok(None) => return NO_SUCH_NODE,
        Err(_) => return NO_MEMORY,
    };
    match printed(alloc, &location, form) {
        Ok(text) => put(text.as_str(), out, size),
        Err(_) => NO_MEMORY,
    }
}

/// Puts the normalised path of the node at an index, from 0: 0; 4 without memory; 5 where it finds no room; 7 of an empty
/// handle; 10 past the last node.
#[unsafe(no_mangle)]
pub extern "C" fn jsonpath_node_location(
    alloc: Global,
    nodes: NodesRef,
    index: usize,
    out: &mut [u8],
    size: &mut usize,
) -> u8
    ensures text { AnswersText (IsOfNode normal nodes.value index) out.old out.new size.old
        size.new result }
    ensures statuses { (result ≡ 0) ⊎ (result ≡ 4) ⊎ (result ≡ 5) ⊎ (result ≡ 7) ⊎ (result ≡ 10) }
    ensures past { result ≡ 10 → IsPast nodes.value index }
    ensures empty { TellsEmpty nodes.value result }
{
    let Some(list) = nodes.get() else {
        return EMPTY_HANDLE;
    };
    put_location(alloc, list, index, LocationForm::Path, out, size)
}

/// The same with the JSON pointer of the node (RFC 6901).
#[unsafe(no_mangle)]
pub extern "C" fn jsonpath_node_pointer(
    alloc: Global,
    nodes: NodesRef,
    index: usize,
    out: &mut [u8],
    size: &mut usize,
) -> u8
    ensures text { AnswersText (IsOfNode pointer nodes.value index) out.old out.new size.old
        size.new result }
    ensures statuses { (result ≡ 0) ⊎ (result ≡ 4) ⊎ (result ≡ 5) ⊎ (result ≡ 7) ⊎ (result ≡ 10) }
    ensures past { result ≡ 10 → IsPast nodes.value index }
    ensures empty { TellsEmpty nodes.value result }
{
    let Some(list) = nodes.get() else {
        return EMPTY_HANDLE;
    };
    put_location(alloc, list, index, LocationForm::Pointer, out, size)
}

/// Puts the bytes of the string that stands in a document where the node at an index was, from 0: 0; 5 where they find no
/// room; 7 where a handle is empty; 10 past the last node, and where no string stands there.
#[unsafe(no_mangle)]
pub extern "C" fn jsonpath_node_text(
    nodes: NodesRef,
    document: DocumentRef,
    index: usize,
    out: &mut [u8],
    size: &mut usize,
) -> u8
    ensures text { AnswersText (λ text. StandsAt nodes.value index document.value (λ v.
        v ≡ string text)) out.old out.new size.old size.new result }
    ensures statuses { (result ≡ 0) ⊎ (result ≡ 5) ⊎ (result ≡ 7) ⊎ (result ≡ 10) }
    ensures absent { result ≡ 10 → StandsAt nodes.value index document.value
        (λ v. (text : List ℕ) × (v ≡ string text)) → ⊥ }
    ensures empty { TellsEitherEmpty nodes.value document.value result }
{
    let Some((list, read)) = get_both(nodes, document) else {
        return EMPTY_HANDLE;
    };
    match list.nodes.value_in(index, &read.json) {
        Some(Value::String(text)) => put(text.as_str(), out, size),
        _ => NO_SUCH_NODE,
    }
}

/// Puts the compact JSON of the value that stands in a document where the node at an index was, from 0.
fn put_json(
    alloc: Global,
    list: &Nodes,
    document: &Document,
    index: usize,
    out: &mut [u8],
    size: &mut usize,
) -> u8
    ensures text { AnswersText (λ text. HasValueAt list.now index document.now (λ v.
        IsJsonOf v text)) out.old out.new size.old size.new result }
    ensures statuses { (result ≡ 0) ⊎ (result ≡ 4) ⊎ (result ≡ 5) ⊎ (result ≡ 10) }
    ensures absent { result ≡ 10 → HasValueAt list.now index document.now (λ v. ⊤) → ⊥ }
{
    let Some(value) = list.nodes.value_in(index, &document.json) else {
        return NO_SUCH_NODE;
    };
    match value.to_string(alloc) {
        Ok(json) => put(json.as_str(), out, size),
        Err(_) => NO_MEMORY,
    }
}

/// Puts the compact JSON of the value that stands in a document where the node at an index was, from 0: 0; 4 without memory; 5
/// where it finds no room; 7 where a handle is empty; 10 past the last node, and where nothing stands there.
#[unsafe(no_mangle)]
pub extern "C" fn jsonpath_node_json(
    alloc: Global,
    nodes: NodesRef,
    document: DocumentRef,
    index: usize,
    out: &mut [u8],
    size: &mut usize,
) -> u8
    ensures text { AnswersText (λ text. StandsAt nodes.value index document.value (λ v.
        IsJsonOf v text)) out.old out.new size.old size.new result }
    ensures statuses { (result ≡ 0) ⊎ (result ≡ 4) ⊎ (result ≡ 5) ⊎ (result ≡ 7) ⊎ (result ≡ 10) }
    ensures absent { result ≡ 10 → StandsAt nodes.value index document.value
        (λ v. ⊤) → ⊥ }
    ensures empty { TellsEitherEmpty nodes.value document.value result }
{
    let Some((list, read)) = get_both(nodes, document) else {
        return EMPTY_HANDLE;
    };
    put_json(alloc, list, read, index, out, size)
}
