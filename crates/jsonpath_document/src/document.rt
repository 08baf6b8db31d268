//! Documents from bytes, and what stands where bytes are no document.

ghost use Rattle.std.specs.Prelude.{◌≡◌, ◌≢◌, ◌+◌, ◌-◌, ◌<◌, ◌≤◌, ◌↔◌, ◌++◌, IfErr, IfOk, List, ℕ};
ghost use Rattle.std.specs.Prelude.{drop, false, length, slice_index, take, true};
ghost use Rattle.std.specs.Str.{IsUtf8};
ghost use Rattle.std.specs.Str.Lossy.{utf8_valid_len};
ghost use Rattle.serde_json.specs.Data.{Data};
ghost use Rattle.serde_json.specs.View.{view};
ghost use Rattle.jsonpath_document.specs.Document.{BeginsNone, IsBeginning, IsDocument, IsFaultIn, IsTold};
ghost use Rattle.jsonpath_document.specs.Document.{ReadsAs, is_at_its_byte, message_of};
ghost use Rattle.jsonpath_document.specs.Place.{are_blank, is_continuation, is_too_deep_after};
ghost use Rattle.jsonpath_document.specs.Place.{is_too_deep_at, place_after};
ghost use Rattle.jsonpath_document.specs.Reading.{IsCutOff};

use crate::faults::{fault_of, is_too_deep};
use crate::place::are_blank;
use crate::reading::{Stop, read};
use serde_json::Value;
use std::alloc::Global;
use std::fmt;
use std::str::from_utf8;

/// What is met where a document is refused.
#[derive(Clone, Copy, Debug, PartialEq, Eq)]
pub enum DocumentFault {
    /// A byte order mark before the document.
    ByteOrderMark,
    /// A byte that is no part of a character of UTF-8.
    NotUtf8,
    /// The end of an input that has blanks alone, or nothing.
    Empty,
    /// The end, before the document is complete.
    CutShort,
    /// A comment, by `//`, `/*` or `#`.
    Comment,
    /// A single quote where a value or a name may begin.
    SingleQuote,
    /// `NaN` or `Infinity`, with or without a sign.
    NotFinite,
    /// A comma before the end of an array or an object.
    TrailingComma,
    /// A value or a name after a value, with no comma between them.
    MissingComma,
    /// Anything but a colon after a name.
    MissingColon,
    /// A name without quotes.
    NameWithoutQuotes,
    /// `true`, `false`, `null` or `none` in other letters than JSON's, as `True` or `None`.
    OtherWord,
    /// A number that begins with 0 and a digit, with or without a minus sign.
    LeadingZero,
    /// A plus sign before a number.
    PlusSign,
    /// A point of a number with no digit before it, or none after it.
    BarePoint,
    /// A control character in a string, which is not written as an escape.
    ControlCharacter,
    /// A backslash in a string that begins no escape.
    BadEscape,
    /// An escape of half a pair of surrogates, without the other half.
    LoneSurrogate,
    /// A bracket or a brace within 127 others.
    TooDeep,
    /// A number beyond those of floats.
    NumberOutOfRange,
    /// A second document after the first.
    SecondDocument,
    /// Anything else that is no JSON.
    NotJson,
    /// Nothing: memory was refused.
    Memory,
}

/// Where and why a document is refused.
#[derive(Clone, Copy, Debug, PartialEq, Eq)]
pub struct DocumentError {
    /// The line, from 1. Lines end by line feeds.
    pub line: usize,
    /// The number of the character in the line, from 1.
    pub column: usize,
    /// The number of the byte, from 1.
    pub position: usize,
    /// What is met there.
    pub fault: DocumentFault,
}

impl DocumentFault {
    /// The fault in words, as `a comma with nothing after it`.
    pub fn message(&self) -> &'static str
        ensures { result.now ≡ message_of self.now }
    {
        match self {
            DocumentFault::ByteOrderMark => "a byte order mark, which JSON does not begin with",
            DocumentFault::NotUtf8 => "a byte that is not UTF-8",
            DocumentFault::Empty => "no document, the input is empty",
            DocumentFault::CutShort => "the document ends too soon",
            DocumentFault::Comment => "a comment, which JSON does not have",
            DocumentFault::SingleQuote => "a single quote, where JSON has double quotes",
            DocumentFault::NotFinite => "NaN or Infinity, which JSON does not have",
            DocumentFault::TrailingComma => "a comma with nothing after it",
            DocumentFault::MissingComma => "a comma is missing before this",
            DocumentFault::MissingColon => "a colon is missing after a name",
            DocumentFault::NameWithoutQuotes => "a name without double quotes",
            DocumentFault::OtherWord => "a word that JSON writes as true, false or null",
            DocumentFault::LeadingZero => "a number that begins with 0 and a digit",
            DocumentFault::PlusSign => "a number with a plus sign before it",
            DocumentFault::BarePoint => "a point without digits on both sides",
            DocumentFault::ControlCharacter => {
                "a control character in a string, where JSON has an escape as \\t"
            }
            DocumentFault::BadEscape => "a backslash that begins no escape of JSON",
            DocumentFault::LoneSurrogate => "an escape of half a pair of surrogates",
            DocumentFault::TooDeep => "more than 127 levels of arrays and objects",
            DocumentFault::NumberOutOfRange => "a number that is too large",
            DocumentFault::SecondDocument => "a second document (is it NDJSON? use -L)",
            DocumentFault::NotJson => "not JSON",
            DocumentFault::Memory => "no memory",
        }
    }
}

impl fmt::Display for DocumentFault {
    ghost use Rattle.std.specs.Prelude.{Some};
    ghost use Rattle.jsonpath_document.specs.Document.{message_of};

    ghost output = { λ fault. Some (message_of fault) };

    fn fmt<W: fmt::Write>(&self, f: &mut fmt::Formatter<W>) -> fmt::Result {
        f.write_str(self.message())
    }
}

impl fmt::Display for DocumentError {
    ghost use Rattle.std.specs.Prelude.{Some};
    ghost use Rattle.jsonpath_document.specs.Document.{error_text};

    ghost output = { λ e. Some (error_text e) };

    fn fmt<W: fmt::Write>(&self, f: &mut fmt::Formatter<W>) -> fmt::Result {
        if self.fault != DocumentFault::Memory {
            write!(f, "line {}, column {}: ", self.line, self.column)?;
        }
        write!(f, "{}", self.fault)
    }
}

impl DocumentError {
    /// A fault that stands after a text.
    fn after(before: &[u8], fault: DocumentFault) -> DocumentError
        ensures fault { result.fault ≡ fault }
        ensures place { (result.line, result.column) ≡ place_after before.now }
        ensures position { result.position ≡ length before.now + 1 }
    {
        let mut line = 1usize;
        let mut column = 1usize;
        for byte in before {
            if *byte == b'\n' {
                line += 1;
                column = 1;
            } else if !is_continuation(*byte) {
                column += 1;
            }
        }
        DocumentError {
            line,
            column,
            position: before.len() + 1,
            fault,
        }
    }
}

/// Whether a byte of UTF-8 goes on with a character that has begun.
fn is_continuation(byte: u8) -> bool
    ensures { result ≡ is_continuation byte }
{
    128 <= byte && byte < 192
}

/// What is told of a value after a document, where the text before it is one.
fn second_document(alloc: Global, bytes: &[u8], count: usize) -> DocumentError
    requires { (count ≤ length bytes.now) × (is_too_deep_after bytes.now count ≡ false) }
    ensures told { IsTold bytes.now result }
    ensures second { result.fault ≡ DocumentFault.SecondDocument
        → IsDocument (take (result.position - 1) bytes.now) }
    ensures place { result.fault ≢ DocumentFault.Memory → result.position ≡ count + 1 }
{
    let (first, _) = bytes.split_at(count);
    match Value::from_slice(alloc, first) {
        Ok(_) => DocumentError::after(first, DocumentFault::SecondDocument),
        Err(error) if error.is_memory() => DocumentError::after(b"", DocumentFault::Memory),
        Err(_) => DocumentError::after(first, DocumentFault::NotJson),
    }
}

/// What is told of a text that breaks at a place.
fn told(alloc: Global, bytes: &[u8], stop: &Stop) -> DocumentError
    requires within { (stop.now.at ≤ length bytes.now) × (stop.now.start ≤ stop.now.at) }
    requires broken { stop.now.is_too_large ≡ false
        → BeginsNone (take (stop.now.at + 1) bytes.now) }
    requires kept { stop.now.is_too_large ≡ false → IsBeginning (take stop.now.at bytes.now) }
    requires number { stop.now.is_too_large ≡ true → IsBeginning (take stop.now.start bytes.now) }
    ensures told { IsTold bytes.now result }
    ensures second { result.fault ≡ DocumentFault.SecondDocument
        → IsDocument (take (result.position - 1) bytes.now) }
    ensures breaks { is_at_its_byte result.fault ≡ true
        → BeginsNone (take result.position bytes.now) }
    ensures kept { result.fault ≢ DocumentFault.Memory
        → IsBeginning (take (result.position - 1) bytes.now) }
{
    let (count, fault) = fault_of(bytes, stop);
    let (before, _) = bytes.split_at(count);
    if is_too_deep(bytes, count) {
        return DocumentError::after(before, DocumentFault::TooDeep);
    }
    match fault {
        DocumentFault::SecondDocument => second_document(alloc, bytes, count),
        fault => DocumentError::after(before, fault),
    }
}

/// How many bytes stand before the first that is no part of a character of UTF-8, and whether all may go on as a text: they are
/// one, or end within a character.
fn text_of(bytes: &[u8]) -> (usize, bool)
    ensures within { result.0 ≤ length bytes.now }
    ensures text { IsUtf8 (take result.0 bytes.now) }
    ensures whole { IsUtf8 bytes.now → result.0 ≡ length bytes.now }
    ensures longest { result.0 ≡ utf8_valid_len bytes.now }
    ensures high { result.0 < length bytes.now → 128 ≤ slice_index bytes.now result.0 }
    ensures cut_off { result.1 ≡ true → IsCutOff (drop result.0 bytes.now) }
    ensures never { result.1 ≡ false → (rest : List ℕ) → IsUtf8 (bytes.now ++ rest) → ⊥ }
{
    match from_utf8(bytes) {
        Ok(_) => (bytes.len(), true),
        Err(e) => (e.valid_up_to(), e.error_len().is_none()),
    }
}

/// What is told of bytes that a document may go on with.
fn unfinished(bytes: &[u8]) -> DocumentError
    ensures stands { IsFaultIn bytes.now result }
    ensures fault { result.fault ≡ DocumentFault.CutShort }
    ensures position { result.position ≡ length bytes.now + 1 }
{
    DocumentError::after(bytes, DocumentFault::CutShort)
}

/// Why bytes are refused.
fn refused(alloc: Global, bytes: &[u8]) -> DocumentError
    ensures stands { result.fault ≢ DocumentFault.Memory → IsFaultIn bytes.now result }
    ensures not_utf8 { result.fault ≡ DocumentFault.NotUtf8 → IsUtf8 bytes.now → ⊥ }
    ensures first { result.fault ≡ DocumentFault.NotUtf8
        → result.position ≡ utf8_valid_len bytes.now + 1 }
    ensures too_deep { result.fault ≡ DocumentFault.TooDeep
        → is_too_deep_at bytes.now result.position ≡ true }
    ensures not_too_deep { IsUtf8 bytes.now → result.fault ≢ DocumentFault.Memory
        → result.fault ≢ DocumentFault.TooDeep → is_too_deep_at bytes.now result.position ≡ false }
    ensures memory { result.fault ≡ DocumentFault.Memory → 0 < length bytes.now }
    ensures empty { (result.fault ≡ DocumentFault.Empty) ↔ (are_blank bytes.now ≡ true) }
    ensures second { result.fault ≡ DocumentFault.SecondDocument
        → IsDocument (take (result.position - 1) bytes.now) }
    ensures breaks { is_at_its_byte result.fault ≡ true
        → BeginsNone (take result.position bytes.now) }
    ensures cut { result.fault ≢ DocumentFault.Empty → result.fault ≢ DocumentFault.Memory
        → (result.fault ≡ DocumentFault.CutShort) ↔ IsBeginning bytes.now }
    ensures kept { result.fault ≢ DocumentFault.Memory
        → IsBeginning (take (result.position - 1) bytes.now) }
{
    if are_blank(bytes) {
        return DocumentError::after(bytes, DocumentFault::Empty);
    }
    if bytes.starts_with(b"\xef\xbb\xbf") {
        return DocumentError::after(b"", DocumentFault::ByteOrderMark);
    }
    let (count, may_go_on) = text_of(bytes);
    let (text, _) = bytes.split_at(count);
    let stop = read(text);
    if stop.is_too_large || stop.at < text.len() {
        return told(alloc, bytes, &stop);
    }
    // A character of a string may go on.
    if count == bytes.len() || stop.is_in_string() && may_go_on {
        return unfinished(bytes);
    }
    DocumentError::after(text, DocumentFault::NotUtf8)
}

/// Reads a document from its bytes, as `serde_json` does: it takes 127 levels of arrays and objects, no number beyond those
/// of floats, and of a name that an object has twice the last value.
///
/// It fails where the bytes are no such document, with the place of the fault and what is met there. It fails with
/// [`DocumentFault::Memory`], at the first character, where memory is refused.
///
/// ```text
/// read_document(alloc, b"{\"a\": 1,\n}")
/// gives line 1, column 8: a comma with nothing after it
/// ```
pub fn read_document(alloc: Global, bytes: &[u8]) -> Result<Value, DocumentError>
    ensures ok { IfOk result (λ value. ReadsAs bytes.now (view value)) }
    ensures refused { IfErr result (λ e. e.fault ≢ DocumentFault.Memory
        → (d : Data) → ReadsAs bytes.now d → ⊥) }
    ensures stands { IfErr result (λ e. e.fault ≢ DocumentFault.Memory → IsFaultIn bytes.now e) }
    ensures not_utf8 { IfErr result (λ e. e.fault ≡ DocumentFault.NotUtf8 → IsUtf8 bytes.now → ⊥) }
    ensures first { IfErr result (λ e. e.fault ≡ DocumentFault.NotUtf8
        → e.position ≡ utf8_valid_len bytes.now + 1) }
    ensures too_deep { IfErr result (λ e. e.fault ≡ DocumentFault.TooDeep
        → is_too_deep_at bytes.now e.position ≡ true) }
    ensures not_too_deep { IfErr result (λ e. IsUtf8 bytes.now → e.fault ≢ DocumentFault.Memory
        → e.fault ≢ DocumentFault.TooDeep → is_too_deep_at bytes.now e.position ≡ false) }
    ensures memory { IfErr result (λ e. e.fault ≡ DocumentFault.Memory → 0 < length bytes.now) }
    ensures empty { IfErr result (λ e. e.fault ≢ DocumentFault.Memory
        → (e.fault ≡ DocumentFault.Empty) ↔ (are_blank bytes.now ≡ true)) }
    ensures second { IfErr result (λ e. e.fault ≡ DocumentFault.SecondDocument
        → IsDocument (take (e.position - 1) bytes.now)) }
    ensures whole { IfErr result (λ e. e.fault ≡ DocumentFault.Empty → IsBeginning bytes.now) }
    ensures breaks { IfErr result (λ e. is_at_its_byte e.fault ≡ true
        → IsBeginning (take e.position bytes.now) → ⊥) }
    ensures cut { IfErr result (λ e. e.fault ≢ DocumentFault.Empty → e.fault ≢ DocumentFault.Memory
        → (e.fault ≡ DocumentFault.CutShort) ↔ IsBeginning bytes.now) }
    ensures kept { IfErr result (λ e. e.fault ≢ DocumentFault.Memory
        → IsBeginning (take (e.position - 1) bytes.now)) }
{
    match Value::from_slice(alloc, bytes) {
        Ok(value) => Ok(value),
        Err(error) => {
            if error.is_memory() {
                return Err(DocumentError::after(b"", DocumentFault::Memory));
            }
            Err(refused(alloc, bytes))
        }
    }
}
