//! What is wrong where a document breaks.

ghost use Rattle.std.specs.Prelude.{◌≡◌, ◌≢◌, ◌≤◌, IfSome, List, false, length, true, ℕ};
ghost use Rattle.jsonpath_document.specs.Document.{IsMetAt, IsMetBetween, is_at_its_byte, stands};
ghost use Rattle.jsonpath_document.specs.Place.{is_too_deep_after};

use crate::begins::{
    begins_bad_escape, begins_by, begins_comment, begins_control, begins_item, begins_leading_zero,
    begins_lone_surrogate, begins_not_finite, begins_other_word, begins_plus_sign, begins_value,
    begins_word,
};
use crate::document::DocumentFault;
use crate::place::{
    is_bare_point, is_blank, opened_after, wants_colon, wants_comma, wants_name, wants_value,
};
use crate::reading::{MOST_LEVELS, Next, Stop};

/// A place, by how many bytes stand before it, and what is wrong there.
type Met = (usize, DocumentFault);

/// Whether another array or object begins after so many bytes of a text, within as many as `serde_json` takes.
pub(crate) fn is_too_deep(bytes: &[u8], count: usize) -> bool
    requires { count ≤ length bytes.now }
    ensures { result ≡ is_too_deep_after bytes.now count }
{
    let (before, after) = bytes.split_at(count);
    let (levels, _, _) = opened_after(before);
    (begins_by(after, b'[') || begins_by(after, b'{'))
        && levels >= MOST_LEVELS
        && wants_value(before)
}

/// What is wrong in a string, if anything.
fn fault_in_string(before: &[u8], rest: &[u8]) -> Option<DocumentFault>
    ensures met { IfSome result (λ fault. IsMetBetween before.now rest.now fault) }
    ensures earlier { IfSome result (λ fault. is_at_its_byte fault ≡ false) }
{
    let (_, in_string, is_escaped) = opened_after(before);
    if !in_string || is_escaped {
        return None;
    }
    if begins_control(rest) {
        return Some(DocumentFault::ControlCharacter);
    }
    if begins_bad_escape(rest) {
        return Some(DocumentFault::BadEscape);
    }
    begins_lone_surrogate(rest).then_some(DocumentFault::LoneSurrogate)
}

/// What is wrong in a string after so many bytes of a text.
fn string_fault_at(bytes: &[u8], count: usize) -> Option<Met>
    ensures met { IfSome result (λ met. IsMetAt bytes.now met.0 met.1) }
    ensures earlier { IfSome result (λ met. is_at_its_byte met.1 ≡ false) }
    ensures within { IfSome result (λ met. met.0 ≤ count) }
{
    let (before, rest) = bytes.split_at_checked(count)?;
    let fault = fault_in_string(before, rest)?;
    Some((count, fault))
}

/// What is wrong with an escape, or with a pair of them, that breaks at a place.
fn string_fault(bytes: &[u8], stop: &Stop) -> Option<Met>
    requires { stop.now.start ≤ stop.now.at }
    ensures met { IfSome result (λ met. IsMetAt bytes.now met.0 met.1) }
    ensures earlier { IfSome result (λ met. is_at_its_byte met.1 ≡ false) }
    ensures within { IfSome result (λ met. met.0 ≤ stop.now.at) }
{
    match string_fault_at(bytes, stop.start) {
        Some(met) => Some(met),
        // The second half of a pair follows the six bytes of the first.
        None if stop.at - stop.start >= 6 => string_fault_at(bytes, stop.start + 6),
        None => None,
    }
}

/// What is wrong with a word after so many bytes of a text.
fn word_fault(bytes: &[u8], start: usize) -> Option<Met>
    ensures met { IfSome result (λ met. IsMetAt bytes.now met.0 met.1) }
    ensures earlier { IfSome result (λ met. is_at_its_byte met.1 ≡ false) }
    ensures within { IfSome result (λ met. met.0 ≤ start) }
{
    let (_, word) = bytes.split_at_checked(start)?;
    begins_other_word(word).then_some((start, DocumentFault::OtherWord))
}

/// A point without digits on both sides after so many bytes of a text.
fn bare_point(bytes: &[u8], count: usize) -> Option<Met>
    ensures met { IfSome result (λ met. IsMetAt bytes.now met.0 met.1) }
    ensures earlier { IfSome result (λ met. is_at_its_byte met.1 ≡ false) }
    ensures within { IfSome result (λ met. met.0 ≤ count) }
{
    let (before, after) = bytes.split_at_checked(count)?;
    is_bare_point(before, after).then_some((count, DocumentFault::BarePoint))
}

/// What is wrong with a number that breaks at a place.
fn number_fault(bytes: &[u8], stop: &Stop) -> Option<Met>
    requires { stop.now.start ≤ stop.now.at }
    ensures met { IfSome result (λ met. IsMetAt bytes.now met.0 met.1) }
    ensures earlier { IfSome result (λ met. is_at_its_byte met.1 ≡ false) }
    ensures within { IfSome result (λ met. met.0 ≤ stop.now.at) }
{
    let (_, number) = bytes.split_at_checked(stop.start)?;
    if begins_leading_zero(number) {
        return Some((stop.start, DocumentFault::LeadingZero));
    }
    if begins_not_finite(number) {
        return Some((stop.start, DocumentFault::NotFinite));
    }
    match bare_point(bytes, stop.at) {
        Some(met) => Some(met),
        None => bare_point(bytes, stop.at.checked_sub(1)?),
    }
}

/// The comma before a bracket or a brace that closes, and before blanks.
fn trailing_comma(bytes: &[u8], at: usize) -> Option<Met>
    ensures met { IfSome result (λ met. IsMetAt bytes.now met.0 met.1) }
    ensures earlier { IfSome result (λ met. is_at_its_byte met.1 ≡ false) }
    ensures within { IfSome result (λ met. met.0 ≤ at) }
{
    let (before, rest) = bytes.split_at_checked(at)?;
    if !begins_by(rest, b']') && !begins_by(rest, b'}') {
        return None;
    }
    let last = before.iter().rposition(|byte| !is_blank(*byte))?;
    let (_, from_last) = bytes.split_at_checked(last)?;
    begins_by(from_last, b',').then_some((last, DocumentFault::TrailingComma))
}

/// What a place has that other languages have and JSON has not.
fn of_other_languages(rest: &[u8]) -> Option<DocumentFault>
    ensures { IfSome result (λ fault. (before : List ℕ) → IsMetBetween before rest.now fault) }
{
    if begins_comment(rest) {
        return Some(DocumentFault::Comment);
    }
    if begins_by(rest, b'\'') {
        return Some(DocumentFault::SingleQuote);
    }
    begins_not_finite(rest).then_some(DocumentFault::NotFinite)
}

/// What a place has that begins no value.
fn value_fault(before: &[u8], rest: &[u8]) -> DocumentFault
    ensures { IsMetBetween before.now rest.now result }
{
    if begins_other_word(rest) {
        return DocumentFault::OtherWord;
    }
    if begins_plus_sign(rest) {
        return DocumentFault::PlusSign;
    }
    if is_bare_point(before, rest) {
        return DocumentFault::BarePoint;
    }
    DocumentFault::NotJson
}

/// What is wrong between two texts, where this might have come next.
fn fault_between(before: &[u8], rest: &[u8], next: Next) -> DocumentFault
    ensures { IsMetBetween before.now rest.now result }
{
    if let Some(fault) = of_other_languages(rest) {
        return fault;
    }
    match next {
        Next::FirstName | Next::Name if wants_name(before) && begins_word(rest) => {
            DocumentFault::NameWithoutQuotes
        }
        Next::Colon if wants_colon(before) && !begins_by(rest, b':') => DocumentFault::MissingColon,
        Next::AfterValue if wants_comma(before) && begins_item(rest) => DocumentFault::MissingComma,
        Next::AfterValue if begins_value(rest) => DocumentFault::SecondDocument,
        Next::Word(_) | Next::Number(_) | Next::Text(_) | Next::NameText(_) => {
            DocumentFault::NotJson
        }
        _ => value_fault(before, rest),
    }
}

/// What is wrong with the word, the number or the string that breaks at a place, or with the comma before it.
fn fault_before(bytes: &[u8], stop: &Stop) -> Option<Met>
    requires { stop.now.start ≤ stop.now.at }
    ensures met { IfSome result (λ met. IsMetAt bytes.now met.0 met.1) }
    ensures earlier { IfSome result (λ met. is_at_its_byte met.1 ≡ false) }
    ensures within { IfSome result (λ met. met.0 ≤ stop.now.at) }
{
    match stop.next {
        Next::Text(_) | Next::NameText(_) => string_fault(bytes, stop),
        Next::Word(_) => word_fault(bytes, stop.start),
        Next::Number(_) => number_fault(bytes, stop),
        _ => trailing_comma(bytes, stop.at),
    }
}

/// What is wrong where a text breaks. How deep the place is, is not looked at.
pub(crate) fn fault_of(bytes: &[u8], stop: &Stop) -> Met
    requires { (stop.now.at ≤ length bytes.now) × (stop.now.start ≤ stop.now.at) }
    ensures met { IsMetAt bytes.now result.0 result.1 }
    ensures within { result.0 ≤ stop.now.at }
    ensures at_number { stop.now.is_too_large ≡ true → result.0 ≡ stop.now.start }
    ensures at_its_byte { is_at_its_byte result.1 ≡ true
        → (result.0 ≡ stop.now.at) × (stop.now.is_too_large ≡ false) }
{
    if stop.is_too_large {
        return (stop.start, DocumentFault::NumberOutOfRange);
    }
    if let Some(met) = fault_before(bytes, stop) {
        return met;
    }
    let (before, rest) = bytes.split_at(stop.at);
    (stop.at, fault_between(before, rest, stop.next))
}
