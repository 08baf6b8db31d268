//! Numbers of a document that a double does not hold with all their digits, so that they are printed otherwise.

use serde_json::Value;
use std::str::from_utf8;

/// How many digits a double holds of any number.
const DIGITS: usize = 17;

/// Whether the JSON of a value may have a number that was written with more digits than are kept.
#[inline(always)]
pub(crate) fn may_be_inexact(value: &Value) -> bool {
    match value {
        Value::Number(number) => number.is_f64(),
        Value::Array(_) | Value::Object(_) => true,
        _ => false,
    }
}

/// Whether a byte stands in a number.
fn is_of_number(byte: u8) -> bool {
    byte.is_ascii_digit() || matches!(byte, b'.' | b'e' | b'E' | b'+' | b'-')
}

/// How many digits of a number count: neither zeros before the others, nor those at the end of a fraction.
fn significant_digits(number: &str) -> usize {
    let mantissa = number.split(['e', 'E']).next().unwrap_or(number);
    let mantissa = if mantissa.contains('.') {
        mantissa.trim_end_matches('0')
    } else {
        mantissa
    };
    let digits = mantissa.trim_start_matches(['-', '0', '.']);
    digits.chars().filter(|c| c.is_ascii_digit()).count()
}

/// Whether a number of JSON has more digits than are kept.
fn is_inexact(number: &str) -> bool {
    if number.parse::<u64>().is_ok() || number.parse::<i64>().is_ok() {
        return false;
    }
    let is_whole = !number.contains(['.', 'e', 'E']);
    is_whole || significant_digits(number) > DIGITS
}

/// Whether a byte of a number stands in a place.
#[inline(always)]
fn has_number_at(bytes: &[u8], place: usize) -> bool {
    match bytes.get(place) {
        Some(byte) => is_of_number(*byte),
        None => false,
    }
}

/// Whether all of some bytes stand in numbers.
fn are_of_numbers(bytes: &[u8]) -> bool {
    for byte in bytes {
        if !is_of_number(*byte) {
            return false;
        }
    }
    true
}

/// Whether a number around a place may have more than [`DIGITS`] bytes: then nine of them stand before the place, or after it. The
/// farthest of these tells of most numbers that they are shorter.
// Not inlined, so that what it computes of a place is not computed of each.
#[inline(never)]
fn may_be_long(bytes: &[u8], index: usize) -> bool {
    const HALF: usize = DIGITS / 2 + 1;
    let (start, end) = (index.saturating_sub(HALF), index.saturating_add(HALF));
    if has_number_at(bytes, end) && bytes.get(index..end).is_some_and(are_of_numbers) {
        return true;
    }
    index >= HALF
        && has_number_at(bytes, start)
        && bytes.get(start..index).is_some_and(are_of_numbers)
}

/// The bytes around a place that may stand in a number, and how many stand before them.
fn number_around(bytes: &[u8], index: usize) -> (&[u8], usize) {
    let (before, after) = bytes.split_at(index.min(bytes.len()));
    let earlier = before
        .iter()
        .rev()
        .take_while(|byte| is_of_number(**byte))
        .count();
    let later = after.iter().take_while(|byte| is_of_number(**byte)).count();
    let start = index.saturating_sub(earlier);
    let number = bytes.get(start..index.saturating_add(later));
    (number.unwrap_or(&[]), start)
}

/// Where strings of JSON begin and end, up to a place.
#[derive(Drop)]
struct Strings<'a> {
    left: &'a [u8],
    passed: usize,
    is_inside: bool,
    is_escaped: bool,
}

impl Strings<'_> {
    /// Whether a place, which is no earlier than those before, is in a string.
    fn are_around(&mut self, place: usize) -> bool {
        let count = place.saturating_sub(self.passed).min(self.left.len());
        let (passed, left) = self.left.split_at(count);
        for byte in passed {
            if self.is_escaped {
                self.is_escaped = false;
            } else if *byte == b'"' {
                self.is_inside = !self.is_inside;
            } else {
                self.is_escaped = self.is_inside && *byte == b'\\';
            }
        }
        self.left = left;
        self.passed = place;
        self.is_inside
    }
}

/// The first number of a document that has more digits than are kept. A number of so many digits has a byte in one of several
/// places, so that most bytes are not looked at.
pub(crate) fn inexact_number(bytes: &[u8]) -> Option<&str> {
    let mut strings = Strings {
        left: bytes,
        passed: 0,
        is_inside: false,
        is_escaped: false,
    };
    // Where the last token ends, so that a long one is looked at once.
    let mut past = 0usize;
    for number in 0..bytes.len() / DIGITS + 1 {
        let index = number.saturating_mul(DIGITS);
        // Asked of many bytes: one range and two letters take in all bytes of numbers, and two others.
        if !matches!(bytes.get(index), Some(b'+'..=b'9' | b'e' | b'E')) {
            continue;
        }
        if index < past || !may_be_long(bytes, index) {
            continue;
        }
        let (token, start) = number_around(bytes, index);
        past = start.saturating_add(token.len());
        let text = from_utf8(token).unwrap_or("");
        if token.len() > DIGITS && is_inexact(text) && !strings.are_around(start) {
            return Some(text);
        }
    }
    None
}
