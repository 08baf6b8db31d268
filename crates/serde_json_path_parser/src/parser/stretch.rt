//! ASCII characters, many at a time.

ghost use Rattle.std.specs.Prelude.{◌≡◌, ◌==◌, ◌<◌, ◌≤◌, ◌+◌, ◌-◌, ◌++◌, ◌||◌, if◌then◌else◌};
ghost use Rattle.serde_json_path_parser.specs.Inside.Words.{ℕ, Bool, true, length, slice_get, drop, is_ok, string_bytes, Some, is_utf8, chars, IsAscii, is_ascii_name_char, is_ascii_plain, Gathered, Stretched, LooksOn, up_to, is_digit};

use crate::parser::decode::byte_at;
use crate::source::PathSource;
use std::alloc::AllocError;

/// Characters that are taken many at a time.
pub(crate) trait Class {
    /// Whether a character is one of them.
    ghost holds: { Self → ℕ → Bool };

    /// Whether a byte is one of them.
    fn holds(&self, b: u8) -> bool
        ensures { result ≡ holds self.now b };
}

/// Whether a byte is a digit or `_`.
// Out of line, so that a letter is found by one test.
#[inline(never)]
fn is_digit_or_underscore(b: u8) -> bool
    ensures { result ≡ (is_digit b || b == 95) }
{
    b.is_ascii_digit() || b == b'_'
}

/// The ASCII characters of a member name.
#[derive(Drop)]
pub(crate) struct NameChars;

impl Class for NameChars {
    ghost holds = { λ _ c. is_ascii_name_char c };

    fn holds(&self, b: u8) -> bool {
        b.is_ascii_alphabetic() || is_digit_or_underscore(b)
    }
}

/// The ASCII characters of a string in these quotes that stand for themselves.
#[derive(Drop)]
pub(crate) struct PlainChars {
    pub(crate) quote: u8,
}

impl Class for PlainChars {
    ghost holds = { λ class c. is_ascii_plain class.quote c };

    fn holds(&self, b: u8) -> bool {
        b < 0x80 && b >= b' ' && b != b'\\' && b != self.quote
    }
}

/// Gathers characters of a class from an index on: some or all of those before an end. The first one was gathered
/// already. Returns where they end, and the byte there.
// Out of line, so that its loop has registers of its own.
#[inline(never)]
fn gather<S: PathSource, C: Class>(
    source: &mut S,
    index: usize,
    end: usize,
    class: &C,
    part: &mut [u8],
) -> (usize, Option<u8>)
    requires ascii { (c : ℕ) → C.holds class.now c ≡ true → c < 128 }
    requires first { Gathered (C.holds class.now) (S.observed source.old).text index
        (index + 1) part.old }
    requires some { index < end }
    requires most { end ≤ index + length part.old }
    requires within { end ≤ length (S.observed source.old).text }
    ensures some { index < result.0 }
    ensures most { result.0 ≤ end }
    ensures long { length part.new ≡ length part.old }
    ensures gathered { Gathered (C.holds class.now) (S.observed source.old).text
        index result.0 part.new }
    ensures next_is { result.1 ≡ slice_get (S.observed source.old).text result.0 }
    ensures looks { LooksOn (S.observed source.old) (S.observed source.new)
        (up_to result.0 result.1 - (index + 1)) (up_to result.0 result.1) }
{
    let mut at = index + 1;
    while at < end {
        let next = source.byte(at);
        if !class.holds(next) {
            return (at, Some(next));
        }
        part[at - index] = next;
        at += 1;
    }
    let next = byte_at(source, at);
    (at, next)
}

/// Appends ASCII characters to a text.
#[tactic(auto, using(crate::proofs::Texts::of_bytes))]
fn push_ascii(text: &mut String, bytes: &[u8]) -> Result<(), AllocError>
    requires { IsAscii bytes.now }
    ensures { string_bytes text.new
        ≡ (if is_ok result then string_bytes text.old ++ bytes.now else string_bytes text.old) }
{
    text.push_str(str::from_utf8(bytes).unwrap())
}

/// Takes one or more characters of a class from an index on, beginning with this one, and appends them to a text.
/// Returns where they end, and the byte there.
// Out of line, so that no other function keeps room for the gathered characters.
#[inline(never)]
#[tactic(auto, using(crate::proofs::Texts::of_bytes))]
pub(crate) fn push_stretch<S: PathSource, C: Class>(
    source: &mut S,
    index: usize,
    first: u8,
    class: &C,
    text: &mut String,
) -> (usize, Option<u8>, Result<(), AllocError>)
    requires ascii { (c : ℕ) → C.holds class.now c ≡ true → c < 128 }
    requires utf8 { is_utf8 (drop index (S.observed source.old).text) ≡ true }
    requires first_is { slice_get (S.observed source.old).text index ≡ Some first }
    requires fits { C.holds class.now first ≡ true }
    ensures some { index < result.0 }
    ensures within { result.0 ≤ length (S.observed source.old).text }
    ensures utf8 { is_utf8 (drop result.0 (S.observed source.old).text) ≡ true }
    ensures next_is { result.1 ≡ slice_get (S.observed source.old).text result.0 }
    ensures looks { LooksOn (S.observed source.old) (S.observed source.new)
        (up_to result.0 result.1 - (index + 1)) (up_to result.0 result.1) }
    ensures taken { Stretched (C.holds class.now)
        (chars (drop index (S.observed source.old).text))
        (chars (drop result.0 (S.observed source.old).text))
        (string_bytes text.old) (string_bytes text.new) (is_ok result.2) }
    ensures less { length (chars (drop result.0 (S.observed source.old).text))
        < length (chars (drop index (S.observed source.old).text)) }
{
    // 128 at a time: many for one append, few for the stack.
    let most = index + (source.len() - index).min(128);
    let mut part = [first; 128];
    let (end, next) = gather(source, index, most, class, &mut part);
    let pushed = push_ascii(text, &part[..end - index]);
    (end, next, pushed)
}
