//! Decodes characters from bytes.

ghost use Rattle.std.specs.Prelude.{◌≡◌, ◌<◌, ◌≤◌, ◌+◌, ◌-◌, ◌%◌, ◌^◌};
ghost use Rattle.serde_json_path_parser.specs.Inside.Words.{length, slice_index, slice_get, drop, Some, None, ForSome, IsUtf8, StartsWithChar, IsScalar, LooksOn, up_to};

use crate::source::PathSource;

/// The byte at that index, if it is below a limit.
pub(crate) fn byte_below<S: PathSource>(source: &mut S, index: usize, limit: usize) -> Option<u8>
    requires { limit ≤ length (S.observed source.old).text }
    ensures some { ForSome result (λ b.
        (index < limit) × (slice_get (S.observed source.old).text index ≡ Some b)) }
    ensures none { result ≡ None → limit ≤ index }
    ensures looks { LooksOn (S.observed source.old) (S.observed source.new)
        (up_to index result - index) (up_to index result) }
{
    if index < limit {
        Some(source.byte(index))
    } else {
        None
    }
}

/// The byte at that index, unless the text ends there.
pub(crate) fn byte_at<S: PathSource>(source: &mut S, index: usize) -> Option<u8>
    ensures value { result ≡ slice_get (S.observed source.old).text index }
    ensures looks { LooksOn (S.observed source.old) (S.observed source.new)
        (up_to index result - index) (up_to index result) }
{
    let end = source.len();
    byte_below(source, index, end)
}

/// The six low bits of a byte.
fn low_bits<S: PathSource>(source: &mut S, index: usize) -> u32
    requires { index < length (S.observed source.old).text }
    ensures value { result ≡ slice_index (S.observed source.old).text index % 64 }
    ensures looks { LooksOn (S.observed source.old) (S.observed source.new) 1 (index + 1) }
{
    source.byte(index) as u32 % 64
}

fn character(code: u32) -> char
    requires { IsScalar code }
    ensures { result ≡ code }
{
    char::from_u32(code).unwrap()
}

/// The character that begins at an index with this byte and takes two bytes or more, and how many it takes.
// Out of line, so that characters of one byte, the most frequent ones, are read in few steps.
#[inline(never)]
#[tactic(auto, using(crate::proofs::Texts::four))]
pub(crate) fn wide_character_at<S: PathSource>(
    source: &mut S,
    index: usize,
    lead: u8,
) -> (char, usize)
    requires utf8 { IsUtf8 (drop index (S.observed source.old).text) }
    requires lead { slice_get (S.observed source.old).text index ≡ Some lead }
    requires short { length (S.observed source.old).text < 2 ^ 64 }
    requires wide { 128 ≤ lead }
    ensures decodes { StartsWithChar (drop index (S.observed source.old).text) result.0 result.1 }
    ensures scalar { IsScalar result.0 }
    ensures looks { LooksOn (S.observed source.old) (S.observed source.new)
        (result.1 - 1) (index + result.1) }
{
    let first = lead as u32;
    let second = low_bits(source, index + 1);
    if first < 0xe0 {
        return (character(first % 32 * 64 + second), 2);
    }
    let third = low_bits(source, index + 2);
    if first < 0xf0 {
        return (character(first % 16 * 4096 + second * 64 + third), 3);
    }
    let fourth = low_bits(source, index + 3);
    (
        character(first % 8 * 262144 + second * 4096 + third * 64 + fourth),
        4,
    )
}
