//! Paths from sources of their texts.

ghost use Rattle.std.specs.Prelude.{◌≡◌, ◌+◌, ◌-◌, ◌*◌, ◌≤◌, max, true, length, IfErr};
ghost use Rattle.serde_json_path.specs.Words.{before_builtin, numbers_view, greatest_usize, kind_of, position_of, is_seen_at_next, IsRead};

use crate::path::JsonPath;
use serde_json_path_core::Numbers;
use serde_json_path_core::functions::{Both, Builtin, Functions};
use serde_json_path_parser::{ParseError, PathSource, parse};
use std::alloc::Global;

/// Parses the path of a source's text, which is read from left to right by its `byte` alone.
///
/// Filters call functions of the set, before the built-in ones; the path fits these. It is read by the rule for numbers
/// (see [`JsonPath::parse_by`]), which it keeps. A text of n bytes is looked at no more than 32(n + 1) times. Where a root, a
/// name, a selector or a closing bracket is missing, nothing was looked at beyond the byte after the one that does not fit.
///
/// An error says why and where ([`ParseError`]). Unless it is `NoMemory`, the text is not a path. A text of `usize::MAX` bytes,
/// whose end would have no position, is refused as `NoMemory` before any look.
///
/// ```text
/// let mut source = TextSource::new("$..book[-1:].title");
/// let path = parse_source(alloc, &mut source, &Builtin, Numbers::Whole)?;
/// let looks = source.looks();
/// ```
pub fn parse_source<S: PathSource, F: Functions>(
    alloc: Global,
    source: &mut S,
    functions: &F,
    numbers: Numbers,
) -> Result<JsonPath, ParseError>
    ensures read { IsRead (numbers_view numbers) (before_builtin (F.set functions.now))
        (S.observed source.old).text result }
    // The source's text is unchanged.
    ensures same_text { (S.observed source.new).text ≡ (S.observed source.old).text }
    // However the parse ends, it took at most 32(n + 1) looks at n bytes.
    ensures looks { (S.observed source.new).looks
        ≤ (S.observed source.old).looks + 32 * (length (S.observed source.old).text + 1) }
    // For four kinds of refusal, nothing past the byte after the position was looked at.
    ensures farthest { IfErr result (λ e. is_seen_at_next (kind_of e) ≡ true
        → (S.observed source.new).farthest
        ≤ max (S.observed source.old).farthest (position_of e + 1)) }
    ensures unseen { length (S.observed source.old).text ≡ greatest_usize
        → S.observed source.new ≡ S.observed source.old }
{
    let checked = parse(alloc, source, &Both(functions, Builtin), numbers)?;
    Ok(JsonPath { checked })
}
