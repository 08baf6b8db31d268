//! Whether a text is a path.

ghost use Rattle.std.specs.Prelude.{◌≡◌, ◌⊎◌, ◌↔◌};
ghost use Rattle.jsonpath_c.specs.Clauses.{IsUtf8, message_of, AnswersPath, AnswersText, IsPath, IsTold, hint_text, rule_of};

use crate::output::put;
use crate::paths::rule;
use crate::refusal::{Refusal, put_refusal};
use crate::status::{DONE, NO_MEMORY, NOT_UTF8};
use serde_json_path::{JsonPath, ParseError, ParseErrorKind};
use serde_json_path_hints::hint;
use std::alloc::Global;

/// Whether a text is a path under the built-in functions, by whole numbers where `numbers` is 0, and else by all: 0, or 1 with
/// the refusal, 4 without memory, 6 where it is not UTF-8.
#[unsafe(no_mangle)]
pub extern "C" fn jsonpath_check(
    alloc: Global,
    path: &[u8],
    numbers: u8,
    refusal: &mut Refusal,
) -> u8
    ensures { AnswersPath (IsPath (rule_of numbers) path.now) (rule_of numbers) path.now
        refusal.old refusal.new result }
{
    let Ok(path) = str::from_utf8(path) else {
        return NOT_UTF8;
    };
    match JsonPath::parse_by(alloc, path, rule(numbers)) {
        Ok(_) => DONE,
        Err(e) => put_refusal(&e, refusal),
    }
}

/// The message of a path's refusal by that rule, or an empty text of a path: 0, 4 without memory, 5 where it finds no room, 6
/// where the path is not UTF-8.
#[unsafe(no_mangle)]
pub extern "C" fn jsonpath_message(
    alloc: Global,
    path: &[u8],
    numbers: u8,
    out: &mut [u8],
    size: &mut usize,
) -> u8
    ensures text { AnswersText (IsTold message_of (rule_of numbers) path.now) out.old out.new
        size.old size.new result }
    ensures statuses { (result ≡ 0) ⊎ (result ≡ 4) ⊎ (result ≡ 5) ⊎ (result ≡ 6) }
    ensures not_utf8 { (result ≡ 6) ↔ (IsUtf8 path.now → ⊥) }
{
    let Ok(path) = str::from_utf8(path) else {
        return NOT_UTF8;
    };
    match JsonPath::parse_by(alloc, path, rule(numbers)) {
        Ok(_) => put("", out, size),
        Err(e) if e.kind() == ParseErrorKind::NoMemory => NO_MEMORY,
        Err(e) => put(e.message(), out, size),
    }
}

/// The hint of a refusal by that rule, or an empty text where no slip is known.
fn hint_text(path: &str, e: &ParseError, numbers: u8) -> &'static str
    ensures { result.now ≡ hint_text (rule_of numbers) path.now e.now }
{
    hint(path, e, rule(numbers)).unwrap_or("")
}

/// What was probably meant by a path that is refused by that rule, or an empty text where no slip is known, and of a path: 0, 4
/// without memory, 5 where it finds no room, 6 where the path is not UTF-8.
#[unsafe(no_mangle)]
pub extern "C" fn jsonpath_hint(
    alloc: Global,
    path: &[u8],
    numbers: u8,
    out: &mut [u8],
    size: &mut usize,
) -> u8
    ensures text { AnswersText (IsTold (hint_text (rule_of numbers) path.now) (rule_of numbers)
        path.now) out.old out.new size.old size.new result }
    ensures statuses { (result ≡ 0) ⊎ (result ≡ 4) ⊎ (result ≡ 5) ⊎ (result ≡ 6) }
    ensures not_utf8 { (result ≡ 6) ↔ (IsUtf8 path.now → ⊥) }
{
    let Ok(path) = str::from_utf8(path) else {
        return NOT_UTF8;
    };
    match JsonPath::parse_by(alloc, path, rule(numbers)) {
        Ok(_) => put("", out, size),
        Err(e) if e.kind() == ParseErrorKind::NoMemory => NO_MEMORY,
        Err(e) => put(hint_text(path, &e, numbers), out, size),
    }
}
