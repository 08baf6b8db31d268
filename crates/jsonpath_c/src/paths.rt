//! Paths that are compiled once.

ghost use Rattle.std.specs.Prelude.{◌≡◌, ◌≢◌, ◌⊎◌, None};
ghost use Rattle.jsonpath_c.specs.Clauses.{MatchOption, path_tree, numbers_view, query_text, AnswersPath, AnswersText, rule_of, BothHold, HoldsPathOf, TellsEitherEmpty, TellsEmpty};

use crate::compiled::Compiled;
use crate::handle::path::{PathHandle, PathRef};
use crate::output::put;
use crate::refusal::{Refusal, put_refusal};
use crate::status::{DONE, EMPTY_HANDLE, NO_MEMORY, NOT_UTF8};
use nullable_box::{Handle, Lent, get_both};
use serde_json_path::{JsonPath, Numbers};
use std::alloc::Global;

/// The rule for numbers that a number names.
pub(crate) fn rule(numbers: u8) -> Numbers
    ensures { numbers_view result ≡ rule_of numbers }
{
    match numbers {
        0 => Numbers::Whole,
        _ => Numbers::All,
    }
}

/// Compiles a path under the built-in functions, by whole numbers where `numbers` is 0, and else by all: 0 with
/// the path in its handle, in the place of what was there; 1 with the refusal, 4 without memory, 6 where it is not UTF-8.
#[unsafe(no_mangle)]
pub extern "C" fn jsonpath_path_new(
    alloc: Global,
    text: &[u8],
    numbers: u8,
    path: &mut PathHandle,
    refusal: &mut Refusal,
) -> u8
    ensures path { AnswersPath (HoldsPathOf text.now numbers path.new.value) (rule_of numbers)
        text.now refusal.old refusal.new result }
    ensures kept { result ≢ 0 → path.new.value ≡ path.old.value }
{
    let Ok(text) = str::from_utf8(text) else {
        return NOT_UTF8;
    };
    let parsed = match JsonPath::parse_by(alloc, text, rule(numbers)) {
        Ok(parsed) => parsed,
        Err(e) => return put_refusal(&e, refusal),
    };
    let Ok(compiled) = Compiled::new(alloc, parsed, text.contains('(')) else {
        return NO_MEMORY;
    };
    match path.hold(alloc, compiled) {
        Ok(()) => DONE,
        Err(_) => NO_MEMORY,
    }
}

/// Makes another owner of a path: 0 with the same path in the handle, in the place of what was there; 4 without memory; 7 of an
/// empty handle.
#[unsafe(no_mangle)]
pub extern "C" fn jsonpath_path_share(alloc: Global, path: PathRef, other: &mut PathHandle) -> u8
    ensures statuses { (result ≡ 0) ⊎ (result ≡ 4) ⊎ (result ≡ 7) }
    ensures empty { TellsEmpty path.value result }
    ensures done { result ≡ 0 → BothHold path.value other.new.value (λ c d.
        d.path.value ≡ c.path.value) }
    ensures kept { result ≢ 0 → other.new.value ≡ other.old.value }
{
    let Some(compiled) = path.get() else {
        return EMPTY_HANDLE;
    };
    let Ok(shared) = compiled.share() else {
        return NO_MEMORY;
    };
    match other.hold(alloc, shared) {
        Ok(()) => DONE,
        Err(_) => NO_MEMORY,
    }
}

/// Frees a path and empties its handle. Of an empty handle it does nothing.
#[unsafe(no_mangle)]
pub extern "C" fn jsonpath_path_free(alloc: Global, path: &mut PathHandle)
    ensures { path.new.value ≡ None }
{
    drop(path.take(alloc));
}

/// Puts what a path prints: 0, 4 without memory, 5 where it finds no room, 7 of an empty handle.
#[unsafe(no_mangle)]
pub extern "C" fn jsonpath_path_text(
    alloc: Global,
    path: PathRef,
    out: &mut [u8],
    size: &mut usize,
) -> u8
    ensures text { AnswersText (λ text. MatchOption path.value ⊥ (λ c.
        text ≡ query_text (path_tree c.path.value))) out.old out.new size.old size.new result }
    ensures statuses { (result ≡ 0) ⊎ (result ≡ 4) ⊎ (result ≡ 5) ⊎ (result ≡ 7) }
    ensures empty { TellsEmpty path.value result }
{
    let Some(compiled) = path.get() else {
        return EMPTY_HANDLE;
    };
    match compiled.path.to_text(alloc) {
        Ok(text) => put(text.as_str(), out, size),
        Err(_) => NO_MEMORY,
    }
}

/// Tells whether two paths have the same tree: 0 with 1 or 0 in `equal`; 7 where a handle is empty.
#[unsafe(no_mangle)]
pub extern "C" fn jsonpath_path_equals(path: PathRef, other: PathRef, equal: &mut u8) -> u8
    ensures statuses { (result ≡ 0) ⊎ (result ≡ 7) }
    ensures done { result ≡ 0 → BothHold path.value other.value (λ c d.
        ((equal.new ≡ 1) × (path_tree c.path.value ≡ path_tree d.path.value))
        ⊎ ((equal.new ≡ 0) × (path_tree c.path.value ≢ path_tree d.path.value))) }
    ensures empty { TellsEitherEmpty path.value other.value result }
    ensures kept_equal { result ≢ 0 → equal.new ≡ equal.old }
{
    let Some((compiled, against)) = get_both(path, other) else {
        return EMPTY_HANDLE;
    };
    *equal = u8::from(*compiled.path == *against.path);
    DONE
}
