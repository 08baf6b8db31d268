//! The words of refusals, and of errors as a user of `std::error::Error` takes them.

ghost use Rattle.std.specs.Prelude.{◌≡◌, ◌≢◌, IfSome};
ghost use Rattle.serde_json_path_parser.specs.Errors.{kind_of};
ghost use Rattle.serde_json_path_parser.specs.declared.error.ParseErrorKind.TheVariants.{NoMemory};

use crate::tests::nesting::PARENTHESES;
use serde_json_path::{
    AtMostOneError, ExactlyOneError, FromJsonError, JsonPath, ParseError, QueryError,
};
use std::alloc::Global;
use std::error::Error;
use std::test::Fail;
use test_rows::{Came, alike, hold_nested, hold_row, hold_rows};

/// A text, and the message of its refusal.
const TOLD: &[&str] = &[
    "x -> at position 1, expected '$'",
    "$. -> at position 3, in dot member name, must start with a letter, '_' or a non-ASCII character",
    "$.. -> at position 4, must start with a letter, '_' or a non-ASCII character",
    "$[ -> at position 3, in long-hand segment, expected a selector",
    "$['a' -> at position 6, in long-hand segment, expected closing ']'",
    "$['a -> at position 5, in long-hand segment, expected an ending quote",
    r#"$["\u -> at position 4, in long-hand segment, bad escape"#,
    "$['a\t'] -> at position 5, in long-hand segment, control character in a string",
    "$[9007199254740992] -> at position 3, in long-hand segment, integer out of range",
    "$.a['b']tail -> at position 9, text after the path",
    "$[0]. -> at position 6, in dot member name, must start with a letter, '_' or a non-ASCII character",
    "$[?@.] -> at position 6, in long-hand segment, must start with a letter, '_' or a non-ASCII character",
    "$[?@ == 1.] -> at position 9, in long-hand segment, exponent or empty fraction not supported",
    "$[?@ == 1.5e3] -> at position 9, in long-hand segment, exponent or empty fraction not supported",
    "$[?@ == 0.0000000001] -> at position 9, in long-hand segment, fraction of more than 9 digits",
    "$[?@ == 18446744073709551616] -> at position 9, in long-hand segment, number out of range",
    "$[?@.a == ] -> at position 11, in long-hand segment, expected an expression",
    "$[?(@.a] -> at position 8, in long-hand segment, expected closing ')'",
    "$[?true] -> at position 8, in long-hand segment, expected a comparison operator",
    "$[?@.* == 1] -> at position 4, in long-hand segment, non-singular query in a comparison",
    "$[?first(@.*) == 4] -> at position 4, in long-hand segment, undefined function",
    "$[?count() == 1] -> at position 4, in long-hand segment, wrong number of arguments",
    "$[?count(1) == 1] -> at position 10, in long-hand segment, argument of the wrong type",
    "$[?length(@.author)] -> at position 4, in long-hand segment, function with incorrect return type used",
];

/// How two calls refuse a text: alike, by their contracts, but where memory is refused.
fn refused_twice(alloc: Global, text: &str) -> Option<(ParseError, ParseError)>
    ensures { IfSome result (λ refused. kind_of refused.0 ≢ NoMemory → kind_of refused.1 ≢ NoMemory
        → refused.0 ≡ refused.1) }
{
    let Err(refused) = JsonPath::parse(alloc, text) else {
        return None;
    };
    let Err(again) = JsonPath::from_str(alloc, text) else {
        return None;
    };
    Some((refused, again))
}

/// The message of a text's refusal, the same of both calls.
fn message(alloc: Global, text: &str) -> Came {
    match refused_twice(alloc, text) {
        Some((refused, again)) => alike(refused.to_string(alloc)?, again.to_string(alloc)?),
        None => Err(Fail::new("accepted")),
    }
}

#[test]
fn tells_refusals(rt: HostRuntime) -> Result<(), Fail> {
    hold_rows(&rt, TOLD, message)?;
    let wanted = "at position 131, in long-hand segment, nested more than 128 deep";
    hold_nested(&rt, &[(PARENTHESES, 128, wanted)], message)
}

/// Holds the text of an error to what is wanted.
fn holds_told<E: Error + Drop>(
    rt: &(impl Eprint + AllocGlobal),
    error: E,
    wanted: &str,
) -> Result<(), Fail> {
    let came = format!(in rt.alloc(); "{error}")?;
    hold_row(rt, ("errors", wanted, wanted), Ok(came))
}

#[test]
fn are_errors(rt: HostRuntime) -> Result<(), Fail> {
    holds_told(&rt, AtMostOneError(2), "at most one node expected, found 2")?;
    holds_told(&rt, ExactlyOneError::Empty, "one node expected, found none")?;
    holds_told(&rt, QueryError::Pattern, "pattern refused")?;
    holds_told(&rt, FromJsonError::NotAString, "not a string")?;
    let refused = JsonPath::parse(rt.alloc(), "x").err().ok_or("accepted")?;
    holds_told(&rt, refused, "at position 1, expected '$'")
}
