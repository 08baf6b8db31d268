//! Texts of paths that are cut at each character.

use crate::tests::long_texts::CUT;
use crate::tests::tables::of_text;
use serde_json_path::functions::{Builtin, Functions};
use serde_json_path::{JsonPath, ParseError};
use std::alloc::Global;
use std::test::Fail;
use test_rows::{hold_nested, holds};

/// The messages of each kind.
const MESSAGES: &[&str] = &[
    "ExpectedRoot: expected '$'",
    "BadMemberName: must start with a letter, '_' or a non-ASCII character",
    "BadMemberName: in dot member name, must start with a letter, '_' or a non-ASCII character",
    "BadMemberName: in long-hand segment, must start with a letter, '_' or a non-ASCII character",
    "ExpectedClosingBracket: in long-hand segment, expected closing ']'",
    "ExpectedEndingQuote: in long-hand segment, expected an ending quote",
    "BadEscape: in long-hand segment, bad escape",
    "ControlCharacter: in long-hand segment, control character in a string",
    "ExpectedSelector: in long-hand segment, expected a selector",
    "IntegerOutOfRange: in long-hand segment, integer out of range",
    "ExponentOrEmptyFraction: in long-hand segment, exponent or empty fraction not supported",
    "NumberOutOfRange: in long-hand segment, number out of range",
    "ExpectedExpression: in long-hand segment, expected an expression",
    "ExpectedClosingParenthesis: in long-hand segment, expected closing ')'",
    "ExpectedComparisonOperator: in long-hand segment, expected a comparison operator",
    "NonSingularQuery: in long-hand segment, non-singular query in a comparison",
    "UndefinedFunction: in long-hand segment, undefined function",
    "WrongNumberOfArguments: in long-hand segment, wrong number of arguments",
    "WrongArgumentType: in long-hand segment, argument of the wrong type",
    "WrongReturnType: in long-hand segment, function with incorrect return type used",
    "NestedTooDeep: in long-hand segment, nested more than 128 deep",
    "FractionTooLong: in long-hand segment, fraction of more than 9 digits",
    "TextAfterPath: text after the path",
];

/// Whether the table has a message.
fn is_message(message: &str) -> bool {
    MESSAGES.iter().any(|told| *told == message)
}

/// Fails where a refusal does not stand at a character of the text or its end, or where its message is none of its kind.
fn is_told(alloc: Global, text: &str, refusal: &ParseError) -> Result<(), Fail> {
    let at = refusal.position();
    holds(at >= 1 && text.is_char_boundary(at - 1), text)?;
    let message = format!(in alloc; "{:?}: {}", refusal.kind(), refusal.message())?;
    holds(is_message(message.as_str()), text)
}

/// Cuts a text at each character. What is left is accepted under a set, or refused as [`is_told`] says.
pub(crate) fn cut<F: Functions>(alloc: Global, functions: &F, text: &str) -> Result<(), Fail> {
    for end in 0..text.len() + 1 {
        if let Some(start) = text.get(..end) {
            if let Err(e) = JsonPath::parse_with(alloc, start, functions) {
                is_told(alloc, start, &e)?;
            }
        }
    }
    Ok(())
}

#[test]
fn cuts_long_texts(rt: HostRuntime) -> Result<(), Fail> {
    hold_nested(&rt, CUT, |alloc, text| of_text(alloc, &Builtin, text))
}
