//! The messages about a refused path and a refused document, for a person.

use crate::caret::{push_line_with_caret, push_with_caret};
use crate::tokens::{first_token, open_quote};
use jsonpath_document::DocumentError;
use serde_json_path::{Numbers, ParseError, ParseErrorKind};
use std::alloc::AllocError;

/// What is wrong, in words, by the rule by which the path was read.
fn words(kind: ParseErrorKind, numbers: Numbers) -> &'static str {
    use ParseErrorKind as Kind;
    match kind {
        Kind::ExpectedRoot => "a path begins with '$'",
        Kind::BadMemberName => "expected a name or '*' after the dot",
        Kind::ExpectedClosingBracket => "expected closing ']'",
        Kind::ExpectedEndingQuote => "the string that begins here has no ending quote",
        Kind::BadEscape => "bad escape",
        Kind::ControlCharacter => "a control character in a string is written as an escape",
        Kind::ExpectedSelector => {
            "expected a selector (a name in quotes, an index, a slice, '*' or '?')"
        }
        Kind::IntegerOutOfRange => "an integer that is out of range",
        Kind::ExponentOrEmptyFraction => match numbers {
            Numbers::Whole => "a number has no exponent, and digits after its point",
            Numbers::All => "a number has digits after its point, and in its exponent",
        },
        Kind::NumberOutOfRange => "a number that is out of range",
        Kind::FractionTooLong => "a number has at most 9 digits after its point",
        Kind::ExpectedExpression => {
            "expected a path, a number, a string, true, false, null or a call"
        }
        Kind::ExpectedClosingParenthesis => "expected closing ')'",
        Kind::ExpectedComparisonOperator => "expected ==, !=, <, <=, > or >= after a literal",
        Kind::NonSingularQuery => "this path may select several nodes, so it can't be compared",
        Kind::UndefinedFunction => "no such function",
        Kind::WrongNumberOfArguments => "wrong number of arguments",
        Kind::WrongArgumentType => "an argument of the wrong type",
        Kind::WrongReturnType => "the function's result doesn't fit here",
        Kind::NestedTooDeep => "nested more than 128 deep",
        Kind::TextAfterPath => "the path ends before this",
        Kind::NoMemory => "no memory",
    }
}

/// Whether the words are followed by what stands at the place: where something else was expected, or the name says it.
fn tells_found(kind: ParseErrorKind) -> bool {
    use ParseErrorKind as Kind;
    matches!(
        kind,
        Kind::ExpectedRoot
            | Kind::BadMemberName
            | Kind::ExpectedClosingBracket
            | Kind::ExpectedSelector
            | Kind::ExpectedExpression
            | Kind::ExpectedClosingParenthesis
            | Kind::ExpectedComparisonOperator
            | Kind::UndefinedFunction
            | Kind::TextAfterPath
    )
}

/// Where a refusal is shown: at its place, or where a string begins that is never closed.
fn place_of(text: &str, e: &ParseError) -> usize {
    match e.kind() {
        ParseErrorKind::ExpectedEndingQuote => open_quote(text).unwrap_or(e.position()),
        _ => e.position(),
    }
}

/// Appends what stands at a place, the number of a byte from 1.
fn push_found(to: &mut String, text: &str, place: usize) -> Result<(), AllocError> {
    let rest = text.get(place.saturating_sub(1)..).unwrap_or("");
    match first_token(rest) {
        "" => to.push_str(", found the end"),
        "'" => to.push_str(", found a quote"),
        piece => write!(to, ", found '{piece}'"),
    }
}

/// Appends the lines of a refusal by that rule: what is wrong and where, the text with a caret under the place, and a hint if there
/// is one. `name` says which path it is, as `the path` or `path 2`.
pub(crate) fn push_refusal(
    to: &mut String,
    name: &str,
    text: &str,
    e: &ParseError,
    numbers: Numbers,
    hint: Option<&str>,
) -> Result<(), AllocError> {
    let place = place_of(text, e);
    let words = words(e.kind(), numbers);
    write!(to, "jpq: {name} is refused at byte {place}: {words}")?;
    if tells_found(e.kind()) {
        push_found(to, text, place)?;
    }
    to.push('\n')?;
    push_with_caret(to, text, place)?;
    match hint {
        Some(hint) if hint.starts_with('`') => write!(to, "  write {hint}\n"),
        Some(hint) => write!(to, "  {hint}\n"),
        None => Ok(()),
    }
}

/// Appends the lines of a refused document: which one, where and why, and its line round the place with a caret, within so many
/// columns. `lines_before` says how many lines of the input stand before its bytes.
pub(crate) fn push_document_refusal(
    to: &mut String,
    name: &str,
    lines_before: usize,
    bytes: &[u8],
    e: &DocumentError,
    columns: usize,
) -> Result<(), AllocError> {
    let line = e.line.saturating_add(lines_before);
    let told = DocumentError { line, ..*e };
    write!(to, "jpq: {name}: {told}\n")?;
    push_line_with_caret(to, bytes, e.position, columns)
}
