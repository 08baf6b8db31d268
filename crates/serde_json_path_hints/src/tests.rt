//! What hints show is accepted: a path as it stands, a part of one in a frame.

use crate::slip::Slip;
use crate::slips::slips_of;
use serde_json_path_functions::{Builtin, Numbers};
use serde_json_path_parser::{ParseErrorKind, TextSource, parse};
use std::alloc::Global;
use std::test::Fail;

/// Each kind of refusal.
const KINDS: &[ParseErrorKind] = &[
    ParseErrorKind::ExpectedRoot,
    ParseErrorKind::BadMemberName,
    ParseErrorKind::ExpectedClosingBracket,
    ParseErrorKind::ExpectedEndingQuote,
    ParseErrorKind::BadEscape,
    ParseErrorKind::ControlCharacter,
    ParseErrorKind::ExpectedSelector,
    ParseErrorKind::IntegerOutOfRange,
    ParseErrorKind::ExponentOrEmptyFraction,
    ParseErrorKind::NumberOutOfRange,
    ParseErrorKind::ExpectedExpression,
    ParseErrorKind::ExpectedClosingParenthesis,
    ParseErrorKind::ExpectedComparisonOperator,
    ParseErrorKind::NonSingularQuery,
    ParseErrorKind::UndefinedFunction,
    ParseErrorKind::WrongNumberOfArguments,
    ParseErrorKind::WrongArgumentType,
    ParseErrorKind::WrongReturnType,
    ParseErrorKind::NestedTooDeep,
    ParseErrorKind::TextAfterPath,
    ParseErrorKind::NoMemory,
    ParseErrorKind::FractionTooLong,
];

/// What stands before and after a part of a path: a path that goes on, segments, selectors, expressions, values, operators, names
/// of functions, and single signs.
const FRAMES: &[(&str, &str)] = &[
    ("", ""),
    ("", "a"),
    ("$", ""),
    ("$[", "]"),
    ("$[?", "]"),
    ("$[?@.a == ", "]"),
    ("$[?@.a ", " 1]"),
    ("$[?@.a ", " @.b]"),
    ("$[?@.a ", "]"),
    ("$[?", "@.a]"),
    ("$[?", "(@.a) == 1]"),
    ("$[?", "(@.*) == 1]"),
    ("$[?", "(@.a, 'b')]"),
    ("$", "0]"),
    ("$[0", ""),
    ("$[?", "@.a)]"),
    ("$[?(@.a", "]"),
    ("$[", "@.a]"),
    ("$[", "1]"),
    ("$[?@.a == 1", "3]"),
];

/// The same of an escape, or of its beginning.
const STRINGS: &[(&str, &str)] = &[("$['", "']"), ("$['", "'']")];

/// Signs of which a hint says that they do not stand there. None stands in a path but in a string.
const LEFT_OUT: &[&str] = &[";", "+"];

/// How long a hint may be, in bytes.
const LONGEST: usize = 100;

/// Whether a form is accepted in one of the frames.
fn is_accepted(alloc: Global, form: &str) -> Result<bool, Fail> {
    let frames = if form.starts_with('\\') {
        STRINGS
    } else {
        FRAMES
    };
    for &(before, after) in frames {
        let text = format!(in alloc; "{before}{form}{after}")?;
        if parse(
            alloc,
            &mut TextSource::new(text.as_str()),
            &Builtin,
            Numbers::All,
        )
        .is_ok()
        {
            return Ok(true);
        }
    }
    Ok(false)
}

/// Fails where a hint shows a form that is not accepted, or is too long.
fn hold_hint(alloc: Global, hint: &str) -> Result<(), Fail> {
    let mut is_form = false;
    for piece in hint.split('`') {
        if is_form && !LEFT_OUT.contains(&piece) && !is_accepted(alloc, piece)? {
            return Err(Fail::new(format_args!("{piece} is refused, of {hint}")));
        }
        is_form = !is_form;
    }
    if hint.len() > LONGEST {
        return Err(Fail::new(format_args!("too long: {hint}")));
    }
    Ok(())
}

/// The same of each hint of a table.
fn hold_table(alloc: Global, slips: &[Slip]) -> Result<(), Fail> {
    for slip in slips {
        hold_hint(alloc, slip.2)?;
    }
    Ok(())
}

#[test]
fn forms_are_accepted(rt: HostRuntime) -> Result<(), Fail> {
    for &kind in KINDS {
        for numbers in [Numbers::Whole, Numbers::All] {
            let (own, words, signs) = slips_of(kind, numbers);
            hold_table(rt.alloc(), own)?;
            hold_table(rt.alloc(), words)?;
            hold_table(rt.alloc(), signs)?;
        }
    }
    Ok(())
}
