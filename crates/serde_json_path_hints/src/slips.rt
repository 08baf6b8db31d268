//! The table of slips, by the kind of refusal. Of two slips that are both there, the first is named.

/// The rows of a table: what is before the place, what is ahead of it, and what was probably meant.
macro_rules! slips {
    ($($before:expr, $ahead:expr => $meant:expr;)*) => {
        &[$(($before, $ahead, $meant)),*]
    };
}

mod calls;
mod expressions;
mod operands;
mod paths;
mod selectors;
mod texts;

ghost use Rattle.std.specs.Prelude.{◌≡◌, ◌++◌, map};
ghost use Rattle.serde_json_path_functions.specs.Terms.{numbers_view};
ghost use Rattle.serde_json_path_hints.specs.Inside.Lent.{slip_of};
ghost use Rattle.serde_json_path_hints.specs.Hints.{slips_of};

use crate::slip::Slip;
use crate::slips::operands::{
    AFTER_LITERAL, AFTER_OPERAND, CLOSING_PARENTHESIS, WORD_AFTER_OPERAND,
};
use serde_json_path_functions::Numbers;
use serde_json_path_parser::ParseErrorKind;

/// The slips of a kind of refusal by a rule for numbers: its own, and after them those that it shares with other kinds, in two
/// tables.
pub(crate) fn slips_of(
    kind: ParseErrorKind,
    numbers: Numbers,
) -> (&'static [Slip], &'static [Slip], &'static [Slip])
    ensures { map slip_of result.0.now ++ (map slip_of result.1.now ++ map slip_of result.2.now)
        ≡ slips_of (numbers_view numbers) kind }
{
    use ParseErrorKind as Kind;
    match kind {
        Kind::ExpectedRoot => (paths::ROOT, &[], &[]),
        Kind::BadMemberName => (paths::MEMBER_NAME, &[], &[]),
        Kind::TextAfterPath => (paths::AFTER_PATH, &[], &[]),
        Kind::ExpectedSelector => (selectors::SELECTOR, &[], &[]),
        Kind::ExpectedClosingBracket => (
            selectors::CLOSING_BRACKET,
            WORD_AFTER_OPERAND,
            AFTER_OPERAND,
        ),
        Kind::IntegerOutOfRange => (selectors::INTEGER, &[], &[]),
        Kind::ExpectedClosingParenthesis => {
            (CLOSING_PARENTHESIS, WORD_AFTER_OPERAND, AFTER_OPERAND)
        }
        Kind::ExpectedComparisonOperator => (AFTER_LITERAL, WORD_AFTER_OPERAND, AFTER_OPERAND),
        Kind::ExpectedExpression => (expressions::EXPRESSION, &[], &[]),
        Kind::NonSingularQuery => (expressions::COMPARED_QUERY, &[], &[]),
        Kind::NestedTooDeep => (expressions::NESTING, &[], &[]),
        Kind::UndefinedFunction => (calls::FUNCTION, &[], &[]),
        Kind::WrongNumberOfArguments => (calls::NUMBER_OF_ARGUMENTS, &[], &[]),
        Kind::WrongArgumentType => (calls::ARGUMENT, &[], &[]),
        Kind::WrongReturnType => (calls::RESULT, &[], &[]),
        Kind::ExpectedEndingQuote => (texts::ENDING_QUOTE, &[], &[]),
        Kind::BadEscape => (texts::ESCAPE, &[], &[]),
        Kind::ControlCharacter => (texts::CONTROL_CHARACTER, &[], &[]),
        Kind::ExponentOrEmptyFraction => match numbers {
            Numbers::Whole => (texts::EXPONENT, &[], &[]),
            Numbers::All => (texts::DIGIT, &[], &[]),
        },
        Kind::FractionTooLong => (texts::FRACTION, &[], &[]),
        Kind::NumberOutOfRange => match numbers {
            Numbers::Whole => (texts::NUMBER, &[], &[]),
            Numbers::All => (texts::DOUBLE, &[], &[]),
        },
        Kind::NoMemory => (&[], &[], &[]),
    }
}
