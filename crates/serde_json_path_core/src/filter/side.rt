//! What the sides of a comparison stand for (RFC 9535, section 2.3.5.1).

ghost use Rattle.std.specs.Prelude.{◌≡◌, Some, option_map, true};
ghost use Rattle.serde_json_path_core.specs.Inside.Words.{number_view, view, kind_of_term, of_value, term_view, node_value, amount_of, exact_of, literal_compared, value_compared, exact_view, held_view, literal_fits, side_view, whole_of};
ghost use Rattle.serde_json.specs.Data.{number as number_data};
ghost use Rattle.serde_json_path_core.specs.Compared.{value as a_value};
ghost use Rattle.serde_json_path_core.specs.Inside.Computed as computed;

use serde_json::{Number, Value};
use serde_json_path_functions::{FunctionValue, ValueType};
use serde_json_path_numbers::ExactNumber;
use serde_json_path_syntax::{LiteralValue, NumberLiteral};

/// One, in billionths.
const ONE: i128 = 1_000_000_000;

/// What a side of a comparison stands for.
#[derive(Clone, Copy)]
pub(crate) enum Side<'s> {
    /// No value.
    Nothing,
    /// A value of the document, of a function, or of a literal that is no number of billionths.
    Value(&'s Value),
    /// A number of billionths in the query.
    Number(&'s NumberLiteral),
}

/// A value, or Nothing without one.
#[inline(always)]
pub(crate) fn side_of_value(found: Option<&Value>) -> Side<'_>
    ensures { side_view result ≡ value_compared (option_map node_value found.entry) }
{
    match found {
        Some(value) => Side::Value(value),
        None => Side::Nothing,
    }
}

/// A literal.
#[inline(always)]
pub(crate) fn side_of_literal(literal: &LiteralValue) -> Side<'_>
    requires { literal_fits literal.now ≡ true }
    ensures { side_view result ≡ literal_compared (held_view literal.now) }
{
    match literal {
        LiteralValue::Value(value) => Side::Value(value),
        LiteralValue::Number(number) => Side::Number(number),
        LiteralValue::Decimal(held) => Side::Value(held.as_ref().value()),
    }
}

/// An answer of type Value (RFC 9535, section 2.4.2).
pub(crate) fn side_of_answer<'s>(answer: &'s FunctionValue<'_>) -> Side<'s>
    requires { kind_of_term (term_view answer.now) ≡ of_value }
    ensures { Some (side_view result) ≡ computed.answer_compared (term_view answer.now) }
{
    match answer {
        FunctionValue::Value(ValueType::Value(value)) => Side::Value(value),
        FunctionValue::Value(ValueType::Node(value)) => Side::Value(*value),
        FunctionValue::Value(ValueType::Nothing) => Side::Nothing,
        FunctionValue::Nodes(_) | FunctionValue::Logical(_) => unreachable!(),
    }
}

/// The billionths of a number that is held as an integer; `None` for any other.
#[inline(always)]
pub(crate) fn amount(number: &Number) -> Option<i128>
    ensures { result ≡ amount_of (a_value (number_data (number_view number.now))) }
{
    match (number.as_u64(), number.as_i64()) {
        (Some(whole), _) => Some(whole as i128 * ONE),
        (None, Some(whole)) => Some(whole as i128 * ONE),
        (None, None) => None,
    }
}

/// The billionths of what is a whole number or the number of a literal.
#[inline(always)]
pub(crate) fn amount_of(side: Side) -> Option<i128>
    ensures { result ≡ amount_of (side_view side.entry) }
{
    match side {
        Side::Value(Value::Number(number)) => amount(number),
        Side::Number(literal) => Some(literal.billionths()),
        Side::Value(_) | Side::Nothing => None,
    }
}

/// The billionths of a whole number: of one that is held as an integer, or of a literal without a fraction.
#[inline(always)]
pub(crate) fn whole_of(side: Side) -> Option<i128>
    ensures { result ≡ whole_of (side_view side.entry) }
{
    match side {
        Side::Value(Value::Number(number)) => amount(number),
        Side::Number(literal) => literal.whole_billionths(),
        Side::Value(_) | Side::Nothing => None,
    }
}

/// The exact number of what is a number.
#[inline(always)]
pub(crate) fn exact_of(side: Side) -> Option<ExactNumber>
    ensures { option_map exact_view result ≡ exact_of (side_view side.entry) }
{
    match side {
        Side::Value(Value::Number(number)) => Some(ExactNumber::of_number(number)),
        Side::Number(literal) => Some(literal.exact()),
        Side::Value(_) | Side::Nothing => None,
    }
}
