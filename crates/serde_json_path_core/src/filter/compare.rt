//! Comparisons (RFC 9535, section 2.3.5.2.2).

ghost use Rattle.std.specs.Prelude.{◌≡◌, ◌||◌, int_lt};
ghost use Rattle.serde_json_path_core.specs.Inside.Words.{eq, lt, nat_cmp, is_lt, slice_cmp, chars, exact_of, numbers_view, comes_before, is_same, of_both, rising_sides, same_sides, operator_view, side_view};
ghost use Rattle.serde_json_path_core.specs.Inside.Computed.{compare as comparison};

use crate::filter::equality::{same_amounts, same_values};
use crate::filter::side::{Side, amount_of, exact_of, whole_of};
use serde_json::Value;
use serde_json_path_functions::Numbers;
use serde_json_path_syntax::ComparisonOperator;

/// Whether a comparison of two sides holds.
#[inline(always)]
pub(crate) fn compare_sides(
    numbers: Numbers,
    operator: ComparisonOperator,
    left: Side,
    right: Side,
) -> bool
    ensures { result ≡ comparison (numbers_view numbers)
        (operator_view operator) (side_view left.entry) (side_view right.entry) }
{
    match operator {
        ComparisonOperator::EqualTo => is_equal(numbers, left, right),
        ComparisonOperator::NotEqualTo => !is_equal(numbers, left, right),
        ComparisonOperator::LessThan => is_less(numbers, left, right),
        ComparisonOperator::LessThanEqualTo => is_less_or_equal(numbers, left, right),
        ComparisonOperator::GreaterThan => is_less(numbers, right, left),
        ComparisonOperator::GreaterThanEqualTo => is_less_or_equal(numbers, right, left),
    }
}

/// Whether two sides are equal.
#[inline(always)]
fn is_equal(numbers: Numbers, left: Side, right: Side) -> bool
    ensures { result ≡ is_same (numbers_view numbers)
        (side_view left.entry) (side_view right.entry) }
{
    match (left, right) {
        (Side::Nothing, Side::Nothing) => true,
        (Side::Value(left), Side::Value(right)) => same_values(numbers, left, right),
        (Side::Nothing, _) | (_, Side::Nothing) => false,
        _ => equal_numbers(numbers, left, right),
    }
}

/// Whether two sides are numbers, one at least of a literal, and equal. Most are a whole number and a whole literal, which are
/// compared alike by either rule.
#[inline(always)]
#[tactic(auto, using(crate::proofs::Whole::same_whole))]
fn equal_numbers(numbers: Numbers, left: Side, right: Side) -> bool
    ensures { result ≡ same_sides (numbers_view numbers)
        (side_view left.entry) (side_view right.entry) }
{
    if let (Side::Value(_), Side::Number(_)) = (left, right) {
        let (whole, other) = (whole_of(left), whole_of(right));
        if whole.is_some() && other.is_some() {
            return same_amounts(whole, other);
        }
    }
    match numbers {
        Numbers::Whole => same_amounts(amount_of(left), amount_of(right)),
        Numbers::All => equal_exactly(left, right),
    }
}

/// Whether two sides are numbers with the same exact value. Inlined, it would make each comparison clear places for these.
#[inline(never)]
fn equal_exactly(left: Side, right: Side) -> bool
    ensures { result
        ≡ of_both eq (exact_of (side_view left.entry)) (exact_of (side_view right.entry)) }
{
    match (exact_of(left), exact_of(right)) {
        (Some(left), Some(right)) => left.is_equal(right),
        _ => false,
    }
}

/// Whether the first side is a text or a number before the second.
#[inline(always)]
fn is_less(numbers: Numbers, left: Side, right: Side) -> bool
    ensures { result ≡ comes_before (numbers_view numbers)
        (side_view left.entry) (side_view right.entry) }
{
    match (left, right) {
        (Side::Value(Value::String(left)), Side::Value(Value::String(right))) => {
            comes_before(left.as_str(), right.as_str())
        }
        _ => rising_numbers(numbers, left, right),
    }
}

/// Whether two sides are numbers, and the first is less. Most are a whole number and a whole literal, on either side.
#[inline(always)]
#[tactic(auto, using(crate::proofs::Whole::rising_whole))]
fn rising_numbers(numbers: Numbers, left: Side, right: Side) -> bool
    ensures { result ≡ rising_sides (numbers_view numbers)
        (side_view left.entry) (side_view right.entry) }
{
    if let (Side::Value(_), Side::Number(_)) = (left, right) {
        if let (Some(whole), Some(other)) = (whole_of(left), whole_of(right)) {
            return whole < other;
        }
    }
    if let (Side::Number(_), Side::Value(_)) = (left, right) {
        if let (Some(whole), Some(other)) = (whole_of(left), whole_of(right)) {
            return whole < other;
        }
    }
    match numbers {
        Numbers::Whole => rising_amounts(amount_of(left), amount_of(right)),
        Numbers::All => match (whole_of(left), whole_of(right)) {
            (Some(whole), Some(other)) => whole < other,
            _ => rising_exactly(left, right),
        },
    }
}

/// Whether two amounts are there, and the first is less.
#[inline(always)]
fn rising_amounts(left: Option<i128>, right: Option<i128>) -> bool
    ensures { result ≡ of_both int_lt left right }
{
    match (left, right) {
        (Some(left), Some(right)) => left < right,
        _ => false,
    }
}

/// Whether two sides are numbers, and the exact value of the first is less. Not inlined, as `equal_exactly`.
#[inline(never)]
fn rising_exactly(left: Side, right: Side) -> bool
    ensures { result
        ≡ of_both lt (exact_of (side_view left.entry)) (exact_of (side_view right.entry)) }
{
    match (exact_of(left), exact_of(right)) {
        (Some(left), Some(right)) => left.is_less(right),
        _ => false,
    }
}

/// Whether the first side is a text or a number before the second, or equal to it.
fn is_less_or_equal(numbers: Numbers, left: Side, right: Side) -> bool
    ensures { result
        ≡ comes_before (numbers_view numbers) (side_view left.entry) (side_view right.entry)
        || is_same (numbers_view numbers) (side_view left.entry) (side_view right.entry) }
{
    is_less(numbers, left, right) || is_equal(numbers, left, right)
}

/// Whether the first text is before the second, by Unicode scalar values.
fn comes_before(left: &str, right: &str) -> bool
    ensures { result ≡ is_lt (slice_cmp nat_cmp (chars left.now) (chars right.now)) }
{
    left.chars().cmp(right.chars()).is_lt()
}
