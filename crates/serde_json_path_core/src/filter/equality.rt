//! Equality of values (RFC 9535, section 2.3.5.2.2).

ghost use Rattle.std.specs.Prelude.{◌≡◌};
ghost use Rattle.serde_json_path_core.specs.Inside.Words.{int_eq, as_integer, view, items_view, members_view, number_view, numbers_view, of_both, same_number, same_data};
ghost use Rattle.serde_json_path_core.specs.Inside.Computed.{same_items as same_items_of, same_members as same_members_of};

use crate::filter::side::amount;
use serde_json::{Map, Number, Value};
use serde_json_path_functions::Numbers;
use serde_json_path_numbers::ExactNumber;

/// Whether two values are equal.
#[cycle(same)]
#[inline(always)]
pub(crate) fn same_values(numbers: Numbers, left: &Value, right: &Value) -> bool
    ensures { result ≡ same_data (numbers_view numbers) (view left.now) (view right.now) }
{
    match (left, right) {
        (Value::Null, Value::Null) => true,
        (Value::Bool(left), Value::Bool(right)) => *left == *right,
        (Value::Number(left), Value::Number(right)) => same_numbers(numbers, left, right),
        (Value::String(left), Value::String(right)) => left.as_str() == right.as_str(),
        (Value::Array(left), Value::Array(right)) => same_items(numbers, left, right),
        (Value::Object(left), Value::Object(right)) => same_members(numbers, left, right),
        _ => false,
    }
}

/// Whether two numbers are equal. Most are small integers, which are compared as such.
#[inline(always)]
fn same_numbers(numbers: Numbers, left: &Number, right: &Number) -> bool
    ensures { result
        ≡ same_number (numbers_view numbers) (number_view left.now) (number_view right.now) }
{
    if let Some(first) = left.as_i64() {
        if let Some(second) = right.as_i64() {
            return first == second;
        }
    }
    same_numbers_by(numbers, left, right)
}

/// Whether two numbers are equal by a rule.
fn same_numbers_by(numbers: Numbers, left: &Number, right: &Number) -> bool
    ensures { result
        ≡ same_number (numbers_view numbers) (number_view left.now) (number_view right.now) }
{
    match numbers {
        Numbers::Whole => same_amounts(amount(left), amount(right)),
        Numbers::All => ExactNumber::of_number(left).is_equal(ExactNumber::of_number(right)),
    }
}

/// Whether two amounts are there, and equal.
#[inline(always)]
pub(crate) fn same_amounts(left: Option<i128>, right: Option<i128>) -> bool
    ensures { result ≡ of_both int_eq left right }
{
    match (left, right) {
        (Some(left), Some(right)) => left == right,
        _ => false,
    }
}

/// Whether two arrays are equal, item by item.
#[cycle(same)]
fn same_items(numbers: Numbers, left: &Vec<Value>, right: &Vec<Value>) -> bool
    ensures { result ≡ same_items_of (numbers_view numbers)
        (items_view left.now.items) (items_view right.now.items) }
{
    if left.len() != right.len() {
        return false;
    }
    for (item, other) in left.iter().zip(right.iter()) {
        if !same_values(numbers, item, other) {
            return false;
        }
    }
    true
}

/// Whether two objects have the same names with equal values.
#[cycle(same)]
fn same_members(numbers: Numbers, left: &Map<String, Value>, right: &Map<String, Value>) -> bool
    ensures { result ≡ same_members_of (numbers_view numbers)
        (members_view left.now.entries) (members_view right.now.entries) }
{
    if left.len() != right.len() {
        return false;
    }
    for ((name, value), (other_name, other)) in left.iter().zip(right.iter()) {
        if name.as_str() != other_name.as_str() || !same_values(numbers, value, other) {
            return false;
        }
    }
    true
}
