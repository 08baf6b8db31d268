//! Numbers in the order of their exact values, and laws of them.

mod numerals;
mod order;

use numerals::NUMERALS;
use order::ORDER;
use serde_json::Value;
use serde_json_path_numbers::{
    Amount, ExactNumber, law_equality_of_numbers, law_integers_keep_their_order,
    law_numbers_are_finite, law_order_of_numbers, numeral_amount,
};
use std::alloc::Global;
use std::process::Abort;
use std::test::Fail;

/// The least billionths of a literal, those of -2^63.
const LEAST: i128 = -9_223_372_036_854_775_808_000_000_000;

/// The greatest billionths of a literal, those of 2^64 - 1.
const GREATEST: i128 = 18_446_744_073_709_551_615_000_000_000;

/// Numbers where one form changes to the other, in rows like those of [`ORDER`].
const EDGES: &str = concat!(
    "9007199254740993 > 9007199254740992.0;18446744073709551615 < 1.8446744073709552e19;-0.0 = 0;0 = -0.0;-0.0 = 0.0;-7 < 7;",
    "5e-324 > 0;-5e-324 < 0;1.5 > 1;-1.5 < -1;-1 = -1.0;9223372036854775807 < 9223372036854775808.0;",
    "-9223372036854775808 = -9.223372036854775808e18;18446744073709551615 > -1.7976931348623157e308;",
    "#1500000000 = 1.5;#-1500000000 = -1.5;#100000000 = 0.1;#1 = 1e-9;#0 = -0.0;#3000000000 = 3;",
    "#9007199254740993000000000 > 9007199254740992.0;#9007199254740993500000000 = 9007199254740994;",
    "#18446744073709551614500000000 = 1.8446744073709552e19;#18446744073709551615000000000 = 18446744073709551615"
);

/// The number that a text writes: a literal's after `#`, in billionths, or else a document's.
fn number(alloc: Global, text: &str) -> Result<ExactNumber, Fail> {
    if let Some(digits) = text.strip_prefix('#') {
        let billionths: i128 = digits.parse().ok().ok_or("no billionths")?;
        if billionths < LEAST || GREATEST < billionths {
            return Err(Fail::new("out of range"));
        }
        return Ok(ExactNumber::of_billionths(billionths));
    }
    match Value::from_str(alloc, text)? {
        Value::Number(number) => Ok(ExactNumber::of_number(&number)),
        _ => Err(Fail::new("no number")),
    }
}

/// Which of `<`, `=` and `>` hold between two numbers, as a text of these.
fn holding(one: ExactNumber, other: ExactNumber) -> &'static str {
    match (
        one.is_less(other),
        one.is_equal(other) && other.is_equal(one),
        other.is_less(one),
    ) {
        (true, false, false) => "<",
        (false, true, false) => "=",
        (false, false, true) => ">",
        _ => "none, or more than one",
    }
}

/// Whether the order that a row has is the one that holds.
fn is_held(alloc: Global, row: &str) -> Result<bool, Fail> {
    let (one, rest) = row.split_once(' ').ok_or("no order")?;
    let (order, other) = rest.split_once(' ').ok_or("no other number")?;
    Ok(holding(number(alloc, one)?, number(alloc, other)?) == order)
}

/// Holds each row of a table.
fn hold(rt: &impl Abort, alloc: Global, table: &str) -> Result<(), Fail> {
    for row in table.split(';') {
        assert!(rt; is_held(alloc, row)?, "{row}");
    }
    Ok(())
}

#[test]
fn numbers_at_the_edges(rt: HostRuntime) -> Result<(), Fail> {
    law_equality_of_numbers();
    law_order_of_numbers();
    law_numbers_are_finite();
    law_integers_keep_their_order();
    hold(&rt, rt.alloc(), EDGES)
}

#[test]
fn numbers_in_order(rt: HostRuntime) -> Result<(), Fail> {
    hold(&rt, rt.alloc(), ORDER)
}

/// What a literal is held as: `b` and its billionths, the text of a decimal, or `none`.
fn told(alloc: Global, literal: &str) -> Result<String, Fail> {
    let (negative, numeral) = match literal.strip_prefix('-') {
        Some(numeral) => (true, numeral),
        None => (false, literal),
    };
    match numeral_amount(negative, numeral.as_bytes()) {
        Some(Amount::Billionths(billionths)) => Ok(format!(in alloc; "b{billionths}")?),
        Some(Amount::Decimal(decimal)) => Ok(format!(in alloc; "{decimal}")?),
        None => Ok(String::from_str(alloc, "none")?),
    }
}

/// Whether a literal is held as its row says, and a decimal's text as that decimal.
fn is_held_so(alloc: Global, row: &str) -> Result<bool, Fail> {
    let (literal, held) = row.split_once(" > ").ok_or("no literal")?;
    Ok(
        told(alloc, literal)?.as_str() == held
            && (held.starts_with(&['b', 'n']) || told(alloc, held)?.as_str() == held),
    )
}

#[test]
fn numerals_of_any_length(rt: HostRuntime) -> Result<(), Fail> {
    for row in NUMERALS.split(';') {
        assert!(rt; is_held_so(rt.alloc(), row)?, "{row}");
    }
    Ok(())
}
