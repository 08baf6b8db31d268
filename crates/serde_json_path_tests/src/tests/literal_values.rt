//! Numbers as literals (RFC 9535, section 2.3.5.1).

use serde_json::Value;
use serde_json_path_core::NumberLiteral;
use serde_json_path_numbers::ExactNumber;
use std::alloc::Global;
use std::test::Fail;
use test_rows::{Came, fields, hold_rows};

/// The billionths of the greatest number, 2^64 - 1.
const GREATEST: i128 = 18_446_744_073_709_551_615_000_000_000;

/// The billionths of the least number, -2^63.
const LEAST: i128 = -9_223_372_036_854_775_808_000_000_000;

/// The billionths of a number, and these again, and the number that a document holds for it.
const NUMBERS: &[&str] = &[
    "0 -> 0, 0",
    "1000000000 -> 1000000000, 1",
    "-1000000000 -> -1000000000, -1",
    "2000000000 -> 2000000000, 2",
    "1500000000 -> 1500000000, 1.5",
    "-1500000000 -> -1500000000, -1.5",
    "100000000 -> 100000000, 0.1",
    "18446744073709551615000000000 -> 18446744073709551615000000000, 18446744073709551615",
    "-9223372036854775808000000000 -> -9223372036854775808000000000, -9223372036854775808",
];

/// The literal of a number, whose billionths a text writes.
fn literal(billionths: &str) -> Result<NumberLiteral, Fail> {
    Ok(NumberLiteral::from_billionths(billionths.parse::<i128>()?).ok_or("out of range")?)
}

/// The billionths of a number, and the number that a document holds for it.
fn told(alloc: Global, billionths: &str) -> Came {
    let number = literal(billionths)?;
    let value = number.value().to_string(alloc)?;
    let billionths = number.billionths();
    if number.whole_billionths() != (billionths % 1_000_000_000 == 0).then_some(billionths) {
        return Err(Fail::new("a fraction is lost"));
    }
    Ok(format!(in alloc; "{billionths}, {value}")?)
}

#[test]
fn holds_numbers_as_documents_do(rt: HostRuntime) -> Result<(), Fail> {
    hold_rows(&rt, NUMBERS, told)
}

/// The billionths of a literal, and whether its exact number is that of a document's number.
const SAME: &[&str] = &[
    "1500000000 ~ 1.5 -> true",
    "-100000000 ~ -0.1 -> true",
    "8950000000 ~ 8.95 -> true",
    "4000000000 ~ 4 -> true",
    "-4000000000 ~ -4.0 -> true",
    "18446744073709551615000000000 ~ 18446744073709551615 -> true",
];

/// Whether a literal's exact number is that of a document's number.
fn is_number(alloc: Global, given: &str) -> Came {
    let (billionths, text) = fields(given)?;
    let Value::Number(number) = Value::from_str(alloc, text)? else {
        return Err(Fail::new("no number"));
    };
    let exact = literal(billionths)?.exact();
    let is_equal = exact.is_equal(ExactNumber::of_number(&number));
    Ok(format!(in alloc; "{is_equal}")?)
}

#[test]
fn literals_denote_numbers_of_documents(rt: HostRuntime) -> Result<(), Fail> {
    hold_rows(&rt, SAME, is_number)
}

#[test]
fn refuses_numbers_out_of_range(rt: HostRuntime) {
    assert!(rt; NumberLiteral::from_billionths(GREATEST + 1).is_none());
    assert!(rt; NumberLiteral::from_billionths(LEAST - 1).is_none());
}
