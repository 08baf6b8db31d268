//! What a number literal of any length is held as (RFC 9535, section 2.3.5.1).

ghost use Rattle.std.specs.Prelude.{◌≡◌, ◌<◌, ◌≤◌, ◌^◌, ◌++◌, true, false, length, Option, Some, SomeIff, IfSome, unsigned_abs};
ghost use Rattle.std.specs.Option.{option_map, option_or};
ghost use Rattle.std.specs.Float.{float_is_finite, binary64};
ghost use Rattle.std.specs.Str.Parse.{digits_value, AllDigits};
ghost use Rattle.fast_float.specs.Text.{nearest, scan};
ghost use Rattle.serde_json_path_numbers.specs.Decimals.{fewest, first_digits, if_read, is_beyond, most_billionths, one_less, reads_as};
ghost use Rattle.serde_json_path_numbers.specs.Inside.{AreHeldAlike};
ghost use Rattle.serde_json_path_numbers.specs.Numerals.{decimal_billionths, double_billionths, exponent_of, held_as, held_double, held_or, held_short, plain_billionths, shortest_of, whole_billionths};
ghost use Rattle.serde_json_path_numbers.specs.Numerals as numerals;
ghost use Rattle.serde_json_path_numbers.specs.Views.{amount_view};

use crate::decimal::Decimal;
use crate::exact_number::ExactNumber;
use core::dec2flt::digit_at;
use fast_float::{Numeral, from_parts, parse_u64};
use std::num::{f64_to_bits_with_nan, saturating_f64_to_u64};

/// One, in billionths.
const ONE: u128 = 1_000_000_000;

/// As many digits after its point as a plain number may have.
const PLACES: usize = 9;

/// The least number of nineteen digits.
const MANY: u64 = 1_000_000_000_000_000_000;

/// No double that differs from 0 is beyond ten to this power, or its inverse.
const FARTHEST: u128 = 1000;

/// What a literal is held as.
#[derive(Clone, Copy, Debug)]
pub enum Amount {
    /// A whole number of billionths.
    Billionths(i128),
    /// The double nearest to it.
    Decimal(Decimal),
}

/// What a number literal is held as, whose text without a sign is given: digits, and perhaps a point and digits, and an
/// exponent (RFC 9535, section 2.3.5.1). `None` where it is beyond the greatest double.
///
/// A whole number from -2^63 to 2^64 - 1 is held as its billionths, and so is a number with at most nine digits after its
/// point and without an exponent. Any other is the double nearest to it, of two that are as near the one that ends in an
/// even bit, and 0 where it is too small.
pub fn numeral_amount(negative: bool, text: &[u8]) -> Option<Amount>
    ensures { option_map amount_view result ≡ held_as negative (scan text.now) }
{
    let numeral = Numeral::scan(text);
    if let Some(amount) = held(negative, plain(&numeral)) {
        return Some(amount);
    }
    if let Some(amount) = held(negative, whole(&numeral)) {
        return Some(amount);
    }
    held_double(negative, &numeral)
}

/// What so many billionths are held as, if a literal may have so many.
fn held(negative: bool, size: Option<u128>) -> Option<Amount>
    ensures { (other : Option numerals.Amount) → held_or negative size other
        ≡ option_or (option_map amount_view result) other }
{
    let size = size?;
    if size > most_billionths(negative) {
        return None;
    }
    let billionths = size as i128;
    Some(Amount::Billionths(if negative { -billionths } else { billionths }))
}

/// The number that digits write, if it has 64 bits.
fn number_of(digits: &[u8]) -> Option<u64>
    requires { AllDigits 10 digits.now }
    ensures { SomeIff result (digits_value 10 digits.now < 2 ^ 64) (digits_value 10 digits.now) }
{
    if digits.is_empty() {
        return Some(0);
    }
    parse_u64(digits).ok()
}

/// The billionths of a number without an exponent, and with at most nine digits after its point.
#[tactic(auto, using(crate::proofs::Numerals::few_digits))]
fn plain(numeral: &Numeral<'_>) -> Option<u128>
    ensures { AreHeldAlike (plain_billionths numeral.now) result }
{
    let places = numeral.fraction().len();
    if !numeral.exponent().is_empty() || places > PLACES {
        return None;
    }
    let whole = number_of(numeral.whole())?;
    let fraction = number_of(numeral.fraction())?;
    Some(whole as u128 * ONE + fraction as u128 * 10_u128.pow((PLACES - places) as u32))
}

/// The billionths of a whole number.
fn whole(numeral: &Numeral<'_>) -> Option<u128>
    ensures { AreHeldAlike (whole_billionths numeral.now) result }
{
    Some(numeral.whole_u64()? as u128 * ONE)
}

/// The billionths of a double that is a whole number.
fn whole_double(size: f64) -> Option<u128>
    requires { float_is_finite size ≡ true }
    ensures { result ≡ double_billionths size }
{
    let whole = saturating_f64_to_u64(size);
    if ExactNumber::of_whole(whole).is_equal(ExactNumber::of_double(size)) {
        Some(whole as u128 * ONE)
    } else {
        None
    }
}

/// What a number is held as that is no whole number: the double nearest to it, if that is finite.
fn held_double(negative: bool, numeral: &Numeral<'_>) -> Option<Amount>
    ensures { option_map amount_view result
        ≡ held_double negative numeral.now (nearest binary64 false numeral.now) }
{
    let size: f64 = numeral.to_float(false);
    if !size.is_finite() {
        return None;
    }
    if let Some(amount) = held(negative, whole_double(size)) {
        return Some(amount);
    }
    let (digits, exponent) = shortest(negative, size, numeral)?;
    Some(held_short(negative, size, digits, exponent))
}

/// What the fewest digits that are read as a double are held as.
#[tactic(auto, using(crate::proofs::Numerals::finite_decimal))]
fn held_short(negative: bool, size: f64, digits: u64, exponent: i64) -> Amount
    requires finite { float_is_finite size ≡ true }
    requires reads { reads_as negative size digits exponent ≡ true }
    ensures { Some (amount_view result) ≡ held_short negative (Some (digits, exponent)) }
{
    match held(negative, short_billionths(digits, exponent)) {
        Some(amount) => amount,
        None => Amount::Decimal(Decimal {
            negative,
            digits,
            exponent,
        }),
    }
}

/// The billionths of a decimal, if it has one to nine digits after its point.
#[tactic(auto, using(crate::proofs::Numerals::capped, crate::proofs::Numerals::small_power))]
fn short_billionths(digits: u64, exponent: i64) -> Option<u128>
    ensures { AreHeldAlike (decimal_billionths (digits, exponent)) result }
{
    if exponent < -9 || exponent >= 0 {
        return None;
    }
    let power = 10_u128.pow((exponent + 9) as u32);
    Some((digits as u128).saturating_mul(power))
}

/// The fewest digits of a number that are read as the double nearest to it; `None` if nineteen are too few.
#[tactic(auto, using(crate::proofs::Numerals::both_digits))]
fn shortest(negative: bool, size: f64, numeral: &Numeral<'_>) -> Option<(u64, i64)>
    ensures value { result ≡ shortest_of negative size numeral.now (exponent_of numeral.now) }
    ensures reads { IfSome result (λ found. reads_as negative size found.0 found.1 ≡ true) }
{
    let exponent = exponent_of(numeral)?;
    let (digits, exponent) = first_digits(numeral.whole(), numeral.fraction(), exponent);
    fewest(negative, size, digits, exponent)
}

/// The power of ten by which the digits are taken, if the exponent has 64 bits.
fn exponent_of(numeral: &Numeral<'_>) -> Option<i128>
    ensures value { result ≡ exponent_of numeral.now }
    ensures range { IfSome result (λ exponent. unsigned_abs exponent < 2 ^ 65) }
{
    let power = number_of(numeral.exponent())? as i128;
    let places = numeral.fraction().len() as i128;
    if numeral.is_exponent_negative() {
        Some(-power - places)
    } else {
        Some(power - places)
    }
}

/// The first nineteen digits of a number, or all of fewer, and the exponent of the last of these.
fn first_digits(whole: &[u8], fraction: &[u8], exponent: i128) -> (u64, i128)
    requires digits { AllDigits 10 (whole.now ++ fraction.now) }
    requires exponent { unsigned_abs exponent < 2 ^ 65 }
    ensures value { result ≡ first_digits (length (whole.now ++ fraction.now))
        (digits_value 10 (whole.now ++ fraction.now), exponent) }
    ensures range { unsigned_abs result.1 < 2 ^ 66 }
{
    let count = whole.len() + fraction.len();
    let mut first = 0;
    for at in 0..count {
        if first >= MANY {
            return (first, exponent + (count - at) as i128);
        }
        first = first * 10 + digit_at(whole, fraction, at);
    }
    (first, exponent)
}

/// One digit less, and again one less, as long as what is left is read as the double.
#[tactic(auto, using(crate::proofs::Fewest::of_fewest))]
fn fewest(negative: bool, size: f64, digits: u64, exponent: i128) -> Option<(u64, i64)>
    requires { unsigned_abs exponent < 2 ^ 66 }
    ensures value { result
        ≡ if_read negative size (fewest negative size digits (digits, exponent)) }
    ensures reads { IfSome result (λ found. reads_as negative size found.0 found.1 ≡ true) }
{
    if let Some((digits, exponent)) = one_less(negative, size, digits, exponent) {
        return fewest(negative, size, digits, exponent);
    }
    if reads_as(negative, size, digits, exponent) {
        Some((digits, exponent as i64))
    } else {
        None
    }
}

/// All digits but the last, cut there or else raised, if they are read as the double.
fn one_less(negative: bool, size: f64, digits: u64, exponent: i128) -> Option<(u64, i128)>
    requires { unsigned_abs exponent < 2 ^ 66 }
    ensures value { result ≡ one_less negative size (digits, exponent) }
    ensures fewer { IfSome result (λ less. less.0 < digits) }
    ensures range { IfSome result (λ less. unsigned_abs less.1 ≤ 1000) }
{
    if digits < 10 {
        return None;
    }
    let cut = digits / 10;
    let exponent = exponent + 1;
    if reads_as(negative, size, cut, exponent) {
        return Some((cut, exponent));
    }
    let raised = cut + 1;
    if reads_as(negative, size, raised, exponent) {
        Some((raised, exponent))
    } else {
        None
    }
}

/// Whether the double nearest to a decimal is this one, and the decimal no integer that a literal may be.
fn reads_as(negative: bool, size: f64, digits: u64, exponent: i128) -> bool
    ensures value { result ≡ reads_as negative size digits exponent }
    ensures range { result ≡ true → unsigned_abs exponent ≤ 1000 }
{
    if digits == 0 || exponent.unsigned_abs() > FARTHEST {
        return false;
    }
    if !is_beyond(negative, digits, exponent as i64) {
        return false;
    }
    let near: f64 = from_parts(false, digits, exponent as i64);
    f64_to_bits_with_nan(near) == f64_to_bits_with_nan(size)
}

/// Whether a decimal is no whole number in the range of literals, as far as its exponent tells.
#[tactic(auto, using(crate::proofs::Numerals::small_power, crate::proofs::Numerals::many_zeros))]
fn is_beyond(negative: bool, digits: u64, exponent: i64) -> bool
    requires { 0 < digits }
    ensures { result ≡ is_beyond negative digits exponent }
{
    if exponent < 0 || exponent > 19 {
        return true;
    }
    let power = 10_u128.pow((exponent + 9) as u32);
    (digits as u128).saturating_mul(power) > most_billionths(negative)
}

/// As many billionths as a literal may have.
fn most_billionths(negative: bool) -> u128
    ensures { result ≡ most_billionths negative }
{
    if negative {
        (1 << 63) * ONE
    } else {
        ((1 << 64) - 1) * ONE
    }
}
