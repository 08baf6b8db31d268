//! Number literals.

ghost use Rattle.std.specs.Prelude.{◌≡◌, ◌<◌};
ghost use Rattle.serde_json_path_parser.specs.Inside.Words.{Some, None, option_map, numbers_view, held_as, held_or, scan, literal_of, literal_view, IsAsRead, MovesTo, left, read_whole, read_fraction, read_amount, read_number, capped};

use crate::error::{Failure, ParseErrorKind as Kind};
use crate::parser::primitive::decimal::parse_decimal;
use crate::parser::primitive::numeral::parse_numeral;
use crate::parser::reader::Reader;
use crate::source::PathSource;
use serde_json_path_functions::Numbers;
use serde_json_path_numbers::{Amount, numeral_amount};
use serde_json_path_syntax::{Literal, NumberLiteral};
use std::alloc::Global;

/// How many billionths one is.
const ONE: u128 = 1_000_000_000;

/// How many digits a fraction may have.
const FRACTION_DIGITS: usize = 9;

/// More billionths than any literal has.
const TOO_MANY: u128 = (1 << 127) - 1;

/// Parses the digits before a point.
fn parse_whole<S: PathSource>(reader: &mut Reader<'_, S>, place: usize) -> Result<u128, Failure>
    ensures moves { MovesTo result reader.old reader.new }
    ensures gives { IsAsRead (λ n. n) result reader.new
        (capped (read_whole place (left reader.old))) }
{
    if reader.sees(b'0') {
        reader.take_char();
        return Ok(0);
    }
    if !reader.sees_first_digit() {
        return Err(Failure::in_long_hand(Kind::ExpectedExpression, place));
    }
    Ok(parse_decimal(reader))
}

/// Parses a fraction, whose digits are read whole. Returns its billionths, or 0 where there is none.
#[tactic(auto, unfolding(crate::specs::Numbers::read_fraction, crate::specs::Numbers::read_places))]
fn parse_fraction<S: PathSource>(reader: &mut Reader<'_, S>, place: usize) -> Result<u128, Failure>
    ensures moves { MovesTo result reader.old reader.new }
    ensures gives { IsAsRead (λ n. n) result reader.new (read_fraction place (left reader.old)) }
{
    if !reader.sees(b'.') {
        if reader.sees_exponent() {
            return Err(Failure::in_long_hand(Kind::ExponentOrEmptyFraction, place));
        }
        return Ok(0);
    }
    reader.take_char();
    if !reader.sees_digit() {
        return Err(Failure::in_long_hand(Kind::ExponentOrEmptyFraction, place));
    }
    let before = reader.bytes_left();
    let value = parse_decimal(reader);
    let count = before - reader.bytes_left();
    if reader.sees_exponent() {
        return Err(Failure::in_long_hand(Kind::ExponentOrEmptyFraction, place));
    }
    if count > FRACTION_DIGITS {
        return Err(Failure::in_long_hand(Kind::FractionTooLong, place));
    }
    Ok(value * 10_u128.pow((FRACTION_DIGITS - count) as u32))
}

/// Parses a number without its sign. Returns its billionths, or `u128::MAX` where there are more.
#[tactic(auto, unfolding(crate::specs::Numbers::read_amount))]
fn parse_amount<S: PathSource>(reader: &mut Reader<'_, S>, place: usize) -> Result<u128, Failure>
    ensures moves { MovesTo result reader.old reader.new }
    ensures gives { IsAsRead (λ n. n) result reader.new
        (capped (read_amount place (left reader.old))) }
{
    let whole = parse_whole(reader, place)?;
    let fraction = parse_fraction(reader, place)?;
    Ok(whole.saturating_mul(ONE).saturating_add(fraction))
}

/// The literal of so many billionths with that sign, unless there are too many.
fn short_literal(is_negative: bool, billionths: u128) -> Option<Literal>
    ensures { option_map literal_view result
        ≡ option_map literal_of (held_or is_negative (Some billionths) None) }
{
    let size = billionths.min(TOO_MANY) as i128;
    let signed = if is_negative { -size } else { size };
    let number = NumberLiteral::from_billionths(signed)?;
    Some(Literal::Number(number))
}

/// The literal that a numeral with that sign is held as, unless it is beyond the greatest double.
#[tactic(auto, using(serde_json_path_numbers::proofs::ReadBack::held_in_range))]
fn long_literal(is_negative: bool, numeral: &str) -> Option<Literal>
    ensures { option_map literal_view result
        ≡ option_map literal_of (held_as is_negative (scan numeral.now)) }
{
    match numeral_amount(is_negative, numeral.as_bytes())? {
        Amount::Billionths(billionths) => {
            let number = NumberLiteral::from_billionths(billionths)?;
            Some(Literal::Number(number))
        }
        Amount::Decimal(decimal) => Some(Literal::Decimal(decimal)),
    }
}

/// Parses a number literal (RFC 9535, section 2.3.5.1), from its first digit or its `-` on. By whole numbers it is from
/// -2^63 to 2^64 - 1, has no exponent and at most nine digits after its point, and takes no memory. Its digits are read
/// whole before they are checked.
#[tactic(auto, using(crate::proofs::Grammar::Numerals::literal_given))]
pub(crate) fn parse_number<S: PathSource>(
    alloc: Global,
    reader: &mut Reader<'_, S>,
    numbers: Numbers,
) -> Result<Literal, Failure>
    ensures moves { MovesTo result reader.old reader.new }
    ensures gives { IsAsRead literal_view result reader.new
        (read_number (numbers_view numbers) (left reader.old)) }
{
    let place = reader.bytes_left();
    let is_negative = reader.sees(b'-');
    if is_negative {
        reader.take_char();
    }
    let out_of_range = Failure::in_long_hand(Kind::NumberOutOfRange, place);
    match numbers {
        Numbers::Whole => {
            let billionths = parse_amount(reader, place)?;
            short_literal(is_negative, billionths).ok_or(out_of_range)
        }
        Numbers::All => {
            let numeral = parse_numeral(alloc, reader, place)?;
            long_literal(is_negative, numeral.as_str()).ok_or(out_of_range)
        }
    }
}
