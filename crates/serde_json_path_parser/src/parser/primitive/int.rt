//! Integers.

ghost use Rattle.std.specs.Prelude.{◌≤◌};
ghost use Rattle.serde_json_path_parser.specs.Inside.Words.{IfOk, largest, IsInteger, IsAsRead, MovesTo, left, read_digits, read_int};

use crate::error::{Context, Failure, ParseErrorKind as Kind};
use crate::parser::primitive::decimal::parse_decimal;
use crate::parser::reader::Reader;
use crate::source::PathSource;

/// The greatest integer: 2^53 - 1.
const LARGEST: u128 = 9_007_199_254_740_991;

/// Parses the digits of an integer, at whose first character `place` bytes are left. They are read whole before their
/// range is checked.
fn parse_digits<S: PathSource>(reader: &mut Reader<'_, S>, place: usize) -> Result<u64, Failure>
    ensures moves { MovesTo result reader.old reader.new }
    ensures gives { IsAsRead (λ n. n) result reader.new (read_digits place (left reader.old)) }
    ensures range { IfOk result (λ n. n ≤ largest) }
{
    let n = parse_decimal(reader);
    if n > LARGEST {
        return Err(Failure::in_long_hand(Kind::IntegerOutOfRange, place));
    }
    Ok(n as u64)
}

/// Parses an integer from -(2^53 - 1) to 2^53 - 1 (RFC 9535, section 2.3.3.1): an index, or a part of a slice.
pub(crate) fn parse_int<S: PathSource>(reader: &mut Reader<'_, S>) -> Result<i64, Failure>
    ensures moves { MovesTo result reader.old reader.new }
    ensures gives { IsAsRead (λ i. i) result reader.new (read_int (left reader.old)) }
    ensures range { IfOk result (λ i. IsInteger i) }
{
    let place = reader.bytes_left();
    if reader.sees(b'-') {
        reader.take_char();
        if !reader.sees_first_digit() {
            return Err(reader.refusal_before(Kind::ExpectedSelector, Context::LongHand));
        }
        let amount = parse_digits(reader, place)?;
        return Ok(-(amount as i64));
    }
    if reader.sees(b'0') {
        reader.take_char();
        return Ok(0);
    }
    if !reader.sees_first_digit() {
        return Err(reader.refusal(Kind::ExpectedSelector, Context::LongHand));
    }
    let amount = parse_digits(reader, place)?;
    Ok(amount as i64)
}
