//! Digits.

ghost use Rattle.std.specs.Prelude.{◌≡◌, ◌+◌, ◌-◌, ◌*◌, ◌^◌, ◌<◌};
ghost use Rattle.serde_json_path_parser.specs.Inside.Words.{min, is_digit, value_from, front, past, left, Moves};

use crate::parser::reader::Reader;
use crate::source::PathSource;

/// Numbers below this one take another digit in 64 bits.
const SHORT: u128 = 1 << 60;

/// Appends a digit to a number, saturating at `u128::MAX`.
#[inline(always)]
fn with_digit(n: u128, digit: u32) -> u128
    requires { digit < 10 }
    ensures { result ≡ min (n * 10 + digit) (2 ^ 128 - 1) }
{
    if n < SHORT {
        return (n as u64 * 10 + digit as u64) as u128;
    }
    n.saturating_mul(10).saturating_add(digit as u128)
}

/// Reads a run of digits, saturating at `u128::MAX`.
pub(crate) fn parse_decimal<S: PathSource>(reader: &mut Reader<'_, S>) -> u128
    ensures moves { Moves reader.old reader.new }
    ensures value { result ≡ min (value_from 0 (front is_digit (left reader.old))) (2 ^ 128 - 1) }
    ensures rest { left reader.new ≡ past is_digit (left reader.old) }
{
    let mut n: u128 = 0;
    while reader.sees_digit() {
        n = with_digit(n, reader.take_char() as u32 - 48);
    }
    n
}
