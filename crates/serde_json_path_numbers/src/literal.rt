//! The number of a literal, which is given in billionths.

ghost use Rattle.std.specs.Prelude.{◌≡◌, ◌*◌, ◌%◌, ◌^◌, ◌<◌, ◌==◌, length, negsuc, pos, int_div, unsigned_abs};
ghost use Rattle.std.specs.Float.{binary64};
ghost use Rattle.std.specs.Str.Parse.{digits_value, AllDigits};
ghost use Rattle.fast_float.specs.Rounding.{nearest_to_decimal};
ghost use Rattle.serde_json_path_numbers.specs.Numbers.{IsInLiteralRange};
ghost use Rattle.serde_json_path_numbers.specs.Numbers as numbers;

use fast_float::{Numeral, from_parts};

/// One, in billionths.
const ONE: i128 = 1_000_000_000;

/// The same of 64 bits, by which it takes no call to divide.
const SHORT_ONE: i64 = 1_000_000_000;

/// Whether so many billionths are a whole number.
#[inline]
fn is_whole(billionths: i128) -> bool
    ensures { result ≡ (unsigned_abs billionths % 1000000000 == 0) }
{
    match i64::try_from(billionths) {
        Ok(short) => short % SHORT_ONE == 0,
        Err(_) => billionths % ONE == 0,
    }
}

/// The whole part, rounded toward zero.
#[inline]
pub(crate) fn whole_part(billionths: i128) -> i128
    ensures { result ≡ int_div billionths (pos 1000000000) }
{
    match i64::try_from(billionths) {
        Ok(short) => (short / SHORT_ONE) as i128,
        Err(_) => billionths / ONE,
    }
}

/// The double nearest to a literal of that many billionths, if it has a fraction; `None` for a whole number.
#[inline]
pub fn literal_double(billionths: i128) -> Option<f64>
    requires { IsInLiteralRange billionths }
    ensures { result ≡ numbers.literal_double billionths }
{
    if is_whole(billionths) {
        None
    } else {
        Some(nearest_double(billionths < 0, billionths.unsigned_abs()))
    }
}

/// How many digits the billionths of a number of 64 bits have at most.
const DIGITS: usize = 29;

/// Writes the number with as many digits as there is room for, the first of which may be zeros.
fn write_digits(text: &mut [u8], number: u128)
    requires { number < 10 ^ length text.old }
    ensures value { digits_value 10 text.new ≡ number }
    ensures digits { AllDigits 10 text.new }
{
    let mut left = number;
    let mut at = text.len();
    while at > 0 {
        at -= 1;
        text[at] = b'0' + (left % 10) as u8;
        left /= 10;
    }
}

/// The double nearest to so many billionths, with that sign; of two that are as near, the one with an even last digit.
#[inline(never)]
#[tactic(auto, using(crate::proofs::Digits::nearest_written))]
pub(crate) fn nearest_double(negative: bool, size: u128) -> f64
    requires { size < 2 ^ 64 * 1000000000 }
    ensures { result ≡ nearest_to_decimal binary64 negative size (negsuc 8) }
{
    if size < 1 << 64 {
        return from_parts(negative, size as u64, -9);
    }
    let mut text = *b"00000000000000000000000000000e-9";
    write_digits(&mut text[..DIGITS], size);
    Numeral::scan(&text).to_float(negative)
}
