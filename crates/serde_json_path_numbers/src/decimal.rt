//! A double as a decimal of few digits.

ghost use Rattle.std.specs.Prelude.{◌≡◌, ◌≤◌, Some, true};
ghost use Rattle.std.specs.Float.{float_is_finite};
ghost use Rattle.std.specs.Fmt.{WritesOnOk};
ghost use Rattle.serde_json_path_numbers.specs.Decimals.{decimal_number, decimal_of, decimal_text, place_digits, size_text};
ghost use Rattle.serde_json_path_numbers.specs.Decimals as decimals;

use fast_float::from_parts;
use std::fmt;
use std::fmt::{Formatter, Write};

/// A double, given by the shortest decimal that is read as it: some digits, times a power of ten.
#[derive(Clone, Copy, Debug, PartialEq, Eq)]
pub struct Decimal {
    pub(crate) negative: bool,
    pub(crate) digits: u64,
    pub(crate) exponent: i64,
    ghost finite: { float_is_finite (decimal_number (decimal_of negative digits exponent)) ≡ true },
}

impl Decimal {
    ghost use Rattle.serde_json_path_numbers.specs.Views.{decimal_view};

    /// The double nearest to it.
    #[inline]
    pub fn double(self) -> f64
        ensures value { result ≡ decimal_number (decimal_view self) }
        ensures finite { float_is_finite result ≡ true }
    {
        from_parts(self.negative, self.digits, self.exponent)
    }
}

/// The decimal as a path writes it: with a point, or with an exponent where that is shorter (RFC 9535, section 2.3.5.1).
impl fmt::Display for Decimal {
    ghost use Rattle.serde_json_path_numbers.specs.Views.{decimal_view};

    ghost output = { λ d. Some (decimal_text (decimal_view d)) };

    fn fmt<W: Write>(&self, f: &mut Formatter<W>) -> fmt::Result {
        if self.negative {
            f.write_str("-")?;
            write_size(f, self.digits, self.exponent)
        } else {
            write_size(f, self.digits, self.exponent)
        }
    }
}

/// How many places are after a point at most: the digits are below 2^64, and at most two zeros come first.
const MOST_PLACES: u64 = 22;

/// Whether a decimal of these digits is written with a point.
#[tactic(auto, using(crate::proofs::Places::of_places))]
fn has_point(digits: u64, exponent: i64) -> bool
    ensures { result ≡ decimals.has_point digits exponent }
{
    let places = exponent.unsigned_abs();
    exponent < -9 && places <= MOST_PLACES && 10_u128.pow(places as u32) <= digits as u128 * 1000
}

/// A decimal without its sign.
#[tactic(auto, using(crate::proofs::Places::of_places))]
fn write_size<W: Write>(f: &mut Formatter<W>, digits: u64, exponent: i64) -> fmt::Result
    ensures { WritesOnOk W.write_str_gives f.old result (size_text digits exponent) f.new }
{
    if has_point(digits, exponent) {
        let places = exponent.unsigned_abs() as u32;
        let unit = 10_u128.pow(places);
        write!(f, "{}.", digits as u128 / unit)?;
        write_places(f, places, digits as u128 % unit)
    } else {
        write!(f, "{digits}e{exponent}")
    }
}

/// So many digits of a number, the first of which may be zeros.
#[tactic(auto, using(crate::proofs::Places::of_places))]
fn write_places<W: Write>(f: &mut Formatter<W>, places: u32, number: u128) -> fmt::Result
    requires { places ≤ 22 }
    ensures { WritesOnOk W.write_str_gives f.old result (place_digits places number) f.new }
{
    if places == 0 {
        return Ok(());
    }
    let unit = 10_u128.pow(places - 1);
    write!(f, "{}", number / unit)?;
    write_places(f, places - 1, number % unit)
}
