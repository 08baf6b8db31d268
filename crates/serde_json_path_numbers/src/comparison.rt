//! An integer compared with a double.

ghost use Rattle.std.specs.Prelude.{◌≡◌, ◌^◌, ◌<◌, true, pos, unsigned_abs};
ghost use Rattle.std.specs.Float.{float_is_finite};
ghost use Rattle.serde_json_path_numbers.specs.Inside.{IsOrder};
ghost use Rattle.serde_json_path_numbers.specs.Numbers.{integer};

use std::cmp::Ordering;
use std::num::truncating_f64_to_u64;

/// 2^64, the least double whose whole part has more than 64 bits.
const TWO_TO_64: f64 = 18446744073709551616.0;

/// How an integer without a sign compares with a double: by the double's whole part, and where these are equal by
/// whether the double has a fraction.
#[tactic(auto, using(crate::proofs::Orders::of_natural))]
fn compare_natural(n: u64, x: f64) -> Ordering
    requires { float_is_finite x ≡ true }
    ensures { IsOrder (integer (pos n)) x result }
{
    if x < 0.0 {
        return Ordering::Greater;
    }
    if x >= TWO_TO_64 {
        return Ordering::Less;
    }
    let whole = truncating_f64_to_u64(x);
    if n != whole {
        return n.cmp(&whole);
    }
    if x.trunc() < x {
        Ordering::Less
    } else {
        Ordering::Equal
    }
}

/// How an integer compares with a double.
#[tactic(auto, using(crate::proofs::Floats::of_negated))]
pub(crate) fn compare(n: i128, x: f64) -> Ordering
    requires range { unsigned_abs n < 2 ^ 64 }
    requires finite { float_is_finite x ≡ true }
    ensures { IsOrder (integer n) x result }
{
    let size = n.unsigned_abs() as u64;
    if n < 0 {
        compare_natural(size, -x).reverse()
    } else {
        compare_natural(size, x)
    }
}
