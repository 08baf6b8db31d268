//! Slips in strings and in numbers.

use crate::condition::Condition::{Any, Ends, Starts};
use crate::slip::Slip;

/// Where a string has no ending quote.
pub(crate) const ENDING_QUOTE: &[Slip] = slips! {
    Ends(&["\\']", "\\\"]"]), Any => "`\\\\` for a backslash before the ending quote";
    Ends(&["']", "\"]"]), Any => "the same quote at both ends";
    Ends(&["]"]), Any => "the quote again before `]`";
    Any, Any => "the quote again, and `]`";
};

/// At a bad escape.
pub(crate) const ESCAPE: &[Slip] = slips! {
    Any, Starts(&["\\x", "\\u{"]) => "`\\u0041`, with four hexadecimal digits";
    Any, Starts(&["\\ud", "\\uD"]) => "a pair of surrogates, as in `\\ud83d\\ude00`";
    Any, Starts(&["\\u"]) => "`\\u0041`, with four hexadecimal digits";
    Any, Starts(&["\\'", "\\\""]) => "no `\\` before a quote of the other kind";
    Any, Any => "`\\\\` for a backslash";
};

/// At a control character in a string.
pub(crate) const CONTROL_CHARACTER: &[Slip] = slips! {
    Any, Any => "an escape, as `\\n`, `\\t` or `\\u0000`";
};

/// By whole numbers, at a number with an exponent, or without digits after the point.
pub(crate) const EXPONENT: &[Slip] = slips! {
    Any, Any => "`1000` for 1e3, `1` for 1.";
};

/// By all numbers, at a number without digits after the point or in the exponent.
pub(crate) const DIGIT: &[Slip] = slips! {
    Any, Any => "`1` for 1., and digits after an `e`";
};

/// At a number with a long fraction.
pub(crate) const FRACTION: &[Slip] = slips! {
    Any, Any => "fewer digits, or a path that takes all numbers";
};

/// By whole numbers, at a number that is out of range.
pub(crate) const NUMBER: &[Slip] = slips! {
    Any, Any => "a number from -2^63 to 2^64 - 1";
};

/// By all numbers, at a number that is out of range.
pub(crate) const DOUBLE: &[Slip] = slips! {
    Any, Any => "a number of at most 1.7976931348623157e308";
};
