//! A number as its exact value.

ghost use Rattle.std.specs.Prelude.{◌≡◌, true};
ghost use Rattle.serde_json_path_numbers.specs.Inside.{is_exact};

use crate::comparison::compare;
use crate::literal::{literal_double, whole_part};
use serde_json::Number;

/// What holds the number.
#[derive(Clone, Copy, Debug)]
pub(crate) enum Form {
    /// An integer.
    Integer(i128),
    /// A double.
    Double(f64),
}

/// An exact number: an integer of 64 bits and a sign, or a finite double.
#[derive(Clone, Copy, Debug)]
pub struct ExactNumber {
    form: Form,
    ghost exact: { is_exact form ≡ true },
}

impl ExactNumber {
    ghost use Rattle.std.specs.Prelude.{pos};
    ghost use Rattle.std.specs.Float.{float_is_finite};
    ghost use Rattle.std.specs.Float.Ieee.{eq, lt};
    ghost use Rattle.serde_json.specs.View.{number_view};
    ghost use Rattle.serde_json_path_numbers.specs.Numbers.{document_number, integer, literal_number, IsInLiteralRange};
    ghost use Rattle.serde_json_path_numbers.specs.Numbers as numbers;
    ghost use Rattle.serde_json_path_numbers.specs.Views.{exact_view};

    /// The number of a document.
    #[inline]
    pub fn of_number(number: &Number) -> ExactNumber
        ensures { exact_view result ≡ document_number (number_view number.now) }
    {
        let form = match (number.as_i64(), number.as_u64()) {
            (Some(n), _) => Form::Integer(n as i128),
            (None, Some(n)) => Form::Integer(n as i128),
            (None, None) => Form::Double(number.as_f64().unwrap()),
        };
        ExactNumber { form }
    }

    /// A whole number.
    pub(crate) fn of_whole(whole: u64) -> ExactNumber
        ensures { exact_view result ≡ integer (pos whole) }
    {
        let form = Form::Integer(whole as i128);
        ExactNumber { form }
    }

    /// A finite double.
    pub(crate) fn of_double(double: f64) -> ExactNumber
        requires { float_is_finite double ≡ true }
        ensures { exact_view result ≡ double }
    {
        let form = Form::Double(double);
        ExactNumber { form }
    }

    /// The number of a literal of that many billionths: an integer, or with a fraction the nearest double.
    #[inline]
    pub fn of_billionths(billionths: i128) -> ExactNumber
        requires { IsInLiteralRange billionths }
        ensures { exact_view result ≡ literal_number billionths }
    {
        ExactNumber::of_literal(billionths, literal_double(billionths))
    }

    /// The same of a literal whose nearest double, if it has a fraction, is at hand (see [`literal_double`]).
    #[inline]
    pub fn of_literal(billionths: i128, double: Option<f64>) -> ExactNumber
        requires range { IsInLiteralRange billionths }
        requires double { double ≡ numbers.literal_double billionths }
        ensures { exact_view result ≡ literal_number billionths }
    {
        let form = match double {
            None => Form::Integer(whole_part(billionths)),
            Some(double) => Form::Double(double),
        };
        ExactNumber { form }
    }

    /// Whether the two are the same number.
    #[inline]
    #[tactic(auto, using(crate::proofs::Forms::equal_integers))]
    pub fn is_equal(self, other: ExactNumber) -> bool
        ensures { result ≡ eq (exact_view self) (exact_view other) }
    {
        match (self.form, other.form) {
            (Form::Integer(a), Form::Integer(b)) => a == b,
            (Form::Double(a), Form::Double(b)) => a == b,
            (Form::Integer(n), Form::Double(x)) => compare(n, x).is_eq(),
            (Form::Double(x), Form::Integer(n)) => compare(n, x).is_eq(),
        }
    }

    /// Whether this number is less than the other.
    #[inline]
    #[tactic(auto, using(crate::proofs::Forms::less_integers))]
    pub fn is_less(self, other: ExactNumber) -> bool
        ensures { result ≡ lt (exact_view self) (exact_view other) }
    {
        match (self.form, other.form) {
            (Form::Integer(a), Form::Integer(b)) => a < b,
            (Form::Double(a), Form::Double(b)) => a < b,
            (Form::Integer(n), Form::Double(x)) => compare(n, x).is_lt(),
            (Form::Double(x), Form::Integer(n)) => compare(n, x).is_gt(),
        }
    }
}
