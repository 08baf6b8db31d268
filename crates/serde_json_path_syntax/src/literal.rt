//! Literals of filters (RFC 9535, section 2.3.5.1).

ghost use Rattle.std.specs.Prelude.{◌≡◌, IfOk, Some};
ghost use Rattle.serde_json.specs.Data.{float, number};
ghost use Rattle.serde_json.specs.View.{view};
ghost use Rattle.serde_json_path_numbers.specs.Decimals.{decimal_number};
ghost use Rattle.serde_json_path_numbers.specs.Numbers.{literal_double};
ghost use Rattle.serde_json_path_numbers.specs.Views.{decimal_view};
ghost use Rattle.serde_json_path_syntax.specs.WellFormed.{IsLiteralAmount, double_in};

use crate::binding::{Binding, value_of};
use serde_json::Value;
use serde_json_path_numbers::{Decimal, ExactNumber, literal_double};
use std::alloc::{AllocError, Global};

/// One, in billionths.
pub(crate) const ONE: i128 = 1_000_000_000;

/// The least number of a literal, -2^63, in billionths.
const LEAST: i128 = -(1 << 63) * ONE;

/// The greatest number of a literal, 2^64 - 1, in billionths.
const GREATEST: i128 = ((1 << 64) - 1) * ONE;

/// A number literal from -2^63 to 2^64 - 1, as a whole number of billionths: 1.5 is 1500000000.
///
/// One with a fraction keeps the double nearest to it, so that no comparison has to find it.
#[derive(Clone, Copy, Debug)]
pub struct NumberLiteral {
    pub(crate) billionths: i128,
    double: Option<f64>,
    ghost range: { IsLiteralAmount billionths },
    ghost nearest: { double ≡ literal_double billionths },
}

impl NumberLiteral {
    ghost use Rattle.std.specs.Prelude.{◌↔◌, IsSome, IfSome};
    ghost use Rattle.serde_json_path_syntax.specs.Words.{literal_held, literal_number, exact_view, number_amount, whole_amount};

    /// The number of that many billionths, or `None` if it is out of range.
    pub fn from_billionths(billionths: i128) -> Option<NumberLiteral>
        ensures range { IsSome result ↔ IsLiteralAmount billionths }
        ensures amount { IfSome result (λ literal. number_amount literal ≡ billionths) }
    {
        if LEAST <= billionths && billionths <= GREATEST {
            Some(NumberLiteral {
                billionths,
                double: literal_double(billionths),
            })
        } else {
            None
        }
    }

    /// The number in billionths.
    pub fn billionths(&self) -> i128
        ensures { result ≡ number_amount self.now }
    {
        self.billionths
    }

    /// The number in billionths, or `None` if it has a fraction.
    #[inline]
    pub fn whole_billionths(&self) -> Option<i128>
        ensures { result ≡ whole_amount (number_amount self.now) }
    {
        match self.double {
            None => Some(self.billionths),
            Some(_) => None,
        }
    }

    /// The number by which exact comparisons take it: its integer or, with a fraction, the double nearest to it (RFC 8259,
    /// section 6).
    #[inline]
    pub fn exact(&self) -> ExactNumber
        ensures { exact_view result ≡ literal_number (number_amount self.now) }
    {
        ExactNumber::of_literal(self.billionths, self.double)
    }

    /// The number as a document would hold it: its integer or, with a fraction, the double nearest to it.
    #[tactic(auto, using(crate::proofs::Words::held_as_double))]
    pub fn value(&self) -> Value
        ensures { view result ≡ number (literal_held (number_amount self.now)) }
    {
        if let Some(double) = self.double {
            return Value::from(double);
        }
        let whole = self.billionths / ONE;
        if whole < 0 {
            Value::from(whole as i64)
        } else {
            Value::from(whole as u64)
        }
    }
}

/// A literal in a comparison or an argument.
#[derive(Debug, Drop)]
pub enum Literal {
    /// A text.
    String(String),
    /// A number.
    Number(NumberLiteral),
    /// A number that is no whole number of billionths in range, as the double nearest to it (by all numbers alone).
    Decimal(Decimal),
    /// A truth value.
    Bool(bool),
    /// The value `null`.
    Null,
}

impl Literal {
    ghost use Rattle.std.specs.Prelude.{◌≡◌, IfOk, true};
    ghost use Rattle.serde_json_path_syntax.specs.Words.{held_view, literal_fits, literal_view};

    /// The literal as a tree holds it. An error comes only where memory is refused.
    pub(crate) fn held(self, alloc: Global) -> Result<LiteralValue, AllocError>
        ensures means { IfOk result (λ held. held_view held ≡ literal_view self) }
        ensures fits { IfOk result (λ held. literal_fits held ≡ true) }
    {
        Ok(match self {
            Literal::String(text) => LiteralValue::Value(Value::String(text)),
            Literal::Number(number) => LiteralValue::Number(number),
            Literal::Decimal(decimal) => LiteralValue::Decimal(HeldDecimal::new(alloc, decimal)?),
            Literal::Bool(truth) => LiteralValue::Value(Value::Bool(truth)),
            Literal::Null => LiteralValue::Value(Value::Null),
        })
    }
}

/// A decimal as a tree holds it: with the value that a document would hold for its double.
#[derive(Drop)]
pub struct HeldDecimal {
    pub(crate) decimal: Decimal,
    value: Value,
    ghost same: { double_in (view value) ≡ Some (decimal_number (decimal_view decimal)) },
}

impl HeldDecimal {
    /// The decimal with its value, in a box, as most literals are smaller. An error comes only where memory is refused.
    pub(crate) fn new(alloc: Global, decimal: Decimal) -> Result<Box<HeldDecimal>, AllocError>
        ensures { IfOk result (λ held. held.value.decimal ≡ decimal) }
    {
        let value = Value::from(decimal.double());
        Ok(Box::new(alloc, HeldDecimal { decimal, value })?)
    }

    /// The double nearest to the literal, as a document would hold it.
    #[inline]
    pub fn value(&self) -> &Value
        ensures { view result.now
            ≡ number (float (decimal_number (decimal_view self.now.decimal))) }
    {
        &self.value
    }
}

/// A literal as a tree holds it, so that comparisons and functions are lent it.
#[derive(Drop)]
pub enum LiteralValue {
    /// A text, a truth value or `null`.
    Value(Value),
    /// A number.
    Number(NumberLiteral),
    /// A number as the double nearest to it.
    Decimal(Box<HeldDecimal>),
}

impl LiteralValue {
    ghost use Rattle.std.specs.Prelude.{◌≡◌, IfOk};
    ghost use Rattle.serde_json_path_syntax.specs.Words.{bound_literal, held_view, literal_fits, pairs_of, value_in};

    /// A copy of the literal. An error comes only where memory is refused.
    pub(crate) fn try_clone(&self) -> Result<LiteralValue, AllocError>
        ensures means { IfOk result (λ copy. held_view copy ≡ held_view self.now) }
        ensures fits { IfOk result (λ copy. literal_fits copy ≡ literal_fits self.now) }
    {
        match self {
            LiteralValue::Value(value) => Ok(LiteralValue::Value(value.clone()?)),
            LiteralValue::Number(number) => Ok(LiteralValue::Number(*number)),
            LiteralValue::Decimal(held) => {
                let copy = HeldDecimal::new(*Box::allocator(held), held.as_ref().decimal)?;
                Ok(LiteralValue::Decimal(copy))
            }
        }
    }
    /// A copy of the literal, whose text stands for another one where a binding says so. An error comes only where memory is
    /// refused.
    pub(crate) fn bound(
        &self,
        bindings: &[Binding<'_>],
        alloc: Global,
    ) -> Result<LiteralValue, AllocError>
        ensures means { IfOk result (λ copy. held_view copy
            ≡ bound_literal (value_in (pairs_of bindings.now)) (held_view self.now)) }
        ensures fits { IfOk result (λ copy. literal_fits copy ≡ literal_fits self.now) }
    {
        if let LiteralValue::Value(Value::String(text)) = self {
            if let Some(value) = value_of(bindings, text.as_str()) {
                let value = String::from_str(alloc, value)?;
                return Ok(LiteralValue::Value(Value::String(value)));
            }
        }
        self.try_clone()
    }
}
