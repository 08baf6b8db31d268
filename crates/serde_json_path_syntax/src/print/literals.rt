//! Literals as a path writes them.

ghost use Rattle.std.specs.Prelude.{◌≡◌, ◌<◌, ◌/◌, ◌^◌, Some, true};
ghost use Rattle.serde_json_path_syntax.specs.Words.{WritesOnOk, held_view, literal_view, number_amount, amount_text, fraction_text, literal_text, number_text, literal_fits};

use crate::literal::{Literal, LiteralValue, NumberLiteral, ONE};
use serde_json::Value;
use serde_json_path_nodes::Quoted;
use std::fmt;
use std::fmt::{Formatter, Write};

/// The number in decimal, as `-0.5`; a fraction ends at its last digit that is not 0.
impl fmt::Display for NumberLiteral {
    ghost output = { λ literal. Some (number_text (number_amount literal)) };

    #[tactic(auto, using(crate::proofs::Printing::negative, crate::proofs::Printing::natural))]
    fn fmt<W: Write>(&self, f: &mut Formatter<W>) -> fmt::Result {
        let size = self.billionths.unsigned_abs();
        if self.billionths < 0 {
            f.write_str("-")?;
            write_amount(f, size)
        } else {
            write_amount(f, size)
        }
    }
}

/// A number of billionths without a sign.
fn write_amount<W: Write>(f: &mut Formatter<W>, amount: u128) -> fmt::Result
    requires { amount / 1000000000 < 2 ^ 64 }
    ensures { WritesOnOk W.write_str_gives f.old result (amount_text amount) f.new }
{
    let whole = (amount / ONE as u128) as u64;
    write!(f, "{whole}")?;
    write_fraction(f, (amount % ONE as u128) as u32)
}

/// The digits of a fraction in billionths.
const PLACES: u32 = 9;

/// A point and the digits of a fraction in billionths, unless it is 0.
fn write_fraction<W: Write>(f: &mut Formatter<W>, fraction: u32) -> fmt::Result
    ensures { WritesOnOk W.write_str_gives f.old result (fraction_text fraction) f.new }
{
    if fraction == 0 {
        return Ok(());
    }
    f.write_str(".")?;
    let mut rest = fraction;
    for _ in 0..PLACES {
        if rest == 0 {
            return Ok(());
        }
        write!(f, "{}", rest / 100_000_000)?;
        rest = rest % 100_000_000 * 10;
    }
    Ok(())
}

/// The literal as it is written in a path: a text in single quotes.
impl fmt::Display for Literal {
    ghost output = { λ literal. Some (literal_text (literal_view literal)) };

    fn fmt<W: Write>(&self, f: &mut Formatter<W>) -> fmt::Result {
        match self {
            Literal::String(text) => write!(f, "{}", Quoted(text.as_str())),
            Literal::Number(number) => write!(f, "{number}"),
            Literal::Decimal(decimal) => write!(f, "{decimal}"),
            Literal::Bool(true) => f.write_str("true"),
            Literal::Bool(false) => f.write_str("false"),
            Literal::Null => f.write_str("null"),
        }
    }
}

/// A literal of a tree, as it is written in a path.
pub(crate) fn write_literal<W: Write>(f: &mut Formatter<W>, literal: &LiteralValue) -> fmt::Result
    requires { literal_fits literal.now ≡ true }
    ensures { WritesOnOk W.write_str_gives f.old result
        (literal_text (held_view literal.now)) f.new }
{
    match literal {
        LiteralValue::Number(number) => write!(f, "{number}"),
        LiteralValue::Decimal(held) => write!(f, "{}", held.as_ref().decimal),
        LiteralValue::Value(Value::String(text)) => write!(f, "{}", Quoted(text.as_str())),
        LiteralValue::Value(Value::Bool(true)) => f.write_str("true"),
        LiteralValue::Value(Value::Bool(false)) => f.write_str("false"),
        LiteralValue::Value(Value::Null) => f.write_str("null"),
        LiteralValue::Value(_) => unreachable!(),
    }
}
