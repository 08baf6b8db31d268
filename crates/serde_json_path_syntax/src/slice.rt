//! Slice selectors.

ghost use Rattle.serde_json_path_syntax.specs.Words.{Some, WritesOnOk, slice_view, integer_text, slice_text};

use std::fmt;
use std::fmt::{Formatter, Write};

/// The parts of a slice selector `start:end:step`, each of which may be missing (RFC 9535, section 2.3.4).
#[derive(Clone, Copy, Debug)]
pub struct Slice {
    /// The position where it begins; a negative one counts from the end.
    pub start: Option<i64>,
    /// The position before which it ends; a negative one counts from the end.
    pub end: Option<i64>,
    /// The distance from one position to the next; a negative step goes backwards, and 0 selects nothing.
    pub step: Option<i64>,
}

/// The slice as it is written between brackets, as `1:10:2` or `:`.
impl fmt::Display for Slice {
    ghost output = { λ slice. Some (slice_text (slice_view slice)) };

    fn fmt<W: Write>(&self, f: &mut Formatter<W>) -> fmt::Result {
        write_integer(f, self.start)?;
        f.write_str(":")?;
        write_integer(f, self.end)?;
        match self.step {
            Some(step) => write!(f, ":{step}"),
            None => Ok(()),
        }
    }
}

/// A part of a slice, or nothing.
fn write_integer<W: Write>(f: &mut Formatter<W>, integer: Option<i64>) -> fmt::Result
    ensures { WritesOnOk W.write_str_gives f.old result (integer_text integer) f.new }
{
    match integer {
        Some(integer) => write!(f, "{integer}"),
        None => Ok(()),
    }
}
