//! Why a path is refused, as C sees it.

ghost use Rattle.std.specs.Prelude.{◌≡◌, ◌≢◌};
ghost use Rattle.jsonpath_c.specs.Clauses.{kind_of, position_of, NoMemory, number_of};

use crate::status::{NO_MEMORY, PATH_REFUSED};
use serde_json_path::{ParseError, ParseErrorKind};

/// Why a path is refused, and where: `struct jsonpath_refusal`.
#[repr(C)]
pub struct Refusal {
    /// The number of the kind, `JSONPATH_EXPECTED_ROOT` and on.
    pub kind: u32,
    /// The number of a byte of the path, from 1; one more than its length for its end.
    pub position: usize,
}

/// The number of a kind; 0 for want of memory, which is no refusal.
fn number(kind: ParseErrorKind) -> u32
    ensures { result ≡ number_of kind }
{
    use ParseErrorKind as Kind;
    match kind {
        Kind::ExpectedRoot => 1,
        Kind::BadMemberName => 2,
        Kind::ExpectedClosingBracket => 3,
        Kind::ExpectedEndingQuote => 4,
        Kind::BadEscape => 5,
        Kind::ControlCharacter => 6,
        Kind::ExpectedSelector => 7,
        Kind::IntegerOutOfRange => 8,
        Kind::ExponentOrEmptyFraction => 9,
        Kind::NumberOutOfRange => 10,
        Kind::ExpectedExpression => 11,
        Kind::ExpectedClosingParenthesis => 12,
        Kind::ExpectedComparisonOperator => 13,
        Kind::NonSingularQuery => 14,
        Kind::UndefinedFunction => 15,
        Kind::WrongNumberOfArguments => 16,
        Kind::WrongArgumentType => 17,
        Kind::WrongReturnType => 18,
        Kind::NestedTooDeep => 19,
        Kind::TextAfterPath => 20,
        Kind::FractionTooLong => 21,
        Kind::NoMemory => 0,
    }
}

/// Tells why a parse failed, and returns the status. Nothing is written for want of memory.
pub(crate) fn put_refusal(e: &ParseError, refusal: &mut Refusal) -> u8
    ensures memory { kind_of e.now ≡ NoMemory → (result ≡ 4) × (refusal.new ≡ refusal.old) }
    ensures refused { kind_of e.now ≢ NoMemory
        → (result ≡ 1) × (refusal.new.kind ≡ number_of (kind_of e.now))
        × (refusal.new.position ≡ position_of e.now) }
{
    if e.kind() == ParseErrorKind::NoMemory {
        return NO_MEMORY;
    }
    refusal.kind = number(e.kind());
    refusal.position = e.position();
    PATH_REFUSED
}
