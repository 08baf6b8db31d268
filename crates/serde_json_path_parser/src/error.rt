//! Why a text is not a path.

ghost use Rattle.std.specs.Prelude.{◌≡◌};
ghost use Rattle.serde_json_path_parser.specs.declared.error.Failure.TheVariants.{Memory};

use std::alloc::{AllocError, AllocFailed};
use std::error::Error;
use std::fmt;

/// What is wrong with a text that is refused as a path.
///
/// The messages of the kinds from `ExpectedClosingBracket` to `NestedTooDeep`, and of `FractionTooLong`, begin with
/// `in long-hand segment, `.
#[derive(Clone, Copy, Debug, PartialEq, Eq)]
pub enum ParseErrorKind {
    /// There is no `$` at the start.
    ExpectedRoot,
    /// The first character of a member name does not fit.
    BadMemberName,
    /// A selector is followed by neither `,` nor `]`.
    ExpectedClosingBracket,
    /// A string has no ending quote.
    ExpectedEndingQuote,
    /// An escape is unknown or cut, or a surrogate stands alone.
    BadEscape,
    /// A control character stands in a string.
    ControlCharacter,
    /// No selector begins where one should.
    ExpectedSelector,
    /// An index, or a part of a slice, is out of range.
    IntegerOutOfRange,
    /// A number literal has an exponent or a fraction without digits.
    ExponentOrEmptyFraction,
    /// A number literal is out of range.
    NumberOutOfRange,
    /// No expression begins where one should.
    ExpectedExpression,
    /// No `)` stands where one should.
    ExpectedClosingParenthesis,
    /// A literal has no comparison operator after it.
    ExpectedComparisonOperator,
    /// A query that may give several nodes is compared.
    NonSingularQuery,
    /// A function is not declared.
    UndefinedFunction,
    /// A call has too many or too few arguments.
    WrongNumberOfArguments,
    /// An argument has the wrong type.
    WrongArgumentType,
    /// A call's result may not stand where the call does.
    WrongReturnType,
    /// Filters, parentheses and calls are nested more than 128 deep.
    NestedTooDeep,
    /// There is text after the path.
    TextAfterPath,
    /// Memory was refused.
    NoMemory,
    /// A number literal has more than nine digits of a fraction.
    FractionTooLong,
}

/// Where in a path a refusal is, as far as its message says so.
#[derive(Clone, Copy, Debug, PartialEq, Eq)]
pub(crate) enum Context {
    /// Outside brackets, and not after a single `.`.
    Path,
    /// After a single `.` outside brackets.
    DotMemberName,
    /// Inside an open bracket.
    LongHand,
}

impl Context {
    ghost use Rattle.serde_json_path_parser.specs.Errors.{message};
    ghost use Rattle.serde_json_path_parser.specs.declared.error.ParseErrorKind.TheVariants.{BadMemberName};

    /// The message of a bad member name in this context.
    fn bad_member_name(self) -> &'static str
        ensures { result.now ≡ message BadMemberName self }
    {
        match self {
            Context::Path => "must start with a letter, '_' or a non-ASCII character",
            Context::DotMemberName => {
                "in dot member name, must start with a letter, '_' or a non-ASCII character"
            }
            Context::LongHand => {
                "in long-hand segment, must start with a letter, '_' or a non-ASCII character"
            }
        }
    }
}

/// A refusal, and how many bytes of the text are left where it stands.
#[derive(Clone, Copy)]
pub(crate) struct Refusal {
    pub(crate) kind: ParseErrorKind,
    pub(crate) context: Context,
    pub(crate) left: usize,
}

/// Why a parse fails.
#[derive(Drop)]
pub(crate) enum Failure {
    Memory,
    Refused(Refusal),
}

impl From<AllocError> for Failure {
    ghost from_gives = { λ _ e. e ≡ Memory };

    fn from(_e: AllocError) -> Failure {
        Failure::Memory
    }
}

impl<T: Drop> From<AllocFailed<T>> for Failure {
    ghost from_gives = { λ _ e. e ≡ Memory };

    fn from(_e: AllocFailed<T>) -> Failure {
        Failure::Memory
    }
}

/// Why a text is refused as a path, and where. Its Display is `at position {position}, {message}`.
#[derive(Clone, Copy, Debug, PartialEq, Eq)]
pub struct ParseError {
    pub(crate) kind: ParseErrorKind,
    pub(crate) context: Context,
    pub(crate) position: usize,
}

impl ParseError {
    ghost use Rattle.serde_json_path_parser.specs.Errors.{kind_of, position_of, message_of};

    /// What is wrong.
    pub fn kind(&self) -> ParseErrorKind
        ensures { result ≡ kind_of self.now }
    {
        self.kind
    }

    /// Where it is wrong: the number of a byte of the text, counted from 1, or one more than the text's length for
    /// its end. In an error that a parse returns it is at the start of a character, and 1 for `NoMemory`.
    pub fn position(&self) -> usize
        ensures { result ≡ position_of self.now }
    {
        self.position
    }

    /// What is wrong, in words.
    pub fn message(&self) -> &'static str
        ensures { result.now ≡ message_of self.now }
    {
        use ParseErrorKind as Kind;
        match self.kind {
            Kind::ExpectedRoot => "expected '$'",
            Kind::BadMemberName => self.context.bad_member_name(),
            Kind::ExpectedClosingBracket => "in long-hand segment, expected closing ']'",
            Kind::ExpectedEndingQuote => "in long-hand segment, expected an ending quote",
            Kind::BadEscape => "in long-hand segment, bad escape",
            Kind::ControlCharacter => "in long-hand segment, control character in a string",
            Kind::ExpectedSelector => "in long-hand segment, expected a selector",
            Kind::IntegerOutOfRange => "in long-hand segment, integer out of range",
            Kind::ExponentOrEmptyFraction => {
                "in long-hand segment, exponent or empty fraction not supported"
            }
            Kind::NumberOutOfRange => "in long-hand segment, number out of range",
            Kind::ExpectedExpression => "in long-hand segment, expected an expression",
            Kind::ExpectedClosingParenthesis => "in long-hand segment, expected closing ')'",
            Kind::ExpectedComparisonOperator => {
                "in long-hand segment, expected a comparison operator"
            }
            Kind::NonSingularQuery => "in long-hand segment, non-singular query in a comparison",
            Kind::UndefinedFunction => "in long-hand segment, undefined function",
            Kind::WrongNumberOfArguments => "in long-hand segment, wrong number of arguments",
            Kind::WrongArgumentType => "in long-hand segment, argument of the wrong type",
            Kind::WrongReturnType => {
                "in long-hand segment, function with incorrect return type used"
            }
            Kind::NestedTooDeep => "in long-hand segment, nested more than 128 deep",
            Kind::TextAfterPath => "text after the path",
            Kind::NoMemory => "no memory",
            Kind::FractionTooLong => "in long-hand segment, fraction of more than 9 digits",
        }
    }
}

impl fmt::Display for ParseError {
    ghost use Rattle.std.specs.Prelude.{◌++◌, codes, Some};
    ghost use Rattle.std.specs.Fmt.{decimal};
    ghost use Rattle.serde_json_path_parser.specs.Errors.{position_of, message_of};

    ghost output = { λ e.
        Some (codes "at position " ++ (decimal (position_of e) ++ (codes ", " ++ message_of e))) };

    fn fmt<W: fmt::Write>(&self, f: &mut fmt::Formatter<W>) -> fmt::Result {
        let message = self.message();
        write!(f, "at position {}, {message}", self.position)
    }
}

impl Error for ParseError {}

impl Failure {
    ghost use Rattle.std.specs.Prelude.{◌<◌};
    ghost use Rattle.serde_json_path_parser.specs.declared.error.Context.TheVariants.{LongHand};
    ghost use Rattle.serde_json_path_parser.specs.Inside.Giving.{IsWithin, error_of};
    ghost use Rattle.serde_json_path_parser.specs.Source.{greatest_usize};

    /// A refusal inside a bracket, where `left` bytes of the text are left.
    pub(crate) fn in_long_hand(kind: ParseErrorKind, left: usize) -> Failure
        ensures { result
            ≡ Failure.Refused (record { kind = kind; context = LongHand; left = left }) }
    {
        Failure::Refused(Refusal {
            kind,
            context: Context::LongHand,
            left,
        })
    }

    /// Turns the failure into the public error, for a text of `total` bytes.
    pub(crate) fn in_text(self, total: usize) -> ParseError
        requires short { total < greatest_usize }
        requires within { IsWithin self total }
        ensures { result ≡ error_of self total }
    {
        match self {
            Failure::Memory => ParseError {
                kind: ParseErrorKind::NoMemory,
                context: Context::Path,
                position: 1,
            },
            Failure::Refused(refusal) => ParseError {
                kind: refusal.kind,
                context: refusal.context,
                position: total - refusal.left + 1,
            },
        }
    }
}
