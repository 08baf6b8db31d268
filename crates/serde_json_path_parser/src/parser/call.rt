//! Calls of functions (RFC 9535, section 2.4).

ghost use Rattle.std.specs.Prelude.{◌≡◌, ◌==◌, ◌<◌};
ghost use Rattle.serde_json_path_parser.specs.Inside.Words.{ℕ, List, drop, length, map, true, string_bytes, Option, Signature, is_value_literal, read_argument, read_end, MakesArgument, MakesArguments, MakesCall, IsArgumentOf, IsAsRead, MovesTo, at_level, signatures, deeper, left, no_arguments, read_arguments, kind_view, numbers_view, held_view};
ghost use Rattle.serde_json_path_parser.specs.Operands as operands;
ghost use Rattle.serde_json_path_syntax.specs.Tree as tree;

use crate::error::{Context, Failure, ParseErrorKind as Kind};
use crate::parser::Parser;
use crate::parser::reader::Reader;
use crate::source::PathSource;
use serde_json_path_functions::{FunctionArgType, Functions, Numbers};
use serde_json_path_syntax::{ArgumentRef, LiteralValue, Part, SyntaxBuilder};

/// Whether the literal may be an argument: by whole numbers a number has no fraction.
fn may_be_argument(numbers: Numbers, literal: &LiteralValue) -> bool
    ensures { result ≡ is_value_literal (numbers_view numbers) (held_view literal.now) }
{
    match (numbers, literal) {
        (Numbers::Whole, LiteralValue::Number(number)) => number.whole_billionths().is_some(),
        _ => true,
    }
}

/// Whether the argument suits a parameter of that type (RFC 9535, section 2.4.3).
fn suits(numbers: Numbers, builder: &SyntaxBuilder, argument: Part, wanted: FunctionArgType) -> bool
    requires { (signature : List ℕ → Option Signature) × (x : tree.Argument)
        × IsArgumentOf signature builder.now argument x }
    ensures { (signature : List ℕ → Option Signature) (x : tree.Argument)
        → IsArgumentOf signature builder.now argument x
        → result ≡ operands.suits (numbers_view numbers) signature x (kind_view wanted) }
{
    match builder.argument(argument) {
        ArgumentRef::Literal(literal) => match wanted {
            FunctionArgType::Value => may_be_argument(numbers, literal),
            _ => false,
        },
        ArgumentRef::Query(query) => match wanted {
            FunctionArgType::Value => builder.is_singular(query),
            _ => true,
        },
        ArgumentRef::Call(result) => {
            wanted == result
                || wanted == FunctionArgType::Logical && result == FunctionArgType::Nodelist
        }
        ArgumentRef::Logical => wanted == FunctionArgType::Logical,
    }
}

/// Parses the end of a call, at its `)`, and the blanks after it. `types` are the types of the parameters that
/// have no argument yet. `place` bytes are left where the call begins.
#[inline(always)]
fn parse_end<S: PathSource>(
    reader: &mut Reader<'_, S>,
    place: usize,
    types: &[FunctionArgType],
) -> Result<(), Failure>
    requires { 0 < length (left reader.old) }
    ensures moves { MovesTo result reader.old reader.new }
    ensures gives { IsAsRead (λ u. no_arguments) result reader.new
        (read_end place (map kind_view types.now) (drop 1 (left reader.old))) }
{
    if !types.is_empty() {
        return Err(Failure::in_long_hand(Kind::WrongNumberOfArguments, place));
    }
    reader.take_char();
    reader.skip_blanks();
    Ok(())
}

impl<F: Functions> Parser<'_, F> {
    /// Parses a call of the function with that name, from its `(` on, and the blanks after it. `place` bytes are left
    /// where the call begins.
    #[cycle(filters)]
    #[tactic(auto, unfolding(crate::specs::Filters::level))]
    pub(crate) fn parse_call<S: PathSource>(
        &self,
        builder: &mut SyntaxBuilder,
        reader: &mut Reader<'_, S>,
        place: usize,
        name: String,
    ) -> Result<Part, Failure>
        requires { 0 < length (left reader.old) }
        ensures moves { MovesTo result reader.old reader.new }
        ensures gives { MakesCall (signatures F.set self.now) builder.old builder.new
            result reader.new
            ((deeper F.set self.now).call_of place (string_bytes name) (drop 1 (left reader.old))) }
    {
        if self.depth == 0 {
            return Err(Failure::in_long_hand(Kind::NestedTooDeep, place));
        }
        let Some(signature) = self.functions.signature(name.as_str()) else {
            return Err(Failure::in_long_hand(Kind::UndefinedFunction, place));
        };
        reader.take_char();
        reader.skip_blanks();
        let mut arguments = Vec::new(self.alloc);
        self.deeper()
            .parse_arguments(builder, reader, place, signature.params(), &mut arguments)?;
        Ok(builder.call(name, signature, arguments)?)
    }

    /// Parses the arguments of a call for parameters of these types, after `(` and blanks, and its end. The arguments
    /// are appended to `parts`.
    #[cycle(filters)]
    fn parse_arguments<S: PathSource>(
        &self,
        builder: &mut SyntaxBuilder,
        reader: &mut Reader<'_, S>,
        place: usize,
        types: &[FunctionArgType],
        parts: &mut Vec<Part>,
    ) -> Result<(), Failure>
        ensures moves { MovesTo result reader.old reader.new }
        ensures gives { MakesArguments (signatures F.set self.now) builder.old builder.new
            parts.old.items parts.new.items result reader.new
            (at_level F.set self.now read_arguments place (map kind_view types.now)
            (left reader.old)) }
    {
        if reader.sees(b')') {
            return parse_end(reader, place, types);
        }
        let mut types = types;
        'arguments: loop {
            let argument_place = reader.bytes_left();
            let argument = self.parse_argument(builder, reader)?;
            if !reader.sees_end_of_argument() {
                return Err(reader.refusal(Kind::ExpectedClosingParenthesis, Context::LongHand));
            }
            let Some((first, others)) = types.split_first() else {
                return Err(Failure::in_long_hand(Kind::WrongNumberOfArguments, place));
            };
            if !suits(self.numbers, builder, argument, *first) {
                return Err(Failure::in_long_hand(Kind::WrongArgumentType, argument_place));
            }
            parts.push(argument)?;
            if !reader.sees(b',') {
                return parse_end(reader, place, others);
            }
            reader.take_char();
            reader.skip_blanks();
            types = others;
        }
    }

    /// Parses an argument and the blanks after it.
    #[cycle(filters)]
    #[tactic(auto, unfolding(crate::specs::Filters::read_argument))]
    fn parse_argument<S: PathSource>(
        &self,
        builder: &mut SyntaxBuilder,
        reader: &mut Reader<'_, S>,
    ) -> Result<Part, Failure>
        ensures moves { MovesTo result reader.old reader.new }
        ensures gives { MakesArgument (signatures F.set self.now) builder.old builder.new
            result reader.new
            (at_level F.set self.now read_argument (left reader.old)) }
    {
        if reader.sees_parenthesis_or_negation() {
            return self.parse_logical_or(builder, reader);
        }
        let place = reader.bytes_left();
        let operand = self.parse_operand(builder, reader)?;
        if reader.sees_end_of_argument() {
            return Ok(operand);
        }
        let basic = self.parse_basic_from(builder, reader, place, operand)?;
        let and = self.parse_and_from(builder, reader, basic)?;
        self.parse_or_from(builder, reader, and)
    }
}
