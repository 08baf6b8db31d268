//! Operands: what a filter compares or tests, read before its use is known (RFC 9535, section 2.3.5.1).

ghost use Rattle.std.specs.Prelude.{◌≡◌, ◌==◌, ◌<◌};
ghost use Rattle.serde_json_path_parser.specs.Inside.Words.{ℕ, List, length, true, Option, SyntaxBuilder, a_query, a_basic, Signature, read_query, read_operand, read_comparable, read_named, read_test, read_text, IsAsRead, Makes, MakesFrom, MakesOperand, IsArgumentOf, IsNear, MovesTo, at_level, signatures, left, begins, is_small_letter, IsQuote, calls_in_operand, query_kind_view};
ghost use Rattle.serde_json_path_syntax.specs.Tree as tree;

use crate::error::{Context, Failure, ParseErrorKind as Kind};
use crate::parser::Parser;
use crate::parser::primitive::number::parse_number;
use crate::parser::primitive::string::parse_string;
use crate::parser::primitive::word::{literal_word, read_word};
use crate::parser::reader::Reader;
use crate::source::PathSource;
use serde_json_path_functions::{FunctionArgType, Functions};
use serde_json_path_syntax::{ArgumentRef, Literal, Part, QueryKind, SyntaxBuilder};
use std::alloc::Global;

/// Parses a string as an operand, from its quote on, and the blanks after it.
#[tactic(auto, unfolding(crate::specs::Filters::read_text))]
fn parse_text<S: PathSource>(
    alloc: Global,
    builder: &mut SyntaxBuilder,
    reader: &mut Reader<'_, S>,
    quote: u8,
) -> Result<Part, Failure>
    requires quote { IsQuote quote }
    requires begins { begins (λ c. c == quote) (left reader.old) ≡ true }
    ensures moves { MovesTo result reader.old reader.new }
    ensures gives { (signature : List ℕ → Option Signature)
        → MakesOperand signature builder.old builder.new result reader.new
        (read_text quote (left reader.old)) }
{
    reader.take_char();
    let text = parse_string(alloc, reader, quote)?;
    reader.skip_blanks();
    Ok(builder.literal(Literal::String(text))?)
}

impl<F: Functions> Parser<'_, F> {
    /// Parses a query in a filter, from its `@` or `$` on, and the blanks after it.
    #[cycle(filters)]
    pub(crate) fn parse_query<S: PathSource>(
        &self,
        builder: &mut SyntaxBuilder,
        reader: &mut Reader<'_, S>,
        kind: QueryKind,
    ) -> Result<Part, Failure>
        requires { 0 < length (left reader.old) }
        ensures moves { MovesTo result reader.old reader.new }
        ensures gives { Makes (signatures F.set self.now) a_query builder.old builder.new
            result reader.new
            (at_level F.set self.now read_query (query_kind_view kind) (left reader.old)) }
    {
        reader.take_char();
        let (parts, _rest) = self.parse_segments(builder, reader, Context::LongHand)?;
        Ok(builder.query(kind, parts)?)
    }

    /// Parses what begins with a small letter (a call, `true`, `false` or `null`), and the blanks after it.
    #[cycle(filters)]
    #[tactic(auto, unfolding(crate::specs::Filters::read_named_call))]
    pub(crate) fn parse_named<S: PathSource>(
        &self,
        builder: &mut SyntaxBuilder,
        reader: &mut Reader<'_, S>,
    ) -> Result<Part, Failure>
        requires { begins is_small_letter (left reader.old) ≡ true }
        ensures moves { MovesTo result reader.old reader.new }
        ensures gives { MakesOperand (signatures F.set self.now) builder.old builder.new
            result reader.new
            (at_level F.set self.now read_named (left reader.old)) }
    {
        let place = reader.bytes_left();
        let word = read_word(self.alloc, reader)?;
        if reader.sees(b'(') {
            let call = self.parse_call(builder, reader, place, word)?;
            return Ok(builder.called(call)?);
        }
        match literal_word(word.as_str()) {
            Some(literal) => {
                reader.skip_blanks();
                Ok(builder.literal(literal)?)
            }
            None => Err(Failure::in_long_hand(Kind::ExpectedExpression, place)),
        }
    }

    /// Parses an operand and the blanks after it.
    #[cycle(filters)]
    pub(crate) fn parse_operand<S: PathSource>(
        &self,
        builder: &mut SyntaxBuilder,
        reader: &mut Reader<'_, S>,
    ) -> Result<Part, Failure>
        ensures moves { MovesTo result reader.old reader.new }
        ensures gives { MakesOperand (signatures F.set self.now) builder.old builder.new
            result reader.new
            (at_level F.set self.now read_operand (left reader.old)) }
    {
        match reader.peek() {
            Some(b'\'') => parse_text(self.alloc, builder, reader, b'\''),
            Some(b'"') => parse_text(self.alloc, builder, reader, b'"'),
            Some(b'@') => {
                let query = self.parse_query(builder, reader, QueryKind::Current)?;
                Ok(builder.queried(query)?)
            }
            Some(b'$') => {
                let query = self.parse_query(builder, reader, QueryKind::Root)?;
                Ok(builder.queried(query)?)
            }
            Some(b'a'..=b'z') => self.parse_named(builder, reader),
            _ => {
                let number = parse_number(self.alloc, reader, self.numbers)?;
                reader.skip_blanks();
                Ok(builder.literal(number)?)
            }
        }
    }

    /// Refuses an operand that may not be compared. `place` bytes are left where it begins.
    pub(crate) fn check_comparable<S: PathSource>(
        &self,
        builder: &SyntaxBuilder,
        reader: &Reader<'_, S>,
        place: usize,
        operand: Part,
    ) -> Result<(), Failure>
        requires { (x : tree.Operand)
            × IsArgumentOf (signatures F.set self.now) builder.now operand (tree.operand x) }
        ensures near { IsNear result reader.now }
        ensures gives { (x : tree.Operand)
            → IsArgumentOf (signatures F.set self.now) builder.now operand (tree.operand x)
            → IsAsRead (λ u. x) result reader.now
            (at_level F.set self.now read_comparable place x (left reader.now)) }
    {
        match builder.argument(operand) {
            ArgumentRef::Query(query) => {
                if !builder.is_singular(query) {
                    return Err(Failure::in_long_hand(Kind::NonSingularQuery, place));
                }
                Ok(())
            }
            ArgumentRef::Call(result) => {
                if result != FunctionArgType::Value {
                    return Err(Failure::in_long_hand(Kind::WrongReturnType, place));
                }
                Ok(())
            }
            _ => Ok(()),
        }
    }

    /// The operand as a test, negated or not. `place` bytes are left where it begins.
    pub(crate) fn as_test<S: PathSource>(
        &self,
        builder: &mut SyntaxBuilder,
        reader: &Reader<'_, S>,
        negated: bool,
        place: usize,
        operand: Part,
    ) -> Result<Part, Failure>
        requires { (x : tree.Operand)
            × IsArgumentOf (signatures F.set self.now) builder.old operand (tree.operand x) }
        ensures near { IsNear result reader.now }
        ensures gives { (x : tree.Operand)
            → IsArgumentOf (signatures F.set self.now) builder.old operand (tree.operand x)
            → MakesFrom (signatures F.set self.now) (calls_in_operand x) a_basic
            builder.old builder.new result reader.now
            (at_level F.set self.now read_test negated place x (left reader.now)) }
    {
        match builder.argument(operand) {
            ArgumentRef::Literal(_) => Err(reader.refusal(
                Kind::ExpectedComparisonOperator,
                Context::LongHand,
            )),
            ArgumentRef::Call(result) => {
                if result == FunctionArgType::Value {
                    return Err(Failure::in_long_hand(Kind::WrongReturnType, place));
                }
                Ok(builder.test(negated, operand)?)
            }
            _ => Ok(builder.test(negated, operand)?),
        }
    }
}
