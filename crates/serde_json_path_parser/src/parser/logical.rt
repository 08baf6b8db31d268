//! Logical expressions (RFC 9535, section 2.3.5.1).

ghost use Rattle.std.specs.Prelude.{◌≡◌, ◌==◌, ◌<◌};
ghost use Rattle.serde_json_path_parser.specs.Inside.Words.{drop, length, true, IfOk, calls_in_and, calls_in_basic, IsPart, an_or, an_and, a_basic, read_paren, read_negated, read_basic, read_and_from, read_and, read_or_from, read_or, Makes, MakesFrom, IsArgumentOf, MovesTo, at_level, signatures, deeper, left, is_at, calls_in_operand, byte_count, past_blanks, read_basic_from, LogicalAnd, Basic};
ghost use Rattle.serde_json_path_syntax.specs.Tree as tree;

use crate::error::{Context, Failure, ParseErrorKind as Kind};
use crate::parser::Parser;
use crate::parser::primitive::operator::parse_operator;
use crate::parser::reader::Reader;
use crate::source::PathSource;
use serde_json_path_functions::Functions;
use serde_json_path_syntax::{ArgumentRef, Part, Parts, QueryKind, SyntaxBuilder};

impl<F: Functions> Parser<'_, F> {
    /// Parses the expression of a filter or a parenthesis, from its `?` or `(` on.
    #[cycle(filters)]
    #[tactic(auto, unfolding(crate::specs::Filters::level))]
    pub(crate) fn parse_inside<S: PathSource>(
        &self,
        builder: &mut SyntaxBuilder,
        reader: &mut Reader<'_, S>,
    ) -> Result<Part, Failure>
        requires { 0 < length (left reader.old) }
        ensures moves { MovesTo result reader.old reader.new }
        ensures gives { Makes (signatures F.set self.now) an_or builder.old builder.new
            result reader.new
            ((deeper F.set self.now).expression (byte_count (left reader.old))
            (past_blanks (drop 1 (left reader.old)))) }
    {
        if self.depth == 0 {
            return Err(reader.refusal(Kind::NestedTooDeep, Context::LongHand));
        }
        reader.take_char();
        reader.skip_blanks();
        self.deeper().parse_logical_or(builder, reader)
    }

    /// Parses operands of `||`, and the blanks after the last one.
    #[cycle(filters)]
    pub(crate) fn parse_logical_or<S: PathSource>(
        &self,
        builder: &mut SyntaxBuilder,
        reader: &mut Reader<'_, S>,
    ) -> Result<Part, Failure>
        ensures moves { MovesTo result reader.old reader.new }
        ensures gives { Makes (signatures F.set self.now) an_or builder.old builder.new
            result reader.new
            (at_level F.set self.now read_or (left reader.old)) }
    {
        let first = self.parse_logical_and(builder, reader)?;
        self.parse_or_from(builder, reader, first)
    }

    /// Parses the further operands of `||` after the first.
    #[cycle(filters)]
    pub(crate) fn parse_or_from<S: PathSource>(
        &self,
        builder: &mut SyntaxBuilder,
        reader: &mut Reader<'_, S>,
        first: Part,
    ) -> Result<Part, Failure>
        requires { (a : LogicalAnd) × IsPart builder.old first (an_and a) }
        ensures moves { MovesTo result reader.old reader.new }
        ensures gives { (a : LogicalAnd) → IsPart builder.old first (an_and a)
            → MakesFrom (signatures F.set self.now) (calls_in_and a) an_or
            builder.old builder.new result reader.new
            (at_level F.set self.now read_or_from a (left reader.old)) }
    {
        let mut parts = Parts::new(self.alloc);
        parts.push(first)?;
        'parts: while reader.sees_both(b'|', b'|') {
            reader.take_two();
            reader.skip_blanks();
            let part = self.parse_logical_and(builder, reader)?;
            parts.push(part)?;
        }
        Ok(builder.logical_or(parts)?)
    }

    /// Parses operands of `&&`, and the blanks after the last one.
    #[cycle(filters)]
    fn parse_logical_and<S: PathSource>(
        &self,
        builder: &mut SyntaxBuilder,
        reader: &mut Reader<'_, S>,
    ) -> Result<Part, Failure>
        ensures moves { MovesTo result reader.old reader.new }
        ensures gives { Makes (signatures F.set self.now) an_and builder.old builder.new
            result reader.new
            (at_level F.set self.now read_and (left reader.old)) }
    {
        let first = self.parse_basic(builder, reader)?;
        self.parse_and_from(builder, reader, first)
    }

    /// Parses the further operands of `&&` after the first.
    #[cycle(filters)]
    pub(crate) fn parse_and_from<S: PathSource>(
        &self,
        builder: &mut SyntaxBuilder,
        reader: &mut Reader<'_, S>,
        first: Part,
    ) -> Result<Part, Failure>
        requires { (b : Basic) × IsPart builder.old first (a_basic b) }
        ensures moves { MovesTo result reader.old reader.new }
        ensures made { IfOk result (λ part.
            (a : LogicalAnd) × IsPart builder.new part (an_and a)) }
        ensures gives { (b : Basic) → IsPart builder.old first (a_basic b)
            → MakesFrom (signatures F.set self.now) (calls_in_basic b) an_and
            builder.old builder.new result reader.new
            (at_level F.set self.now read_and_from b (left reader.old)) }
    {
        let mut parts = Parts::new(self.alloc);
        parts.push(first)?;
        'parts: while reader.sees_both(b'&', b'&') {
            reader.take_two();
            reader.skip_blanks();
            let part = self.parse_basic(builder, reader)?;
            parts.push(part)?;
        }
        Ok(builder.logical_and(parts)?)
    }

    /// Parses an operand of `&&` (a parenthesis, a negation, a comparison or a test), and the blanks after it.
    #[cycle(filters)]
    fn parse_basic<S: PathSource>(
        &self,
        builder: &mut SyntaxBuilder,
        reader: &mut Reader<'_, S>,
    ) -> Result<Part, Failure>
        ensures moves { MovesTo result reader.old reader.new }
        ensures gives { Makes (signatures F.set self.now) a_basic builder.old builder.new
            result reader.new
            (at_level F.set self.now read_basic (left reader.old)) }
    {
        // No `match` on the next byte, which takes seven instructions more for each parenthesis.
        if reader.sees(b'(') {
            let inner = self.parse_paren(builder, reader)?;
            return Ok(builder.paren(false, inner)?);
        }
        if reader.sees(b'!') {
            reader.take_char();
            reader.skip_blanks();
            return self.parse_negated(builder, reader);
        }
        let place = reader.bytes_left();
        let operand = self.parse_operand(builder, reader)?;
        self.parse_basic_from(builder, reader, place, operand)
    }

    /// Parses a comparison or a test after its first operand. `place` bytes are left where that operand begins.
    #[cycle(filters)]
    pub(crate) fn parse_basic_from<S: PathSource>(
        &self,
        builder: &mut SyntaxBuilder,
        reader: &mut Reader<'_, S>,
        place: usize,
        operand: Part,
    ) -> Result<Part, Failure>
        requires { (x : tree.Operand)
            × IsArgumentOf (signatures F.set self.now) builder.old operand (tree.operand x) }
        ensures moves { MovesTo result reader.old reader.new }
        ensures made { IfOk result (λ part.
            (b : Basic) × IsPart builder.new part (a_basic b)) }
        ensures gives { (x : tree.Operand)
            → IsArgumentOf (signatures F.set self.now) builder.old operand (tree.operand x)
            → MakesFrom (signatures F.set self.now) (calls_in_operand x) a_basic
            builder.old builder.new result reader.new
            (at_level F.set self.now read_basic_from place x (left reader.old)) }
    {
        let Some(operator) = parse_operator(reader) else {
            return self.as_test(builder, reader, false, place, operand);
        };
        reader.skip_blanks();
        self.check_comparable(builder, reader, place, operand)?;
        let right_place = reader.bytes_left();
        let right = self.parse_operand(builder, reader)?;
        self.check_comparable(builder, reader, right_place, right)?;
        Ok(builder.relation(operand, operator, right)?)
    }

    /// Parses a parenthesis, from its `(` on, and the blanks after it.
    #[cycle(filters)]
    fn parse_paren<S: PathSource>(
        &self,
        builder: &mut SyntaxBuilder,
        reader: &mut Reader<'_, S>,
    ) -> Result<Part, Failure>
        requires { is_at "(" (left reader.old) ≡ true }
        ensures moves { MovesTo result reader.old reader.new }
        ensures gives { Makes (signatures F.set self.now) an_or builder.old builder.new
            result reader.new
            (at_level F.set self.now read_paren (left reader.old)) }
    {
        let inner = self.parse_inside(builder, reader)?;
        if !reader.sees(b')') {
            return Err(reader.refusal(Kind::ExpectedClosingParenthesis, Context::LongHand));
        }
        reader.take_char();
        reader.skip_blanks();
        Ok(inner)
    }

    /// Parses what is negated, after `!` and blanks, and the blanks after it.
    // Inlined into `parse_basic`, it would widen the stack frame of each parenthesis.
    #[inline(never)]
    #[cycle(filters)]
    fn parse_negated<S: PathSource>(
        &self,
        builder: &mut SyntaxBuilder,
        reader: &mut Reader<'_, S>,
    ) -> Result<Part, Failure>
        ensures moves { MovesTo result reader.old reader.new }
        ensures gives { Makes (signatures F.set self.now) a_basic builder.old builder.new
            result reader.new
            (at_level F.set self.now read_negated (left reader.old)) }
    {
        if reader.sees(b'(') {
            let inner = self.parse_paren(builder, reader)?;
            return Ok(builder.paren(true, inner)?);
        }
        if !reader.sees_test() {
            return Err(reader.refusal(Kind::ExpectedExpression, Context::LongHand));
        }
        let place = reader.bytes_left();
        let operand = self.parse_operand(builder, reader)?;
        if let ArgumentRef::Literal(_) = builder.argument(operand) {
            return Err(Failure::in_long_hand(Kind::ExpectedExpression, place));
        }
        self.as_test(builder, reader, true, place, operand)
    }
}
