//! Segments.

ghost use Rattle.std.specs.Prelude.{◌≡◌};
ghost use Rattle.serde_json_path_parser.specs.Inside.Words.{true, ℕ, List, Option, IfErr, false, segment_kind_view, Signature, Makes, MakesSegments, segment_branch, MovesTo, IsRefused, read_filter, signatures, left, begins, opens, read_bracket, after_dot, read_dotted, of_kind, read_segment, read_segments, opens_next};

use crate::error::{Context, Failure, ParseErrorKind as Kind};
use crate::parser::Parser;
use crate::parser::primitive::name::parse_name;
use crate::parser::reader::Reader;
use crate::source::PathSource;
use serde_json_path_functions::Functions;
use serde_json_path_syntax::{Part, Parts, SegmentKind, SyntaxBuilder};
use std::alloc::Global;

/// Parses what follows the dots of a segment: a member name or `*`.
// Inlined into `parse_segment`, it would widen the stack frame of each bracket.
#[inline(never)]
fn parse_dotted<S: PathSource>(
    alloc: Global,
    builder: &mut SyntaxBuilder,
    reader: &mut Reader<'_, S>,
    kind: SegmentKind,
    context: Context,
) -> Result<Part, Failure>
    ensures moves { MovesTo result reader.old reader.new }
    ensures gives { (signature : List ℕ → Option Signature)
        → Makes signature segment_branch builder.old builder.new result reader.new
        (of_kind (segment_kind_view kind) (read_dotted context (left reader.old))) }
{
    if reader.sees(b'*') {
        reader.take_char();
        return Ok(builder.dot_wildcard(kind)?);
    }
    let text = parse_name(alloc, reader, context)?;
    Ok(builder.dot_name(kind, text)?)
}

/// The context of a member name after one dot.
fn after_one_dot(context: Context) -> Context
    ensures { result ≡ after_dot context }
{
    match context {
        Context::Path => Context::DotMemberName,
        context => context,
    }
}

impl<F: Functions> Parser<'_, F> {
    /// Parses what follows `[`: selectors and `]`.
    #[cycle(filters)]
    fn parse_bracket<S: PathSource>(
        &self,
        builder: &mut SyntaxBuilder,
        reader: &mut Reader<'_, S>,
        kind: SegmentKind,
    ) -> Result<Part, Failure>
        ensures moves { MovesTo result reader.old reader.new }
        ensures gives { Makes (signatures F.set self.now) segment_branch builder.old builder.new
            result reader.new
            (of_kind (segment_kind_view kind)
            (read_bracket (read_filter F.set self.now) (left reader.old))) }
    {
        let selectors = self.parse_selectors(builder, reader)?;
        if !reader.sees(b']') {
            return Err(reader.refusal(Kind::ExpectedClosingBracket, Context::LongHand));
        }
        reader.take_char();
        Ok(builder.long_hand(kind, selectors)?)
    }

    /// Parses a segment (RFC 9535, section 2.5), from its `.` or `[` on.
    #[cycle(filters)]
    fn parse_segment<S: PathSource>(
        &self,
        builder: &mut SyntaxBuilder,
        reader: &mut Reader<'_, S>,
        context: Context,
    ) -> Result<Part, Failure>
        requires { begins opens (left reader.old) ≡ true }
        ensures moves { MovesTo result reader.old reader.new }
        ensures gives { Makes (signatures F.set self.now) segment_branch builder.old builder.new
            result reader.new
            (read_segment (read_filter F.set self.now) context (left reader.old)) }
    {
        let mut kind = SegmentKind::Child;
        if reader.sees(b'.') {
            reader.take_char();
            if !reader.sees(b'.') {
                let context = after_one_dot(context);
                return parse_dotted(self.alloc, builder, reader, kind, context);
            }
            reader.take_char();
            kind = SegmentKind::Descendant;
            if !reader.sees(b'[') {
                return parse_dotted(self.alloc, builder, reader, kind, context);
            }
        }
        reader.take_char();
        self.parse_bracket(builder, reader, kind)
    }

    /// Parses as many segments as there are, with blanks before each. Returns them, and how many bytes are left after
    /// the last one. The blanks after it are taken too.
    #[cycle(filters)]
    pub(crate) fn parse_segments<S: PathSource>(
        &self,
        builder: &mut SyntaxBuilder,
        reader: &mut Reader<'_, S>,
        context: Context,
    ) -> Result<(Parts, usize), Failure>
        ensures moves { MovesTo result reader.old reader.new }
        ensures gives { MakesSegments (signatures F.set self.now) builder.old builder.new
            result reader.new
            (read_segments (read_filter F.set self.now) context (left reader.old)) }
        ensures needs_no_memory { IfErr result (λ stop.
            opens_next (left reader.old) ≡ false → IsRefused stop) }
    {
        let mut parts = Parts::new(self.alloc);
        let mut rest = reader.bytes_left();
        reader.skip_blanks();
        'segments: while reader.sees_segment() {
            let part = self.parse_segment(builder, reader, context)?;
            parts.push(part)?;
            rest = reader.bytes_left();
            reader.skip_blanks();
        }
        Ok((parts, rest))
    }
}
