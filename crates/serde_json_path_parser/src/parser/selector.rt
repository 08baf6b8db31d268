//! Selectors.

ghost use Rattle.serde_json_path_parser.specs.Inside.Words.{ℕ, List, Option, a_selector, Signature, Makes, MakesSelectors, MovesTo, read_filter, signatures, left, IsQuote, read_index_or_slice, read_quoted, read_selector, read_selectors};

use crate::error::Failure;
use crate::parser::Parser;
use crate::parser::primitive::int::parse_int;
use crate::parser::primitive::string::parse_string;
use crate::parser::reader::Reader;
use crate::parser::slice::parse_rest_of_slice;
use crate::source::PathSource;
use serde_json_path_functions::Functions;
use serde_json_path_syntax::{Part, Parts, SyntaxBuilder};
use std::alloc::Global;

/// Parses an index, or a slice that begins with an integer, and the blanks after it (RFC 9535, sections 2.3.3 and
/// 2.3.4).
fn parse_index_or_slice<S: PathSource>(
    builder: &mut SyntaxBuilder,
    reader: &mut Reader<'_, S>,
) -> Result<Part, Failure>
    ensures moves { MovesTo result reader.old reader.new }
    ensures gives { (signature : List ℕ → Option Signature)
        → Makes signature a_selector builder.old builder.new result reader.new
        (read_index_or_slice (left reader.old)) }
{
    let start = parse_int(reader)?;
    reader.skip_blanks();
    if reader.sees(b':') {
        reader.take_char();
        let slice = parse_rest_of_slice(reader, Some(start))?;
        return Ok(builder.slice(slice)?);
    }
    Ok(builder.index(start)?)
}

/// Parses a name selector after its opening quote, and the blanks after it (RFC 9535, section 2.3.1).
#[tactic(auto, unfolding(crate::specs::Parsing::read_quoted))]
fn parse_quoted<S: PathSource>(
    alloc: Global,
    builder: &mut SyntaxBuilder,
    reader: &mut Reader<'_, S>,
    quote: u8,
) -> Result<Part, Failure>
    requires { IsQuote quote }
    ensures moves { MovesTo result reader.old reader.new }
    ensures gives { (signature : List ℕ → Option Signature)
        → Makes signature a_selector builder.old builder.new result reader.new
        (read_quoted quote (left reader.old)) }
{
    let text = parse_string(alloc, reader, quote)?;
    reader.skip_blanks();
    Ok(builder.name(text)?)
}

impl<F: Functions> Parser<'_, F> {
    /// Parses a selector and the blanks after it (RFC 9535, section 2.3).
    #[cycle(filters)]
    fn parse_selector<S: PathSource>(
        &self,
        builder: &mut SyntaxBuilder,
        reader: &mut Reader<'_, S>,
    ) -> Result<Part, Failure>
        ensures moves { MovesTo result reader.old reader.new }
        ensures gives { Makes (signatures F.set self.now) a_selector builder.old builder.new
            result reader.new
            (read_selector (read_filter F.set self.now) (left reader.old)) }
    {
        // Filters first, which a `match` on the next byte does not do: it takes fourteen instructions more for each.
        if reader.sees(b'?') {
            let test = self.parse_inside(builder, reader)?;
            return Ok(builder.filter(test)?);
        }
        if reader.sees(b'\'') {
            reader.take_char();
            return parse_quoted(self.alloc, builder, reader, b'\'');
        }
        if reader.sees(b'"') {
            reader.take_char();
            return parse_quoted(self.alloc, builder, reader, b'"');
        }
        if reader.sees(b'*') {
            reader.take_char();
            reader.skip_blanks();
            return Ok(builder.wildcard()?);
        }
        if reader.sees(b':') {
            reader.take_char();
            let slice = parse_rest_of_slice(reader, None)?;
            return Ok(builder.slice(slice)?);
        }
        parse_index_or_slice(builder, reader)
    }

    /// Parses the selectors after a bracket, with commas between them and blanks round them (RFC 9535, section
    /// 2.5.1).
    #[cycle(filters)]
    pub(crate) fn parse_selectors<S: PathSource>(
        &self,
        builder: &mut SyntaxBuilder,
        reader: &mut Reader<'_, S>,
    ) -> Result<Parts, Failure>
        ensures moves { MovesTo result reader.old reader.new }
        ensures gives { MakesSelectors (signatures F.set self.now) builder.old builder.new
            result reader.new
            (read_selectors (read_filter F.set self.now) (left reader.old)) }
    {
        reader.skip_blanks();
        let first = self.parse_selector(builder, reader)?;
        let mut parts = Parts::new(self.alloc);
        parts.push(first)?;
        'selectors: while reader.sees(b',') {
            reader.take_char();
            reader.skip_blanks();
            let part = self.parse_selector(builder, reader)?;
            parts.push(part)?;
        }
        Ok(parts)
    }
}
