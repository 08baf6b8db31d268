//! The whole query.

ghost use Rattle.std.specs.Prelude.{◌≡◌};
ghost use Rattle.serde_json_path_parser.specs.Inside.Words.{false, IfErr, numbers_view, read_path, IsQueryAsRead, MovesTo, IsRefused, left, opens_after_root};

use crate::error::{Context, Failure, ParseErrorKind as Kind, Refusal};
use crate::parser::reader::Reader;
use crate::parser::{DEEPEST, Parser};
use crate::source::PathSource;
use serde_json_path_functions::{Functions, Numbers};
use serde_json_path_syntax::{Checked, QueryKind, SyntaxBuilder};
use std::alloc::Global;

/// Parses the whole path: `$` and segments up to the end of the text (RFC 9535, section 2.1.1). Filters may call the
/// functions of this set, and numbers are read by the rule.
///
/// Memory is asked for only once a segment has begun.
#[tactic(auto, unfolding(crate::specs::Filters::read_path))]
pub(crate) fn parse_path<S: PathSource, F: Functions>(
    alloc: Global,
    reader: &mut Reader<'_, S>,
    functions: &F,
    numbers: Numbers,
) -> Result<Checked, Failure>
    ensures moves { MovesTo result reader.old reader.new }
    ensures gives { IsQueryAsRead (numbers_view numbers) (F.set functions.now) result
        (read_path (numbers_view numbers) (F.set functions.now).signature (left reader.old)) }
    ensures needs_no_memory { IfErr result (λ stop.
        opens_after_root (left reader.old) ≡ false → IsRefused stop) }
{
    if !reader.sees(b'$') {
        return Err(reader.refusal(Kind::ExpectedRoot, Context::Path));
    }
    reader.take_char();
    let mut builder = SyntaxBuilder::new(alloc);
    let parser = Parser {
        alloc,
        functions,
        numbers,
        depth: DEEPEST,
    };
    let (parts, rest) = parser.parse_segments(&mut builder, reader, Context::Path)?;
    if rest != 0 {
        return Err(Failure::Refused(Refusal {
            kind: Kind::TextAfterPath,
            context: Context::Path,
            left: rest,
        }));
    }
    if parts.is_empty() {
        return Ok(Checked::new(alloc).with_numbers(numbers));
    }
    let part = builder.query(QueryKind::Root, parts)?;
    Ok(builder.finish(part).with_numbers(numbers))
}
