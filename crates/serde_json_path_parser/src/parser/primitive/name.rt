//! Member names.

ghost use Rattle.serde_json_path_parser.specs.Inside.Words.{string_bytes, IsAsRead, MovesTo, left, read_name};

use crate::error::{Context, Failure, ParseErrorKind as Kind};
use crate::parser::reader::Reader;
use crate::source::PathSource;
use std::alloc::Global;

/// Parses a member name (RFC 9535, section 2.5.1.1).
pub(crate) fn parse_name<S: PathSource>(
    alloc: Global,
    reader: &mut Reader<'_, S>,
    context: Context,
) -> Result<String, Failure>
    ensures moves { MovesTo result reader.old reader.new }
    ensures gives { IsAsRead string_bytes result reader.new (read_name context (left reader.old)) }
{
    if !reader.sees_name_first() {
        return Err(reader.refusal(Kind::BadMemberName, context));
    }
    let mut text = String::new(alloc);
    reader.take_name_chars(&mut text)?;
    Ok(text)
}
