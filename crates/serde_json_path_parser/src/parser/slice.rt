//! Slices.

ghost use Rattle.serde_json_path_parser.specs.Inside.Words.{IfOk, slice_view, IsOptionalInteger, IsAsRead, MovesTo, left, read_bound, read_slice};

use crate::error::Failure;
use crate::parser::primitive::int::parse_int;
use crate::parser::reader::Reader;
use crate::source::PathSource;
use serde_json_path_syntax::Slice;

/// Parses a bound of a slice and the blanks after it, or nothing.
fn parse_bound<S: PathSource>(reader: &mut Reader<'_, S>) -> Result<Option<i64>, Failure>
    ensures moves { MovesTo result reader.old reader.new }
    ensures gives { IsAsRead (λ i. i) result reader.new (read_bound (left reader.old)) }
    ensures range { IfOk result (λ i. IsOptionalInteger i) }
{
    if !reader.sees_int() {
        return Ok(None);
    }
    let i = parse_int(reader)?;
    reader.skip_blanks();
    Ok(Some(i))
}

/// Parses a slice (RFC 9535, section 2.3.4.1) after its start and its first colon, and the blanks after it.
pub(crate) fn parse_rest_of_slice<S: PathSource>(
    reader: &mut Reader<'_, S>,
    start: Option<i64>,
) -> Result<Slice, Failure>
    requires { IsOptionalInteger start }
    ensures moves { MovesTo result reader.old reader.new }
    ensures gives { IsAsRead slice_view result reader.new (read_slice start (left reader.old)) }
    ensures start { IfOk result (λ slice. IsOptionalInteger slice.start) }
    ensures end { IfOk result (λ slice. IsOptionalInteger slice.end) }
    ensures step { IfOk result (λ slice. IsOptionalInteger slice.step) }
{
    reader.skip_blanks();
    let end = parse_bound(reader)?;
    if !reader.sees(b':') {
        let step = None;
        return Ok(Slice { start, end, step });
    }
    reader.take_char();
    reader.skip_blanks();
    let step = parse_bound(reader)?;
    Ok(Slice { start, end, step })
}
