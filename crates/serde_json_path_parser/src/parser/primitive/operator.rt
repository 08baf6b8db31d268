//! Comparison operators.

ghost use Rattle.std.specs.Prelude.{◌≡◌};
ghost use Rattle.serde_json_path_parser.specs.Inside.Words.{IsNone, option_map, operator_view, read_operator, left, Moves};

use crate::parser::reader::Reader;
use crate::source::PathSource;
use serde_json_path_syntax::ComparisonOperator;

/// Parses a comparison operator, the longest that is there, or nothing (RFC 9535, section 2.3.5.1).
#[tactic(auto, using(crate::proofs::Grammar::Comparisons::no_operator))]
pub(crate) fn parse_operator<S: PathSource>(
    reader: &mut Reader<'_, S>,
) -> Option<ComparisonOperator>
    ensures moves { Moves reader.old reader.new }
    ensures stays { IsNone result → left reader.new ≡ left reader.old }
    ensures value { read_operator (left reader.old)
        ≡ option_map (λ op. (operator_view op, left reader.new)) result }
{
    // After a test there is none, and one look shows that.
    if !reader.sees_operator() {
        return None;
    }
    if reader.sees_both(b'=', b'=') {
        reader.take_two();
        return Some(ComparisonOperator::EqualTo);
    }
    if reader.sees_both(b'!', b'=') {
        reader.take_two();
        return Some(ComparisonOperator::NotEqualTo);
    }
    if reader.sees_both(b'<', b'=') {
        reader.take_two();
        return Some(ComparisonOperator::LessThanEqualTo);
    }
    if reader.sees(b'<') {
        reader.take_char();
        return Some(ComparisonOperator::LessThan);
    }
    if reader.sees_both(b'>', b'=') {
        reader.take_two();
        return Some(ComparisonOperator::GreaterThanEqualTo);
    }
    if reader.sees(b'>') {
        reader.take_char();
        return Some(ComparisonOperator::GreaterThan);
    }
    None
}
