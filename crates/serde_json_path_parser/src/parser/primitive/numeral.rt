//! Numerals of any length, each as its text.

ghost use Rattle.std.specs.Prelude.{◌≡◌, ◌++◌};
ghost use Rattle.serde_json_path_parser.specs.Inside.Words.{IfOk, string_bytes, front, past, is_digit, with_front, IsAsRead, Moves, MovesTo, left, read_some_digits, read_whole_text, read_places, read_signed_digits, read_exponent, read_numeral};

use crate::error::{Failure, ParseErrorKind as Kind};
use crate::parser::reader::Reader;
use crate::source::PathSource;
use std::alloc::{AllocError, Global};

/// Takes the digits that are next, and appends them to a text.
fn take_digits<S: PathSource>(
    reader: &mut Reader<'_, S>,
    text: &mut String,
) -> Result<(), AllocError>
    ensures moves { Moves reader.old reader.new }
    ensures text { IfOk result (λ u. string_bytes text.new
        ≡ string_bytes text.old ++ front is_digit (left reader.old)) }
    ensures rest { IfOk result (λ u. left reader.new ≡ past is_digit (left reader.old)) }
{
    while reader.sees_digit() {
        text.push(reader.take_char())?;
    }
    Ok(())
}

/// Parses digits, one at least, and appends them to a text.
fn parse_some_digits<S: PathSource>(
    reader: &mut Reader<'_, S>,
    text: &mut String,
    place: usize,
) -> Result<(), Failure>
    ensures moves { MovesTo result reader.old reader.new }
    ensures gives { IsAsRead (λ u. string_bytes text.new) result reader.new
        (with_front (string_bytes text.old) (read_some_digits place (left reader.old))) }
{
    if !reader.sees_digit() {
        return Err(Failure::in_long_hand(Kind::ExponentOrEmptyFraction, place));
    }
    take_digits(reader, text)?;
    Ok(())
}

/// Parses the digits before a point, and returns their text.
fn parse_whole<S: PathSource>(
    alloc: Global,
    reader: &mut Reader<'_, S>,
    place: usize,
) -> Result<String, Failure>
    ensures moves { MovesTo result reader.old reader.new }
    ensures gives { IsAsRead string_bytes result reader.new
        (read_whole_text place (left reader.old)) }
{
    let mut text = String::new(alloc);
    if reader.sees(b'0') {
        text.push(reader.take_char())?;
        return Ok(text);
    }
    if !reader.sees_first_digit() {
        return Err(Failure::in_long_hand(Kind::ExpectedExpression, place));
    }
    take_digits(reader, &mut text)?;
    Ok(text)
}

/// Parses a point and digits, if a point is next, and appends them to a text.
#[tactic(auto, using(crate::proofs::Grammar::Numerals::first_pushed), unfolding(crate::specs::Numbers::read_places))]
fn parse_places<S: PathSource>(
    reader: &mut Reader<'_, S>,
    text: &mut String,
    place: usize,
) -> Result<(), Failure>
    ensures moves { MovesTo result reader.old reader.new }
    ensures gives { IsAsRead (λ u. string_bytes text.new) result reader.new
        (with_front (string_bytes text.old) (read_places place (left reader.old))) }
{
    if !reader.sees(b'.') {
        return Ok(());
    }
    text.push(reader.take_char())?;
    parse_some_digits(reader, text, place)
}

/// Parses digits, perhaps with a sign before them, and appends them to a text.
#[tactic(auto, using(crate::proofs::Grammar::Numerals::first_pushed), unfolding(crate::specs::Numbers::read_signed_digits))]
fn parse_signed_digits<S: PathSource>(
    reader: &mut Reader<'_, S>,
    text: &mut String,
    place: usize,
) -> Result<(), Failure>
    ensures moves { MovesTo result reader.old reader.new }
    ensures gives { IsAsRead (λ u. string_bytes text.new) result reader.new
        (with_front (string_bytes text.old) (read_signed_digits place (left reader.old))) }
{
    if !reader.sees_sign() {
        return parse_some_digits(reader, text, place);
    }
    text.push(reader.take_char())?;
    parse_some_digits(reader, text, place)
}

/// Parses an exponent, if one begins here, and appends it to a text.
#[tactic(auto, using(crate::proofs::Grammar::Numerals::first_pushed), unfolding(crate::specs::Numbers::read_exponent))]
fn parse_exponent<S: PathSource>(
    reader: &mut Reader<'_, S>,
    text: &mut String,
    place: usize,
) -> Result<(), Failure>
    ensures moves { MovesTo result reader.old reader.new }
    ensures gives { IsAsRead (λ u. string_bytes text.new) result reader.new
        (with_front (string_bytes text.old) (read_exponent place (left reader.old))) }
{
    if !reader.sees_exponent() {
        return Ok(());
    }
    text.push(reader.take_char())?;
    parse_signed_digits(reader, text, place)
}

/// Parses a numeral without its sign (RFC 9535, section 2.3.5.1), and returns its text. A refusal is at `place`.
#[tactic(auto, unfolding(crate::specs::Numbers::read_numeral))]
pub(crate) fn parse_numeral<S: PathSource>(
    alloc: Global,
    reader: &mut Reader<'_, S>,
    place: usize,
) -> Result<String, Failure>
    ensures moves { MovesTo result reader.old reader.new }
    ensures gives { IsAsRead string_bytes result reader.new (read_numeral place (left reader.old)) }
{
    let mut text = parse_whole(alloc, reader, place)?;
    parse_places(reader, &mut text, place)?;
    parse_exponent(reader, &mut text, place)?;
    Ok(text)
}
