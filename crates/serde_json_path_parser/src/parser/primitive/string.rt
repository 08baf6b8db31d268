//! String literals.

ghost use Rattle.std.specs.Prelude.{◌≡◌, ◌<◌, ◌+◌};
ghost use Rattle.serde_json_path_parser.specs.Inside.Words.{true, IfOk, string_bytes, IsAsRead, MovesTo, left, begins, IsQuote, read_hexadecimal, read_hex4, is_high, read_low, read_unicode, read_piece, is_inside, read_string};

use crate::error::{Context, Failure, ParseErrorKind as Kind};
use crate::parser::reader::Reader;
use crate::parser::stretch::PlainChars;
use crate::source::PathSource;
use std::alloc::Global;

/// Parses a hexadecimal digit in either case.
fn parse_hexadecimal<S: PathSource>(
    reader: &mut Reader<'_, S>,
    place: usize,
) -> Result<u32, Failure>
    ensures moves { MovesTo result reader.old reader.new }
    ensures small { IfOk result (λ n. n < 16) }
    ensures gives { IsAsRead (λ n. n) result reader.new (read_hexadecimal place (left reader.old)) }
{
    if !reader.sees_hexadecimal() {
        return Err(Failure::in_long_hand(Kind::BadEscape, place));
    }
    let digit = reader.take_char() as u32;
    if digit <= 57 {
        Ok(digit - 48)
    } else if digit <= 70 {
        Ok(digit - 55)
    } else {
        Ok(digit - 87)
    }
}

/// Parses four hexadecimal digits.
fn parse_hex4<S: PathSource>(reader: &mut Reader<'_, S>, place: usize) -> Result<u32, Failure>
    ensures moves { MovesTo result reader.old reader.new }
    ensures small { IfOk result (λ n. n < 65536) }
    ensures gives { IsAsRead (λ n. n) result reader.new (read_hex4 place (left reader.old)) }
{
    let a = parse_hexadecimal(reader, place)?;
    let b = parse_hexadecimal(reader, place)?;
    let c = parse_hexadecimal(reader, place)?;
    let d = parse_hexadecimal(reader, place)?;
    Ok(4096 * a + 256 * b + 16 * c + d)
}

/// Parses the low surrogate after the high one, and returns the pair's character.
fn parse_low_surrogate<S: PathSource>(
    reader: &mut Reader<'_, S>,
    place: usize,
    high: u32,
) -> Result<char, Failure>
    requires { is_high high ≡ true }
    ensures moves { MovesTo result reader.old reader.new }
    ensures gives { IsAsRead (λ c. c) result reader.new (read_low place high (left reader.old)) }
{
    if !reader.sees(b'\\') {
        return Err(Failure::in_long_hand(Kind::BadEscape, place));
    }
    reader.take_char();
    if !reader.sees(b'u') {
        return Err(Failure::in_long_hand(Kind::BadEscape, place));
    }
    reader.take_char();
    let low = parse_hex4(reader, place)?;
    if low < 0xdc00 || low > 0xdfff {
        return Err(Failure::in_long_hand(Kind::BadEscape, place));
    }
    Ok(char::from_u32(0x10000 + 0x400 * (high - 0xd800) + (low - 0xdc00)).unwrap())
}

/// Parses the digits of an escape after its `u`, and returns the character that they name.
fn parse_unicode<S: PathSource>(reader: &mut Reader<'_, S>, place: usize) -> Result<char, Failure>
    ensures moves { MovesTo result reader.old reader.new }
    ensures gives { IsAsRead (λ c. c) result reader.new (read_unicode place (left reader.old)) }
{
    let code = parse_hex4(reader, place)?;
    if code >= 0xd800 && code <= 0xdbff {
        return parse_low_surrogate(reader, place, code);
    }
    if code >= 0xdc00 && code <= 0xdfff {
        return Err(Failure::in_long_hand(Kind::BadEscape, place));
    }
    Ok(char::from_u32(code).unwrap())
}

/// Parses one character of a string, or an escape that stands for one.
fn parse_piece<S: PathSource>(reader: &mut Reader<'_, S>, quote: u8) -> Result<char, Failure>
    requires quote { quote < 128 }
    requires inside { begins (is_inside quote) (left reader.old) ≡ true }
    ensures moves { MovesTo result reader.old reader.new }
    ensures gives { IsAsRead (λ c. c) result reader.new (read_piece quote (left reader.old)) }
{
    if !reader.sees(b'\\') {
        if reader.sees_control() {
            return Err(reader.refusal(Kind::ControlCharacter, Context::LongHand));
        }
        return Ok(reader.take_char());
    }
    let place = reader.bytes_left();
    reader.take_char();
    if reader.sees(b'u') {
        reader.take_char();
        return parse_unicode(reader, place);
    }
    if !reader.sees_letter_escape(quote) {
        return Err(Failure::in_long_hand(Kind::BadEscape, place));
    }
    let letter = reader.take_char();
    Ok(match letter {
        'b' => '\u{8}',
        'f' => '\u{c}',
        'n' => '\n',
        'r' => '\r',
        't' => '\t',
        _ => letter,
    })
}

/// Parses a string (RFC 9535, section 2.3.1.1) after its opening quote, up to and including the closing one.
pub(crate) fn parse_string<S: PathSource>(
    alloc: Global,
    reader: &mut Reader<'_, S>,
    quote: u8,
) -> Result<String, Failure>
    requires { IsQuote quote }
    ensures moves { MovesTo result reader.old reader.new }
    ensures gives { IsAsRead string_bytes result reader.new (read_string quote (left reader.old)) }
{
    let mut text = String::new(alloc);
    let plain = PlainChars { quote };
    'pieces: while reader.sees_inside(quote) {
        if reader.sees_stretch(&plain, text.len()) {
            reader.take_stretch(&plain, &mut text)?;
            continue;
        }
        let c = parse_piece(reader, quote)?;
        text.push(c)?;
    }
    if !reader.sees(quote) {
        return Err(reader.refusal(Kind::ExpectedEndingQuote, Context::LongHand));
    }
    reader.take_char();
    Ok(text)
}
