//! What texts begin by.

ghost use Rattle.std.specs.Prelude.{◌≡◌, ◌+◌, ◌^◌, ◌<◌, [], ◌∷◌};
ghost use Rattle.jsonpath_document.specs.Begins.{begins, begins_as, begins_bad_escape, begins_comment};
ghost use Rattle.jsonpath_document.specs.Begins.{begins_control, begins_item, begins_leading_zero};
ghost use Rattle.jsonpath_document.specs.Begins.{begins_lone_surrogate, begins_not_finite, begins_other_word};
ghost use Rattle.jsonpath_document.specs.Begins.{begins_plus_sign, begins_word, byte_at, has_first_half};
ghost use Rattle.jsonpath_document.specs.Begins.{has_hex, has_second_half, is_d, is_escape, is_first_half};
ghost use Rattle.jsonpath_document.specs.Begins.{is_second_half};

/// Whether a text begins as a comment does.
pub(crate) fn begins_comment(text: &[u8]) -> bool
    ensures { result ≡ begins_comment text.now }
{
    text.starts_with(b"//") || text.starts_with(b"/*") || text.starts_with(b"#")
}

/// Whether a text begins by a number that JSON does not have.
pub(crate) fn begins_not_finite(text: &[u8]) -> bool
    ensures { result ≡ begins_not_finite text.now }
{
    text.starts_with(b"NaN")
        || text.starts_with(b"Infinity")
        || text.starts_with(b"-Infinity")
        || text.starts_with(b"-NaN")
        || text.starts_with(b"+Infinity")
        || text.starts_with(b"+NaN")
}

/// Whether a text begins by a byte.
pub(crate) fn begins_by(text: &[u8], byte: u8) -> bool
    ensures { result ≡ begins text.now (byte ∷ []) }
{
    text.starts_with(&[byte])
}

/// Whether a text begins as a value does.
pub(crate) fn begins_value(text: &[u8]) -> bool {
    matches!(
        byte_at(text, 0),
        b'{' | b'[' | b'"' | b'-' | b'0'..=b'9' | b't' | b'f' | b'n'
    )
}

/// The byte that follows so many of a text, or 0.
pub(crate) fn byte_at(text: &[u8], count: usize) -> u8
    ensures { result ≡ byte_at text.now count }
{
    match text.get(count) {
        Some(byte) => *byte,
        None => 0,
    }
}

/// Whether a text begins by a word of another language, or by a name without quotes.
pub(crate) fn begins_word(text: &[u8]) -> bool
    ensures { result ≡ begins_word text.now }
{
    let byte = byte_at(text, 0);
    byte.is_ascii_alphanumeric() || byte == b'_' || byte == b'$' || 128 <= byte
}

/// Whether a text begins as a value does, or a name without quotes.
pub(crate) fn begins_item(text: &[u8]) -> bool
    ensures { result ≡ begins_item text.now }
{
    begins_word(text)
        || text.starts_with(b"{")
        || text.starts_with(b"[")
        || text.starts_with(b"\"")
        || text.starts_with(b"-")
}

/// Whether a text begins by a word, in capitals or small letters, and the word ends there.
pub(crate) fn begins_as(text: &[u8], word: &[u8]) -> bool
    ensures { result ≡ begins_as text.now word.now }
{
    if text.len() < word.len() {
        return false;
    }
    let (front, rest) = text.split_at(word.len());
    front.eq_ignore_ascii_case(word) && !begins_word(rest)
}

/// Whether a text begins by a word of JSON in other letters.
pub(crate) fn begins_other_word(text: &[u8]) -> bool
    ensures { result ≡ begins_other_word text.now }
{
    begins_as(text, b"true")
        || begins_as(text, b"false")
        || begins_as(text, b"null")
        || begins_as(text, b"none")
}

/// Whether a text begins by a number that has a digit after a zero at its front.
pub(crate) fn begins_leading_zero(text: &[u8]) -> bool
    ensures { result ≡ begins_leading_zero text.now }
{
    let sign = if text.starts_with(b"-") { 1 } else { 0 };
    byte_at(text, sign) == b'0' && byte_at(text, sign + 1).is_ascii_digit()
}

/// Whether a text begins by a plus sign and a number.
pub(crate) fn begins_plus_sign(text: &[u8]) -> bool
    ensures { result ≡ begins_plus_sign text.now }
{
    text.starts_with(b"+") && (byte_at(text, 1).is_ascii_digit() || byte_at(text, 1) == b'.')
}

/// Whether a text begins by a character that is escaped in strings.
pub(crate) fn begins_control(text: &[u8]) -> bool
    ensures { result ≡ begins_control text.now }
{
    0 < text.len() && byte_at(text, 0) < 32
}

/// Whether four hexadecimal digits follow so many bytes of a text.
pub(crate) fn has_hex(text: &[u8], count: usize) -> bool
    requires { count + 3 < 2 ^ 64 }
    ensures { result ≡ has_hex text.now count }
{
    byte_at(text, count).is_ascii_hexdigit()
        && byte_at(text, count + 1).is_ascii_hexdigit()
        && byte_at(text, count + 2).is_ascii_hexdigit()
        && byte_at(text, count + 3).is_ascii_hexdigit()
}

/// Whether a backslash and a byte are an escape.
pub(crate) fn is_escape(byte: u8) -> bool
    ensures { result ≡ is_escape byte }
{
    matches!(byte, b'"' | b'\\' | b'/' | b'b' | b'f' | b'n' | b'r' | b't')
}

/// Whether a text begins by a backslash that is no escape's.
pub(crate) fn begins_bad_escape(text: &[u8]) -> bool
    ensures { result ≡ begins_bad_escape text.now }
{
    text.starts_with(b"\\")
        && !(is_escape(byte_at(text, 1)) || (byte_at(text, 1) == b'u' && has_hex(text, 2)))
}

/// Whether a byte is the first digit of a surrogate.
pub(crate) fn is_d(byte: u8) -> bool
    ensures { result ≡ is_d byte }
{
    byte == b'D' || byte == b'd'
}

/// Whether a byte is the second digit of the first half of a pair.
pub(crate) fn is_first_half(byte: u8) -> bool
    ensures { result ≡ is_first_half byte }
{
    matches!(byte, b'8' | b'9' | b'A' | b'B' | b'a' | b'b')
}

/// Whether a byte is the second digit of the second half of a pair.
pub(crate) fn is_second_half(byte: u8) -> bool
    ensures { result ≡ is_second_half byte }
{
    (67 <= byte && byte <= 70) || (99 <= byte && byte <= 102)
}

/// Whether a text has the escape of the first half of a pair from so many bytes on.
pub(crate) fn has_first_half(text: &[u8], count: usize) -> bool
    requires { count + 3 < 2 ^ 64 }
    ensures { result ≡ has_first_half text.now count }
{
    byte_at(text, count) == b'\\'
        && byte_at(text, count + 1) == b'u'
        && is_d(byte_at(text, count + 2))
        && is_first_half(byte_at(text, count + 3))
}

/// Whether a text has the escape of the second half of a pair from so many bytes on.
pub(crate) fn has_second_half(text: &[u8], count: usize) -> bool
    requires { count + 3 < 2 ^ 64 }
    ensures { result ≡ has_second_half text.now count }
{
    byte_at(text, count) == b'\\'
        && byte_at(text, count + 1) == b'u'
        && is_d(byte_at(text, count + 2))
        && is_second_half(byte_at(text, count + 3))
}

/// Whether a text begins by the escape of half a pair that has no other half after it.
pub(crate) fn begins_lone_surrogate(text: &[u8]) -> bool
    ensures { result ≡ begins_lone_surrogate text.now }
{
    has_second_half(text, 0) || (has_first_half(text, 0) && !has_second_half(text, 6))
}
