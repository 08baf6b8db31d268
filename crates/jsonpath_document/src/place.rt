//! What is open at a place in a text, and what stands before it.

ghost use Rattle.std.specs.Prelude.{◌≡◌, ◌+◌, ◌^◌, ◌<◌};
ghost use Rattle.jsonpath_document.specs.Place.{are_blank, before_in, before_of, before_past, ends_value, is_bare_point};
ghost use Rattle.jsonpath_document.specs.Place.{is_before_name, is_blank, opened_after, open_past};
ghost use Rattle.jsonpath_document.specs.Place.{wants_colon, wants_comma, wants_name, wants_value};

use crate::begins::byte_at;

/// What is open after a byte more: how many arrays and objects, whether a string is, and whether the next byte is escaped in it.
pub(crate) fn open_past(opened: (usize, bool, bool), byte: u8) -> (usize, bool, bool)
    requires { opened.0 + 1 < 2 ^ 64 }
    ensures { result ≡ open_past opened byte }
{
    let (levels, in_string, is_escaped) = opened;
    match byte {
        _ if is_escaped => (levels, in_string, false),
        b'\\' => (levels, in_string, in_string),
        b'"' => (levels, !in_string, false),
        _ if in_string => opened,
        b'[' | b'{' => (levels + 1, false, false),
        b']' | b'}' => (levels.saturating_sub(1), false, false),
        _ => opened,
    }
}

/// What is open after some bytes of JSON.
pub(crate) fn opened_after(bytes: &[u8]) -> (usize, bool, bool)
    ensures { result ≡ opened_after bytes.now }
{
    let mut opened = (0usize, false, false);
    for byte in bytes {
        opened = open_past(opened, *byte);
    }
    opened
}

/// Whether a byte is a blank of JSON.
pub(crate) fn is_blank(byte: u8) -> bool
    ensures { result ≡ is_blank byte }
{
    byte == b' ' || byte == b'\t' || byte == b'\n' || byte == b'\r'
}

/// Whether bytes are blanks alone.
pub(crate) fn are_blank(bytes: &[u8]) -> bool
    ensures { result ≡ are_blank bytes.now }
{
    for byte in bytes {
        if !is_blank(*byte) {
            return false;
        }
    }
    true
}

/// What stands before a place: what is open, the last byte that is outside of strings and no blank, that byte before the last
/// string, and the bracket or brace that opened the innermost level. 0 for none.
pub(crate) type Before = ((usize, bool, bool), u8, u8, u8);

/// What stands before a place after a byte more.
pub(crate) fn before_past(levels: usize, before: Before, byte: u8) -> Before
    requires { before.0.0 + 1 < 2 ^ 64 }
    ensures { result ≡ before_past levels before byte }
{
    let (opened, last, before_string, opening) = before;
    let (open, in_string, _) = opened;
    let past = open_past(opened, byte);
    (
        past,
        if in_string || is_blank(byte) {
            last
        } else {
            byte
        },
        if !in_string && byte == b'"' {
            last
        } else {
            before_string
        },
        if open < past.0 && past.0 == levels {
            byte
        } else {
            opening
        },
    )
}

/// What stands before a place that follows some bytes of JSON, in so many levels.
pub(crate) fn before_in(levels: usize, bytes: &[u8]) -> Before
    ensures { result ≡ before_in levels bytes.now }
{
    let mut before = ((0usize, false, false), 0u8, 0u8, 0u8);
    for byte in bytes {
        before = before_past(levels, before, *byte);
    }
    before
}

/// What stands before a place that follows some bytes.
pub(crate) fn before_of(bytes: &[u8]) -> Before
    ensures { result ≡ before_of bytes.now }
{
    let (levels, _, _) = opened_after(bytes);
    before_in(levels, bytes)
}

/// Whether a name has its place right after a byte.
pub(crate) fn is_before_name(byte: u8) -> bool
    ensures { result ≡ is_before_name byte }
{
    byte == b'{' || byte == b','
}

/// Whether a value may end by a byte.
pub(crate) fn ends_value(byte: u8) -> bool
    ensures { result ≡ ends_value byte }
{
    byte == b'"'
        || byte == b']'
        || byte == b'}'
        || byte == b'e'
        || byte == b'l'
        || byte.is_ascii_digit()
}

/// Whether a value has its place after some bytes.
pub(crate) fn wants_value(bytes: &[u8]) -> bool
    ensures { result ≡ wants_value bytes.now }
{
    let ((_, in_string, _), last, _, opening) = before_of(bytes);
    let in_array = last == b',' && opening == b'[';
    !in_string && (last == 0 || last == b'[' || last == b':' || in_array)
}

/// Whether bytes end in an object, where a name has its place.
pub(crate) fn wants_name(bytes: &[u8]) -> bool
    ensures { result ≡ wants_name bytes.now }
{
    let ((_, in_string, _), last, _, opening) = before_of(bytes);
    !in_string && opening == b'{' && is_before_name(last)
}

/// Whether bytes end in an object by a name.
pub(crate) fn wants_colon(bytes: &[u8]) -> bool
    ensures { result ≡ wants_colon bytes.now }
{
    let ((_, in_string, _), last, before_string, opening) = before_of(bytes);
    !in_string && opening == b'{' && last == b'"' && is_before_name(before_string)
}

/// Whether bytes end in an array or an object by a value.
pub(crate) fn wants_comma(bytes: &[u8]) -> bool
    ensures { result ≡ wants_comma bytes.now }
{
    let ((levels, in_string, _), last, before_string, opening) = before_of(bytes);
    let is_name = opening == b'{' && last == b'"' && is_before_name(before_string);
    !in_string && 0 < levels && ends_value(last) && !is_name
}

/// Whether a place has a point, and a digit on one side of it.
pub(crate) fn is_bare_point(before: &[u8], after: &[u8]) -> bool
    ensures { result ≡ is_bare_point before.now after.now }
{
    if !after.starts_with(b".") {
        return false;
    }
    let (_, last, _, _) = before_of(before);
    let follows = byte_at(after, 1).is_ascii_digit();
    if last.is_ascii_digit() {
        !follows
    } else {
        follows
    }
}
