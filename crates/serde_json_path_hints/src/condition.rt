//! What the text on one side of a place may be like.

ghost use Rattle.std.specs.Prelude.{◌≡◌};
ghost use Rattle.serde_json_path_hints.specs.Conditions.{is_name_start, is_name_byte, holds, word_of, is_call, is_met};
ghost use Rattle.serde_json_path_hints.specs.Inside.Lent.{condition_of};

use crate::near::is_one_letter_away;

/// What a text may be like, beside texts with which it is compared. Its word is what it starts with of letters, digits, `_`
/// and characters beyond ASCII.
// The texts are a type parameter, since a contract can name no constant of a type whose fields are references.
pub(crate) enum Condition<Texts> {
    /// Anything.
    Any,
    /// It is empty.
    Empty,
    /// It starts with one of these.
    Starts(Texts),
    /// It ends with one of these.
    Ends(Texts),
    /// One of these is somewhere in it.
    Holds(Texts),
    /// Its word is one of these, in small letters or capitals.
    Word(Texts),
    /// Its word is one letter away from one of these.
    Near(Texts),
    /// It starts as a member name does, and `(` follows its word.
    Call,
    /// It starts as a member name does.
    Name,
    /// It starts with a dash, and then as a member name does.
    Dashed,
    /// It starts with a digit.
    Digit,
    /// It ends with a byte of a member name.
    EndsInName,
    /// It ends with a byte with which a member name may start.
    EndsInLetter,
    /// It ends with a digit.
    EndsInDigit,
}

/// Whether a member name may start with this byte: a letter, `_`, or a byte of a character beyond ASCII.
fn is_name_start(byte: u8) -> bool
    ensures { result ≡ is_name_start byte }
{
    byte.is_ascii_alphabetic() || byte == b'_' || byte >= 128
}

/// Whether this byte may be in a member name.
fn is_name_byte(byte: u8) -> bool
    ensures { result ≡ is_name_byte byte }
{
    is_name_start(byte) || byte.is_ascii_digit()
}

/// The word that a text starts with, which may be empty.
fn word(text: &[u8]) -> &[u8]
    ensures { result.now ≡ word_of text.now }
{
    for (end, byte) in text.iter().enumerate() {
        if !is_name_byte(*byte) {
            return &text[..end];
        }
    }
    text
}

/// Whether a text starts as a member name does, and `(` follows its word.
fn is_call(text: &[u8]) -> bool
    ensures { result ≡ is_call text.now }
{
    let after = text.get(word(text).len()..).unwrap_or(&[]);
    text.first().is_some_and(|byte| is_name_start(*byte)) && after.first() == Some(&b'(')
}

/// Whether a part is somewhere in a text. Nothing is in an empty one.
fn holds(text: &[u8], part: &[u8]) -> bool
    ensures { result ≡ holds text.now part.now }
{
    let mut rest = text;
    while let [_, next @ ..] = rest {
        if rest.starts_with(part) {
            return true;
        }
        rest = next;
    }
    false
}

/// What the text on one side of a place is like.
pub(crate) type Side = Condition<&'static [&'static str]>;

/// Whether the text is as the condition says.
pub(crate) fn is_met(condition: &Side, text: &[u8]) -> bool
    ensures { result ≡ is_met (condition_of condition.now) text.now }
{
    match condition {
        Condition::Any => true,
        Condition::Empty => text.is_empty(),
        Condition::Starts(starts) => {
            starts
                .iter()
                .any(|start| text.starts_with(start.as_bytes()))
        }
        Condition::Ends(ends) => ends.iter().any(|end| text.ends_with(end.as_bytes())),
        Condition::Holds(parts) => parts.iter().any(|part| holds(text, part.as_bytes())),
        Condition::Word(words) => {
            let own = word(text);
            words
                .iter()
                .any(|word| own.eq_ignore_ascii_case(word.as_bytes()))
        }
        Condition::Near(names) => {
            let own = word(text);
            names
                .iter()
                .any(|name| is_one_letter_away(own, name.as_bytes()))
        }
        Condition::Call => is_call(text),
        Condition::Name => text.first().is_some_and(|byte| is_name_start(*byte)),
        Condition::Dashed => match text {
            [b'-', byte, ..] => is_name_start(*byte),
            _ => false,
        },
        Condition::Digit => text.first().is_some_and(u8::is_ascii_digit),
        Condition::EndsInName => text.last().is_some_and(|byte| is_name_byte(*byte)),
        Condition::EndsInLetter => text.last().is_some_and(|byte| is_name_start(*byte)),
        Condition::EndsInDigit => text.last().is_some_and(u8::is_ascii_digit),
    }
}
