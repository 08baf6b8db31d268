//! What stands at a place of a path's text: a token, or a string that is left open.

use unicode_segmentation::UnicodeSegmentation;

/// How many bytes of a word a message gives at most.
const LONGEST_WORD: usize = 24;

/// Whether a character is one of a word.
fn is_of_word(c: char) -> bool {
    c.is_ascii_alphanumeric() || c == '_'
}

/// Whether a character is one of an operator.
fn is_of_operator(c: char) -> bool {
    matches!(c, '=' | '!' | '<' | '>' | '&' | '|' | '~')
}

/// The characters at the start of a text that pass a test, as far as a message gives them.
fn front<P: Fn(char) -> bool>(text: &str, passes: P) -> &str
    requires { P.IsAlwaysCallable passes }
{
    let end = text.find(|c| !passes(c)).unwrap_or(text.len());
    text.get(..end.min(LONGEST_WORD)).unwrap_or("")
}

/// What a text begins with: a word, an operator, or a character as it is seen; nothing of an empty one.
pub(crate) fn first_token(text: &str) -> &str {
    match (front(text, is_of_word), front(text, is_of_operator)) {
        ("", "") => text.graphemes(true).next().unwrap_or(""),
        ("", operator) => operator,
        (word, _) => word,
    }
}

/// Where the string that a text leaves open was opened: the number of the quote's byte, from 1.
pub(crate) fn open_quote(text: &str) -> Option<usize> {
    let mut open: Option<(usize, u8)> = None;
    let mut escaped = false;
    for (index, b) in text.bytes().enumerate() {
        match open {
            None if b == b'\'' || b == b'"' => open = Some((index, b)),
            None => {}
            Some(_) if escaped => escaped = false,
            Some(_) if b == b'\\' => escaped = true,
            Some((_, quote)) if b == quote => open = None,
            Some(_) => {}
        }
    }
    open.map(|(index, _)| index.saturating_add(1))
}
