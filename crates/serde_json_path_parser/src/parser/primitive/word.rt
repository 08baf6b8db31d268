//! Words: a function's name, or the literal `true`, `false` or `null`.

ghost use Rattle.std.specs.Prelude.{◌≡◌};
ghost use Rattle.serde_json_path_parser.specs.Inside.Words.{IfOk, option_map, string_bytes, literal_view, word, past_word, left, Moves, literal_word};

use crate::parser::reader::Reader;
use crate::source::PathSource;
use serde_json_path_syntax::Literal;
use std::alloc::{AllocError, Global};

/// Reads the word that is next (RFC 9535, sections 2.3.5.1 and 2.4).
pub(crate) fn read_word<S: PathSource>(
    alloc: Global,
    reader: &mut Reader<'_, S>,
) -> Result<String, AllocError>
    ensures moves { Moves reader.old reader.new }
    ensures word { IfOk result (λ text. string_bytes text ≡ word (left reader.old)) }
    ensures rest { IfOk result (λ text. left reader.new ≡ past_word (left reader.old)) }
{
    let mut text = String::new(alloc);
    while reader.sees_function_char() {
        text.push(reader.take_char())?;
    }
    Ok(text)
}

/// The literal that is written as this word.
pub(crate) fn literal_word(word: &str) -> Option<Literal>
    ensures { option_map literal_view result ≡ literal_word word.now }
{
    match word {
        "true" => Some(Literal::Bool(true)),
        "false" => Some(Literal::Bool(false)),
        "null" => Some(Literal::Null),
        _ => None,
    }
}
