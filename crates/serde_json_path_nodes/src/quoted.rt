//! Texts as paths write them.

ghost use Rattle.std.specs.Prelude.{◌≡◌, ◌++◌, OnOk, Some, string_bytes, take};
ghost use Rattle.serde_json_path_nodes.specs.Words.{WritesOnOk, flat_map, chars, IsCharBoundary, NonePass, in_quotes, is_escaped, quoted};

use crate::escape::escaped;
use std::alloc::AllocError;
use std::fmt;
use std::fmt::{Formatter, Write};

/// A text that prints itself in single quotes, with the escapes of [`escaped`].
#[derive(Clone, Copy)]
pub struct Quoted<'b>(pub &'b str);

impl<'b> fmt::Display for Quoted<'b> {
    ghost output = { λ q. Some (quoted q.0.now) };

    fn fmt<W: Write>(&self, f: &mut Formatter<W>) -> fmt::Result {
        f.write_str("'")?;
        write_inside(f, self.0)?;
        f.write_str("'")
    }
}

/// Appends what stands between the quotes. Most names have no character with an escape.
pub(crate) fn push_inside(text: &mut String, name: &str) -> Result<(), AllocError>
    ensures { OnOk result (string_bytes text.new
        ≡ string_bytes text.old ++ flat_map in_quotes (chars name.now)) }
{
    if plain_len(name) == name.len() {
        return text.push_str(name);
    }
    write!(text, "{}", Inside(name))
}

/// A text that prints what stands between its quotes.
#[derive(Drop)]
struct Inside<'b>(&'b str);

impl<'b> fmt::Display for Inside<'b> {
    ghost output = { λ name. Some (flat_map in_quotes (chars name.0.now)) };

    fn fmt<W: Write>(&self, f: &mut Formatter<W>) -> fmt::Result {
        write_inside(f, self.0)
    }
}

/// Writes what stands between the quotes. Characters without an escape are written many at a time.
fn write_inside<W: Write>(f: &mut Formatter<W>, text: &str) -> fmt::Result
    ensures { WritesOnOk W.write_str_gives f.old result
        (flat_map in_quotes (chars text.now)) f.new }
{
    let mut rest = text;
    'stretches: loop {
        let (plain, others) = rest.split_at(plain_len(rest));
        write_plain(f, plain)?;
        let mut others = others.chars();
        let Some(c) = others.next() else {
            return Ok(());
        };
        write_char(f, c)?;
        rest = others.as_str();
    }
}

/// Writes a text as it is, in no write where it is empty.
fn write_plain<W: Write>(f: &mut Formatter<W>, text: &str) -> fmt::Result
    ensures { WritesOnOk W.write_str_gives f.old result text.now f.new }
{
    if text.is_empty() {
        return Ok(());
    }
    f.write_str(text)
}

/// Writes a character: its escape, or itself.
fn write_char<W: Write>(f: &mut Formatter<W>, c: char) -> fmt::Result
    ensures { WritesOnOk W.write_str_gives f.old result (in_quotes c) f.new }
{
    match escaped(c) {
        Some(escape) => f.write_str(escape),
        None => f.write_char(c),
    }
}

/// How many bytes from the start on are of characters that print themselves.
#[tactic(auto, using(crate::proofs::Quotes::none_further))]
fn plain_len(text: &str) -> usize
    ensures boundary { IsCharBoundary text.now result }
    ensures plain { NonePass is_escaped (take result text.now) }
{
    let bytes = text.as_bytes();
    for (index, byte) in bytes.iter().enumerate() {
        if is_escaped(*byte) {
            return index;
        }
    }
    bytes.len()
}

/// Whether a byte is a character that has an escape.
fn is_escaped(byte: u8) -> bool
    ensures { result ≡ is_escaped byte }
{
    byte < b' ' || byte == b'\'' || byte == b'\\'
}
