//! The paths in the lines of a file.

ghost use Rattle.std.specs.Prelude.{◌≡◌, ◌≤◌, ◌<◌, IfOk, get_or, length, true};
ghost use Rattle.jpq_options.specs.Options.{texts};
ghost use Rattle.jpq_options.specs.Paths.{comment_start, path_in_line, path_lines, quoting_past};

use std::alloc::{AllocError, Global};

/// Whether a place of a line is in quotes, and in which.
#[derive(Clone, Copy, PartialEq, Eq)]
enum Quoting {
    /// It is in none.
    Outside,
    /// It is in these.
    Inside(u8),
    /// It is in these, after a backslash.
    Escaped(u8),
}

/// Whether the place after a byte is in quotes.
fn quoting_past(quoting: Quoting, byte: u8) -> Quoting
    ensures { result ≡ quoting_past quoting byte }
{
    match quoting {
        Quoting::Outside if byte == b'\'' || byte == b'"' => Quoting::Inside(byte),
        Quoting::Outside => Quoting::Outside,
        Quoting::Inside(quote) if byte == quote => Quoting::Outside,
        Quoting::Inside(quote) if byte == b'\\' => Quoting::Escaped(quote),
        Quoting::Inside(quote) | Quoting::Escaped(quote) => Quoting::Inside(quote),
    }
}

/// How many bytes stand before a line's comment, or in the whole line.
fn comment_start(line: &[u8]) -> usize
    ensures start { result ≡ comment_start Quoting.Outside true line.now }
    ensures within { result ≤ length line.now }
    ensures mark { result < length line.now → get_or line.now result 0 ≡ 35 }
{
    let mut quoting = Quoting::Outside;
    let mut after_blank = true;
    for (index, byte) in line.iter().enumerate() {
        if quoting == Quoting::Outside && after_blank && *byte == b'#' {
            return index;
        }
        quoting = quoting_past(quoting, *byte);
        after_blank = byte.is_ascii_whitespace();
    }
    line.len()
}

/// The path in a line, without blanks at either end.
fn path_in_line(line: &str) -> &str
    ensures { result.now ≡ path_in_line line.now }
{
    line[..comment_start(line.as_bytes())].trim_ascii()
}

/// The path in each line of a file's text, in order; empty where a line has none. Blanks at both ends of a line are not of the path,
/// nor is a comment: what stands from a `#` on that is in no quotes, at the line's start or after a blank. It fails where memory is
/// refused.
///
/// ```text
/// path_lines(alloc, "# books\n$.book # all\n$..price")
/// gives nothing, $.book and $..price
/// ```
pub fn path_lines<'a>(alloc: Global, text: &'a str) -> Result<Vec<&'a str>, AllocError>
    ensures { IfOk result (λ paths. texts paths.items ≡ path_lines text.now) }
{
    text.split('\n').map(path_in_line).collect(alloc)
}
