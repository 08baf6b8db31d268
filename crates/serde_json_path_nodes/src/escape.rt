//! Characters between single quotes.

ghost use Rattle.std.specs.Prelude.{◌≡◌};
ghost use Rattle.serde_json_path_nodes.specs.Words.{option_copied, escape_of};

/// The escape of a character between single quotes, as in a normalised path (RFC 9535, section 2.7); `None` for a
/// character that is printed as it is.
///
/// ```text
/// escaped('\n') == Some("\\n")
/// escaped('n') == None
/// ```
pub fn escaped(c: char) -> Option<&'static str>
    ensures { option_copied result ≡ escape_of c }
{
    match c {
        '\'' => Some("\\'"),
        '\\' => Some("\\\\"),
        ' '.. => None,
        '\u{0}' => Some("\\u0000"),
        '\u{1}' => Some("\\u0001"),
        '\u{2}' => Some("\\u0002"),
        '\u{3}' => Some("\\u0003"),
        '\u{4}' => Some("\\u0004"),
        '\u{5}' => Some("\\u0005"),
        '\u{6}' => Some("\\u0006"),
        '\u{7}' => Some("\\u0007"),
        '\u{8}' => Some("\\b"),
        '\t' => Some("\\t"),
        '\n' => Some("\\n"),
        '\u{b}' => Some("\\u000b"),
        '\u{c}' => Some("\\f"),
        '\r' => Some("\\r"),
        '\u{e}' => Some("\\u000e"),
        '\u{f}' => Some("\\u000f"),
        '\u{10}' => Some("\\u0010"),
        '\u{11}' => Some("\\u0011"),
        '\u{12}' => Some("\\u0012"),
        '\u{13}' => Some("\\u0013"),
        '\u{14}' => Some("\\u0014"),
        '\u{15}' => Some("\\u0015"),
        '\u{16}' => Some("\\u0016"),
        '\u{17}' => Some("\\u0017"),
        '\u{18}' => Some("\\u0018"),
        '\u{19}' => Some("\\u0019"),
        '\u{1a}' => Some("\\u001a"),
        '\u{1b}' => Some("\\u001b"),
        '\u{1c}' => Some("\\u001c"),
        '\u{1d}' => Some("\\u001d"),
        '\u{1e}' => Some("\\u001e"),
        '\u{1f}' => Some("\\u001f"),
    }
}
