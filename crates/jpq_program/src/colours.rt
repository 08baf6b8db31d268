//! Whether an output takes colours, and which.

ghost use Rattle.std.specs.List.{list_all};
ghost use Rattle.std.specs.Prelude.{◌≡◌, ◌&&◌, ◌||◌, MatchOption, not, option_map, slice_get};
ghost use Rattle.jsonpath_lines.specs.Coloured.{parameters_of, usual};
ghost use Rattle.jpq_program.specs.Colours.{field_at, fields_in, is_in_fields, parameters_in};

use jsonpath_lines::Palette;

/// What the environment says of colours.
#[derive(Clone, Copy, Debug, Drop)]
pub struct Colours<'a> {
    /// Whether the output takes them where no option says.
    pub taken: bool,
    /// Which ones, in the form of `jq`: the parameters of the sequences before null, false, true, numbers, strings, arrays, objects,
    /// members' names and locations, with `:` between.
    pub palette: Option<&'a str>,
}

/// Whether an output takes colours where no option says: never where the environment has `NO_COLOR`, always where it has
/// `CLICOLOR_FORCE`, and else if it is a terminal that is not `dumb`.
pub fn takes_colors(is_terminal: bool, is_dumb: bool, no_color: bool, is_forced: bool) -> bool
    ensures { result ≡ (not no_color && (is_forced || (is_terminal && not is_dumb))) }
{
    !no_color && (is_forced || (is_terminal && !is_dumb))
}

/// How many fields a text of colours has at most.
const MOST_FIELDS: usize = 9;

/// Whether a text has bytes of fields alone: digits, semicolons, and the colons between fields.
fn is_fields(text: &str) -> bool
    ensures { result ≡ list_all is_in_fields text.now }
{
    for byte in text.as_bytes() {
        if !byte.is_ascii_digit() && *byte != b';' && *byte != b':' {
            return false;
        }
    }
    true
}

/// A field of a text by its index.
fn field(text: &str, index: usize) -> Option<&str>
    ensures { option_map (λ field. field.now) result ≡ slice_get (fields_in text.now) index }
{
    text.split(':').nth(index)
}

/// The same, or else these parameters.
fn field_or<'a>(text: &'a str, index: usize, other: &'a str) -> &'a str
    ensures { result.now ≡ field_at text.now index other.now }
{
    field(text, index).unwrap_or(other)
}

/// The colours that a text of the environment names, and the usual ones of the parts that it says nothing of; `None` where a field
/// is no list of parameters, or there are too many. Fields of arrays and objects are passed over.
pub(crate) fn palette_in<'a>(text: &'a str) -> Option<Palette<'a>>
    ensures { MatchOption result (parameters_in text.now ≡ usual)
        (λ palette. parameters_of palette ≡ parameters_in text.now) }
{
    if !is_fields(text) || field(text, MOST_FIELDS).is_some() {
        return None;
    }
    Some(Palette {
        null_word: field_or(text, 0, "33"),
        false_word: field_or(text, 1, "33"),
        true_word: field_or(text, 2, "33"),
        number: field_or(text, 3, "36"),
        string: field_or(text, 4, "32"),
        name: field_or(text, 7, "32"),
        location: field_or(text, 8, "35"),
    })
}
