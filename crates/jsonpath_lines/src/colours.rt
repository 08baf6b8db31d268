//! Lines in the colours of a terminal.

ghost use Rattle.std.specs.List.{Contains};
ghost use Rattle.std.specs.Prelude.{◌≡◌, ◌++◌, None, IfOk, IfSome, OnOk, string_bytes};
ghost use Rattle.jsonpath_lines.specs.Words.{Appends, IsColoured, IsUnseen, parameters_of, sequence, usual};

use crate::forms::Form;
use std::alloc::{AllocError, Global};

/// The colours of a line: of each of its parts the parameters of the sequence before it, as `0;32`.
#[derive(Clone, Copy, Debug)]
pub struct Palette<'a> {
    /// Of `null`.
    pub null_word: &'a str,
    /// Of `false`.
    pub false_word: &'a str,
    /// Of `true`.
    pub true_word: &'a str,
    /// Of a number.
    pub number: &'a str,
    /// Of a string that is no member's name.
    pub string: &'a str,
    /// Of a member's name.
    pub name: &'a str,
    /// Of a normalised path or a pointer.
    pub location: &'a str,
}

/// A part of a line that has a colour.
#[derive(Clone, Copy)]
enum Part {
    /// `null`.
    NullWord,
    /// `false`.
    FalseWord,
    /// `true`.
    TrueWord,
    /// A number.
    Number,
    /// A string that is no member's name.
    String,
    /// A member's name.
    Name,
    /// A normalised path or a pointer.
    Location,
}

/// What a character of a line belongs to.
#[derive(Clone, Copy)]
enum Place {
    /// Punctuation, spaces, and the ends of lines.
    Between,
    /// A location, a number or a word.
    Within(Part),
    /// A string or a name, after its first quote.
    Quoted(Part),
    /// The same, after a backslash that escapes the next character.
    AfterBackslash(Part),
    /// The quote that ends it.
    LastQuote(Part),
}

/// The parameters of the sequence after a part that has a colour.
const RESET: &str = "0";

impl Palette<'_> {
    /// The colours that lines have where nothing else is asked for: yellow words, cyan numbers, green strings and names, and
    /// magenta locations.
    pub fn usual() -> Palette<'static>
        ensures { parameters_of result ≡ usual }
    {
        Palette {
            null_word: "33",
            false_word: "33",
            true_word: "33",
            number: "36",
            string: "32",
            name: "32",
            location: "35",
        }
    }
}

impl Part {
    /// What a text in quotes is, by what follows its first quote: before a colon it is a name.
    fn quoted(rest: &str) -> Part {
        let mut place = Place::Quoted(Part::String);
        for c in rest.chars() {
            match place.next_quoted(c) {
                Some(next) => place = next,
                None if c == ':' => return Part::Name,
                None => return Part::String,
            }
        }
        Part::String
    }

    /// The parameters of the sequence before it.
    fn parameters<'a>(self, palette: &Palette<'a>) -> &'a str
        ensures { Contains (parameters_of palette.now) result.now }
    {
        match self {
            Part::NullWord => palette.null_word,
            Part::FalseWord => palette.false_word,
            Part::TrueWord => palette.true_word,
            Part::Number => palette.number,
            Part::String => palette.string,
            Part::Name => palette.name,
            Part::Location => palette.location,
        }
    }
}

impl Place {
    /// The parameters of the sequence before a part of this kind; `None` where it has no colour.
    fn parameters<'a>(self, palette: &Palette<'a>) -> Option<&'a str>
        ensures part { IfSome result (λ own. Contains (parameters_of palette.now) own.now) }
        ensures none { self ≡ Place.Between → result ≡ None }
    {
        match self {
            Place::Between => None,
            Place::Within(part) => Some(part.parameters(palette)),
            Place::Quoted(part) => Some(part.parameters(palette)),
            Place::AfterBackslash(part) => Some(part.parameters(palette)),
            Place::LastQuote(part) => Some(part.parameters(palette)),
        }
    }

    /// The place of a character outside of strings and locations, by what follows it.
    fn begun(c: char, rest: &str) -> Place {
        match c {
            '"' => Place::Quoted(Part::quoted(rest)),
            '-' | '0'..='9' => Place::Within(Part::Number),
            'n' => Place::Within(Part::NullWord),
            'f' => Place::Within(Part::FalseWord),
            'a'..='z' => Place::Within(Part::TrueWord),
            '$' => Place::Within(Part::Location),
            _ => Place::Between,
        }
    }

    /// The place of the next character in quotes; `None` where they are closed, or none are open.
    fn next_quoted(self, c: char) -> Option<Place> {
        match (self, c) {
            (Place::Quoted(part), '"') => Some(Place::LastQuote(part)),
            (Place::Quoted(part), '\\') => Some(Place::AfterBackslash(part)),
            (Place::Quoted(part), _) => Some(Place::Quoted(part)),
            (Place::AfterBackslash(part), _) => Some(Place::Quoted(part)),
            _ => None,
        }
    }

    /// The place of the next character in a line of JSON, before which a location may be, by what follows it.
    fn next(self, c: char, rest: &str) -> Place {
        if let Some(next) = self.next_quoted(c) {
            return next;
        }
        match (self, c) {
            (Place::Within(Part::Location), '\t' | '\n' | '\0') => Place::Between,
            (Place::Within(Part::Location), _) => self,
            (Place::Within(Part::Number), '.' | '+' | '-' | 'e' | 'E') => self,
            (Place::Within(Part::NullWord | Part::FalseWord | Part::TrueWord), 'a'..='z') => self,
            _ => Place::begun(c, rest),
        }
    }

    /// The place of the next character of what a form shows, by what follows it.
    fn next_in(self, form: Form, c: char, rest: &str) -> Place
        ensures { form ≡ Form.Raw → result ≡ Place.Between }
    {
        match form {
            Form::Location | Form::Pointer if c != '\n' && c != '\0' => {
                Place::Within(Part::Location)
            }
            Form::Location | Form::Pointer | Form::Raw => Place::Between,
            _ => self.next(c, rest),
        }
    }
}

/// Appends the sequence with these parameters.
fn push_sequence(text: &mut String, parameters: &str) -> Result<(), AllocError>
    ensures { OnOk result (string_bytes text.new
        ≡ string_bytes text.old ++ sequence parameters.now) }
{
    text.push_str("\u{1b}[")?;
    text.push_str(parameters)?;
    text.push('m')
}

/// Appends what stands between a character and the next one, by their places.
fn push_change(
    text: &mut String,
    palette: &Palette<'_>,
    last: Place,
    next: Place,
) -> Result<(), AllocError>
    ensures unseen { OnOk result (Appends (IsUnseen (parameters_of palette.now))
        (string_bytes text.old) (string_bytes text.new)) }
    ensures none { last ≡ Place.Between → next ≡ Place.Between
        → string_bytes text.new ≡ string_bytes text.old }
{
    match (last.parameters(palette), next.parameters(palette)) {
        (None, None) => Ok(()),
        (None, Some(next)) => push_sequence(text, next),
        (Some(_), None) => push_sequence(text, RESET),
        (Some(last), Some(next)) if last == next => Ok(()),
        (Some(_), Some(next)) => {
            push_sequence(text, RESET)?;
            push_sequence(text, next)
        }
    }
}

/// A line that [`append`](crate::append) shows, with ANSI colours: a location or pointer, strings, members' names, numbers, and the
/// words `true`, `false` and `null` have each the colour of the palette, which is reset after each. Punctuation is plain.
///
/// A head is no part of the line: take it off, and put it before the coloured one. The form is the one that the line was
/// shown in. Of `Raw` all is plain, as a string's own text cannot be told from JSON there. Several lines may be given at
/// once.
///
/// An error comes only where memory is refused.
///
/// ```text
/// colored(alloc, "[1]", Form::Value, &Palette::usual())? == "[\u{1b}[36m1\u{1b}[0m]"
/// ```
pub fn colored(
    alloc: Global,
    line: &str,
    form: Form,
    palette: &Palette<'_>,
) -> Result<String, AllocError>
    ensures seen { IfOk result (λ text.
        IsColoured (parameters_of palette.now) line.now (string_bytes text)) }
    ensures plain { form ≡ Form.Raw → IfOk result (λ text. string_bytes text ≡ line.now) }
{
    let mut text = String::new(alloc);
    let mut place = Place::Between;
    let mut rest = line.chars();
    while let Some(c) = rest.next() {
        let next = place.next_in(form, c, rest.as_str());
        push_change(&mut text, palette, place, next)?;
        text.push(c)?;
        place = next;
    }
    push_change(&mut text, palette, place, Place::Between)?;
    Ok(text)
}
