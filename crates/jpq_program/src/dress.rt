//! How lines are dressed: indented by another unit, escaped and coloured.

ghost use Rattle.std.specs.Char.{encode_utf8};
ghost use Rattle.std.specs.Fmt.{digit_glyph};
ghost use Rattle.std.specs.List.{flat_map};
ghost use Rattle.std.specs.Prelude.{◌≡◌, ◌==◌, ◌<◌, ◌++◌, ◌∷◌, ℕ, List, [], None, Some, IfOk, OnOk, false, option_map, string_bytes, true};
ghost use Rattle.std.specs.Str.{chars};
ghost use Rattle.serde_json_path_nodes.specs.Views.{located};
ghost use Rattle.jsonpath_lines.specs.Coloured.{parameters_of};
ghost use Rattle.jsonpath_lines.specs.Inside.{Appends};
ghost use Rattle.jsonpath_lines.specs.Output.{IsLine};
ghost use Rattle.jpq_program.specs.Inside.{left_from, look_with};
ghost use Rattle.jpq_program.specs.Looks.{IsLook, IsSeenIn, dressed, escaped, has_escapes, in_ascii, indented, led_by, unit_escape};

use jsonpath_lines::{Form, Output, Palette, colored, push_line};
use serde_json::Value;
use serde_json_path::LocatedNode;
use std::alloc::{AllocError, Global};

/// Appends a node's line. Lines that are not shown as they are made, and values in objects, are made here, and not where each node
/// passes, so that what is called there is inlined.
#[inline(never)]
pub(crate) fn push_own_line(
    alloc: Global,
    output: &Output,
    to: &mut String,
    node: &LocatedNode<'_>,
) -> Result<(), AllocError>
    ensures { OnOk result (Appends (IsLine output.now [] (located node.now))
        (string_bytes to.old) (string_bytes to.new)) }
{
    push_line(alloc, output, "", to, node)
}

/// Where in a line of a text a character stands.
#[derive(Clone, Copy, PartialEq, Eq)]
enum Place {
    /// At its start, after spaces in twos.
    Start,
    /// After one space more.
    AfterSpace,
    /// Elsewhere.
    Within,
}

/// Appends a character that stays as it is. Gives the place of the next one.
fn push_same(text: &mut String, c: char) -> Result<Place, AllocError>
    ensures { IfOk result (λ next. (unit cs : List ℕ) →
        string_bytes text.new ++ left_from unit next cs
        ≡ string_bytes text.old ++ (encode_utf8 c ++ led_by unit (c == 10) cs)) }
{
    text.push(c)?;
    if c == '\n' {
        return Ok(Place::Start);
    }
    Ok(Place::Within)
}

/// Appends a character of a text, or the unit for two spaces at the start of a line. Gives the place of the next one.
fn push_indented(text: &mut String, unit: &str, place: Place, c: char) -> Result<Place, AllocError>
    ensures { IfOk result (λ next. (cs : List ℕ) →
        string_bytes text.new ++ left_from unit.now next cs
        ≡ string_bytes text.old ++ left_from unit.now place (c ∷ cs)) }
{
    match (place, c == ' ') {
        (Place::Start, true) => Ok(Place::AfterSpace),
        (Place::AfterSpace, true) => {
            text.push_str(unit)?;
            Ok(Place::Start)
        }
        (Place::AfterSpace, false) => {
            text.push(' ')?;
            push_same(text, c)
        }
        (Place::Start, false) => push_same(text, c),
        (Place::Within, _) => push_same(text, c),
    }
}

/// JSON that is indented by two spaces a level, indented by a unit.
fn indented_by(alloc: Global, json: &str, unit: &str) -> Result<String, AllocError>
    ensures { IfOk result (λ text. string_bytes text ≡ led_by unit.now true (chars json.now)) }
{
    let mut text = String::new(alloc);
    let mut place = Place::Start;
    for c in json.chars() {
        place = push_indented(&mut text, unit, place, c)?;
    }
    if place == Place::AfterSpace {
        text.push(' ')?;
    }
    Ok(text)
}

/// A digit of base 16.
fn digit(value: u16) -> char
    requires { value < 16 }
    ensures { result ≡ digit_glyph false value }
{
    let first = if value < 10 { b'0' } else { b'a' - 10 };
    (first + value as u8) as char
}

/// Appends the escape of a code unit of UTF-16.
fn push_unit(text: &mut String, unit: u16) -> Result<(), AllocError>
    ensures { OnOk result (string_bytes text.new ≡ string_bytes text.old ++ unit_escape unit) }
{
    text.push_str("\\u")?;
    text.push(digit(unit / 4096))?;
    text.push(digit(unit / 256 % 16))?;
    text.push(digit(unit / 16 % 16))?;
    text.push(digit(unit % 16))
}

/// Appends the escapes of some code units.
fn push_units(text: &mut String, units: &[u16]) -> Result<(), AllocError>
    ensures { OnOk result (string_bytes text.new
        ≡ string_bytes text.old ++ flat_map unit_escape units.now) }
{
    for unit in units {
        push_unit(text, *unit)?;
    }
    Ok(())
}

/// Appends a character, or above U+007F its escapes.
fn push_ascii(text: &mut String, c: char) -> Result<(), AllocError>
    ensures { OnOk result (string_bytes text.new ≡ string_bytes text.old ++ in_ascii c) }
{
    if c.is_ascii() {
        return text.push(c);
    }
    push_units(text, c.encode_utf16(&mut [0; 2]))
}

/// JSON or a normalised path with an escape for each character above U+007F.
fn escaped(alloc: Global, line: &str) -> Result<String, AllocError>
    ensures { IfOk result (λ text. string_bytes text ≡ flat_map in_ascii (chars line.now)) }
{
    let mut text = String::new(alloc);
    for c in line.chars() {
        push_ascii(&mut text, c)?;
    }
    Ok(text)
}

/// Whether a node is shown as JSON or as a normalised path, which have escapes.
fn has_escapes(form: Form, node: &LocatedNode<'_>) -> bool
    ensures { result ≡ has_escapes form (located node.now).value }
{
    match (form, node.node()) {
        (Form::Raw, Value::String(_)) | (Form::Pointer, _) => false,
        _ => true,
    }
}

/// How lines are dressed.
#[derive(Drop)]
pub(crate) struct Dress<'a> {
    pub(crate) alloc: Global,
    /// What a level is indented by, where that is not two spaces.
    pub(crate) indent: Option<String>,
    /// Whether characters above U+007F are escaped.
    pub(crate) ascii: bool,
    /// The colours of lines, where they have these.
    pub(crate) colours: Option<Palette<'a>>,
}

impl Dress<'_> {
    /// A text of JSON, or of normalised paths, indented as is asked for.
    fn indented(&self, text: String) -> Result<String, AllocError>
        ensures { IfOk result (λ made. string_bytes made
            ≡ indented (option_map string_bytes self.now.indent) (string_bytes text)) }
    {
        match &self.indent {
            Some(unit) => indented_by(self.alloc, text.as_str(), unit.as_str()),
            None => Ok(text),
        }
    }

    /// The same, and escaped.
    pub(crate) fn dressed(&self, text: String) -> Result<String, AllocError>
        ensures { IfOk result (λ dressed. string_bytes dressed ≡ escaped self.now.ascii
            (indented (option_map string_bytes self.now.indent) (string_bytes text))) }
    {
        let text = self.indented(text)?;
        if self.ascii {
            return escaped(self.alloc, text.as_str());
        }
        Ok(text)
    }

    /// Appends a text that a form shows, in colours where lines have these.
    pub(crate) fn push_colored(
        &self,
        to: &mut String,
        text: &str,
        form: Form,
    ) -> Result<(), AllocError>
        ensures { OnOk result
            (Appends (IsSeenIn (option_map parameters_of self.now.colours) text.now)
            (string_bytes to.old) (string_bytes to.new)) }
    {
        match &self.colours {
            None => to.push_str(text),
            Some(palette) => {
                let line = colored(self.alloc, text, form, palette)?;
                to.push_str(line.as_str())
            }
        }
    }

    /// A node's line, indented and escaped.
    fn line(&self, output: &Output, node: &LocatedNode<'_>) -> Result<String, AllocError>
        ensures { IfOk result (λ text. (line : List ℕ)
            × IsLine output.now [] (located node.now) line
            × (string_bytes text
            ≡ dressed (look_with output.now None false (Some self.now)) (located node.now).value
            line)) }
    {
        let mut line = String::new(self.alloc);
        push_own_line(self.alloc, output, &mut line, node)?;
        if has_escapes(output.form, node) {
            return self.dressed(line);
        }
        Ok(line)
    }

    /// Appends a node's line, dressed, after a head.
    pub(crate) fn push_line(
        &self,
        output: &Output,
        to: &mut String,
        head: &str,
        node: &LocatedNode<'_>,
    ) -> Result<(), AllocError>
        ensures { OnOk result
            (Appends (IsLook (look_with output.now None false (Some self.now)) head.now
            (located node.now)) (string_bytes to.old) (string_bytes to.new)) }
    {
        let line = self.line(output, node)?;
        to.push_str(head)?;
        self.push_colored(to, line.as_str(), output.form)
    }
}
