//! Objects in arrays, member by member.

ghost use Rattle.std.specs.List.{flat_map};
ghost use Rattle.std.specs.Prelude.{◌≡◌, ◌++◌, [], IfOk, OnOk, codes, if◌then◌else◌, string_bytes};
ghost use Rattle.std.specs.Str.{chars};
ghost use Rattle.jpq_program.specs.Heads.{colon_text, comma_text, member_text};
ghost use Rattle.jpq_program.specs.Looks.{further_in, object_closing, object_opening, object_text, value_text};

use jsonpath_lines::Layout;
use std::alloc::{AllocError, Global};

/// What stands after a member's name.
fn colon(layout: Layout) -> &'static str
    ensures { result.now ≡ colon_text layout }
{
    match layout {
        Layout::Compact => ":",
        Layout::Pretty => ": ",
    }
}

/// What stands after a member that is not the last.
fn comma(layout: Layout) -> &'static str
    ensures { result.now ≡ comma_text layout }
{
    match layout {
        Layout::Compact => ",",
        Layout::Pretty => ",\n    ",
    }
}

/// What an object begins with.
fn opening(layout: Layout) -> &'static str
    ensures { result.now ≡ object_opening layout }
{
    match layout {
        Layout::Compact => "{",
        Layout::Pretty => "\n  {\n    ",
    }
}

/// What an object ends with.
fn closing(layout: Layout) -> &'static str
    ensures { result.now ≡ object_closing layout }
{
    match layout {
        Layout::Compact => "}",
        Layout::Pretty => "\n  }",
    }
}

/// Appends a member of an object, by the JSON of its value, and what stands after it.
pub(crate) fn push_member(
    to: &mut String,
    layout: Layout,
    name: &str,
    json: &str,
) -> Result<(), AllocError>
    ensures { OnOk result (string_bytes to.new
        ≡ string_bytes to.old ++ member_text layout name.now json.now) }
{
    to.push('"')?;
    to.push_str(name)?;
    to.push('"')?;
    to.push_str(colon(layout))?;
    to.push_str(json)?;
    to.push_str(comma(layout))
}

/// Appends the comma before an object that is later than the first in its array.
fn push_comma(to: &mut String, is_later: bool) -> Result<(), AllocError>
    ensures { OnOk result (string_bytes to.new
        ≡ string_bytes to.old ++ (if is_later then codes "," else [])) }
{
    if is_later {
        return to.push(',');
    }
    Ok(())
}

/// Appends the last member of a node's object, by its JSON, and the object's end.
fn push_value(to: &mut String, layout: Layout, json: &str) -> Result<(), AllocError>
    ensures { OnOk result
        (string_bytes to.new ≡ string_bytes to.old ++ value_text layout json.now) }
{
    to.push_str("\"value\"")?;
    to.push_str(colon(layout))?;
    to.push_str(json)?;
    to.push_str(closing(layout))
}

/// Appends a node's object, by the JSON strings of its path and its value, after other members.
pub(crate) fn push_members(
    to: &mut String,
    layout: Layout,
    is_later: bool,
    members: &str,
    path: &str,
    value: &str,
) -> Result<(), AllocError>
    ensures { OnOk result (string_bytes to.new ≡ string_bytes to.old
        ++ object_text layout is_later members.now path.now value.now) }
{
    push_comma(to, is_later)?;
    to.push_str(opening(layout))?;
    to.push_str(members)?;
    push_member(to, layout, "path", path)?;
    push_value(to, layout, value)
}

/// Appends a character of JSON whose lines after the first are four spaces further in.
fn push_further_in(to: &mut String, c: char) -> Result<(), AllocError>
    ensures { OnOk result (string_bytes to.new ≡ string_bytes to.old ++ further_in c) }
{
    if c == '\n' {
        return to.push_str("\n    ");
    }
    to.push(c)
}

/// JSON whose lines after the first are four spaces further in.
pub(crate) fn set_further_in(alloc: Global, json: &str) -> Result<String, AllocError>
    ensures { IfOk result (λ text. string_bytes text ≡ flat_map further_in (chars json.now)) }
{
    let mut text = String::new(alloc);
    for c in json.chars() {
        push_further_in(&mut text, c)?;
    }
    Ok(text)
}
