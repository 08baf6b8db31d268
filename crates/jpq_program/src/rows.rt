//! Tables: a row for each document, with a cell for each path.

ghost use Rattle.std.specs.Prelude.{◌≡◌, ◌++◌, ◌<◌, IfOk, OnOk, map, string_bytes};
ghost use Rattle.std.specs.Str.{IsUtf8};
ghost use Rattle.serde_json_path_nodes.specs.Views.{located};
ghost use Rattle.jsonpath_lines.specs.Output.{IsText};
ghost use Rattle.jsonpath_lines.specs.declared.forms.Form.TheVariants as form;
ghost use Rattle.jsonpath_lines.specs.declared.forms.Layout.TheVariants as layout;
ghost use Rattle.csv.specs.Writing as csv;
ghost use Rattle.jpq_program.specs.Inside.{separated};
ghost use Rattle.jpq_program.specs.Rows.{cell_text, comma_rows, end_byte, in_cell, row_text};

use crate::inexact::may_be_inexact;
use crate::showing::end_of;
use csv::{Terminator, WriterBuilder};
use jsonpath_lines::{Form, LineEnd, Output, push_line};
use serde_json_path::{LocatedNode, QueryError, Sink, Taken};
use std::alloc::{AllocError, Global};
use std::str::from_utf8;

/// What stands between the cells of a row.
#[derive(Clone, Copy, Debug, PartialEq, Eq)]
pub(crate) enum Separator {
    /// A tab. Tabs, line feeds, carriage returns and backslashes in a cell are escaped by a backslash.
    Tab,
    /// A comma. Cells with commas, quotes or line ends are quoted (RFC 4180).
    Comma,
}

/// The first node of a walk, as the text of a cell, and whether there are more.
#[derive(Drop)]
pub(crate) struct FirstNode {
    pub(crate) alloc: Global,
    pub(crate) cell: Option<String>,
    /// Whether it may have a number with more digits than are kept.
    pub(crate) may_be_inexact: bool,
    pub(crate) has_more: bool,
}

/// A node's text in a cell: of a string its own text, of any other value its JSON.
fn cell_of(alloc: Global, node: &LocatedNode<'_>) -> Result<String, AllocError>
    ensures { IfOk result (λ cell. IsText form.Raw layout.Compact (located node.now)
        (string_bytes cell)) }
{
    let mut cell = String::new(alloc);
    push_line(
        alloc,
        &Output::compact_lines(Form::Raw),
        "",
        &mut cell,
        node,
    )?;
    // A line feed ends the line.
    cell.truncate(cell.len() - 1);
    Ok(cell)
}

impl<'b> Sink<'b> for FirstNode {
    ghost use Rattle.jpq_program.specs.Inside.{IsFirstOf};

    ghost took = { λ before nodes now. IsFirstOf nodes now.cell };

    ghost filled = { λ before nodes now. IsFirstOf nodes now.cell };

    fn take(&mut self, node: LocatedNode<'b>) -> Result<Taken<'b>, QueryError> {
        if self.cell.is_some() {
            self.has_more = true;
            return Ok(Taken::Enough);
        }
        self.cell = Some(cell_of(self.alloc, &node)?);
        self.may_be_inexact = may_be_inexact(node.node());
        Ok(Taken::More(node.into_steps()))
    }
}

/// Appends a character of a cell of a row whose cells are parted by tabs.
fn push_in_cell(to: &mut String, c: char) -> Result<(), AllocError>
    ensures { OnOk result (string_bytes to.new ≡ string_bytes to.old ++ in_cell c) }
{
    match c {
        '\t' => to.push_str("\\t"),
        '\n' => to.push_str("\\n"),
        '\r' => to.push_str("\\r"),
        '\\' => to.push_str("\\\\"),
        _ => to.push(c),
    }
}

/// Appends a cell of a row whose cells are parted by tabs.
fn push_escaped(to: &mut String, cell: &str) -> Result<(), AllocError>
    ensures { OnOk result (string_bytes to.new ≡ string_bytes to.old ++ cell_text cell.now) }
{
    for c in cell.chars() {
        push_in_cell(to, c)?;
    }
    Ok(())
}

/// Appends a row whose cells are parted by tabs, but for its end.
fn push_tabbed(to: &mut String, cells: &[String]) -> Result<(), AllocError>
    ensures { OnOk result (string_bytes to.new
        ≡ string_bytes to.old ++ row_text (map string_bytes cells.now)) }
{
    for (index, cell) in cells.iter().enumerate() {
        if index > 0 {
            to.push('\t')?;
        }
        push_escaped(to, cell.as_str())?;
    }
    Ok(())
}

/// The bytes of cells.
fn cells_bytes(alloc: Global, cells: &[String]) -> Result<Vec<&[u8]>, AllocError>
    ensures { IfOk result (λ fields. map (λ field. field.now) fields.items
        ≡ map string_bytes cells.now) }
{
    let mut fields = Vec::new(alloc);
    for cell in cells {
        fields.push(cell.as_bytes())?;
    }
    Ok(fields)
}

/// What ends a row, as a byte.
fn end_byte(end: LineEnd) -> u8
    ensures { result ≡ end_byte end }
{
    match end {
        LineEnd::LineFeed => b'\n',
        LineEnd::Nul => b'\0',
    }
}

/// A row whose cells are parted by commas.
fn comma_row(alloc: Global, fields: &[&[u8]], end: LineEnd) -> Result<Vec<u8>, csv::Error>
    ensures { IfOk result (λ row. row.items
        ≡ csv.row_text (comma_rows end) (map (λ field. field.now) fields.now)) }
{
    let mut writer = WriterBuilder::new()
        .terminator(Terminator::Any(end_byte(end)))
        .from_writer(Vec::new(alloc));
    writer.write_fields(fields)?;
    writer.into_inner().map_err(|e| e.into_error())
}

/// Appends bytes that are a text.
fn push_text(to: &mut String, bytes: &[u8]) -> Result<(), AllocError>
    requires { IsUtf8 bytes.now }
    ensures { OnOk result (string_bytes to.new ≡ string_bytes to.old ++ bytes.now) }
{
    match from_utf8(bytes) {
        Ok(text) => to.push_str(text),
        Err(_) => unreachable!(),
    }
}

/// Appends a row whose cells are parted by commas.
fn push_commas(
    alloc: Global,
    to: &mut String,
    end: LineEnd,
    cells: &[String],
) -> Result<(), AllocError>
    ensures { OnOk result (string_bytes to.new ≡ string_bytes to.old
        ++ csv.row_text (comma_rows end) (map string_bytes cells.now)) }
{
    let fields = cells_bytes(alloc, cells)?;
    // What it writes to is a vector, so that only memory can be refused.
    let Ok(row) = comma_row(alloc, &fields, end) else {
        return Err(AllocError);
    };
    push_text(to, &row)
}

/// Appends a row of cells and its end.
pub(crate) fn push_row(
    alloc: Global,
    to: &mut String,
    separator: Separator,
    end: LineEnd,
    cells: &[String],
) -> Result<(), AllocError>
    ensures { OnOk result (string_bytes to.new ≡ string_bytes to.old
        ++ separated separator end (map string_bytes cells.now)) }
{
    match separator {
        Separator::Tab => {
            push_tabbed(to, cells)?;
            to.push(end_of(end))
        }
        Separator::Comma => push_commas(alloc, to, end, cells),
    }
}
