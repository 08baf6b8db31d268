//! The lines of nodes, one after the other.

ghost use Rattle.std.specs.Prelude.{◌≡◌, ◌++◌, codes, IfOk, OnOk, string_bytes};
ghost use Rattle.jsonpath_lines.specs.Words.{tokens, ArePrintable, comma_if, located, IsLine, IsText, Appends, IsArrayLine, IsClosedIn, IsLaidOut, IsPiece, opening};

use crate::forms::{Form, Layout, Output};
use crate::values::{indented, push_item, push_json};
use serde_json::Value;
use serde_json_path::LocatedNode;
use std::alloc::{AllocError, Global};

/// How nodes are written: in which form, and what each line begins with.
#[derive(Clone, Copy, Drop)]
pub(crate) struct LineWriter<'a> {
    pub(crate) alloc: Global,
    pub(crate) output: Output,
    pub(crate) head: &'a str,
}

/// Appends a comma where something stands before.
fn push_comma(text: &mut String, is_later: bool) -> Result<(), AllocError>
    ensures { OnOk result
        (string_bytes text.new ≡ string_bytes text.old ++ comma_if is_later) }
{
    if is_later {
        return text.push(',');
    }
    Ok(())
}

/// Appends what a line begins with. Most lines begin with nothing, which costs nothing.
#[inline(always)]
fn push_head(text: &mut String, head: &str) -> Result<(), AllocError>
    ensures { OnOk result (string_bytes text.new ≡ string_bytes text.old ++ head.now) }
{
    if head.is_empty() {
        return Ok(());
    }
    text.push_str(head)
}

impl LineWriter<'_> {
    /// Appends what is written before all nodes.
    #[inline(always)]
    pub(crate) fn open(self, text: &mut String) -> Result<(), AllocError>
        ensures { OnOk result
            (string_bytes text.new ≡ string_bytes text.old ++ opening self.entry.output.form) }
    {
        if self.output.form == Form::Json {
            return text.push('[');
        }
        Ok(())
    }

    /// Appends a node's text in its form.
    // Inlined, as what calls it and what it calls: each node passes here.
    #[inline(always)]
    fn push_text(self, text: &mut String, node: &LocatedNode<'_>) -> Result<(), AllocError>
        ensures { OnOk result (Appends
            (IsText self.entry.output.form self.entry.output.layout (located node.now))
            (string_bytes text.old) (string_bytes text.new)) }
    {
        // Each writer of text is called at one place alone, where it can be inlined.
        match self.output.form {
            Form::LocationAndValue | Form::Location => {
                node.location().push_to(text)?;
                if self.output.form == Form::Location {
                    return Ok(());
                }
                text.push('\t')?;
            }
            Form::Pointer => {
                let pointer = node.location().to_json_pointer(self.alloc)?;
                return text.push_str(pointer.as_str());
            }
            Form::Raw => {
                if let Value::String(own) = node.node() {
                    return text.push_str(own.as_str());
                }
            }
            Form::Value => {}
            Form::Json | Form::Count | Form::Nothing => return Ok(()),
        }
        push_json(self.alloc, self.output.layout, text, node.node())
    }

    /// Appends a node's line.
    #[inline(always)]
    fn push_line(self, text: &mut String, node: &LocatedNode<'_>) -> Result<(), AllocError>
        ensures { OnOk result (Appends
            (IsLine self.entry.output self.entry.head.now (located node.now))
            (string_bytes text.old) (string_bytes text.new)) }
    {
        push_head(text, self.head)?;
        self.push_text(text, node)?;
        text.push(self.output.end.as_char())
    }

    /// Appends what is written of a node, which may be later than the first.
    #[inline(always)]
    pub(crate) fn push_node(
        self,
        text: &mut String,
        is_later: bool,
        node: &LocatedNode<'_>,
    ) -> Result<(), AllocError>
        ensures { OnOk result (Appends
            (IsPiece self.entry.output self.entry.head.now is_later (located node.now))
            (string_bytes text.old) (string_bytes text.new)) }
    {
        match self.output.form {
            Form::Json => {
                push_comma(text, is_later)?;
                push_item(self.alloc, text, node)
            }
            Form::Count | Form::Nothing => Ok(()),
            _ => self.push_line(text, node),
        }
    }

    /// The same JSON in the layout that is asked for, of JSON in one line.
    fn laid_out(self, json: String) -> Result<String, AllocError>
        requires { ArePrintable (tokens (string_bytes json)) }
        ensures { IfOk result (λ text.
            IsLaidOut self.entry.output.layout (string_bytes json) (string_bytes text)) }
    {
        match self.output.layout {
            Layout::Compact => Ok(json),
            Layout::Pretty => indented(self.alloc, json.as_str()),
        }
    }

    /// The line of an array of which all but the end is written.
    fn array_line(self, mut array: String) -> Result<String, AllocError>
        requires { ArePrintable (tokens (string_bytes array ++ codes "]")) }
        ensures { IfOk result (λ shown. IsArrayLine self.entry.output self.entry.head.now
            (string_bytes array) (string_bytes shown)) }
    {
        array.push(']')?;
        let (head, end) = (self.head, self.output.end.as_char());
        let json = self.laid_out(array)?;
        format!(in self.alloc; "{head}{json}{end}")
    }

    /// The text of so many nodes, of what is written of them.
    pub(crate) fn closed(self, text: String, count: u64) -> Result<String, AllocError>
        requires { self.output.form ≡ Form.Json
            → ArePrintable (tokens (string_bytes text ++ codes "]")) }
        ensures { IfOk result (λ shown. IsClosedIn self.entry.output.form
            self.entry.output self.entry.head.now count (string_bytes text) (string_bytes shown)) }
    {
        let (head, end) = (self.head, self.output.end.as_char());
        match self.output.form {
            Form::Json => self.array_line(text),
            Form::Count => format!(in self.alloc; "{head}{count}{end}"),
            _ => Ok(text),
        }
    }
}

/// Appends a node's line: the head, the node in the output's form, and the end of the line. It fails where memory is refused.
///
/// ```text
/// push_line(alloc, &Output::compact_lines(Form::Location), "", &mut text, &node)?
/// ```
#[inline(always)]
pub fn push_line(
    alloc: Global,
    output: &Output,
    head: &str,
    text: &mut String,
    node: &LocatedNode<'_>,
) -> Result<(), AllocError>
    ensures { OnOk result (Appends (IsLine output.now head.now (located node.now))
        (string_bytes text.old) (string_bytes text.new)) }
{
    let writer = LineWriter {
        alloc,
        output: *output,
        head,
    };
    writer.push_line(text, node)
}
