//! The text of the nodes of a walk.

ghost use Rattle.std.specs.Prelude.{◌≡◌, ◌⊎◌, [], map, IfOk, IfErr, OnOk, string_bytes};
ghost use Rattle.jsonpath_lines.specs.Words.{located, first_places, OnlyMemoryOrPattern, rest, query_of, set_of, document_of, AreLines, IsCount, up_to, Appends, ArePieces, Pushes, asked, is_reached};

use crate::distinct::distinct_nodes;
use crate::forms::Output;
use crate::line::LineWriter;
use serde_json_path::functions::Functions;
use serde_json_path::{LocatedNode, QueryError, Sink, Taken, Walk};
use std::alloc::Global;
use std::mem::replace;

/// What is written of nodes.
#[derive(Drop)]
pub struct Written {
    /// The text.
    pub text: String,
    /// How many nodes were chosen; with `Form::Nothing` only whether there is one, as 1 or 0.
    pub count: u64,
}

/// Whether a limit, if there is one, is reached.
#[inline(always)]
fn is_reached(limit: Option<u64>, count: u64) -> bool
    ensures { result ≡ is_reached limit count }
{
    match limit {
        Some(most) => most <= count,
        None => false,
    }
}

/// The lines of nodes, up to a limit.
#[derive(Drop)]
struct Lines<'a> {
    writer: LineWriter<'a>,
    limit: Option<u64>,
    text: String,
    count: u64,
}

impl<'a, 'b> Sink<'b> for Lines<'a> {
    ghost use Rattle.jsonpath_lines.specs.Inside.{FilledLines, TookLines};

    ghost took = { TookLines };

    ghost filled = { FilledLines };

    // Inlined, as what it calls: each node passes here.
    #[inline(always)]
    fn take(&mut self, node: LocatedNode<'b>) -> Result<Taken<'b>, QueryError> {
        // Taken out, so that what is lent to a call is the text alone.
        let mut text = replace(&mut self.text, String::new(self.writer.alloc));
        self.writer.push_node(&mut text, self.count > 0, &node)?;
        self.text = text;
        // A walk that gave one node in each nanosecond would take 584 years to come to the error.
        self.count = self.count.checked_add(1).ok_or(QueryError::Memory)?;
        if is_reached(self.limit, self.count) {
            return Ok(Taken::Enough);
        }
        Ok(Taken::More(node.into_steps()))
    }
}

/// Appends what is written of the nodes of a walk up to the limit, and tells how many these are.
// Inlined, as what calls it, so that a form that is known where it is asked for is known here.
#[inline(always)]
fn push_walk<F: Functions + Drop>(
    writer: LineWriter<'_>,
    text: String,
    walk: Walk<'_, '_, F>,
) -> Result<Written, QueryError>
    ensures pushed { IfOk result (λ written.
        Pushes writer.entry.output writer.entry.head.now (rest walk.entry)
        (string_bytes text) (string_bytes written.text) written.count) }
    ensures refused { OnlyMemoryOrPattern (set_of walk.entry) (query_of walk.entry)
        (document_of walk.entry) result }
{
    let limit = writer.output.limit();
    if is_reached(limit, 0) {
        return Ok(Written { text, count: 0 });
    }
    let mut lines = Lines {
        writer,
        limit,
        text,
        count: 0,
    };
    walk.feed(&mut lines)?;
    Ok(Written {
        text: lines.text,
        count: lines.count,
    })
}

/// Appends what is written of each of some nodes.
fn push_nodes(
    writer: LineWriter<'_>,
    text: &mut String,
    nodes: &[LocatedNode<'_>],
) -> Result<(), QueryError>
    ensures pushed { OnOk result (Appends
        (ArePieces writer.entry.output writer.entry.head.now (map located nodes.now))
        (string_bytes text.old) (string_bytes text.new)) }
    ensures refused { IfErr result (λ e. e ≡ QueryError.Memory) }
{
    for (index, node) in nodes.iter().enumerate() {
        writer.push_node(text, index > 0, node)?;
    }
    Ok(())
}

/// The first of some nodes, up to the limit.
fn first_nodes<'b>(limit: Option<u64>, mut nodes: Vec<LocatedNode<'b>>) -> Vec<LocatedNode<'b>>
    ensures { map located result.items ≡ up_to limit (map located nodes.entry.items) }
{
    match limit {
        Some(most) => {
            nodes.truncate(most as usize);
            nodes
        }
        None => nodes,
    }
}

/// Appends what is written of the nodes of a walk up to the limit, each location once, and tells how many these are.
fn push_unique<F: Functions + Drop>(
    writer: LineWriter<'_>,
    mut text: String,
    walk: Walk<'_, '_, F>,
) -> Result<Written, QueryError>
    ensures pushed { IfOk result (λ written.
        Pushes writer.entry.output writer.entry.head.now (first_places (rest walk.entry))
        (string_bytes text) (string_bytes written.text) written.count) }
    ensures refused { OnlyMemoryOrPattern (set_of walk.entry) (query_of walk.entry)
        (document_of walk.entry) result }
{
    let limit = writer.output.limit();
    let nodes = distinct_nodes(writer.alloc, limit, walk)?;
    let nodes = first_nodes(limit, nodes);
    push_nodes(writer, &mut text, nodes.as_slice())?;
    Ok(Written {
        text,
        count: nodes.len() as u64,
    })
}

/// Appends what is written of the chosen nodes of a walk up to the limit, and tells how many these are.
#[inline(always)]
fn push_chosen<F: Functions + Drop>(
    writer: LineWriter<'_>,
    text: String,
    walk: Walk<'_, '_, F>,
) -> Result<Written, QueryError>
    ensures pushed { IfOk result (λ written.
        Pushes writer.entry.output writer.entry.head.now
        (asked writer.entry.output (rest walk.entry))
        (string_bytes text) (string_bytes written.text) written.count) }
    ensures refused { OnlyMemoryOrPattern (set_of walk.entry) (query_of walk.entry)
        (document_of walk.entry) result }
{
    if writer.output.leaves_out() {
        push_unique(writer, text, walk)
    } else {
        push_walk(writer, text, walk)
    }
}

/// What is written of the nodes that remain of a walk, in a text that is empty before, whose room is used.
///
/// Each line begins with the head, such as a file's name and a tab. The walk is asked for at most [`Output::most`] nodes, or
/// for one with `Form::Nothing`. Where locations are shown once, it goes on until more than [`Output::most`] differ.
///
/// The error is `Pattern` or `Memory` as that of `Walk::next`; `Memory` comes also where memory for the text is refused.
///
/// ```text
/// let output = Output { form: Form::Count, unique: true, ..Output::compact_lines(Form::Count) };
/// write_nodes(alloc, &output, "a.json\t", String::new(alloc), walk)?.text.as_str() == "a.json\t2\n"
/// ```
#[inline(always)]
pub fn write_nodes<F: Functions + Drop>(
    alloc: Global,
    output: &Output,
    head: &str,
    mut text: String,
    walk: Walk<'_, '_, F>,
) -> Result<Written, QueryError>
    requires { string_bytes text ≡ [] }
    ensures lines { IfOk result (λ written.
        AreLines output.now head.now (rest walk.entry) (string_bytes written.text)) }
    ensures count { IfOk result (λ written.
        IsCount output.now (rest walk.entry) written.count) }
    ensures refused { OnlyMemoryOrPattern (set_of walk.entry) (query_of walk.entry)
        (document_of walk.entry) result }
{
    let writer = LineWriter {
        alloc,
        output: *output,
        head,
    };
    writer.open(&mut text)?;
    let written = push_chosen(writer, text, walk)?;
    let text = writer.closed(written.text, written.count)?;
    Ok(Written {
        text,
        count: written.count,
    })
}
