//! Lines within limits.

ghost use Rattle.std.specs.Prelude.{◌≡◌, ◌++◌, ◌∷◌, [], IfErr, List, Ok, false, true};
ghost use Rattle.jsonpath_c.specs.Clauses.{AreFirstLines, AreLeft, IfOk, IsLineOfEach, Located, Memory, OnlyMemoryOrPattern, compact_lines, document_of, located, query_of, rest, set_of, string_bytes};

use crate::limits::Limits;
use jsonpath_lines::{Form, Output, push_line};
use serde_json_path::functions::Functions;
use serde_json_path::{LocatedNode, QueryError, Walk};
use std::alloc::Global;

/// Lines, as many as limits allow.
#[derive(Drop)]
pub(crate) struct FirstLines {
    /// The lines.
    pub(crate) text: String,
    /// Whether these are all.
    pub(crate) all: bool,
}

/// The lines of nodes, while they are within limits.
#[derive(Drop)]
struct BoundedLines<'a> {
    alloc: Global,
    form: Form,
    limits: &'a Limits,
    text: String,
    /// The last line, whose memory the next one uses.
    line: String,
    count: usize,
}

impl<'a> BoundedLines<'a> {
    ghost use Rattle.jsonpath_c.specs.Inside.{TookLines};

    /// Appends the line of a node, and says whether there was room for it. Where there was none, the text stays.
    #[inline(always)]
    fn push(&mut self, node: &LocatedNode<'_>) -> Result<bool, QueryError>
        ensures pushed { result ≡ Ok true → (nodes : List Located) → TookLines self.old nodes
            → TookLines self.new (nodes ++ located node.now ∷ []) }
        ensures full { result ≡ Ok false → (nodes later : List Located) → TookLines self.old nodes
            → AreFirstLines self.old.form self.old.limits.now (nodes ++ located node.now ∷ later)
            (string_bytes self.new.text) false }
        ensures kept { result ≡ Ok false → self.new.text ≡ self.old.text }
        ensures same { (self.new.form ≡ self.old.form) × (self.new.limits ≡ self.old.limits) }
        ensures refused { IfErr result (λ e. e ≡ Memory) }
    {
        self.line.clear();
        let output = Output::compact_lines(self.form);
        push_line(self.alloc, &output, "", &mut self.line, node)?;
        let room = self.limits.bytes.saturating_sub(self.text.len());
        if self.count >= self.limits.nodes || room < self.line.len() {
            return Ok(false);
        }
        self.text.push_str(self.line.as_str())?;
        self.count += 1;
        Ok(true)
    }
}

/// The lines of the first nodes that remain of a walk, as many as the limits allow. The walk goes no further than the node that
/// would go beyond.
pub(crate) fn first_lines<F: Functions + Drop>(
    alloc: Global,
    form: Form,
    limits: &Limits,
    walk: &mut Walk<'_, '_, F>,
) -> Result<FirstLines, QueryError>
    ensures lines { IfOk result (λ lines.
        AreFirstLines form limits.now (rest walk.old) (string_bytes lines.text) lines.all) }
    ensures stops { IfOk result (λ lines. (shown : List Located)
        × IsLineOfEach (compact_lines form) [] shown (string_bytes lines.text)
        × AreLeft (rest walk.old) shown lines.all (rest walk.new)) }
    ensures refused { OnlyMemoryOrPattern (set_of walk.old) (query_of walk.old)
        (document_of walk.old) result }
{
    let mut lines = BoundedLines {
        alloc,
        form,
        limits,
        text: String::new(alloc),
        line: String::new(alloc),
        count: 0,
    };
    let mut steps = Vec::new(alloc);
    'nodes: while let Some(node) = walk.next_into(steps)? {
        if !lines.push(&node)? {
            return Ok(FirstLines {
                text: lines.text,
                all: false,
            });
        }
        steps = node.into_steps();
    }
    Ok(FirstLines {
        text: lines.text,
        all: true,
    })
}
