//! Where documents come from, and what is written of that.

ghost use Rattle.std.specs.Prelude.{◌≡◌, IfOk, string_bytes};
ghost use Rattle.serde_json.specs.Data.{string};
ghost use Rattle.serde_json.specs.Written.{compact_text};
ghost use Rattle.jpq_program.specs.Heads.{head_text, members_text, shown_name};

use crate::members::push_member;
use jsonpath_lines::Layout;
use serde_json::Value;
use std::alloc::{AllocError, Global};

/// Where a document comes from.
#[derive(Clone, Copy, Drop)]
pub(crate) struct Source<'n> {
    /// The input's name.
    pub(crate) name: &'n str,
    /// The line of the input that the document begins in, from 1.
    pub(crate) line: usize,
}

/// The name of an input, as messages and lines begin with it.
pub(crate) fn shown_name(name: &str) -> &str
    ensures { result.now ≡ shown_name name.now }
{
    if name == "-" { "standard input" } else { name }
}

/// The JSON string of an input's name, as it is shown.
fn name_string(alloc: Global, name: &str) -> Result<String, AllocError>
    ensures { IfOk result (λ text. string_bytes text
        ≡ compact_text (string (shown_name name.now))) }
{
    Value::String(String::from_str(alloc, shown_name(name))?).to_string(alloc)
}

/// What is written of where a node comes from.
#[derive(Clone, Copy, Drop)]
pub(crate) struct Heads {
    /// The input's name.
    pub(crate) file: bool,
    /// The number of the document's line.
    pub(crate) line: bool,
    /// The path's number, from 1.
    pub(crate) number: bool,
}

impl Heads {
    /// What each line begins with: the file's name, the line's number and the path's, and a tab after each.
    pub(crate) fn line(
        self,
        alloc: Global,
        source: Source<'_>,
        number: usize,
    ) -> Result<String, AllocError>
        ensures { IfOk result (λ head. string_bytes head ≡ head_text self.file self.line
            self.number source.entry.name.now source.entry.line number) }
    {
        let mut head = String::new(alloc);
        if self.file {
            write!(head, "{}\t", shown_name(source.name))?;
        }
        if self.line {
            write!(head, "{}\t", source.line)?;
        }
        if self.number {
            write!(head, "{number}\t")?;
        }
        Ok(head)
    }

    /// What each object begins with: the same as members, each with what stands after it.
    pub(crate) fn members(
        self,
        alloc: Global,
        layout: Layout,
        source: Source<'_>,
        number: usize,
    ) -> Result<String, AllocError>
        ensures { IfOk result (λ members. string_bytes members
            ≡ members_text layout self.file self.line self.number source.entry.name.now
            source.entry.line number) }
    {
        let mut members = String::new(alloc);
        if self.file {
            let name = name_string(alloc, source.name)?;
            push_member(&mut members, layout, "file", name.as_str())?;
        }
        if self.line {
            let line = format!(in alloc; "{}", source.line)?;
            push_member(&mut members, layout, "line", line.as_str())?;
        }
        if self.number {
            let number = format!(in alloc; "{number}")?;
            push_member(&mut members, layout, "number", number.as_str())?;
        }
        Ok(members)
    }
}
