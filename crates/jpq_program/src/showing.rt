//! How nodes are shown: their lines and their objects.

ghost use Rattle.std.specs.Char.{encode_utf8};
ghost use Rattle.std.specs.Prelude.{◌≡◌, ◌++◌, ℕ, List, IfOk, OnOk, string_bytes};
ghost use Rattle.serde_json.specs.Data.{string};
ghost use Rattle.serde_json.specs.Written.{compact_text};
ghost use Rattle.serde_json_path_nodes.specs.Text.{normal};
ghost use Rattle.serde_json_path_nodes.specs.Views.{located};
ghost use Rattle.jsonpath_lines.specs.Inside.{Appends};
ghost use Rattle.jsonpath_lines.specs.Output.{IsJsonIn, end_text};
ghost use Rattle.jpq_program.specs.Answers.{array_end};
ghost use Rattle.jpq_program.specs.Inside.{look_of};
ghost use Rattle.jpq_program.specs.Looks.{IsLook, IsObject, member_json};

use crate::dress::{Dress, push_own_line};
use crate::members::{push_members, set_further_in};
use jsonpath_lines::{Form, Layout, LineEnd, Output, push_line};
use serde_json::Value;
use serde_json_path::LocatedNode;
use std::alloc::{AllocError, Global};

/// How nodes are shown.
#[derive(Drop)]
pub(crate) struct Showing<'a> {
    pub(crate) alloc: Global,
    pub(crate) output: Output,
    /// How many nodes of all documents are shown at most; any number where it is `None`.
    pub(crate) most_of_all: Option<u64>,
    /// Whether of counts the sum is shown alone.
    pub(crate) summed: bool,
    /// How lines are dressed, where they are not shown as they are made.
    pub(crate) dress: Option<Dress<'a>>,
}

/// What ends a line.
pub(crate) fn end_of(end: LineEnd) -> char
    ensures { encode_utf8 result ≡ end_text end }
{
    match end {
        LineEnd::LineFeed => '\n',
        LineEnd::Nul => '\0',
    }
}

/// The JSON string of a node's normalised path.
fn path_string(alloc: Global, node: &LocatedNode<'_>) -> Result<String, AllocError>
    ensures { IfOk result (λ text. string_bytes text
        ≡ compact_text (string (normal (located node.now).location))) }
{
    Value::String(node.location().to_text(alloc)?).to_string(alloc)
}

impl Showing<'_> {
    /// Appends a node's line after a head.
    // Inlined: each node passes here.
    #[inline(always)]
    pub(crate) fn push_line(
        &self,
        to: &mut String,
        head: &str,
        node: &LocatedNode<'_>,
    ) -> Result<(), AllocError>
        ensures { OnOk result
            (Appends (IsLook (look_of self.now) head.now (located node.now))
            (string_bytes to.old) (string_bytes to.new)) }
    {
        match &self.dress {
            None => push_line(self.alloc, &self.output, head, to, node),
            Some(dress) => dress.push_line(&self.output, to, head, node),
        }
    }

    /// The JSON of a node's value.
    fn json(&self, node: &LocatedNode<'_>) -> Result<String, AllocError>
        ensures { IfOk result (λ json. IsJsonIn self.now.output.layout (located node.now).value
            (string_bytes json)) }
    {
        let mut json = String::new(self.alloc);
        let output = Output {
            form: Form::Value,
            layout: self.output.layout,
            end: LineEnd::LineFeed,
            unique: false,
            most: None,
        };
        push_own_line(self.alloc, &output, &mut json, node)?;
        // A line feed ends the line.
        json.truncate(json.len() - 1);
        Ok(json)
    }

    /// A node's value in JSON, as a member of an object in an array.
    fn member(&self, node: &LocatedNode<'_>) -> Result<String, AllocError>
        ensures { IfOk result (λ member. (json : List ℕ)
            × IsJsonIn self.now.output.layout (located node.now).value json
            × (string_bytes member ≡ member_json self.now.output.layout json)) }
    {
        let json = self.json(node)?;
        match self.output.layout {
            Layout::Compact => Ok(json),
            Layout::Pretty => set_further_in(self.alloc, json.as_str()),
        }
    }

    /// Appends a node as an object with its path and its value, after other members, in an array in which it may be later
    /// than the first.
    pub(crate) fn push_object(
        &self,
        to: &mut String,
        members: &str,
        is_later: bool,
        node: &LocatedNode<'_>,
    ) -> Result<(), AllocError>
        ensures { OnOk result
            (Appends (IsObject (look_of self.now) is_later members.now (located node.now))
            (string_bytes to.old) (string_bytes to.new)) }
    {
        let layout = self.output.layout;
        let path = path_string(self.alloc, node)?;
        let value = self.member(node)?;
        match &self.dress {
            None => push_members(to, layout, is_later, members, path.as_str(), value.as_str()),
            Some(dress) => {
                let mut object = String::new(self.alloc);
                let (path, value) = (path.as_str(), value.as_str());
                push_members(&mut object, layout, is_later, members, path, value)?;
                let object = dress.dressed(object)?;
                dress.push_colored(to, object.as_str(), self.output.form)
            }
        }
    }

    /// Appends the end of an array, which may hold something, and of its line.
    pub(crate) fn push_array_end(&self, to: &mut String, holds: bool) -> Result<(), AllocError>
        ensures { OnOk result (string_bytes to.new ≡ string_bytes to.old
            ++ (array_end self.now.output.layout holds ++ end_text self.now.output.end)) }
    {
        if self.output.layout == Layout::Pretty && holds {
            to.push('\n')?;
        }
        to.push(']')?;
        to.push(end_of(self.output.end))
    }
}
