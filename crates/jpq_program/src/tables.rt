//! Rows of tables: of each document one, with the first node of each path.

ghost use Rattle.std.specs.Prelude.{◌≡◌, ◌++◌, ◌∷◌, [], List, Some, IfOk, OnOk, codes, if◌then◌else◌, map, string_bytes, true};
ghost use Rattle.serde_json_path_core.specs.Inside.Words.{view, Located, OnlyMemoryOrPattern, Selects};
ghost use Rattle.serde_json_path_functions.specs.Patterns.{builtin_functions};
ghost use Rattle.serde_json_path.specs.Paths.{path_tree, with_rule_of};
ghost use Rattle.serde_json.specs.Data.{Data};
ghost use Rattle.jpq_program.specs.Inside.{AnswersRow, AreShownAs, Finds, IsAsked, Begins, IsAside, IsFirstOf, Sends, ShowsAs, cell_look, header_by, separated, separator_in, texts_asked};
ghost use Rattle.jpq_program.specs.Rows.{IsCellInPart, IsCellOn, first_cells, header_cells};

use crate::answering::{Answering, Document};
use crate::asked_path::AskedPath;
use crate::rows::{FirstNode, Separator, push_row};
use crate::source::{Source, shown_name};
use crate::streams::{Stop, Streams};
use jpq_options::options::Shown;
use jsonpath_document::read_document;
use serde_json::Value;
use serde_json_path::QueryError;
use std::alloc::AllocError;
use std::io::Write;

/// What stands between the cells of a row, where rows are shown.
pub(crate) fn separator_of(shown: Shown) -> Option<Separator>
    ensures { result ≡ separator_in shown }
{
    match shown {
        Shown::Tsv => Some(Separator::Tab),
        Shown::Csv => Some(Separator::Comma),
        Shown::Nodes(_) => None,
    }
}

impl Answering<'_> {
    /// The first node of a path in a document, as a cell, and whether there are more.
    fn first_node(&self, path: &AskedPath, document: &Value) -> Result<FirstNode, QueryError>
        ensures found { IfOk result (λ first. (nodes : List Located)
            × Selects (with_rule_of path.now.path builtin_functions) (path_tree path.now.path)
            (view document.now) nodes × IsFirstOf nodes first.cell) }
        ensures refused { OnlyMemoryOrPattern (with_rule_of path.now.path builtin_functions)
            (path_tree path.now.path) (view document.now) result }
    {
        let mut first = FirstNode {
            alloc: self.alloc,
            cell: None,
            may_be_inexact: false,
            has_more: false,
        };
        let walk = path.path.walk_under(self.alloc, document, &self.functions)?;
        walk.feed(&mut first)?;
        Ok(first)
    }

    /// The same of a document. Where a pattern is refused, the whole document is asked, so that what is told is true of that.
    fn first_of(&self, path: &AskedPath, document: Document<'_>) -> Result<FirstNode, QueryError>
        ensures { IfOk result (λ first. (d : Data) × (nodes : List Located)
            × IsAsked document.entry.bytes.now (view document.entry.value.now) d
            × Selects (with_rule_of path.now.path builtin_functions) (path_tree path.now.path)
            d nodes × IsFirstOf nodes first.cell) }
    {
        match self.first_node(path, document.value) {
            Err(QueryError::Pattern) => match read_document(self.alloc, document.bytes) {
                Ok(whole) => self.first_node(path, &whole),
                Err(_) => Err(QueryError::Memory),
            },
            answer => answer,
        }
    }

    /// Tells, once for a run, where a path selects several nodes of a document, of which a table has the first.
    fn tell_several<W: Write, E: Write>(
        &self,
        are_several: bool,
        source: Source<'_>,
        path: &AskedPath,
        streams: &mut Streams<W, E>,
    ) -> Result<(), Stop>
        ensures told { streams.new ≡ record streams.old {
          err = streams.new.err;
          told_several = streams.new.told_several;
        } }
        ensures quiet { self.now.silent ≡ true → streams.new.err ≡ streams.old.err }
    {
        if !are_several || streams.told_several || self.silent {
            return Ok(());
        }
        streams.told_several = true;
        let (name, text) = (shown_name(source.name), path.text.as_str());
        let message = format!(in self.alloc;
            "jpq: {name}: {text} selects several nodes, of which a row has the first\n"
        )?;
        streams.tell(message.as_str());
        Ok(())
    }

    /// A path's cell in a document's row; empty where it selects nothing, or is refused.
    fn cell<W: Write, E: Write>(
        &self,
        document: Document<'_>,
        path: &AskedPath,
        streams: &mut Streams<W, E>,
    ) -> Result<String, Stop>
        ensures found { IfOk result (λ cell. ShowsAs cell_look document.entry.bytes.now
            (view document.entry.value.now) path.now.path
            → Finds self.now.silent
            (IsCellOn builtin_functions document.entry.bytes.now path.now.path (string_bytes cell))
            (IsCellInPart builtin_functions document.entry.bytes.now path.now.path
            (string_bytes cell)) streams.old streams.new) }
        ensures unwritten { (streams.new.out ≡ streams.old.out)
            × (streams.new.pending ≡ streams.old.pending) }
    {
        let mut first = match self.first_of(path, document) {
            Ok(first) => first,
            Err(e) => {
                self.refuse_query(document.source, path, e, streams)?;
                return Ok(String::new(self.alloc));
            }
        };
        self.tell_several(first.has_more, document.source, path, streams)?;
        streams.may_be_inexact |= first.may_be_inexact;
        match first.cell.take() {
            Some(cell) => {
                self.keep_count(1, streams)?;
                Ok(cell)
            }
            None => Ok(String::new(self.alloc)),
        }
    }

    /// The cells before those of the paths.
    fn first_cells(&self, source: Source<'_>) -> Result<Vec<String>, Stop>
        ensures { IfOk result (λ cells. map string_bytes cells.items
            ≡ first_cells self.now.heads.file self.now.heads.line source.entry.name.now
            source.entry.line) }
    {
        let mut cells = Vec::new(self.alloc);
        if self.heads.file {
            cells.push(String::from_str(self.alloc, shown_name(source.name))?)?;
        }
        if self.heads.line {
            cells.push(format!(in self.alloc; "{}", source.line)?)?;
        }
        Ok(cells)
    }

    /// Writes a document's row.
    pub(crate) fn answer_row<W: Write, E: Write>(
        &self,
        separator: Separator,
        document: Document<'_>,
        streams: &mut Streams<W, E>,
    ) -> Result<(), Stop>
        ensures answered { IfOk result (λ _. separator_in self.now.shown ≡ Some separator
            → AreShownAs cell_look document.entry.bytes.now (view document.entry.value.now)
            self.now.paths.now
            → AnswersRow W.contents self.now document.entry.source.name.now
            document.entry.source.line document.entry.bytes.now streams.old streams.new) }
        ensures unwritten { streams.new.out ≡ streams.old.out }
    {
        let mut cells = self.first_cells(document.source)?;
        for path in self.paths {
            cells.push(self.cell(document, path, streams)?)?;
        }
        self.push_row(separator, cells.as_slice(), streams)
    }

    /// Appends a row to what is pending.
    fn push_row<W: Write, E: Write>(
        &self,
        separator: Separator,
        cells: &[String],
        streams: &mut Streams<W, E>,
    ) -> Result<(), Stop>
        ensures kept { streams.new ≡ record streams.old { pending = streams.new.pending } }
        ensures row { OnOk result (string_bytes streams.new.pending
            ≡ string_bytes streams.old.pending
            ++ separated separator self.now.showing.output.end (map string_bytes cells.now)) }
    {
        let end = self.showing.output.end;
        push_row(self.alloc, &mut streams.pending, separator, end, cells)?;
        Ok(())
    }

    /// The cells of a table's first row before those of the paths.
    fn first_names(&self) -> Result<Vec<String>, AllocError>
        ensures { IfOk result (λ cells. map string_bytes cells.items
            ≡ (if self.now.heads.file then codes "file" ∷ [] else [])
            ++ (if self.now.heads.line then codes "line" ∷ [] else [])) }
    {
        let mut cells = Vec::new(self.alloc);
        if self.heads.file {
            cells.push(String::from_str(self.alloc, "file")?)?;
        }
        if self.heads.line {
            cells.push(String::from_str(self.alloc, "line")?)?;
        }
        Ok(cells)
    }

    /// The cells of a table's first row: of the paths their texts.
    fn header_cells(&self) -> Result<Vec<String>, AllocError>
        ensures { IfOk result (λ cells. map string_bytes cells.items
            ≡ header_cells self.now.heads.file self.now.heads.line
            (texts_asked self.now.paths.now)) }
    {
        let mut cells = self.first_names()?;
        for path in self.paths {
            cells.push(String::from_str(self.alloc, path.text.as_str())?)?;
        }
        Ok(cells)
    }

    /// Writes the paths as the first row of a table, where that is wanted.
    pub(crate) fn write_header<W: Write, E: Write>(
        &self,
        is_wanted: bool,
        streams: &mut Streams<W, E>,
    ) -> Result<(), Stop>
        ensures sent { string_bytes streams.old.pending ≡ []
            → OnOk result (Sends self.now.silent W.contents
            (IsAside (header_by self.now is_wanted)) (IsAside (header_by self.now is_wanted))
            streams.old streams.new) }
        ensures begun { Begins W.contents (IsAside (header_by self.now is_wanted))
            streams.old streams.new }
    {
        if !is_wanted {
            return Ok(());
        }
        let Some(separator) = separator_of(self.shown) else {
            return Ok(());
        };
        let cells = self.header_cells()?;
        self.push_row(separator, cells.as_slice(), streams)?;
        streams.write()
    }
}
