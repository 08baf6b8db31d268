//! What is written of a document.

ghost use Rattle.std.specs.Prelude.{◌≡◌, ◌+◌, ◌||◌, [], Bool, List, None, IfErr, IfOk, OnOk, false, nat_lt, string_bytes, true};
ghost use Rattle.serde_json_path_functions.specs.Patterns.{builtin_functions};
ghost use Rattle.serde_json.specs.Data.{Data};
ghost use Rattle.serde_json_path_core.specs.Inside.Words.{view, Located, OnlyMemoryOrPattern, Selects};
ghost use Rattle.serde_json_path.specs.Paths.{path_tree, with_rule_of};
ghost use Rattle.jsonpath_lines.specs.Inside.{once};
ghost use Rattle.jpq_program.specs.Answers.{IsAnswerInPart, has_nodes, look_after, lower, with_most};
ghost use Rattle.jpq_program.specs.Inside.{AnswersAll, AnswersBy, AnswersEach, AnswersPath, AreSelected, AreShownAs, Begins, BeginsFirst, Counts, FilledNodes, IsAsked, OnlyNotes, OnlyRefuses, Sends, SendsBy, SendsDocument, ShowsAs, IsAside, TookFirst, all_in_part_by, asked_look, each_in_part_by, has_counts, head_by, is_done, look_of, shown_in_part_by, total_by, wanted_in_part_by};
ghost use Rattle.jpq_program.specs.Looks.{is_array};

use crate::answers::push_answer;
use crate::asked_path::AskedPath;
use crate::inexact::inexact_number;
use crate::meant::has_children;
use crate::showing::{Showing, end_of};
use crate::source::{Heads, Source, shown_name};
use crate::streams::{Next, Stop, Streams};
use crate::tables::separator_of;
use crate::written::Written;
use jpq_options::options::Shown;
use jsonpath_document::read_document;
use jsonpath_lines::{Form, Output, distinct_nodes};
use serde_json::Value;
use serde_json_path::functions::CachedPatterns;
use serde_json_path::{LocatedNode, QueryError};
use std::alloc::Global;
use std::io::Write;
use std::mem::replace;

/// A document, or what of it the paths can reach, and where it comes from.
#[derive(Clone, Copy, Drop)]
pub(crate) struct Document<'d> {
    pub(crate) source: Source<'d>,
    pub(crate) bytes: &'d [u8],
    pub(crate) value: &'d Value,
}

/// What is asked of each document, and how it is shown.
#[derive(Drop)]
pub(crate) struct Answering<'a> {
    pub(crate) alloc: Global,
    pub(crate) paths: &'a [AskedPath],
    pub(crate) functions: CachedPatterns<'a>,
    pub(crate) shown: Shown,
    pub(crate) showing: Showing<'a>,
    pub(crate) heads: Heads,
    /// Whether notes are left out.
    pub(crate) silent: bool,
}

/// The lower of two limits.
fn lower(one: Option<u64>, other: Option<u64>) -> Option<u64>
    ensures { result ≡ lower one other }
{
    match (one, other) {
        (Some(one), Some(other)) => Some(one.min(other)),
        (None, limit) | (limit, None) => limit,
    }
}

impl Answering<'_> {
    /// Writes the nodes of a path, as they are found. Where the query is refused, those before are written.
    fn write_nodes<W: Write, E: Write>(
        &self,
        path: &AskedPath,
        document: &Value,
        written: &mut Written<'_, '_, '_, '_, W, E>,
    ) -> Result<(), QueryError>
        requires none { written.old.count ≡ 0 }
        requires goes_on { written.old.stop ≡ None }
        ensures filled { IfOk result (λ _. (nodes : List Located)
            × Selects (with_rule_of path.now.path builtin_functions) (path_tree path.now.path)
            (view document.now) nodes
            × FilledNodes W.contents written.old (once self.now.showing.output.unique nodes)
            written.new) }
        ensures before { IfErr result (λ e. e ≡ QueryError.Pattern → (shown : List Located)
            × AreSelected builtin_functions path.now.path self.now.showing.output.unique
            (view document.now) shown × TookFirst W.contents written.old shown written.new) }
        ensures begun { (shown : List Located)
            × AreSelected builtin_functions path.now.path self.now.showing.output.unique
            (view document.now) shown × BeginsFirst W.contents written.old shown written.new }
        ensures refused { OnlyMemoryOrPattern (with_rule_of path.now.path builtin_functions)
            (path_tree path.now.path) (view document.now) result }
    {
        let mut walk = path.path.walk_under(self.alloc, document, &self.functions)?;
        if written.is_reached() {
            return Ok(());
        }
        if self.showing.output.unique {
            let nodes = distinct_nodes(self.alloc, written.limit, walk)?;
            return written.take_each(&nodes);
        }
        written.take_rest(self.alloc, &mut walk)
    }

    /// The same of a document. Where a pattern is refused before a node is written, the whole document is asked, so that what is
    /// told is true of that.
    fn write_path<W: Write, E: Write>(
        &self,
        path: &AskedPath,
        document: Document<'_>,
        written: &mut Written<'_, '_, '_, '_, W, E>,
    ) -> Result<(), QueryError>
        requires none { written.old.count ≡ 0 }
        requires goes_on { written.old.stop ≡ None }
        ensures filled { IfOk result (λ _. (d : Data) × (nodes : List Located)
            × IsAsked document.entry.bytes.now (view document.entry.value.now) d
            × Selects (with_rule_of path.now.path builtin_functions) (path_tree path.now.path)
            d nodes
            × FilledNodes W.contents written.old (once self.now.showing.output.unique nodes)
            written.new) }
        ensures before { IfErr result (λ e. e ≡ QueryError.Pattern
            → (d : Data) × (shown : List Located)
            × IsAsked document.entry.bytes.now (view document.entry.value.now) d
            × AreSelected builtin_functions path.now.path self.now.showing.output.unique d shown
            × TookFirst W.contents written.old shown written.new) }
        ensures begun { (d : Data) × (shown : List Located)
            × IsAsked document.entry.bytes.now (view document.entry.value.now) d
            × AreSelected builtin_functions path.now.path self.now.showing.output.unique d shown
            × BeginsFirst W.contents written.old shown written.new }
    {
        match self.write_nodes(path, document.value, written) {
            Err(QueryError::Pattern) if written.count == 0 && written.stop.is_none() => {
                match read_document(self.alloc, document.bytes) {
                    Ok(whole) => self.write_nodes(path, &whole, written),
                    Err(_) => Err(QueryError::Memory),
                }
            }
            answered => answered,
        }
    }

    /// Whether as many nodes were shown as are wanted of all documents.
    pub(crate) fn is_done<W: Write, E: Write>(&self, streams: &Streams<W, E>) -> bool
        ensures { result ≡ is_done self.now streams.now }
    {
        match self.showing.most_of_all {
            Some(most) => most <= streams.total,
            None => false,
        }
    }

    /// How many nodes a path may show: as many as are wanted of a document, and are left of all.
    fn limit<W: Write, E: Write>(&self, streams: &Streams<W, E>) -> Option<u64>
        ensures { with_most (look_of self.now.showing) result
            ≡ look_after (look_of self.now.showing) streams.now.total }
    {
        let left = match self.showing.most_of_all {
            Some(most) => Some(most.saturating_sub(streams.total)),
            None => None,
        };
        lower(self.showing.output.most, left)
    }

    /// Keeps that so many nodes were shown or counted.
    pub(crate) fn keep_count<W: Write, E: Write>(
        &self,
        count: u64,
        streams: &mut Streams<W, E>,
    ) -> Result<(), Stop>
        ensures kept { OnOk result (streams.new ≡ record streams.old {
          outcome = record streams.old.outcome {
            selected = streams.old.outcome.selected || nat_lt 0 count;
          };
          total = streams.old.total + count;
        }) }
        ensures unchanged { IfErr result (λ _. streams.new ≡ streams.old) }
    {
        // A run that shows one node in each nanosecond would take 584 years to come to the error.
        let total = streams.total.checked_add(count).ok_or(Stop::Memory)?;
        streams.outcome.selected = streams.outcome.selected || count > 0;
        streams.total = total;
        Ok(())
    }

    /// Tells that a query is refused.
    pub(crate) fn refuse_query<W: Write, E: Write>(
        &self,
        source: Source<'_>,
        path: &AskedPath,
        e: QueryError,
        streams: &mut Streams<W, E>,
    ) -> Result<(), Stop>
        ensures kept { OnlyRefuses streams.old streams.new }
        ensures refused { OnOk result (streams.new.outcome.refused ≡ true) }
    {
        let name = shown_name(source.name);
        let message = match &path.name {
            Some(path) => format!(in self.alloc;
                "jpq: {name}: {path}: the query is refused: {e}\n"
            )?,
            None => format!(in self.alloc; "jpq: {name}: the query is refused: {e}\n")?,
        };
        streams.tell_refusal(message.as_str());
        Ok(())
    }

    /// Writes what a path selects from a document, which may be later than nodes of earlier paths in the same array. Where memory is
    /// refused for the query the run ends.
    fn answer_path<W: Write, E: Write>(
        &self,
        document: Document<'_>,
        path: &AskedPath,
        head: &str,
        is_later: bool,
        streams: &mut Streams<W, E>,
    ) -> Result<(), Stop>
        ensures answered { IfOk result (λ _. ShowsAs (look_of self.now.showing)
            document.entry.bytes.now (view document.entry.value.now) path.now.path
            → has_nodes self.now.showing.output.form ≡ true
            → AnswersPath self.now.silent W.contents path.now.path
            (look_after (look_of self.now.showing) streams.old.total) is_later head.now
            document.entry.bytes.now streams.old streams.new) }
        ensures begun { ShowsAs (look_of self.now.showing)
            document.entry.bytes.now (view document.entry.value.now) path.now.path
            → has_nodes self.now.showing.output.form ≡ true
            → Begins W.contents (IsAnswerInPart builtin_functions path.now.path
            (look_after (look_of self.now.showing) streams.old.total) is_later head.now
            document.entry.bytes.now) streams.old streams.new }
    {
        let limit = self.limit(streams);
        let mut written = Written {
            showing: &self.showing,
            streams: &mut *streams,
            head,
            is_later,
            limit,
            count: 0,
            stop: None,
        };
        let answered = self.write_path(path, document, &mut written);
        let (count, stop) = (written.count, written.stop);
        self.keep_count(count, streams)?;
        if let Some(stop) = stop {
            return Err(stop);
        }
        if let Err(e) = answered {
            self.refuse_query(document.source, path, e, streams)?;
            if e == QueryError::Memory {
                // A part of a line may be pending, which no other may follow.
                return Err(Stop::Refused);
            }
        }
        Ok(())
    }

    /// Writes what each path selects from a document.
    fn answer_each<W: Write, E: Write>(
        &self,
        document: Document<'_>,
        streams: &mut Streams<W, E>,
    ) -> Result<(), Stop>
        ensures answered { IfOk result (λ _. AreShownAs (look_of self.now.showing)
            document.entry.bytes.now (view document.entry.value.now) self.now.paths.now
            → has_nodes self.now.showing.output.form ≡ true
            → AnswersEach W.contents self.now document.entry.source.name.now
            document.entry.source.line document.entry.bytes.now streams.old streams.new) }
        ensures begun { AreShownAs (look_of self.now.showing)
            document.entry.bytes.now (view document.entry.value.now) self.now.paths.now
            → has_nodes self.now.showing.output.form ≡ true
            → Begins W.contents (each_in_part_by self.now document.entry.source.name.now
            document.entry.source.line document.entry.bytes.now streams.old.total)
            streams.old streams.new }
    {
        let before = streams.total;
        for (index, path) in self.paths.iter().enumerate() {
            let head = self.head(document.source, index.saturating_add(1))?;
            let is_later = before < streams.total;
            self.answer_path(document, path, head.as_str(), is_later, streams)?;
        }
        Ok(())
    }

    /// Writes an array of what each path selects from a document.
    fn answer_array<W: Write, E: Write>(
        &self,
        document: Document<'_>,
        streams: &mut Streams<W, E>,
    ) -> Result<(), Stop>
        ensures answered { IfOk result (λ _. AreShownAs (look_of self.now.showing)
            document.entry.bytes.now (view document.entry.value.now) self.now.paths.now
            → has_nodes self.now.showing.output.form ≡ true
            → is_array self.now.showing.output.form ≡ true
            → AnswersAll W.contents self.now document.entry.source.name.now
            document.entry.source.line document.entry.bytes.now streams.old streams.new) }
        ensures begun { AreShownAs (look_of self.now.showing)
            document.entry.bytes.now (view document.entry.value.now) self.now.paths.now
            → has_nodes self.now.showing.output.form ≡ true
            → is_array self.now.showing.output.form ≡ true
            → Begins W.contents (all_in_part_by self.now document.entry.source.name.now
            document.entry.source.line document.entry.bytes.now streams.old.total)
            streams.old streams.new }
    {
        let before = streams.total;
        streams.pending.push_str("[")?;
        self.answer_each(document, streams)?;
        let holds = before < streams.total;
        self.showing.push_array_end(&mut streams.pending, holds)?;
        Ok(())
    }

    /// What the lines of a path, or the members of its objects, begin with.
    fn head(&self, source: Source<'_>, number: usize) -> Result<String, Stop>
        ensures { IfOk result (λ head. string_bytes head
            ≡ head_by self.now.showing.output self.now.heads source.entry.name.now
            source.entry.line number) }
    {
        let Output { form, layout, .. } = self.showing.output;
        if form == Form::Json {
            return Ok(self.heads.members(self.alloc, layout, source, number)?);
        }
        Ok(self.heads.line(self.alloc, source, number)?)
    }

    /// How many nodes a path selects from a document; appends what is shown of that.
    pub(crate) fn count(
        &self,
        path: &AskedPath,
        head: &str,
        limit: Option<u64>,
        document: &Value,
        text: &mut String,
    ) -> Result<u64, QueryError>
        ensures counted { IfOk result (λ count. Counts builtin_functions path.now.path
            (record self.now.showing.output { most = limit }) head.now (view document.now)
            (string_bytes text.old) (string_bytes text.new) count) }
        ensures unchanged { IfErr result (λ e. string_bytes text.new ≡ string_bytes text.old) }
        ensures refused { OnlyMemoryOrPattern (with_rule_of path.now.path builtin_functions)
            (path_tree path.now.path) (view document.now) result }
    {
        let output = Output {
            most: limit,
            ..self.showing.output
        };
        let (path, functions) = (&path.path, &self.functions);
        push_answer(self.alloc, &output, head, path, functions, document, text)
    }

    /// The same of a document. Where a pattern is refused, the whole document is asked, so that what is told is true of that.
    fn count_path(
        &self,
        path: &AskedPath,
        head: &str,
        limit: Option<u64>,
        document: Document<'_>,
        text: &mut String,
    ) -> Result<u64, QueryError>
        ensures { IfOk result (λ count. (d : Data)
            × IsAsked document.entry.bytes.now (view document.entry.value.now) d
            × Counts builtin_functions path.now.path
            (record self.now.showing.output { most = limit }) head.now
            d (string_bytes text.old) (string_bytes text.new) count) }
    {
        match self.count(path, head, limit, document.value, text) {
            Err(QueryError::Pattern) => match read_document(self.alloc, document.bytes) {
                Ok(whole) => self.count(path, head, limit, &whole, text),
                Err(_) => Err(QueryError::Memory),
            },
            answer => answer,
        }
    }

    /// Writes how many nodes a path selects from a document, unless the sum is wanted alone, or nothing.
    fn answer_count<W: Write, E: Write>(
        &self,
        document: Document<'_>,
        path: &AskedPath,
        head: &str,
        streams: &mut Streams<W, E>,
    ) -> Result<(), Stop>
        ensures answered { IfOk result (λ _. ShowsAs (look_of self.now.showing)
            document.entry.bytes.now (view document.entry.value.now) path.now.path
            → has_counts self.now.showing.output.form ≡ true → (later : Bool)
            → AnswersPath self.now.silent W.contents path.now.path
            (look_after (look_of self.now.showing) streams.old.total) later head.now
            document.entry.bytes.now streams.old streams.new) }
        ensures unwritten { streams.new.out ≡ streams.old.out }
    {
        let limit = self.limit(streams);
        let mut text = String::new(self.alloc);
        match self.count_path(path, head, limit, document, &mut text) {
            Ok(count) => {
                self.keep_count(count, streams)?;
                if !self.showing.summed {
                    streams.pending.push_str(text.as_str())?;
                }
                Ok(())
            }
            Err(e) => self.refuse_query(document.source, path, e, streams),
        }
    }

    /// Writes how many nodes each path selects from a document.
    fn answer_counts<W: Write, E: Write>(
        &self,
        document: Document<'_>,
        streams: &mut Streams<W, E>,
    ) -> Result<(), Stop>
        ensures answered { IfOk result (λ _. AreShownAs (look_of self.now.showing)
            document.entry.bytes.now (view document.entry.value.now) self.now.paths.now
            → has_counts self.now.showing.output.form ≡ true
            → AnswersEach W.contents self.now document.entry.source.name.now
            document.entry.source.line document.entry.bytes.now streams.old streams.new) }
        ensures unwritten { streams.new.out ≡ streams.old.out }
    {
        for (index, path) in self.paths.iter().enumerate() {
            let head = self.head(document.source, index.saturating_add(1))?;
            self.answer_count(document, path, head.as_str(), streams)?;
        }
        Ok(())
    }

    /// Whether values are shown of nodes.
    fn shows_values(&self) -> bool {
        use Form::{Count, Location, Nothing, Pointer};
        !matches!(
            self.shown,
            Shown::Nodes(Count | Location | Nothing | Pointer)
        )
    }

    /// Tells, once for a run, of a number in a document that has more digits than are kept.
    fn tell_inexact<W: Write, E: Write>(
        &self,
        document: Document<'_>,
        streams: &mut Streams<W, E>,
    ) -> Result<(), Stop>
        ensures { OnlyNotes streams.old streams.new }
    {
        if streams.told_inexact {
            return Ok(());
        }
        if let Some(number) = inexact_number(document.bytes) {
            streams.told_inexact = true;
            let name = shown_name(document.source.name);
            streams.tell(format!(in self.alloc;
                "jpq: {name}: {number} is held as the double next to it\n"
            )?.as_str());
        }
        Ok(())
    }

    /// Answers a document: writes what is shown of it, and tells what is refused. Says whether more documents are wanted.
    pub(crate) fn answer<W: Write, E: Write>(
        &self,
        document: Document<'_>,
        streams: &mut Streams<W, E>,
    ) -> Result<Next, Stop>
        ensures answered { IfOk result (λ next. AreShownAs (asked_look self.now)
            document.entry.bytes.now (view document.entry.value.now) self.now.paths.now
            → is_done self.now streams.old ≡ false
            → SendsDocument W.contents self.now next document.entry.source.name.now
            document.entry.source.line document.entry.bytes.now streams.old streams.new) }
        ensures begun { AreShownAs (asked_look self.now)
            document.entry.bytes.now (view document.entry.value.now) self.now.paths.now
            → is_done self.now streams.old ≡ false
            → Begins W.contents (wanted_in_part_by self.now document.entry.source.name.now
            document.entry.source.line document.entry.bytes.now streams.old.total)
            streams.old streams.new }
    {
        self.write_answer(document, streams)?;
        self.tell_notes(document, streams)?;
        if self.showing.output.form == Form::Nothing && streams.outcome.selected {
            return Ok(Next::Found);
        }
        if self.is_done(streams) {
            return Ok(Next::Enough);
        }
        Ok(Next::More)
    }

    /// Writes what is shown of a document.
    fn write_answer<W: Write, E: Write>(
        &self,
        document: Document<'_>,
        streams: &mut Streams<W, E>,
    ) -> Result<(), Stop>
        ensures answered { IfOk result (λ _. AreShownAs (asked_look self.now)
            document.entry.bytes.now (view document.entry.value.now) self.now.paths.now
            → SendsBy W.contents self.now document.entry.source.name.now
            document.entry.source.line document.entry.bytes.now streams.old streams.new) }
        ensures begun { AreShownAs (asked_look self.now)
            document.entry.bytes.now (view document.entry.value.now) self.now.paths.now
            → Begins W.contents (shown_in_part_by self.now document.entry.source.name.now
            document.entry.source.line document.entry.bytes.now streams.old.total)
            streams.old streams.new }
    {
        self.make_answer(document, streams)?;
        if streams.pending.is_empty() {
            return Ok(());
        }
        streams.write()
    }

    /// Makes what is shown of a document. Of many nodes some is written.
    fn make_answer<W: Write, E: Write>(
        &self,
        document: Document<'_>,
        streams: &mut Streams<W, E>,
    ) -> Result<(), Stop>
        ensures answered { IfOk result (λ _. AreShownAs (asked_look self.now)
            document.entry.bytes.now (view document.entry.value.now) self.now.paths.now
            → AnswersBy W.contents self.now document.entry.source.name.now
            document.entry.source.line document.entry.bytes.now streams.old streams.new) }
        ensures begun { AreShownAs (asked_look self.now)
            document.entry.bytes.now (view document.entry.value.now) self.now.paths.now
            → Begins W.contents (shown_in_part_by self.now document.entry.source.name.now
            document.entry.source.line document.entry.bytes.now streams.old.total)
            streams.old streams.new }
    {
        match (separator_of(self.shown), self.showing.output.form) {
            (Some(separator), _) => self.answer_row(separator, document, streams),
            (None, Form::Count | Form::Nothing) => self.answer_counts(document, streams),
            (None, Form::Json) => self.answer_array(document, streams),
            (None, _) => self.answer_each(document, streams),
        }
    }

    /// Tells, or keeps, what is to be noted of a document that was answered.
    fn tell_notes<W: Write, E: Write>(
        &self,
        document: Document<'_>,
        streams: &mut Streams<W, E>,
    ) -> Result<(), Stop>
        ensures kept { OnlyNotes streams.old streams.new }
        ensures quiet { self.now.silent ≡ true → streams.new.err ≡ streams.old.err }
    {
        let may_be_inexact = replace(&mut streams.may_be_inexact, false);
        if self.silent {
            return Ok(());
        }
        if may_be_inexact && self.shows_values() {
            self.tell_inexact(document, streams)?;
        }
        if streams.total == 0 && has_children(document.bytes) {
            self.note_reason(document.bytes, streams)?;
        }
        Ok(())
    }

    /// Writes the sum of all counts, where it is asked for.
    pub(crate) fn write_total<W: Write, E: Write>(
        &self,
        streams: &mut Streams<W, E>,
    ) -> Result<(), Stop>
        ensures sent { string_bytes streams.old.pending ≡ []
            → OnOk result (Sends self.now.silent W.contents
            (IsAside (total_by self.now streams.old.total))
            (IsAside (total_by self.now streams.old.total)) streams.old streams.new) }
        ensures begun { Begins W.contents (IsAside (total_by self.now streams.old.total))
            streams.old streams.new }
    {
        if !self.showing.summed {
            return Ok(());
        }
        let (total, end) = (streams.total, end_of(self.showing.output.end));
        write!(streams.pending, "{total}{end}")?;
        streams.write()
    }
}
