//! The documents of the inputs, and what is told of those that are none.

ghost use Rattle.std.specs.Char.{is_ascii_whitespace};
ghost use Rattle.std.specs.Io.BufRead.{strip_last};
ghost use Rattle.std.specs.Prelude.{◌≡◌, ◌∷◌, ℕ, [], Bool, List, IfOk, IfSome, false, map, string_bytes, true};
ghost use Rattle.serde_json.specs.View.{view};
ghost use Rattle.serde_json_path_syntax.specs.Tree.{Query};
ghost use Rattle.serde_json_path_reach.specs.Readers.{Keeps};
ghost use Rattle.jpq_program.specs.Inputs.{AreInputsShown, AreKnown, IsInputShown, IsLineShown, Opens, OpensFirst, is_blank, without_mark};
ghost use Rattle.jpq_program.specs.Inside.{Begins, IsReadIn, OnlyNotes, OnlyRefuses, OpensBy, ReadsForPaths, SendsDocument, SendsInput, SendsInputs, SendsLine, is_done, is_whole, wanted_in_part_by};

use crate::answering::{Answering, Document};
use crate::encodings::{encoding_of, without_mark};
use crate::inputs::Inputs;
use crate::refusal::push_document_refusal;
use crate::source::{Source, shown_name};
use crate::streams::{Next, Stop, Streams};
use jsonpath_document::{DocumentError, DocumentFault, read_document};
use serde_json::Value;
use serde_json_path::DocumentReader;
use std::alloc::Global;
use std::io;
use std::io::{BufRead, BufReader, Read, Write};
use std::mem::forget;

/// How documents are read.
#[derive(Drop)]
pub(crate) struct Documents<'a> {
    pub(crate) alloc: Global,
    /// What is asked of each.
    pub(crate) answering: Answering<'a>,
    /// Reads of a document what the paths can reach. There is none for many paths, or if memory for it was refused.
    pub(crate) reader: Option<DocumentReader<'a>>,
    /// Whether each line of an input is a document.
    pub(crate) lines: bool,
    /// Whether there is one document alone. The run ends after it, so it is not freed piece by piece.
    pub(crate) is_only: bool,
    /// Whether a document that is refused ends the run.
    pub(crate) strict: bool,
}

/// How many lines of an input that are no documents are told, each by itself.
const TOLD_LINES: usize = 10;

/// Whether a line has blanks alone.
fn is_blank(line: &[u8]) -> bool
    ensures { result ≡ is_blank line.now }
{
    for byte in line {
        if !byte.is_ascii_whitespace() {
            return false;
        }
    }
    true
}

/// The document of a line: without a byte order mark, and without the line feed.
fn document_of(line: &[u8]) -> &[u8]
    ensures { result.now ≡ without_mark (strip_last 10 line.now) }
{
    match line.split_last() {
        Some((b'\n', document)) => without_mark(document),
        _ => without_mark(line),
    }
}

/// What is told of an input whose first line is only the beginning of a document.
const ONLY_BEGUN: &str =
    "line 1 is only the beginning of a document (is it one document? leave out -L)";

/// Whether bytes are the beginning of a document, and end there.
fn is_only_begun(alloc: Global, bytes: &[u8]) -> bool {
    match read_document(alloc, bytes) {
        Ok(_) => false,
        Err(e) => e.fault == DocumentFault::CutShort,
    }
}

/// Whether an input has no lines that are documents, as its first one shows: it is compressed or UTF-16, or only the beginning of
/// a document. Only a line that ends by what no document ends by is read for that.
fn is_no_line(alloc: Global, line: &[u8]) -> bool {
    encoding_of(line).is_some()
        || (matches!(line.trim_ascii().last(), Some(b'[' | b'{' | b','))
            && is_only_begun(alloc, without_mark(line)))
}

impl Documents<'_> {
    /// The document of some bytes, or what of it the paths can reach.
    fn document(&self, bytes: &[u8]) -> Result<Value, DocumentError>
        ensures { (places : Bool) (queries : List Query)
            → IfSome self.now.reader (λ reader. Keeps reader places queries)
            → IfOk result (λ value. IsReadIn places bytes.now queries (view value)) }
    {
        if let Some(reader) = &self.reader {
            if let Ok(document) = reader.read(self.alloc, bytes) {
                return Ok(document);
            }
        }
        read_document(self.alloc, bytes)
    }

    /// Frees a document, unless it is the only one.
    fn release(&self, document: Value) {
        if self.is_only {
            forget(document);
        }
    }

    /// Answers the document of some bytes, or tells why they are none.
    fn answer_bytes<W: Write, E: Write>(
        &self,
        source: Source<'_>,
        bytes: &[u8],
        streams: &mut Streams<W, E>,
    ) -> Result<Next, Stop>
        ensures answered { IfOk result (λ next. ReadsForPaths self.now
            → is_done self.now.answering streams.old ≡ false
            → string_bytes streams.old.pending ≡ []
            → SendsDocument W.contents self.now.answering next source.entry.name.now
            source.entry.line bytes.now streams.old streams.new) }
        ensures begun { ReadsForPaths self.now
            → is_done self.now.answering streams.old ≡ false
            → Begins W.contents (wanted_in_part_by self.now.answering source.entry.name.now
            source.entry.line bytes.now streams.old.total) streams.old streams.new }
    {
        let e = match self.document(bytes) {
            Ok(document) => {
                let answered = self.answering.answer(
                    Document {
                        source,
                        bytes,
                        value: &document,
                    },
                    streams,
                );
                self.release(document);
                return answered;
            }
            Err(e) => e,
        };
        self.refuse_document(source, bytes, e, streams)
    }

    /// Tells why bytes are no document. Of an input's lines the first ten are told, and the rest are counted.
    fn refuse_document<W: Write, E: Write>(
        &self,
        source: Source<'_>,
        bytes: &[u8],
        e: DocumentError,
        streams: &mut Streams<W, E>,
    ) -> Result<Next, Stop>
        ensures kept { OnlyRefuses streams.old streams.new }
        ensures refused { IfOk result (λ next.
            (next ≡ Next.More) × (streams.new.outcome.refused ≡ true)) }
    {
        streams.outcome.refused = true;
        streams.refused_documents = streams.refused_documents.saturating_add(1);
        if streams.refused_documents <= TOLD_LINES {
            let name = shown_name(source.name);
            let mut message = String::new(self.alloc);
            match encoding_of(bytes) {
                Some(encoding) => write!(message, "jpq: {name}: {encoding}\n")?,
                None => {
                    let lines_before = source.line.saturating_sub(1);
                    let columns = streams.columns;
                    push_document_refusal(&mut message, name, lines_before, bytes, &e, columns)?;
                }
            }
            streams.tell(message.as_str());
        }
        if self.strict {
            Err(Stop::Refused)
        } else {
            Ok(Next::More)
        }
    }

    /// Tells how many lines of an input were refused after those that were told.
    fn tell_more_lines<W: Write, E: Write>(
        &self,
        name: &str,
        streams: &mut Streams<W, E>,
    ) -> Result<(), Stop>
        ensures kept { OnlyNotes streams.old streams.new }
        ensures quiet { streams.old.outcome.refused ≡ false → streams.new ≡ streams.old }
    {
        if !streams.outcome.refused {
            return Ok(());
        }
        let more = streams.refused_documents.saturating_sub(TOLD_LINES);
        if more > 0 {
            let name = shown_name(name);
            let message = format!(in self.alloc; "jpq: {name}: {more} more lines are refused\n")?;
            streams.tell(message.as_str());
        }
        Ok(())
    }

    /// Tells that an input can't be opened or read.
    fn refuse_input<W: Write, E: Write>(
        &self,
        name: &str,
        e: &io::Error,
        streams: &mut Streams<W, E>,
    ) -> Result<Next, Stop>
        ensures kept { OnlyRefuses streams.old streams.new }
        ensures refused { IfOk result (λ next.
            (next ≡ Next.More) × (streams.new.outcome.refused ≡ true)) }
    {
        let name = shown_name(name);
        streams.tell_refusal(format!(in self.alloc;
            "jpq: {name}: cannot be read: {e}\n"
        )?.as_str());
        Ok(Next::More)
    }

    /// Tells why an input has no lines that are documents, as its first one shows: it is compressed or UTF-16, or it is one document
    /// in many lines.
    fn refuse_lines<W: Write, E: Write>(
        &self,
        name: &str,
        line: &[u8],
        streams: &mut Streams<W, E>,
    ) -> Result<Next, Stop>
        ensures kept { OnlyRefuses streams.old streams.new }
        ensures refused { IfOk result (λ next.
            (next ≡ Next.More) × (streams.new.outcome.refused ≡ true)) }
    {
        let name = shown_name(name);
        let fault = encoding_of(line).unwrap_or(ONLY_BEGUN);
        streams.tell_refusal(format!(in self.alloc; "jpq: {name}: {fault}\n")?.as_str());
        if self.strict {
            return Err(Stop::Refused);
        }
        Ok(Next::More)
    }

    /// Answers an input that is one document.
    fn answer_whole<I: Read + Drop, W: Write, E: Write>(
        &self,
        name: &str,
        mut input: I,
        streams: &mut Streams<W, E>,
    ) -> Result<Next, Stop>
        ensures answered { IfOk result (λ next. ReadsForPaths self.now
            → is_done self.now.answering streams.old ≡ false
            → string_bytes streams.old.pending ≡ [] → IfSome (I.remaining input) (λ bytes.
            SendsInput W.contents self.now.answering next false name.now bytes
            streams.old streams.new)) }
        ensures begun { ReadsForPaths self.now
            → is_done self.now.answering streams.old ≡ false
            → IfSome (I.remaining input) (λ bytes. Begins W.contents (IsInputShown
            (wanted_in_part_by self.now.answering) false name.now bytes streams.old.total)
            streams.old streams.new) }
    {
        let mut bytes = Vec::new(self.alloc);
        match input.read_to_end(&mut bytes) {
            Ok(_) => self.answer_bytes(Source { name, line: 1 }, without_mark(&bytes), streams),
            Err(e) => self.refuse_input(name, &e, streams),
        }
    }

    /// Answers a line of an input, or passes over it if it is blank.
    fn answer_line<W: Write, E: Write>(
        &self,
        source: Source<'_>,
        line: &[u8],
        streams: &mut Streams<W, E>,
    ) -> Result<Next, Stop>
        ensures answered { IfOk result (λ next. ReadsForPaths self.now
            → is_done self.now.answering streams.old ≡ false
            → string_bytes streams.old.pending ≡ []
            → SendsLine W.contents self.now.answering next source.entry.name.now
            source.entry.line line.now streams.old streams.new) }
        ensures begun { ReadsForPaths self.now
            → is_done self.now.answering streams.old ≡ false
            → Begins W.contents (IsLineShown (wanted_in_part_by self.now.answering)
            source.entry.name.now source.entry.line line.now streams.old.total)
            streams.old streams.new }
    {
        if is_blank(line) {
            return Ok(Next::More);
        }
        self.answer_bytes(source, document_of(line), streams)
    }

    /// Answers an input of which each line is a document. One line is held at a time.
    fn answer_lines<I: Read + Drop, W: Write, E: Write>(
        &self,
        name: &str,
        input: I,
        streams: &mut Streams<W, E>,
    ) -> Result<Next, Stop>
        ensures answered { IfOk result (λ next. ReadsForPaths self.now
            → is_done self.now.answering streams.old ≡ false
            → string_bytes streams.old.pending ≡ [] → IfSome (I.remaining input) (λ bytes.
            SendsInput W.contents self.now.answering next true name.now bytes
            streams.old streams.new)) }
        ensures begun { ReadsForPaths self.now
            → is_done self.now.answering streams.old ≡ false
            → string_bytes streams.old.pending ≡ [] → IfSome (I.remaining input) (λ bytes.
            Begins W.contents (IsInputShown (wanted_in_part_by self.now.answering) true name.now
            bytes streams.old.total) streams.old streams.new) }
    {
        let Ok(mut reader) = BufReader::new(self.alloc, input) else {
            return Err(Stop::Memory);
        };
        let mut line = Vec::new(self.alloc);
        for number in 1..usize::MAX {
            line.clear();
            match reader.read_until(b'\n', &mut line) {
                Ok(0) => {
                    self.tell_more_lines(name, streams)?;
                    return Ok(Next::More);
                }
                Ok(_) if number == 1 && is_no_line(self.alloc, &line) => {
                    return self.refuse_lines(name, &line, streams);
                }
                Ok(_) => {
                    let source = Source { name, line: number };
                    match self.answer_line(source, &line, streams)? {
                        Next::More => {}
                        ended => return Ok(ended),
                    }
                }
                Err(e) => return self.refuse_input(name, &e, streams),
            }
        }
        // No input has so many lines.
        self.refuse_input(name, &io::Error::from(io::ErrorKind::TimedOut), streams)
    }

    /// Answers an input.
    fn answer_input<I: Inputs, W: Write, E: Write>(
        &self,
        name: &str,
        inputs: &mut I,
        streams: &mut Streams<W, E>,
    ) -> Result<Next, Stop>
        ensures same { (name : List ℕ) → I.bytes_of inputs.new name ≡ I.bytes_of inputs.old name }
        ensures opens { Opens (I.opened inputs.old) (I.opened inputs.new) (name.now ∷ []) }
        ensures answered { IfOk result (λ next. ReadsForPaths self.now
            → is_done self.now.answering streams.old ≡ false
            → string_bytes streams.old.pending ≡ []
            → IfSome (I.bytes_of inputs.old name.now) (λ bytes.
            SendsInput W.contents self.now.answering next self.now.lines name.now bytes
            streams.old streams.new)) }
        ensures begun { ReadsForPaths self.now
            → is_done self.now.answering streams.old ≡ false
            → string_bytes streams.old.pending ≡ []
            → IfSome (I.bytes_of inputs.old name.now) (λ bytes. Begins W.contents (IsInputShown
            (wanted_in_part_by self.now.answering) self.now.lines name.now bytes
            streams.old.total) streams.old streams.new) }
    {
        streams.refused_documents = 0;
        let input = match inputs.open(name) {
            Ok(input) => input,
            Err(e) => return self.refuse_input(name, &e, streams),
        };
        if self.lines {
            self.answer_lines(name, input, streams)
        } else {
            self.answer_whole(name, input, streams)
        }
    }

    /// Answers all inputs, in order.
    pub(crate) fn answer_all<I: Inputs, W: Write, E: Write>(
        &self,
        names: &[&str],
        inputs: &mut I,
        streams: &mut Streams<W, E>,
    ) -> Result<Next, Stop>
        ensures opens { OpensFirst (I.opened inputs.old) (I.opened inputs.new)
            (map (λ name. name.now) names.now) }
        ensures all { IfOk result (λ next. next ≡ Next.More
            → Opens (I.opened inputs.old) (I.opened inputs.new)
            (map (λ name. name.now) names.now)) }
        ensures wanted { IfOk result (λ next. is_whole next ≡ true
            → streams.new.outcome.refused ≡ false → ReadsForPaths self.now
            → string_bytes streams.old.pending ≡ []
            → AreKnown (I.bytes_of inputs.old) (map (λ name. name.now) names.now)
            → OpensBy self.now (I.bytes_of inputs.old) streams.old.total
            (map (λ name. name.now) names.now) (I.opened inputs.old) (I.opened inputs.new)) }
        ensures answered { IfOk result (λ next. ReadsForPaths self.now
            → string_bytes streams.old.pending ≡ []
            → AreKnown (I.bytes_of inputs.old) (map (λ name. name.now) names.now)
            → SendsInputs W.contents self.now.answering next self.now.lines
            (I.bytes_of inputs.old) (map (λ name. name.now) names.now) streams.old streams.new) }
        ensures begun { ReadsForPaths self.now
            → string_bytes streams.old.pending ≡ []
            → AreKnown (I.bytes_of inputs.old) (map (λ name. name.now) names.now)
            → Begins W.contents (AreInputsShown (wanted_in_part_by self.now.answering)
            self.now.lines (I.bytes_of inputs.old) (map (λ name. name.now) names.now)
            streams.old.total) streams.old streams.new }
    {
        if self.answering.is_done(streams) {
            return Ok(Next::Enough);
        }
        for name in names {
            match self.answer_input(*name, inputs, streams)? {
                Next::More => {}
                ended => return Ok(ended),
            }
        }
        Ok(Next::More)
    }
}
