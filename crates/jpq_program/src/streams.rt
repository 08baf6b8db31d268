//! What is written, what is reported on standard error, and what comes of a run.

ghost use Rattle.std.specs.Prelude.{◌≡◌, [], IfErr, OnOk, false, string_bytes, true};
ghost use Rattle.jsonpath_lines.specs.Sent.{AppendsBeginning};
ghost use Rattle.jpq_program.specs.Inside.{IsFailure, OnlyWrites, Writes, status_of};

use jsonpath_lines::write_text;
use std::alloc::{AllocError, AllocFailed, Global};
use std::io;
use std::io::Write;

/// Something was selected.
pub(crate) const SELECTED: u8 = 0;
/// Nothing was selected.
const NOTHING_SELECTED: u8 = 1;
/// A path, a document, a file or a query was refused.
pub(crate) const REFUSED: u8 = 2;
/// The output failed.
pub(crate) const OUTPUT_FAILED: u8 = 3;
/// The words were used wrongly.
pub(crate) const WRONG_USE: u8 = 64;

/// What became of the documents so far.
#[derive(Clone, Copy, Debug, Drop)]
pub(crate) struct Outcome {
    /// Whether a node was selected.
    pub(crate) selected: bool,
    /// Whether something was refused.
    pub(crate) refused: bool,
}

impl Outcome {
    /// The exit status.
    pub(crate) fn status(self) -> u8
        ensures { result ≡ status_of self }
    {
        match self {
            Outcome { refused: true, .. } => REFUSED,
            Outcome { selected: true, .. } => SELECTED,
            _ => NOTHING_SELECTED,
        }
    }
}

/// Whether a run goes on after a document.
#[derive(Clone, Copy, Debug, PartialEq, Eq, Drop)]
pub(crate) enum Next {
    /// It does.
    More,
    /// Something was selected, and nothing is shown.
    Found,
    /// As many nodes were shown as are wanted of all documents.
    Enough,
}

/// Why a run ends before its documents do: something failed, or was refused.
#[derive(Clone, Copy, Debug, PartialEq, Eq, Drop)]
pub(crate) enum Stop {
    /// Writing failed.
    OutputFailed,
    /// Who read the output went away, as `head` does.
    ReaderGone,
    /// What can't be done without was refused, and that was reported.
    Refused,
    /// The words were used wrongly, and that was reported.
    WrongUse,
    /// Memory was refused.
    Memory,
}

impl From<AllocError> for Stop {
    ghost use Rattle.std.specs.Prelude.{◌≡◌};
    ghost use Rattle.jpq_program.specs.declared.streams.Stop.TheVariants.{Memory};

    ghost from_gives = { λ _ stop. stop ≡ Memory };

    fn from(_e: AllocError) -> Stop {
        Stop::Memory
    }
}

impl<T: Drop> From<AllocFailed<T>> for Stop {
    ghost use Rattle.std.specs.Prelude.{◌≡◌};
    ghost use Rattle.jpq_program.specs.declared.streams.Stop.TheVariants.{Memory};

    ghost from_gives = { λ _ stop. stop ≡ Memory };

    fn from(_e: AllocFailed<T>) -> Stop {
        Stop::Memory
    }
}

/// Why a run ends where writing fails so.
fn stop_of(e: io::Error) -> Stop
    ensures { IsFailure result }
{
    if e.kind() == io::ErrorKind::BrokenPipe {
        Stop::ReaderGone
    } else {
        Stop::OutputFailed
    }
}

/// How many columns a terminal has that does not say so.
const COLUMNS: usize = 80;

/// How many bytes are held, at least, before they are written.
const FULL: usize = 65_536;

/// Where lines are written and faults are told, and what became of a run.
///
/// ```text
/// let mut streams = Streams::new(alloc, out, err);
/// let status = run(alloc, &words, colours, &mut inputs, &mut streams);
/// ```
#[derive(Drop)]
pub struct Streams<W, E> {
    /// Where lines are written.
    pub out: W,
    /// Where faults are told.
    pub err: E,
    /// How many columns the line of a document may take that is shown with a fault: 80, unless it is said otherwise.
    pub columns: usize,
    /// What is to be written.
    pub(crate) pending: String,
    pub(crate) outcome: Outcome,
    /// How many documents of the input at hand were refused.
    pub(crate) refused_documents: usize,
    /// How many nodes were shown or counted.
    pub(crate) total: u64,
    /// Whether a value was shown that may have a number with more digits than are kept.
    pub(crate) may_be_inexact: bool,
    /// Whether it was told of such a number.
    pub(crate) told_inexact: bool,
    /// Whether it was told that of several nodes of a path a table has the first.
    pub(crate) told_several: bool,
    /// Of how many documents it was asked why nothing was selected.
    pub(crate) asked_reasons: usize,
    /// Why nothing may have been selected, as a document shows.
    pub(crate) reason: Option<&'static str>,
}

impl<W: Write, E: Write> Streams<W, E> {
    /// The streams of a run, before it.
    pub fn new(alloc: Global, out: W, err: E) -> Streams<W, E>
        ensures { (result.out ≡ out) × (result.err ≡ err) }
    {
        Streams {
            out,
            err,
            columns: COLUMNS,
            pending: String::new(alloc),
            outcome: Outcome {
                selected: false,
                refused: false,
            },
            refused_documents: 0,
            total: 0,
            may_be_inexact: false,
            told_inexact: false,
            told_several: false,
            asked_reasons: 0,
            reason: None,
        }
    }

    /// Forgets what a run before left.
    pub(crate) fn restart(&mut self)
        ensures out { self.new.out ≡ self.old.out }
        ensures err { self.new.err ≡ self.old.err }
        ensures pending { string_bytes self.new.pending ≡ [] }
        ensures outcome { self.new.outcome
            ≡ record { selected = false; refused = false } }
        ensures total { self.new.total ≡ 0 }
    {
        self.pending.clear();
        self.outcome = Outcome {
            selected: false,
            refused: false,
        };
        self.refused_documents = 0;
        self.total = 0;
        self.may_be_inexact = false;
        self.told_inexact = false;
        self.told_several = false;
        self.asked_reasons = 0;
        self.reason = None;
    }

    /// Writes what is pending.
    fn put(&mut self) -> io::Result<()>
        ensures kept { OnlyWrites self.old self.new }
        ensures whole { OnOk result (Writes W.contents self.old self.new []) }
        ensures all { OnOk result (string_bytes self.new.pending ≡ []) }
        ensures beginning { AppendsBeginning (W.contents self.old.out) (W.contents self.new.out)
            (string_bytes self.old.pending) }
    {
        write_text(self.pending.as_str(), &mut self.out)?;
        self.pending.clear();
        Ok(())
    }

    /// Writes what is pending if that is much, so that the texts of many nodes are not held at once.
    // Inlined: each node passes here.
    #[inline(always)]
    pub(crate) fn write_if_full(&mut self) -> Result<(), Stop>
        ensures kept { OnlyWrites self.old self.new }
        ensures whole { OnOk result (Writes W.contents self.old self.new []) }
        ensures beginning { AppendsBeginning (W.contents self.old.out) (W.contents self.new.out)
            (string_bytes self.old.pending) }
    {
        if self.pending.len() < FULL {
            return Ok(());
        }
        self.put().map_err(stop_of)
    }

    /// Writes what is pending and flushes it, so that a pipe sees it at once.
    pub(crate) fn write(&mut self) -> Result<(), Stop>
        ensures kept { OnlyWrites self.old self.new }
        ensures whole { OnOk result (Writes W.contents self.old self.new []) }
        ensures all { OnOk result (string_bytes self.new.pending ≡ []) }
        ensures beginning { AppendsBeginning (W.contents self.old.out) (W.contents self.new.out)
            (string_bytes self.old.pending) }
        ensures failed { IfErr result IsFailure }
    {
        self.put().map_err(stop_of)?;
        self.out.flush().map_err(stop_of)
    }

    /// Writes a message on standard error, as far as it can be written.
    pub(crate) fn tell(&mut self, text: &str)
        ensures kept { self.new ≡ record self.old { err = self.new.err } }
        ensures told { AppendsBeginning (E.contents self.old.err) (E.contents self.new.err)
            text.now }
    {
        let _ = write_text(text, &mut self.err);
    }

    /// Tells of what is refused.
    pub(crate) fn tell_refusal(&mut self, text: &str)
        ensures kept { self.new ≡ record self.old {
          err = self.new.err;
          outcome = record self.old.outcome { refused = true };
        } }
        ensures told { AppendsBeginning (E.contents self.old.err) (E.contents self.new.err)
            text.now }
    {
        self.outcome.refused = true;
        self.tell(text);
    }
}
