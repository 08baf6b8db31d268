//! Lines that go out as they are found.

ghost use Rattle.std.specs.Prelude.{None};

use crate::tests::inputs::{MemoryInputs, NO_COLOURS, words};
use jpq_program::run::run;
use jpq_program::streams::Streams;
use std::alloc::{AllocError, Global};
use std::io;
use std::io::Write;
use std::test::Fail;
use test_rows::{Came, hold_rows};

/// A writer that keeps how long each write is, and whose reader goes away after some of them.
#[derive(Drop)]
struct Pieces {
    lengths: Vec<usize>,
    most: usize,
}

impl Write for Pieces {
    ghost contents = { λ _. None };

    fn write(&mut self, buf: &[u8]) -> io::Result<usize> {
        if self.lengths.len() >= self.most {
            return Err(io::Error::from(io::ErrorKind::BrokenPipe));
        }
        self.lengths.push(buf.len())?;
        Ok(buf.len())
    }

    fn flush(&mut self) -> io::Result<()> {
        Ok(())
    }
}

/// An array of so many strings of 100 characters.
fn strings(alloc: Global, count: usize) -> Result<String, AllocError> {
    let mut text = String::from_str(alloc, "[")?;
    for number in 0..count {
        let comma = if number == 0 { "" } else { "," };
        write!(text, "{comma}\"{number:0100}\"")?;
    }
    text.push(']')?;
    Ok(text)
}

/// The status of a run, what it told, and how long its writes were, of which there may be so many.
fn run_in_pieces(alloc: Global, given: &str) -> Came {
    let (most, line) = given.split_once("  ").unwrap_or(("0", given));
    let standard = strings(alloc, 2_000)?;
    let mut inputs = MemoryInputs {
        standard: standard.as_str(),
        fails_at: usize::MAX,
    };
    let out = Pieces {
        lengths: Vec::new(alloc),
        most: most.parse::<usize>()?,
    };
    let mut streams = Streams::new(alloc, out, Vec::new(alloc));
    let words = words(alloc, line)?;
    let status = run(alloc, &words, NO_COLOURS, &mut inputs, &mut streams);
    let told = str::from_utf8(streams.err.as_slice())?;
    Ok(format!(in alloc; "{status}: {:?} {told:?}", streams.out.lengths)?)
}

/// How many writes are taken, and the words; then what comes of the run. A line has 103 bytes, so that 637 of them are the first
/// that have 65,536 or more.
const RUNS: &[&str] = &[
    "9  -v  $.* -> 0: [65611, 65611, 65611, 9167] \"\"",
    "9  -v  -u  $.* -> 0: [65611, 65611, 65611, 9167] \"\"",
    "9  -v  -n  700  $.* -> 0: [65611, 6489] \"\"",
    "1  -v  $.* -> 3: [65611] \"\"",
    "0  -v  $.* -> 3: [] \"\"",
    // An object has a comma before it, but for the first, and its position has up to four digits.
    "9  -j  $.* -> 0: [65551, 65549, 65650, 62142] \"\"",
    "9  -c  $.* -> 0: [5] \"\"",
    "9  -q  $.* -> 0: [] \"\"",
];

#[test]
fn lines_go_out_as_they_are_found(rt: HostRuntime) -> Result<(), Fail> {
    hold_rows(&rt, RUNS, run_in_pieces)
}
