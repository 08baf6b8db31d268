//! Inputs in memory, and runs over them.

ghost use Rattle.std.specs.Prelude.{None};

use jpq_program::colours::Colours;
use jpq_program::inputs::Inputs;
use jpq_program::run::run;
use jpq_program::streams::Streams;
use std::alloc::{AllocError, Global};
use std::io;
use std::io::{Read, Write};
use std::test::Fail;

/// The bookstore of RFC 9535, in which two books cost less than 10.
pub(crate) const BOOKSTORE: &str =
    r#"{"store":{"book":[{"title":"Sayings of the Century","price":8.95},{"title":"Sword of Honour","price":12.99},{"title":"Moby Dick","isbn":"0-553-21311-3","price":8.99}],"bicycle":{"color":"red","price":399}}}"#;

/// The files that a run may open, by their names.
const FILES: &[(&str, &str)] = &[
    ("book.json", BOOKSTORE),
    ("one.json", r#"{"a":1}"#),
    ("two.json", r#"{"a":2}"#),
    ("bad.json", "{\"a\":1,}"),
    ("paths", "# paths of a file\n$.a\n\n$.b\r\n"),
    ("more", "$.*"),
    ("wrong", "$.a\n$.\n"),
    ("marked", "\u{feff}\t$.a # all\n"),
    ("pattern", "\n$[?match(@, '\\\\w{1000}{10}')]\n"),
];

/// Files that are not UTF-8.
const OTHERS: &[(&str, &[u8])] = &[
    ("book.json.gz", b"\x1f\x8b\x08\x00"),
    ("little.json", b"\xff\xfe{\x00}\x00"),
    ("big.json", b"\xfe\xff\x00{\x00}"),
];

/// The bytes of a file, if there is one of that name.
fn file(name: &str) -> Option<&'static [u8]> {
    match FILES.iter().find(|file| file.0 == name) {
        Some(file) => Some(file.1.as_bytes()),
        None => OTHERS.iter().find(|file| file.0 == name).map(|file| file.1),
    }
}

/// A reader of bytes that fails at one of its calls.
#[derive(Drop)]
pub(crate) struct MemoryInput<'a> {
    left: &'a [u8],
    calls: usize,
    fails_at: usize,
}

impl Read for MemoryInput<'_> {
    ghost remaining = { λ _. None };

    fn read(&mut self, buf: &mut [u8]) -> io::Result<usize> {
        let call = self.calls;
        self.calls = call.saturating_add(1);
        if call == self.fails_at {
            return Err(io::Error::from(io::ErrorKind::ConnectionReset));
        }
        self.left.read(buf)
    }
}

/// The files, and a text as standard input.
#[derive(Drop)]
pub(crate) struct MemoryInputs<'a> {
    pub(crate) standard: &'a str,
    /// The number of the read that fails, from 0, of each input.
    pub(crate) fails_at: usize,
}

impl<'a> Inputs for MemoryInputs<'a> {
    type Input = MemoryInput<'a>;

    fn open(&mut self, name: &str) -> io::Result<MemoryInput<'a>> {
        let left: &'a [u8] = match file(name) {
            Some(bytes) => bytes,
            None if name == "-" => self.standard.as_bytes(),
            None => return Err(io::Error::from(io::ErrorKind::NotFound)),
        };
        Ok(MemoryInput {
            left,
            calls: 0,
            fails_at: self.fails_at,
        })
    }
}

/// An output that takes no colours.
pub(crate) const NO_COLOURS: Colours<'static> = Colours {
    taken: false,
    palette: None,
};

/// The words of a command line, `jpq` first. Between them are two blanks each.
pub(crate) fn words(alloc: Global, line: &str) -> Result<Vec<String>, AllocError> {
    let mut words = Vec::new(alloc);
    words.push(String::from_str(alloc, "jpq")?)?;
    for word in line.split("  ") {
        words.push(String::from_str(alloc, word)?)?;
    }
    Ok(words)
}

/// The exit status of a run, what it wrote, and what it told.
#[derive(Drop)]
pub(crate) struct Ran {
    pub(crate) status: u8,
    pub(crate) out: String,
    pub(crate) err: String,
}

/// Runs a command line on a text as standard input.
pub(crate) fn run_line(alloc: Global, line: &str, standard: &str) -> Result<Ran, Fail> {
    let fails_at = usize::MAX;
    run_on(alloc, line, MemoryInputs { standard, fails_at })
}

/// Runs a command line on inputs.
pub(crate) fn run_on(alloc: Global, line: &str, inputs: MemoryInputs<'_>) -> Result<Ran, Fail> {
    run_within(alloc, line, inputs, 80)
}

/// The same with a terminal of so many columns.
pub(crate) fn run_within(
    alloc: Global,
    line: &str,
    mut inputs: MemoryInputs<'_>,
    columns: usize,
) -> Result<Ran, Fail> {
    let words = words(alloc, line)?;
    // With room for all that is written, so that each request of the run is one of the program.
    let out: Vec<u8> = Vec::with_capacity(alloc, 16_384)?;
    let err: Vec<u8> = Vec::with_capacity(alloc, 16_384)?;
    let mut streams = Streams::new(alloc, out, err);
    streams.columns = columns;
    let status = run(alloc, &words, NO_COLOURS, &mut inputs, &mut streams);
    Ok(Ran {
        status,
        out: String::from_str(alloc, str::from_utf8(streams.out.as_slice())?)?,
        err: String::from_str(alloc, str::from_utf8(streams.err.as_slice())?)?,
    })
}
