//! Runs of `jsonpath` over a reader and writers that fail at one of their calls, and that move one byte at a time.

ghost use Rattle.std.specs.Prelude.{Some, None};

use crate::tests::jsonpath_runs::{words, wrote};
use jsonpath_program::run::run;
use std::alloc::Global;
use std::io;
use std::io::{Read, Write};
use std::test::Fail;
use test_rows::holds;

/// A reader that gives one byte at a time, is interrupted before each, and fails at one of its calls.
#[derive(Drop)]
pub(crate) struct Reader<'a> {
    left: &'a [u8],
    pub(crate) calls: usize,
    fails_at: usize,
}

impl<'a> Reader<'a> {
    pub(crate) fn new(left: &'a [u8], fails_at: usize) -> Reader<'a> {
        Reader {
            left,
            calls: 0,
            fails_at,
        }
    }
}

impl Read for Reader<'_> {
    ghost remaining = { λ _. None };

    fn read(&mut self, buf: &mut [u8]) -> io::Result<usize> {
        let call = self.calls;
        self.calls = call.saturating_add(1);
        if call == self.fails_at {
            return Err(io::Error::from(io::ErrorKind::ConnectionReset));
        }
        if call % 2 == 0 {
            return Err(io::Error::from(io::ErrorKind::Interrupted));
        }
        match buf.get_mut(..1) {
            Some(first) => self.left.read(first),
            None => Ok(0),
        }
    }
}

/// A writer that takes one byte at a time, is interrupted before each, and fails at one of its calls, and then on unless it
/// recovers.
#[derive(Drop)]
pub(crate) struct Writer {
    pub(crate) taken: Vec<u8>,
    calls: usize,
    fails_at: usize,
    recovers: bool,
}

impl Writer {
    pub(crate) fn new(alloc: Global, fails_at: usize, recovers: bool) -> Writer {
        Writer {
            taken: Vec::new(alloc),
            calls: 0,
            fails_at,
            recovers,
        }
    }

    /// Fails at the call of that number, if it is one that fails.
    fn fail(&self, call: usize) -> io::Result<()> {
        if call == self.fails_at || (call > self.fails_at && !self.recovers) {
            return Err(io::Error::from(io::ErrorKind::BrokenPipe));
        }
        Ok(())
    }
}

impl Write for Writer {
    ghost contents = { λ writer. Some writer.taken.items };

    fn write(&mut self, buf: &[u8]) -> io::Result<usize> {
        let call = self.calls;
        self.calls = call.saturating_add(1);
        self.fail(call)?;
        if call % 2 == 0 {
            return Err(io::Error::from(io::ErrorKind::Interrupted));
        }
        match buf.first() {
            Some(&byte) => self.taken.write(&[byte]),
            None => Ok(0),
        }
    }

    fn flush(&mut self) -> io::Result<()> {
        let call = self.calls;
        self.calls = call.saturating_add(1);
        self.fail(call)
    }
}

/// The status of a run whose reader fails at a call, and whether that call was made. What is said is held to the status.
fn run_reading(alloc: Global, path: &str, fails_at: usize) -> Result<(u8, bool), Fail> {
    let words = words(alloc, &[path])?;
    let mut input = Reader::new(b"[1, 2]", fails_at);
    let mut out = Vec::new(alloc);
    let mut err = Vec::new(alloc);
    let status = run(alloc, &words, &mut input, &mut out, &mut err);
    let (lines, told) = match status {
        0 => ("$[1]\t2\n", ""),
        1 => ("", "jsonpath: path: at position 1, expected '$'\n"),
        _ => ("", "jsonpath: document: cannot be read\n"),
    };
    wrote(out.as_slice(), lines)?;
    wrote(err.as_slice(), told)?;
    Ok((status, input.calls > fails_at))
}

#[test]
fn each_read_fails(rt: HostRuntime) -> Result<(), Fail> {
    for (path, done) in [("$[1]", 0), ("x", 1)] {
        for fails_at in 0..20 {
            let (status, was_called) = run_reading(rt.alloc(), path, fails_at)?;
            let wanted = if was_called { 2 } else { done };
            assert_eq!(rt; status, wanted, "{path}, call {fails_at}");
            assert!(rt; was_called || fails_at > 12);
        }
    }
    Ok(())
}

/// Holds what a writer took that failed at a call to the beginning of a text that ends with a flush.
fn holds_taken(writer: &Writer, text: &str) -> Result<(), Fail> {
    let taken = text.get(..text.len().min(writer.fails_at / 2));
    wrote(writer.taken.as_slice(), taken.unwrap_or(text))
}

/// Holds a run whose two writers fail at a call each to what they took, and returns its status.
fn run_writing(
    alloc: Global,
    (path, document): (&str, &str),
    (lines, mut out): (&str, Writer),
    (told, mut err): (&str, Writer),
) -> Result<u8, Fail> {
    let words = words(alloc, &[path])?;
    let mut input = document.as_bytes();
    let status = run(alloc, &words, &mut input, &mut out, &mut err);
    holds_taken(&out, lines)?;
    holds_taken(&err, told)?;
    Ok(status)
}

/// Fails where a run has another status whose output, of four bytes, fails at a call: these take eight calls, and the flush is
/// the ninth.
fn fails_to_write(alloc: Global, fails_at: usize, recovers: bool) -> Result<(), Fail> {
    let failed = ("jsonpath: output failed\n", 3);
    let (told, wanted) = if fails_at < 9 { failed } else { ("", 0) };
    for err_fails_at in [fails_at, 1000] {
        let out = ("$\t1\n", Writer::new(alloc, fails_at, recovers));
        let err = (told, Writer::new(alloc, err_fails_at, recovers));
        let status = run_writing(alloc, ("$", "1"), out, err)?;
        holds(status == wanted, "another status")?;
    }
    Ok(())
}

#[test]
fn each_write_fails(rt: HostRuntime) -> Result<(), Fail> {
    for fails_at in 0..12 {
        fails_to_write(rt.alloc(), fails_at, true)?;
        fails_to_write(rt.alloc(), fails_at, false)?;
    }
    Ok(())
}

/// A path, a document, the status, and what is told.
const REFUSED: &[(&str, &str, u8, &str)] = &[
    ("x", "1", 1, "jsonpath: path: at position 1, expected '$'\n"),
    ("$", "{", 2, "jsonpath: document: not JSON\n"),
];

#[test]
fn each_write_of_a_refusal_fails(rt: HostRuntime) -> Result<(), Fail> {
    for &(path, document, wanted, told) in REFUSED {
        for fails_at in 0..100 {
            let out = ("", Writer::new(rt.alloc(), 1000, true));
            let err = (told, Writer::new(rt.alloc(), fails_at, true));
            let status = run_writing(rt.alloc(), (path, document), out, err)?;
            assert_eq!(rt; status, wanted, "{path}, call {fails_at}");
        }
    }
    Ok(())
}

#[test]
fn a_pattern_is_refused(rt: HostRuntime) -> Result<(), Fail> {
    let run = ("$[?match(@,'a{1000}{1000}')]", r#"["a"]"#);
    for fails_at in [1, 1000] {
        let out = ("", Writer::new(rt.alloc(), 1000, true));
        let told = "jsonpath: query: pattern refused\n";
        let err = (told, Writer::new(rt.alloc(), fails_at, true));
        assert_eq!(rt; run_writing(rt.alloc(), run, out, err)?, 3);
    }
    Ok(())
}
