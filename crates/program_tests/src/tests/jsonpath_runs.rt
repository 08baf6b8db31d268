//! Runs of `jsonpath` over a reader and writers in memory.

ghost use Rattle.std.specs.Prelude.{◌≡◌, ◌++◌, [], Some, ℕ, List};
ghost use Rattle.jsonpath_program.specs.Run.{IsReportOfRun};

use crate::tests::jsonpath_failing::{Reader, Writer};
use jsonpath_program::report::ReportError;
use jsonpath_program::run::{refuse, run};
use serde_json_path::QueryError;
use std::alloc::{AllocError, Global};
use std::io;
use std::io::Write;
use std::test::Fail;
use test_rows::{Came, hold_pairs, holds};

/// A writer that has room for so many bytes, and takes none once it is full.
#[derive(Drop)]
struct Full {
    taken: Vec<u8>,
    room: usize,
}

impl Write for Full {
    ghost contents = { λ writer. Some writer.taken.items };

    fn write(&mut self, buf: &[u8]) -> io::Result<usize> {
        let room = self.room.saturating_sub(self.taken.len());
        self.taken.write(&buf[..room.min(buf.len())])
    }

    fn flush(&mut self) -> io::Result<()> {
        Ok(())
    }
}

/// The words of a command line.
pub(crate) fn words(alloc: Global, of: &[&str]) -> Result<Vec<String>, AllocError> {
    let mut words = Vec::new(alloc);
    for word in of {
        words.push(String::from_str(alloc, word)?)?;
    }
    Ok(words)
}

/// Fails where another text was written.
pub(crate) fn wrote(written: &[u8], wanted: &str) -> Result<(), Fail> {
    holds(written == wanted.as_bytes(), wanted)
}

/// The words and the input, and the status and the texts on the output and on the output of errors.
const RUNS: &[((&[&str], &str), &str)] = &[
    ((&["$.a"], r#"{"a":[1]}"#), "0, $['a']\t[1]\n, "),
    ((&["$['a','a']"], r#"{"a":[1]}"#), TWICE),
    ((&["$.b"], r#"{"a":[1]}"#), "0, , "),
    ((&["$"], "null"), "0, $\tnull\n, "),
    ((&["$.a"], "{"), "2, , jsonpath: document: not JSON\n"),
    ((&["$"], "1 2"), "2, , jsonpath: document: not JSON\n"),
    ((&["x"], "{"), NO_ROOT),
    ((&[""], "null"), NO_ROOT),
    ((&[], "null"), "64, , usage: jsonpath PATH\n"),
    ((&["$", "$"], "null"), "64, , usage: jsonpath PATH\n"),
];

const TWICE: &str = "0, $['a']\t[1]\n$['a']\t[1]\n, ";

const NO_ROOT: &str = "1, , jsonpath: path: at position 1, expected '$'\n";

/// The status and the texts of a run. Fails where it reads its input and words are wrong, or does not and they are right.
fn ran(alloc: Global, (given, document): (&[&str], &str)) -> Came {
    let words = words(alloc, given)?;
    let mut input = Reader::new(document.as_bytes(), usize::MAX);
    let mut out = Vec::new(alloc);
    let mut err = Vec::new(alloc);
    let status = run(alloc, &words, &mut input, &mut out, &mut err);
    holds((input.calls == 0) == (status == 64), "the input is read")?;
    let out = str::from_utf8(out.as_slice())?;
    let err = str::from_utf8(err.as_slice())?;
    Ok(format!(in alloc; "{status}, {out}, {err}")?)
}

#[test]
fn statuses_and_texts(rt: HostRuntime) -> Result<(), Fail> {
    hold_pairs(&rt, RUNS, ran)
}

/// Runs the program on the bytes of a document. What its contract says of readers and writers that tell their bytes is
/// here said of a slice and of vectors.
fn run_on_bytes(
    alloc: Global,
    words: &[String],
    document: &[u8],
    out: &mut Vec<u8>,
    err: &mut Vec<u8>,
) -> u8
    ensures done { result ≡ 0 → (text : List ℕ) × IsReportOfRun words.now (Some document.now) text
        × (out.new.items ≡ out.old.items ++ text) }
    ensures refused { result ≡ 1 → out.new.items ≡ out.old.items }
{
    let mut input = document;
    run(alloc, words, &mut input, out, err)
}

#[test]
fn runs_on_bytes(rt: HostRuntime) -> Result<(), Fail> {
    let mut out = Vec::new(rt.alloc());
    let mut err = Vec::new(rt.alloc());
    for (path, wanted) in [("$[0]", 0), ("$[1]", 0), ("x", 1)] {
        let path = words(rt.alloc(), &[path])?;
        let status = run_on_bytes(rt.alloc(), &path, b"[1.5,null]", &mut out, &mut err);
        assert_eq!(rt; status, wanted);
    }
    wrote(out.as_slice(), "$[0]\t1.5\n$[1]\tnull\n")?;
    let refused = "jsonpath: path: at position 1, expected '$'\n";
    wrote(err.as_slice(), refused)
}

/// The writer takes a byte at each odd call, and fails from one of these on.
#[test]
fn short_and_interrupted_writes(rt: HostRuntime) -> Result<(), Fail> {
    let root = words(rt.alloc(), &["$"])?;
    for (fails_at, status, written) in [(19, 0, "$\t1\n"), (5, 3, "$\t"), (1, 3, "")] {
        let mut out = Writer::new(rt.alloc(), fails_at, false);
        let mut err = Vec::new(rt.alloc());
        let answer = run(rt.alloc(), &root, &mut "1".as_bytes(), &mut out, &mut err);
        assert_eq!(rt; answer, status);
        wrote(out.taken.as_slice(), written)?;
    }
    Ok(())
}

#[test]
fn full_writers(rt: HostRuntime) -> Result<(), Fail> {
    let root = words(rt.alloc(), &["$"])?;
    let rows = [
        (4, 0, "$\t1\n", ""),
        (2, 3, "$\t", "jsonpath:"),
        (0, 3, "", "jsonpath:"),
    ];
    for (room, status, written, told) in rows {
        let taken = Vec::new(rt.alloc());
        let mut out = Full { taken, room };
        let taken = Vec::new(rt.alloc());
        let mut err = Full { taken, room: 9 };
        let answer = run(rt.alloc(), &root, &mut "1".as_bytes(), &mut out, &mut err);
        assert_eq!(rt; answer, status);
        wrote(out.taken.as_slice(), written)?;
        wrote(err.taken.as_slice(), told)?;
    }
    Ok(())
}

#[test]
fn reports_refused_queries(rt: HostRuntime) -> Result<(), Fail> {
    for (error, line) in [
        (QueryError::Memory, "jsonpath: query: no memory\n"),
        (QueryError::Pattern, "jsonpath: query: pattern refused\n"),
    ] {
        let mut err = Vec::new(rt.alloc());
        let status = refuse(rt.alloc(), &ReportError::Query(error), &mut err);
        assert_eq!(rt; status, 3);
        wrote(err.as_slice(), line)?;
    }
    Ok(())
}
