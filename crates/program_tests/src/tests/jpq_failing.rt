//! Runs of `jpq` whose reads or writes fail at one of their calls.

ghost use Rattle.std.specs.Prelude.{None};

use crate::tests::inputs::{MemoryInputs, NO_COLOURS, run_on, words};
use jpq_program::run::run;
use jpq_program::streams::Streams;
use std::alloc::Global;
use std::io;
use std::io::ErrorKind::{BrokenPipe, WriteZero};
use std::io::Write;
use std::test::Fail;
use test_rows::{Came, hold_rows};

/// A writer that fails at one of its calls, and from then on.
#[derive(Drop)]
struct Writer {
    taken: Vec<u8>,
    calls: usize,
    fails_at: usize,
    kind: io::ErrorKind,
}

impl Writer {
    fn new(alloc: Global, fails_at: usize, kind: io::ErrorKind) -> Writer {
        Writer {
            taken: Vec::new(alloc),
            calls: 0,
            fails_at,
            kind,
        }
    }

    fn call(&mut self) -> io::Result<()> {
        let call = self.calls;
        self.calls = call.saturating_add(1);
        if call >= self.fails_at {
            Err(io::Error::from(self.kind))
        } else {
            Ok(())
        }
    }
}

impl Write for Writer {
    ghost contents = { λ _. None };

    fn write(&mut self, buf: &[u8]) -> io::Result<usize> {
        self.call()?;
        self.taken.write(buf)
    }

    fn flush(&mut self) -> io::Result<()> {
        self.call()
    }
}

/// The status, what was taken and what was told of a run whose output fails at a call.
fn run_writing(alloc: Global, call: &str, kind: io::ErrorKind) -> Came {
    let words = words(alloc, "-v  $.*  one.json  two.json")?;
    let (standard, fails_at) = ("", usize::MAX);
    let mut inputs = MemoryInputs { standard, fails_at };
    let out = Writer::new(alloc, call.parse::<usize>()?, kind);
    let mut streams = Streams::new(alloc, out, Vec::new(alloc));
    let status = run(alloc, &words, NO_COLOURS, &mut inputs, &mut streams);
    let taken = str::from_utf8(streams.out.taken.as_slice())?;
    let told = str::from_utf8(streams.err.as_slice())?;
    Ok(format!(in alloc; "{status}: {taken:?} {told:?}")?)
}

/// The call of the output that fails, and what comes of the run.
const FAILED: &[&str] = &[
    r#"0 -> 3: "" "jpq: the output failed\n""#,
    r#"1 -> 3: "one.json\t1\n" "jpq: the output failed\n""#,
    r#"2 -> 3: "one.json\t1\n" "jpq: the output failed\n""#,
    r#"3 -> 3: "one.json\t1\ntwo.json\t2\n" "jpq: the output failed\n""#,
    r#"4 -> 0: "one.json\t1\ntwo.json\t2\n" """#,
];

#[test]
fn each_write_fails(rt: HostRuntime) -> Result<(), Fail> {
    hold_rows(&rt, FAILED, |alloc, at| run_writing(alloc, at, WriteZero))
}

/// The same of a reader that goes away, which ends the run without a message.
const GONE: &[&str] = &[r#"0 -> 3: "" """#, r#"2 -> 3: "one.json\t1\n" """#];

#[test]
fn a_reader_that_goes_away_ends_the_run(rt: HostRuntime) -> Result<(), Fail> {
    hold_rows(&rt, GONE, |alloc, at| run_writing(alloc, at, BrokenPipe))
}

#[test]
fn each_read_fails(rt: HostRuntime) -> Result<(), Fail> {
    let wanted = "jpq: standard input: cannot be read: connection reset\n";
    for line in ["-v  $.a", "-L  -v  $.a"] {
        for fails_at in 0..2 {
            let standard = "{\"a\":1}";
            let ran = run_on(rt.alloc(), line, MemoryInputs { standard, fails_at })?;
            assert!(rt; ran.status == 2 && ran.out.is_empty(), "{line}");
            assert_eq!(rt; ran.err.as_str(), wanted, "{line}");
        }
    }
    Ok(())
}
