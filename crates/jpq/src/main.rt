//! `jpq [OPTIONS] PATH [FILE]...` prints the nodes of JSON documents that a JSONPath (RFC 9535) selects:
//!
//! ```text
//! $ printf '{"foo":{"bar":["baz",42]}}' | jpq '$.foo.bar[0]'
//! $['foo']['bar'][0]<tab>"baz"
//! ```
//!
//! `run` of `jpq_program` is the program over any inputs and writers; `main` hands in the words, the files and the standard
//! streams.
#![tactic(auto)]

use jpq_program::colours::{Colours, takes_colors};
use jpq_program::inputs::Inputs;
use jpq_program::run::run;
use jpq_program::streams::Streams;
use std::alloc::{AllocError, Global};
use std::env::{Env, FillError};
use std::fs::File;
use std::io::{IsTerminal, Read, Stdin, Write};
use std::process::ExitCode;
use std::str::from_utf8;
use std::{env, io};

/// An input of the program.
#[derive(Drop)]
enum Input {
    Standard(Stdin),
    File(File),
}

impl Read for Input {
    fn read(&mut self, buf: &mut [u8]) -> io::Result<usize> {
        match self {
            Input::Standard(input) => input.read(buf),
            Input::File(input) => input.read(buf),
        }
    }
}

/// The files of the machine, and standard input.
#[derive(Drop)]
struct MachineInputs<'a> {
    rt: &'a HostRuntime,
}

impl Inputs for MachineInputs<'_> {
    type Input = Input;

    fn open(&mut self, name: &str) -> io::Result<Input> {
        if name == "-" {
            return Ok(Input::Standard(self.rt.stdin()));
        }
        Ok(Input::File(File::open(self.rt, name)?))
    }
}

/// The words of the command line, the program's name first.
fn words(rt: &HostRuntime) -> io::Result<Vec<String>> {
    Ok(env::args(rt)?.collect(rt.alloc())?)
}

/// How many bytes a word may have that is looked at again, to be named.
const LONGEST: usize = 4096;

/// What is told of a word that is not UTF-8: its number, and the word with `\xff` for what is not printed of ASCII.
fn foreign_word(alloc: Global, number: usize, word: &[u8]) -> Result<String, AllocError> {
    let mut text = format!(in alloc; "jpq: word {number} of the command line is not UTF-8: ")?;
    for byte in word {
        match *byte {
            b' '..=b'~' => text.push(*byte as char)?,
            other => write!(text, "\\x{other:02x}")?,
        }
    }
    text.push('\n')?;
    Ok(text)
}

/// What is told of words that are not all UTF-8, by the first that is not.
fn foreign_words(rt: &HostRuntime) -> Result<String, AllocError> {
    let mut bytes = [0u8; LONGEST];
    for number in 1..usize::MAX {
        match rt.arg(number, &mut bytes) {
            Ok(length) => {
                let word = &bytes[..length];
                if from_utf8(word).is_err() {
                    return foreign_word(rt.alloc(), number, word);
                }
            }
            Err(FillError::TooLong) => {}
            Err(FillError::NotPresent) => break,
        }
    }
    String::from_str(rt.alloc(), "jpq: a word of the command line is not UTF-8\n")
}

/// Tells why the words can't be read: one is not UTF-8, or memory is refused. Gives the exit status.
fn refuse_words<E: Write>(rt: &HostRuntime, e: &io::Error, err: &mut E) -> u8 {
    if e.kind() == io::ErrorKind::InvalidData {
        if let Ok(text) = foreign_words(rt) {
            let _ = err.write_all(text.as_bytes());
            return 64;
        }
    }
    let _ = err.write_all(b"jpq: no memory\n");
    2
}

/// How many columns the environment says that the terminal has.
fn columns(rt: &HostRuntime) -> Option<usize> {
    env::var(rt, "COLUMNS").ok()?.as_str().parse().ok()
}

/// Whether the environment has a variable whose value is not empty and not this one.
fn is_set(rt: &HostRuntime, name: &str, but: &str) -> bool {
    match env::var(rt, name) {
        Ok(value) => !value.is_empty() && value.as_str() != but,
        Err(_) => false,
    }
}

/// Whether the terminal that the environment names has no colours.
fn is_dumb(rt: &HostRuntime) -> bool {
    env::var(rt, "TERM").is_ok_and(|name| name.as_str() == "dumb")
}

fn main(rt: HostRuntime) -> ExitCode {
    let mut err = rt.stderr();
    let words = match words(&rt) {
        Ok(words) => words,
        Err(e) => return ExitCode::from(refuse_words(&rt, &e, &mut err)),
    };
    let mut inputs = MachineInputs { rt: &rt };
    let out = rt.stdout();
    let (is_terminal, is_forced) = (out.is_terminal(), is_set(&rt, "CLICOLOR_FORCE", "0"));
    // The other variables are looked for only where they count.
    let taken = (is_terminal || is_forced)
        && takes_colors(
            is_terminal,
            is_dumb(&rt),
            is_set(&rt, "NO_COLOR", ""),
            is_forced,
        );
    let palette = env::var(&rt, "JPQ_COLORS").ok();
    let palette = palette.as_ref().map(|text| text.as_str());
    let colours = Colours { taken, palette };
    let width = if err.is_terminal() {
        columns(&rt)
    } else {
        None
    };
    let mut streams = Streams::new(rt.alloc(), out, err);
    if let Some(width) = width {
        streams.columns = width;
    }
    let status = run(rt.alloc(), &words, colours, &mut inputs, &mut streams);
    ExitCode::from(status)
}
