//! `jsonpath PATH` prints the nodes of the JSON document on standard input that a path selects, with their locations:
//!
//! ```text
//! $ printf '{"foo":{"bar":["baz",42]}}' | jsonpath '$.foo.bar[0]'
//! $['foo']['bar'][0]<tab>"baz"
//! ```
//!
//! `run` of `jsonpath_program` is the program over any streams; `main` hands in the words and the standard streams.
#![tactic(auto)]

use jsonpath_program::arguments::words_after_first;
use jsonpath_program::run::run;
use std::env;
use std::process::ExitCode;

/// The arguments after the program's name, or none if they cannot be read.
fn words(rt: &HostRuntime) -> Vec<String> {
    match env::args(rt) {
        Ok(args) => words_after_first(rt.alloc(), args).unwrap_or_else(|_| Vec::new(rt.alloc())),
        Err(_) => Vec::new(rt.alloc()),
    }
}

fn main(rt: HostRuntime) -> ExitCode {
    let words = words(&rt);
    let mut input = rt.stdin();
    let mut out = rt.stdout();
    let mut err = rt.stderr();
    let status = run(rt.alloc(), &words, &mut input, &mut out, &mut err);
    ExitCode::from(status)
}
