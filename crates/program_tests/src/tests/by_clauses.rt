//! What a run of `jpq` writes, by the clauses of `run` and the laws of paths alone: two paths over the lines of two files.

ghost use Rattle.std.specs.Prelude.{◌≡◌, ◌≤◌, ◌++◌, [], ◌∷◌, IfOk, None, Some, codes, if◌then◌else◌, map, string_bytes, true};
ghost use Rattle.jpq_program.specs.Inputs.{Opens};

use crate::tests::inputs::NO_COLOURS;
use jpq_program::inputs::Inputs;
use jpq_program::run::run;
use jpq_program::streams::Streams;
use serde_json_path::{law_normal, law_result_is_unique};
use std::alloc::{AllocError, Global};
use std::io;
use std::test::Fail;
use test_rows::holds;

/// Two files, of which the first ends without a line feed, and the second begins with a blank line.
#[derive(Drop)]
struct TwoFiles {
    alloc: Global,
    /// The names that were opened, in order.
    opened: Vec<String>,
    /// Whether these are all of them: there was memory for each.
    are_all: bool,
}

impl TwoFiles {
    /// Keeps that a name was opened.
    fn note(&mut self, name: &str)
        ensures { Opens
            (if self.old.are_all then Some (map string_bytes self.old.opened.items) else None)
            (if self.new.are_all then Some (map string_bytes self.new.opened.items) else None)
            (name.now ∷ []) }
    {
        let is_kept = match String::from_str(self.alloc, name) {
            Ok(name) => self.opened.push(name).is_ok(),
            Err(_) => false,
        };
        self.are_all = self.are_all && is_kept;
    }
}

impl Inputs for TwoFiles {
    type Input = &'static [u8];

    ghost use Rattle.std.specs.Prelude.{Some, None, codes, if◌then◌else◌, map, string_bytes};
    ghost use Rattle.std.specs.Str.{bytes_eq};

    ghost bytes_of = { λ _ name.
        if bytes_eq name (codes "one") then Some (codes "{\"a\":1,\"b\":[2]}\n{\"b\":[4],\"a\":3}")
        else if bytes_eq name (codes "two") then Some (codes "\n{\"a\":5,\"b\":[6]}\n") else None };

    ghost opened = { λ files.
        if files.are_all then Some (map string_bytes files.opened.items) else None };

    fn open(&mut self, name: &str) -> io::Result<&'static [u8]> {
        self.note(name);
        match name {
            "one" => Ok(b"{\"a\":1,\"b\":[2]}\n{\"b\":[4],\"a\":3}"),
            "two" => Ok(b"\n{\"a\":5,\"b\":[6]}\n"),
            _ => Err(io::Error::from(io::ErrorKind::NotFound)),
        }
    }
}

/// The words of the run.
fn words(alloc: Global) -> Result<Vec<String>, AllocError>
    ensures { IfOk result (λ words. map string_bytes words.items ≡ codes "jpq" ∷ codes "-L"
        ∷ codes "-e" ∷ codes "$['a']" ∷ codes "-e" ∷ codes "$['b'][0]" ∷ codes "one"
        ∷ codes "two" ∷ []) }
{
    let mut words = Vec::new(alloc);
    words.push(String::from_str(alloc, "jpq")?)?;
    words.push(String::from_str(alloc, "-L")?)?;
    words.push(String::from_str(alloc, "-e")?)?;
    words.push(String::from_str(alloc, "$['a']")?)?;
    words.push(String::from_str(alloc, "-e")?)?;
    words.push(String::from_str(alloc, "$['b'][0]")?)?;
    words.push(String::from_str(alloc, "one")?)?;
    words.push(String::from_str(alloc, "two")?)?;
    Ok(words)
}

/// Runs them. Unless the status tells of a refusal, it, what is written and which files are opened are known before.
fn run_two_files(alloc: Global) -> Result<(u8, Vec<u8>, TwoFiles), AllocError>
    ensures { IfOk result (λ ran. ran.0 ≤ 1 → (ran.0 ≡ 0)
        × (ran.1.items ≡ codes "one\t1\t$['a']\t1\none\t2\t$['b'][0]\t2\n"
        ++ (codes "one\t1\t$['a']\t3\none\t2\t$['b'][0]\t4\n"
        ++ codes "two\t1\t$['a']\t5\ntwo\t2\t$['b'][0]\t6\n"))
        × (ran.2.are_all ≡ true
        → map string_bytes ran.2.opened.items ≡ codes "one" ∷ codes "two" ∷ [])) }
{
    law_normal();
    law_result_is_unique();
    let words = words(alloc)?;
    let mut streams = Streams::new(alloc, Vec::new(alloc), Vec::new(alloc));
    let mut files = TwoFiles {
        alloc,
        opened: Vec::new(alloc),
        are_all: true,
    };
    let status = run(alloc, &words, NO_COLOURS, &mut files, &mut streams);
    Ok((status, streams.out, files))
}

#[test]
fn two_paths_over_the_lines_of_two_files(rt: HostRuntime) -> Result<(), Fail> {
    let (status, _, files) = run_two_files(rt.alloc())?;
    holds(status == 0, "the status is 0")?;
    let are_known = files.are_all && files.opened.len() == 2;
    holds(are_known, "both files are opened, each once")
}
