//! How options are used that may not be used so, though `clap` reads each.

ghost use Rattle.std.specs.Prelude.{◌≡◌, Some, map};
ghost use Rattle.jpq_options.specs.Options.{kind_of_misuse, text_of_misuse};
ghost use Rattle.jpq_options.specs.Pairs.{conflicts, needs, pair_of_row};

use clap::error::ErrorKind;
use std::alloc::{AllocError, Global};
use std::fmt;

/// The options that are used with another one alone.
static NEEDS: [(&'static str, &'static str); 3] = [
    ("strict", "lines"),
    ("line-number", "lines"),
    ("total", "count"),
];

/// The options that do nothing together, or not both.
static CONFLICTS: [(&'static str, &'static str); 46] = [
    ("check", "values"),
    ("check", "raw"),
    ("check", "locations"),
    ("check", "pointers"),
    ("check", "json"),
    ("check", "tsv"),
    ("check", "csv"),
    ("check", "count"),
    ("check", "quiet"),
    ("check", "lines"),
    ("check", "max"),
    ("check", "max-all"),
    ("check", "unique"),
    ("check", "pretty"),
    ("check", "indent"),
    ("check", "tab"),
    ("check", "ascii"),
    ("check", "null"),
    ("check", "with-filename"),
    ("check", "no-filename"),
    ("check", "no-path-number"),
    ("count", "pretty"),
    ("count", "indent"),
    ("count", "tab"),
    ("count", "ascii"),
    ("quiet", "pretty"),
    ("quiet", "indent"),
    ("quiet", "tab"),
    ("quiet", "ascii"),
    ("quiet", "null"),
    ("tsv", "max"),
    ("tsv", "max-all"),
    ("tsv", "unique"),
    ("tsv", "pretty"),
    ("tsv", "indent"),
    ("tsv", "tab"),
    ("tsv", "ascii"),
    ("csv", "max"),
    ("csv", "max-all"),
    ("csv", "unique"),
    ("csv", "pretty"),
    ("csv", "indent"),
    ("csv", "tab"),
    ("csv", "ascii"),
    ("indent", "tab"),
    ("with-filename", "no-filename"),
];

/// The table of options that need another one.
pub(crate) fn needs() -> &'static [(&'static str, &'static str)]
    ensures { map pair_of_row result.now ≡ needs }
{
    &NEEDS
}

/// The table of options that may not be used together.
pub(crate) fn conflicts() -> &'static [(&'static str, &'static str)]
    ensures { map pair_of_row result.now ≡ conflicts }
{
    &CONFLICTS
}

/// A misuse.
#[derive(Clone, Copy, Debug)]
pub(crate) enum Misuse {
    /// Two options that may not be used together.
    Together(&'static str, &'static str),
    /// An option is not used that another one needs.
    Without(&'static str),
    /// There is no path.
    NoPath,
    /// A document is named where none is read.
    CheckOfFile,
}

impl Misuse {
    /// The kind that `clap` has for it.
    pub(crate) fn kind(self) -> ErrorKind
        ensures { result ≡ kind_of_misuse self }
    {
        match self {
            Misuse::Together(_, _) | Misuse::CheckOfFile => ErrorKind::ArgumentConflict,
            Misuse::Without(_) | Misuse::NoPath => ErrorKind::MissingRequiredArgument,
        }
    }
}

impl fmt::Display for Misuse {
    ghost output = { λ misuse. Some (text_of_misuse misuse) };

    fn fmt<W: fmt::Write>(&self, f: &mut fmt::Formatter<W>) -> fmt::Result {
        match self {
            Misuse::Together(one, other) => {
                write!(f, "the argument '--{one}' cannot be used with '--{other}'")
            }
            Misuse::Without(other) => write!(
                f,
                "the following required arguments were not provided:\n  --{other}"
            ),
            Misuse::NoPath => {
                f.write_str("the following required arguments were not provided:\n  <PATH>")
            }
            Misuse::CheckOfFile => {
                f.write_str("the argument '--check' cannot be used with '[FILE]...'")
            }
        }
    }
}

/// Options of other programs, and what there is here.
static FOREIGN: [(&'static str, &'static str); 14] = [
    ("-C", "lines have colours by --color=always"),
    ("-M", "lines have no colours by --color=never"),
    ("-S", "members are sorted by name in any case"),
    ("--sort-keys", "members are sorted by name in any case"),
    ("-a", "characters above U+007F are escaped by --ascii"),
    (
        "--ascii-output",
        "characters above U+007F are escaped by --ascii",
    ),
    (
        "--arg",
        "a text is put for '$NAME' in a path by --let NAME=VALUE",
    ),
    (
        "--argjson",
        "a text is put for '$NAME' in a path by --let NAME=VALUE",
    ),
    ("--stream", "lines go out as they are found in any case"),
    ("--slurp", "there is none: each document is asked by itself"),
    (
        "-R",
        "there is none: an input is JSON, or lines of JSON with --lines",
    ),
    (
        "--compact-output",
        "JSON is compact unless --pretty is used",
    ),
    (
        "--raw-output",
        "strings are printed without quotes by --raw",
    ),
    (
        "--exit-status",
        "the exit status tells in any case whether something was selected",
    ),
];

/// What there is here in place of the option that a message of `clap` does not know.
fn own_tip(message: &str) -> Option<&'static str> {
    let (name, _) = message
        .strip_prefix("error: unexpected argument '")?
        .split_once('\'')?;
    let row = FOREIGN.iter().find(|row| row.0 == name)?;
    Some(row.1)
}

/// A message of `clap` about words, with a tip of our own where it has one that misleads: an unknown option is seldom a path.
pub(crate) fn with_own_tip(alloc: Global, message: &str) -> Result<String, AllocError> {
    let own = own_tip(message);
    let mut text = String::new(alloc);
    for (index, paragraph) in message.split("\n\n").enumerate() {
        let misleads = paragraph.starts_with("  tip: to pass");
        if misleads || (own.is_some() && paragraph.starts_with("  tip:")) {
            continue;
        }
        if index > 0 {
            text.push_str("\n\n")?;
        }
        text.push_str(paragraph)?;
        if index == 0 {
            if let Some(tip) = own {
                write!(text, "\n\n  tip: {tip}")?;
            }
        }
    }
    Ok(text)
}
