//! What the program `jpq` is asked for by its words.
//!
//! [`options::read`] reads the words of a command line: options to run with, a text to print, or wrong use.
//! [`paths::path_lines`] takes the paths from the lines of a file.
//!
//! Definitions are in `specs/`: `Table` has the options, `Options` what the words ask for, and `Pairs` which options go together,
//! and `Paths` the lines of a file of paths.
#![tactic(auto)]

mod misuse;
pub mod options;
pub mod paths;
