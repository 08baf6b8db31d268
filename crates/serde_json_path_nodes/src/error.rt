//! The errors of a list that has too many nodes, or none.

ghost use Rattle.std.specs.Prelude.{Some, ◌++◌, codes};
ghost use Rattle.std.specs.Fmt.{decimal};

use std::error::Error;
use std::fmt;

/// A list had more than one node; holds how many.
#[derive(Clone, Copy, Debug, PartialEq, Eq)]
pub struct AtMostOneError(pub usize);

impl fmt::Display for AtMostOneError {
    ghost output = { λ error. Some (codes "at most one node expected, found " ++ decimal error.0) };

    fn fmt<W: fmt::Write>(&self, f: &mut fmt::Formatter<W>) -> fmt::Result {
        let found = self.0;
        write!(f, "at most one node expected, found {found}")
    }
}

impl Error for AtMostOneError {}

/// A list had no node, or more than one.
#[derive(Clone, Copy, Debug, PartialEq, Eq)]
pub enum ExactlyOneError {
    /// There was no node.
    Empty,
    /// There was more than one node; holds how many.
    MoreThanOne(usize),
}

impl fmt::Display for ExactlyOneError {
    ghost use Rattle.serde_json_path_nodes.specs.Text.{exactly_one_text};

    ghost output = { λ error. Some (exactly_one_text error) };

    fn fmt<W: fmt::Write>(&self, f: &mut fmt::Formatter<W>) -> fmt::Result {
        match self {
            ExactlyOneError::Empty => write!(f, "one node expected, found none"),
            ExactlyOneError::MoreThanOne(found) => write!(f, "one node expected, found {found}"),
        }
    }
}

impl Error for ExactlyOneError {}
