//! Why a query is refused.

ghost use Rattle.std.specs.Prelude.{◌≡◌, Some};
ghost use Rattle.serde_json_path_functions.specs.Errors.{query_error_text};
ghost use Rattle.serde_json_path_functions.specs.declared.error.QueryError.TheVariants.{Memory};

use std::alloc::{AllocError, AllocFailed};
use std::error::Error;
use std::fmt;

/// Why a query fails. Path and document are unchanged.
#[derive(Clone, Copy, Debug, PartialEq, Eq)]
pub enum QueryError {
    /// Memory was refused.
    Memory,
    /// A pattern was refused for another reason than its syntax: by `regex` for the built-in `match` and `search`, or by a set
    /// whose name stands for one of them.
    Pattern,
}

impl fmt::Display for QueryError {
    ghost output = { λ e. Some (query_error_text e) };

    fn fmt<W: fmt::Write>(&self, f: &mut fmt::Formatter<W>) -> fmt::Result {
        match self {
            QueryError::Memory => f.write_str("no memory"),
            QueryError::Pattern => f.write_str("pattern refused"),
        }
    }
}

impl Error for QueryError {}

impl From<AllocError> for QueryError {
    ghost from_gives = { λ _ e. e ≡ Memory };

    fn from(_e: AllocError) -> QueryError {
        QueryError::Memory
    }
}

impl<T: Drop> From<AllocFailed<T>> for QueryError {
    ghost from_gives = { λ _ e. e ≡ Memory };

    fn from(_e: AllocFailed<T>) -> QueryError {
        QueryError::Memory
    }
}
