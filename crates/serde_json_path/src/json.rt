//! Paths as strings of JSON documents.

ghost use Rattle.std.specs.Prelude.{◌≡◌, Some, IfOk};
ghost use Rattle.serde_json_path.specs.Words.{string, view};

use crate::path::JsonPath;
use serde_json::Value;
use serde_json_path_parser::ParseError;
use std::alloc::{AllocError, Global};
use std::error::Error;
use std::fmt;
use std::fmt::Write;

/// Why a JSON value is not read as a path.
#[derive(Clone, Copy, Debug, PartialEq, Eq)]
pub enum FromJsonError {
    /// The value is not a string.
    NotAString,
    /// The string is refused as a path.
    Path(ParseError),
}

impl fmt::Display for FromJsonError {
    ghost use Rattle.serde_json_path.specs.FromJson.{from_json_error_text};

    ghost output = { λ e. Some (from_json_error_text e) };

    fn fmt<W: fmt::Write>(&self, f: &mut fmt::Formatter<W>) -> fmt::Result {
        match self {
            FromJsonError::NotAString => f.write_str("not a string"),
            FromJsonError::Path(e) => write!(f, "{e}"),
        }
    }
}

impl Error for FromJsonError {}

impl JsonPath {
    ghost use Rattle.serde_json_path.specs.Words.{IsReadFrom, path_tree, query_text};

    /// Reads a path from a JSON string, whose text is parsed as `parse` does (RFC 9535, section 2.1).
    ///
    /// The error is `NotAString` for every other value, and else `Path` with what the parse refuses.
    ///
    /// ```text
    /// let path = JsonPath::from_json(alloc, &config["path"])?;
    /// ```
    pub fn from_json(alloc: Global, value: &Value) -> Result<JsonPath, FromJsonError>
        ensures { IsReadFrom (view value.now) result }
    {
        match value.as_str() {
            Some(text) => JsonPath::parse(alloc, text).map_err(FromJsonError::Path),
            None => Err(FromJsonError::NotAString),
        }
    }

    /// The path's text as a JSON string. `from_json` reads the path again from it if it fits the built-in functions and was read
    /// by whole numbers; [`JsonPath::parse_by`] reads the text by all.
    ///
    /// An error comes only where memory is refused.
    pub fn to_json(&self, alloc: Global) -> Result<Value, AllocError>
        ensures { IfOk result (λ value. view value ≡ string (query_text (path_tree self.now))) }
    {
        Ok(Value::String(self.to_text(alloc)?))
    }
}
