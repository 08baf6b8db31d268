//! Paths as texts.

ghost use Rattle.std.specs.Prelude.{◌≡◌, IfOk, Some, string_bytes};
ghost use Rattle.serde_json_path.specs.Words.{query_text, path_tree};

use crate::path::JsonPath;
use std::alloc::{AllocError, Global};
use std::fmt;
use std::fmt::{Formatter, Write};

impl JsonPath {
    /// The path as text, as Display prints it: `$.foo['bar'][1:10][?@.baz > 10 && @.foo.bar < 20]`.
    ///
    /// Names after dots stay as they are, names in brackets and texts stand in single quotes. There is one blank after each
    /// comma and round each operator of a filter, and no other. An error comes only where memory is refused.
    ///
    /// ```text
    /// let path = JsonPath::parse(alloc, "$[ \"a\" ]")?;
    /// let text = path.to_text(alloc)?; // $['a']
    /// ```
    pub fn to_text(&self, alloc: Global) -> Result<String, AllocError>
        ensures { IfOk result (λ text. string_bytes text ≡ query_text (path_tree self.now)) }
    {
        self.checked.to_text(alloc)
    }
}

/// The path as text, as `to_text` gives it, without memory of its own.
impl fmt::Display for JsonPath {
    ghost output = { λ path. Some (query_text (path_tree path)) };

    fn fmt<W: Write>(&self, f: &mut Formatter<W>) -> fmt::Result {
        write!(f, "{}", self.checked)
    }
}
