//! A path that is asked.

ghost use Rattle.serde_json_path.specs.Paths.{path_signatures};
ghost use Rattle.serde_json_path.specs.Fitting.{FitsBuiltin, FitsBuiltin-prop};

use serde_json_path::JsonPath;

/// A path that fits the built-in functions.
#[derive(Drop)]
pub(crate) struct AskedPath {
    pub(crate) path: JsonPath,
    /// The text that it was read from.
    pub(crate) text: String,
    /// What messages call it, unless it is the only one.
    pub(crate) name: Option<String>,
    ghost fits: { FitsBuiltin (path_signatures path) } by { FitsBuiltin-prop (path_signatures path) },
}
