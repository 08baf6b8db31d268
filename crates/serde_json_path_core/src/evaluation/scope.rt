//! What stays the same throughout an evaluation.

ghost use Rattle.serde_json_path_functions.specs.Functions.{Fits};
ghost use Rattle.serde_json_path_syntax.specs.Parts.{signatures_of};

use serde_json::Value;
use serde_json_path_functions::Functions;
use serde_json_path_syntax::Checked;
use std::alloc::Global;

/// What stays the same throughout an evaluation: the allocator, the query, the document, and a function set that the
/// query fits.
#[derive(Drop)]
pub(crate) struct Scope<'q, 'b, F: Functions> {
    pub(crate) alloc: Global,
    pub(crate) query: &'q Checked,
    pub(crate) root: &'b Value,
    pub(crate) functions: F,
    ghost fits: { ∥ Fits (F.set functions) (signatures_of query.now) ∥₁ },
}
