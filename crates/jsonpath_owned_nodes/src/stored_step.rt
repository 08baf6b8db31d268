//! The steps of a location that borrows nothing.

ghost use Rattle.std.specs.Prelude.{◌≡◌, IfOk, string_bytes};
ghost use Rattle.jsonpath_owned_nodes.specs.Words.{step_view, BeginsWith, IsStored, step_in};

use serde_json_path_nodes::PathElement;
use std::alloc::AllocError;

/// One step of a location. The text of a name stands in a text that all names share.
#[derive(Clone, Copy)]
pub(crate) enum StoredStep {
    /// A name, which begins at the first of these bytes and ends before the second.
    Name(usize, usize),
    /// The index of an array's item.
    Index(usize),
}

/// The step with its name, if it has one.
pub(crate) fn element_of(names: &str, step: StoredStep) -> PathElement<'_>
    requires { IsStored names.now step }
    ensures { step_view result ≡ step_in names.now step }
{
    match step {
        StoredStep::Name(start, end) => PathElement::Name(&names[start..end]),
        StoredStep::Index(index) => PathElement::Index(index),
    }
}

/// Stores a step, and appends its name to those that are stored.
pub(crate) fn store(names: &mut String, element: PathElement<'_>) -> Result<StoredStep, AllocError>
    ensures grown { BeginsWith (string_bytes names.new) (string_bytes names.old) }
    ensures stored { IfOk result (IsStored (string_bytes names.new)) }
    ensures step { IfOk result (λ step.
        step_in (string_bytes names.new) step ≡ step_view element.entry) }
{
    match element {
        PathElement::Name(name) => {
            let start = names.len();
            names.push_str(name)?;
            Ok(StoredStep::Name(start, names.len()))
        }
        PathElement::Index(index) => Ok(StoredStep::Index(index)),
    }
}
