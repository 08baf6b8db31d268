//! Locations that are stored, and the way down them.

ghost use Rattle.std.specs.Prelude.{◌≡◌, ◌++◌, ◌∷◌, [], List, OnOk, OnErr, string_bytes, option_map};
ghost use Rattle.jsonpath_owned_nodes.specs.Words.{view, child_at, BeginsWith, IsLocation, IsStored, step_in};
ghost use Rattle.jsonpath_owned_nodes.specs.declared.stored_step.StoredStep.{StoredStep};

use crate::runs::Runs;
use crate::stored_step::{StoredStep, element_of, store};
use serde_json::Value;
use serde_json_path_nodes::{NormalizedPath, PathElement};
use std::alloc::AllocError;

/// Stores a location as one more list of steps, with its names after those that are stored.
///
/// Where memory is refused, no list is added and no name.
pub(crate) fn push_location(
    locations: &mut Runs<StoredStep>,
    names: &mut String,
    location: &NormalizedPath<'_>,
) -> Result<(), AllocError>
    ensures grown { OnOk result (BeginsWith (string_bytes names.new) (string_bytes names.old)) }
    ensures added { OnOk result ((steps : List StoredStep)
        × (locations.new.ended ≡ locations.old.ended ++ steps ∷ [])
        × IsLocation (string_bytes names.new) steps location.now) }
    ensures locations { OnErr result (locations.new.ended ≡ locations.old.ended) }
    ensures names { OnErr result (string_bytes names.new ≡ string_bytes names.old) }
{
    let end = names.len();
    let pushed = push_steps(locations, names, location);
    if pushed.is_err() {
        names.truncate(end);
    }
    pushed
}

/// The same, but names stay where memory is refused.
fn push_steps(
    locations: &mut Runs<StoredStep>,
    names: &mut String,
    location: &NormalizedPath<'_>,
) -> Result<(), AllocError>
    ensures grown { BeginsWith (string_bytes names.new) (string_bytes names.old) }
    ensures added { OnOk result ((steps : List StoredStep)
        × (locations.new.ended ≡ locations.old.ended ++ steps ∷ [])
        × IsLocation (string_bytes names.new) steps location.now) }
    ensures locations { OnErr result (locations.new.ended ≡ locations.old.ended) }
{
    locations.restart();
    for element in location.iter() {
        locations.push(store(names, element)?)?;
    }
    locations.end()
}

/// The child that a stored step leads to.
pub(crate) fn child<'d>(value: &'d Value, names: &str, step: StoredStep) -> Option<&'d Value>
    requires { IsStored names.now step }
    ensures { option_map (λ child. view child.now) result
        ≡ child_at (view value.now) (step_in names.now step) }
{
    match element_of(names, step) {
        PathElement::Name(name) => value.get(name),
        PathElement::Index(index) => value.get(index),
    }
}
