//! Steps that a selector may admit.

ghost use Rattle.std.specs.Prelude.{◌≡◌, List};
ghost use Rattle.serde_json_path_nodes.specs.Views.{step_view};
ghost use Rattle.serde_json_path_syntax.specs.Stages.{selector_view};
ghost use Rattle.serde_json_path_syntax.specs.declared.node.Node.{Node};
ghost use Rattle.serde_json_path_reach.specs.Inside.Steps as steps;

use serde_json_path_core::PathElement;
use serde_json_path_syntax::SelectorRef;

/// Whether the selector may admit the step, as far as the step tells.
#[inline(always)]
pub(crate) fn may_admit(selector: SelectorRef<'_>, step: PathElement<'_>) -> bool
    ensures { (nodes : List Node) → result
        ≡ steps.may_admit (selector_view nodes selector.entry) (step_view step.entry) }
{
    match (selector, step) {
        (SelectorRef::Name(name), PathElement::Name(other)) => name == other,
        (SelectorRef::Name(_), PathElement::Index(_)) => false,
        (SelectorRef::Index(index), PathElement::Index(position)) => {
            index < 0 || index.cast_unsigned() == position as u64
        }
        (SelectorRef::Index(_) | SelectorRef::Slice(_), PathElement::Name(_)) => false,
        _ => true,
    }
}
