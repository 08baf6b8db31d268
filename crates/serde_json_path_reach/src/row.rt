//! Segments that may be pending at a value.

ghost use Rattle.std.specs.Prelude.{◌≡◌, ◌<◌, length, true, false};
ghost use Rattle.serde_json_path_nodes.specs.Location.{Step};
ghost use Rattle.serde_json_path_syntax.specs.Words.{IsOfKind, is_segment, nodes_in, number_of, segment_at};
ghost use Rattle.serde_json_path_syntax.specs.Stages.{selectors_of};
ghost use Rattle.serde_json_path_reach.specs.Inside.Bits.{meets};
ghost use Rattle.serde_json_path_reach.specs.Inside.Steps.{any_may_admit, may_admit_by};

use crate::steps::may_admit;
use serde_json_path_core::{Checked, Part, PathElement};
use serde_json_path_syntax::SelectorRef;

/// Which children a segment may select, as far as a look at its first selectors tells.
#[derive(Clone, Copy)]
pub(crate) enum Children<'q> {
    /// The member of this name: the segment has no other selector.
    Named(&'q str),
    /// All: its first selector is a wildcard or a filter.
    All,
    /// Those that its selectors say.
    Selected,
}

/// Which children a segment may select.
pub(crate) fn children_of<'q>(query: &'q Checked, segment: Part) -> Children<'q>
    requires within { number_of segment < length (nodes_in query.now) }
    requires kind { IsOfKind is_segment (nodes_in query.now) segment }
    ensures { (s : Step)
        → any_may_admit (selectors_of (segment_at (nodes_in query.now) segment)) s ≡ true
        → may_admit_by result (selectors_of (segment_at (nodes_in query.now) segment)) s ≡ true }
{
    match query.selector_ref(segment, 0) {
        Some(SelectorRef::Wildcard | SelectorRef::Filter(_)) => Children::All,
        Some(SelectorRef::Name(name)) => match query.selector_ref(segment, 1) {
            Some(_) => Children::Selected,
            None => Children::Named(name),
        },
        _ => Children::Selected,
    }
}

/// A segment and those that follow it in a query, which may be pending at a value.
#[derive(Clone, Copy)]
pub(crate) struct Row<'q> {
    pub(crate) query: &'q Checked,
    pub(crate) segment: Part,
    /// The segments that follow.
    pub(crate) rest: &'q [Part],
    /// Which children the segment may select.
    pub(crate) children: Children<'q>,
    /// Whether places are enough of what the segments end at.
    pub(crate) places: bool,
    /// Set where the row is pending.
    pub(crate) bit: u64,
    /// What stays pending at all children: the bit of a descendant segment.
    pub(crate) again: u64,
    /// What is pending at a child that the segment may select.
    pub(crate) next: u64,
    pub ghost apart: { meets 2 bit ≡ false },
    ghost within: { number_of segment < length (nodes_in query.now) },
    ghost kind: { IsOfKind is_segment (nodes_in query.now) segment },
}

impl<'q> Row<'q> {
    ghost use Rattle.serde_json_path_nodes.specs.Views.{step_view};
    ghost use Rattle.serde_json_path_reach.specs.Inside.Rows as rows;
    ghost use Rattle.serde_json_path_reach.specs.Inside.Steps as steps;

    /// Whether some selector of the segment may admit the step.
    #[inline(always)]
    fn may_admit(&self, step: PathElement<'_>) -> bool
        ensures { result ≡ rows.may_admit_by_row self.now (step_view step.entry) }
    {
        match self.children {
            Children::Named(name) => may_admit(SelectorRef::Name(name), step),
            Children::All => true,
            Children::Selected => self.any_may_admit(step),
        }
    }

    /// The same, as each selector says.
    fn any_may_admit(&self, step: PathElement<'_>) -> bool
        ensures { result
            ≡ steps.any_may_admit (rows.selectors_of_row self.now) (step_view step.entry) }
    {
        let mut number = 0usize;
        'selectors: while let Some(selector) = self.query.selector_ref(self.segment, number) {
            if may_admit(selector, step) {
                return true;
            }
            number += 1;
        }
        false
    }

    /// What is pending by the row after the step.
    #[inline(always)]
    pub(crate) fn onward(&self, step: PathElement<'_>) -> u64
        ensures { result ≡ rows.onward self.now (step_view step.entry) }
    {
        if self.may_admit(step) {
            self.again | self.next
        } else {
            self.again
        }
    }
}
