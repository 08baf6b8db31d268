//! Going down by segments that select one child at most, without a frame.

ghost use Rattle.std.specs.Prelude.{◌≡◌, ◌∷◌, [], ◌≤◌, ◌<◌, List, IfSome, IsSome, IsTrue, true, length, option_map, option_to_list};
ghost use Rattle.serde_json_path_core.specs.Inside.Words.{Data, view, FunctionSet, node_value, segments_at, nodes_in, parts_bound, selector_view, stage_at, Node, are_singular, Selector, child, wildcard, AreOfKind, IsOfKind, is_segment, StandsIn, EndsIn, SelectOnly, candidate_values, is_single, single_view, values_from, values_reached};

use crate::child::item;
use serde_json::Value;
use serde_json_path_syntax::{Checked, Part, SelectorRef};

/// A selector of one child at most.
#[derive(Clone, Copy)]
pub(crate) enum SingleSelector<'q> {
    /// The member of that name.
    Name(&'q str),
    /// The item at that index.
    Index(i64),
}

/// Where a query goes on, after segments that select one child at most.
#[derive(Clone, Copy)]
pub(crate) struct Reached<'q, 'b> {
    /// The segments that are left.
    pub(crate) segments: &'q [Part],
    /// The value at which they begin; `None` if a child is missing, so that nothing is selected.
    pub(crate) value: Option<&'b Value>,
}

/// A name or an index; `None` for any other selector.
#[inline(always)]
fn name_or_index(selector_ref: SelectorRef<'_>) -> Option<SingleSelector<'_>>
    ensures found { (nodes : List Node) → IfSome result (λ single.
        selector_view nodes selector_ref.entry ≡ single_view single) }
    ensures complete { (nodes : List Node)
        → is_single (selector_view nodes selector_ref.entry) ≡ true
        → IsSome result }
{
    match selector_ref {
        SelectorRef::Name(name) => Some(SingleSelector::Name(name)),
        SelectorRef::Index(index) => Some(SingleSelector::Index(index)),
        SelectorRef::Wildcard | SelectorRef::Slice(_) | SelectorRef::Filter(_) => None,
    }
}

/// The selector of a child segment that is one name or one index; `None` for any other segment.
#[inline(always)]
fn single_selector(query: &Checked, segment: Part) -> Option<SingleSelector<'_>>
    requires within { segment.number < length (nodes_in query.now) }
    requires kind { IsOfKind is_segment (nodes_in query.now) segment }
    ensures found { IfSome result (λ single. stage_at (nodes_in query.now) segment
        ≡ record { kind = child; selectors = single_view single ∷ [] }) }
    ensures complete { (only : Selector) → stage_at (nodes_in query.now) segment
        ≡ record { kind = child; selectors = only ∷ [] } → is_single only ≡ true → IsSome result }
{
    match query.only_selector(segment) {
        Some(only) => name_or_index(only),
        None => None,
    }
}

/// The name or index of which segments consist; `None` for any others.
#[inline(always)]
pub(crate) fn only_child<'q>(query: &'q Checked, segments: &[Part]) -> Option<SingleSelector<'q>>
    requires within { parts_bound segments.now ≤ length (nodes_in query.now) }
    requires are { AreOfKind is_segment (nodes_in query.now) segments.now }
    ensures { IfSome result (λ single.
        SelectOnly (nodes_in query.now) segments.now (single_view single)) }
{
    let [segment] = segments else {
        return None;
    };
    single_selector(query, *segment)
}

/// Whether segments consist of one child wildcard.
pub(crate) fn is_wildcard(query: &Checked, segments: &[Part]) -> bool
    requires within { parts_bound segments.now ≤ length (nodes_in query.now) }
    requires are { AreOfKind is_segment (nodes_in query.now) segments.now }
    ensures { IsTrue result → SelectOnly (nodes_in query.now) segments.now wildcard }
{
    let [segment] = segments else {
        return false;
    };
    matches!(query.only_selector(*segment), Some(SelectorRef::Wildcard))
}

/// The value of the child that a selector selects, if there is one.
#[inline(always)]
#[tactic(auto, using(crate::proofs::Words::common_steps, crate::proofs::Walks::SingleChildren::member_value))]
pub(crate) fn select<'b>(single: SingleSelector<'_>, value: &'b Value) -> Option<&'b Value>
    ensures { option_to_list (option_map node_value result)
        ≡ candidate_values (single_view single.entry) (view value.now) }
{
    match single {
        SingleSelector::Name(name) => value.get(name),
        SingleSelector::Index(index) => Some(item(value, index)?.value),
    }
}

/// Goes down by the first of these segments, as long as each selects one child at most.
#[inline(always)]
#[tactic(auto, using(crate::proofs::Walks::SingleChildren::of_ends))]
pub(crate) fn go_down<'q, 'b>(
    query: &Checked,
    segments: &'q [Part],
    value: &'b Value,
) -> Reached<'q, 'b>
    requires within { parts_bound segments.now ≤ length (nodes_in query.now) }
    requires are { AreOfKind is_segment (nodes_in query.now) segments.now }
    ensures selects { (F : FunctionSet) (top : Data)
        → values_from F top (segments_at (nodes_in query.now) segments.now) (view value.now)
        ≡ values_reached F top (nodes_in query.now) result }
    ensures whole { are_singular (segments_at (nodes_in query.now) segments.now) ≡ true
        → IfSome result.value (λ v. result.segments.now ≡ []) }
    ensures ends { EndsIn segments.now result.segments.now }
    ensures inside { (top : Data) → StandsIn top (view value.now)
        → IfSome result.value (λ v. StandsIn top (view v.now)) }
{
    let mut reached = value;
    for (passed, segment) in segments.iter().enumerate() {
        let Some(selector) = single_selector(query, *segment) else {
            return Reached {
                segments: &segments[passed..],
                value: Some(reached),
            };
        };
        match select(selector, reached) {
            Some(child) => reached = child,
            None => {
                return Reached {
                    segments: &segments[passed..],
                    value: None,
                };
            }
        }
    }
    Reached {
        segments: &segments[segments.len()..],
        value: Some(reached),
    }
}
