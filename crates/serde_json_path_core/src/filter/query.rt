//! The queries in filters and in arguments of calls.

ghost use Rattle.std.specs.Prelude.{◌≡◌, ◌≤◌, IfSome, length, map, option_map, slice_get};
ghost use Rattle.serde_json_path_core.specs.Inside.Words.{view, node_value, MayEvaluate, Computes, SoundQuery, SoundSegments, results_at, values_at, values_of_segments, StandsIn, first_value, parts_bound, values_reached, nodes_of, set_of, top_of};

use crate::evaluation::child_values::child_values;
use crate::evaluation::frame::first_frames;
use crate::evaluation::scope::Scope;
use crate::evaluation::single_children::{Reached, go_down, is_wildcard};
use crate::evaluation::stack::{find_next, pass_node};
use crate::evaluation::start;
use serde_json::Value;
use serde_json_path_functions::{Functions, QueryError};
use serde_json_path_syntax::Part;

/// Where a query goes on from its start, after the segments that select one child at most.
#[inline(always)]
fn reached<'q, 'b, F: Functions>(
    scope: &Scope<'q, 'b, F>,
    query: Part,
    current: &'b Value,
) -> Reached<'q, 'b>
    requires { MayEvaluate scope.now (SoundQuery scope.now) query (view current.now) }
    ensures selects { values_at scope.now query (view current.now)
        ≡ values_reached (set_of scope.now) (top_of scope.now) (nodes_of scope.now) result }
    ensures below { parts_bound result.segments.now ≤ query.number }
    ensures sound { SoundSegments scope.now result.segments.now }
    ensures inside { IfSome result.value (λ v. StandsIn (top_of scope.now) (view v.now)) }
{
    let start = start(scope.query.part_kind(query), current, scope.root);
    go_down(scope.query, scope.query.part_segments(query), start)
}

/// The value of the first node that segments select from a value, if there is one.
#[cycle(evaluation)]
#[tactic(auto, using(crate::proofs::Walks::Turns::of_found))]
fn first_from<'b, F: Functions>(
    scope: &Scope<'_, 'b, F>,
    segments: &[Part],
    value: &'b Value,
) -> Result<Option<&'b Value>, QueryError>
    requires below { parts_bound segments.now ≤ length (nodes_of scope.now) }
    requires sound { SoundSegments scope.now segments.now }
    requires inside { StandsIn (top_of scope.now) (view value.now) }
    ensures { Computes scope.now result (λ found. option_map node_value found
        ≡ slice_get (values_of_segments scope.now segments.now (view value.now)) 0) }
{
    let mut frames = first_frames(scope.alloc, scope.query, segments, value)?;
    match find_next(scope, segments, &mut frames)? {
        Some(found) => Ok(Some(found.value)),
        None => Ok(None),
    }
}

/// The value of the first node that a query selects, if there is one. A singular query takes no memory.
#[cycle(evaluation)]
#[inline(always)]
#[tactic(auto, using(crate::proofs::Walks::Turns::of_found))]
pub(crate) fn first<'b, F: Functions>(
    scope: &Scope<'_, 'b, F>,
    query: Part,
    current: &'b Value,
) -> Result<Option<&'b Value>, QueryError>
    requires { MayEvaluate scope.now (SoundQuery scope.now) query (view current.now) }
    ensures { Computes scope.now result (λ found.
        option_map node_value found ≡ first_value (results_at scope.now query (view current.now))) }
{
    let reached = reached(scope, query, current);
    match reached.value {
        None => Ok(None),
        Some(value) => {
            if reached.segments.is_empty() {
                return Ok(Some(value));
            }
            first_from(scope, reached.segments, value)
        }
    }
}

/// The values of all nodes that segments select from a value, in order.
#[cycle(evaluation)]
#[tactic(auto, using(crate::proofs::Walks::Turns::of_found))]
pub(crate) fn all_from<'x, 'b: 'x, F: Functions>(
    scope: &Scope<'_, 'b, F>,
    segments: &[Part],
    value: &'b Value,
) -> Result<Vec<&'x Value>, QueryError>
    requires below { parts_bound segments.now ≤ length (nodes_of scope.now) }
    requires sound { SoundSegments scope.now segments.now }
    requires inside { StandsIn (top_of scope.now) (view value.now) }
    ensures { Computes scope.now result (λ found. map node_value found.items
        ≡ values_of_segments scope.now segments.now (view value.now)) }
{
    let mut frames = first_frames(scope.alloc, scope.query, segments, value)?;
    let mut found: Vec<&'x Value> = Vec::new(scope.alloc);
    'values: while let Some(node) = find_next(scope, segments, &mut frames)? {
        pass_node(&mut frames, node);
        let value: &'x Value = node.value;
        found.push(value)?;
    }
    Ok(found)
}

/// The values of all nodes that a query selects, in order.
#[cycle(evaluation)]
pub(crate) fn all_values<'x, 'q: 'x, 'b: 'x, F: Functions>(
    scope: &Scope<'q, 'b, F>,
    query: Part,
    current: &'b Value,
) -> Result<Vec<&'x Value>, QueryError>
    requires { MayEvaluate scope.now (SoundQuery scope.now) query (view current.now) }
    ensures { Computes scope.now result (λ found.
        map node_value found.items ≡ values_at scope.now query (view current.now)) }
{
    let reached = reached(scope, query, current);
    match reached.value {
        None => Ok(Vec::new(scope.alloc)),
        Some(value) => {
            if is_wildcard(scope.query, reached.segments) {
                return Ok(child_values(scope.alloc, value)?);
            }
            all_from(scope, reached.segments, value)
        }
    }
}
