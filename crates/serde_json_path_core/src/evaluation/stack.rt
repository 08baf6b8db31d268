//! The stack of a walk's frames, and how it reaches the next node.

ghost use Rattle.std.specs.Prelude.{◌≡◌, ◌<◌, ◌≤◌, [], ◌++◌, None, Ok, IfOk, IfErr, OnOk, OnErr, MatchOption, length, option_map, option_to_list};
ghost use Rattle.serde_json_path_core.specs.Inside.Words.{view, located, step_view, nodes_in, parts_bound, AreOfKind, is_segment, IsAtNode, IsKept, SoundSegments, MayRefuse, nodes_of, top_of, entering, is_leaf, last_passed, stack_path, without_node, IsStackIn, stages_at, frames_view, arrival_view, Memory, Pattern};

use crate::child::Child;
use crate::evaluation::frame::{Arrival, Frame};
use crate::evaluation::scope::Scope;
use serde_json::Value;
use serde_json_path_functions::{Functions, QueryError};
use serde_json_path_nodes::{LocatedNode, NormalizedPath, PathElement};
use serde_json_path_syntax::{Checked, Part};

/// The node that a walk has come to, and has not passed.
#[derive(Clone, Copy)]
pub(crate) struct FoundNode<'b> {
    /// The step to it from the last frame; `None` if the last frame is at the node itself, as in a query without segments.
    pub(crate) step: Option<PathElement<'b>>,
    /// The node.
    pub(crate) value: &'b Value,
}

/// The node that a walk has come to, with its location in the memory of a vector, whose steps are lost.
#[inline(always)]
pub(crate) fn located_at<'b>(
    mut steps: Vec<PathElement<'b>>,
    frames: &[Frame<'b>],
    found: FoundNode<'b>,
) -> Result<LocatedNode<'b>, QueryError>
    ensures node { IfOk result (λ node. located node ≡ record {
      location = stack_path [] (frames_view frames.now)
          ++ option_to_list (option_map step_view found.entry.step);
      value = view found.entry.value.now;
    }) }
    ensures refused { IfErr result (λ e. e ≡ Memory) }
{
    steps.clear();
    steps.reserve_exact(frames.len())?;
    for frame in frames {
        if let Some(step) = frame.step {
            steps.push(step)?;
        }
    }
    if let Some(step) = found.step {
        steps.push(step)?;
    }
    Ok(LocatedNode::new(NormalizedPath::from_steps(steps), found.value))
}

/// Passes the next arrival of the last frame.
#[tactic(auto, using(crate::proofs::Walks::Turns::sees_passed))]
fn pass_last<'b>(frames: &mut Vec<Frame<'b>>)
    requires { 0 < length frames.old.items }
    ensures { frames_view frames.new.items ≡ last_passed (frames_view frames.old.items) }
{
    let last = frames.len() - 1;
    frames[last].pass();
}

/// Passes the node that a walk has come to.
pub(crate) fn pass_node<'b>(frames: &mut Vec<Frame<'b>>, found: FoundNode<'b>)
    requires { 0 < length frames.old.items }
    ensures { frames_view frames.new.items
        ≡ without_node (frames_view frames.old.items) (option_map step_view found.entry.step) }
{
    match found.step {
        None => frames.truncate(frames.len() - 1),
        Some(_) => pass_last(frames),
    }
}

/// Whether a value is neither an array nor an object, so that it has no children.
fn is_leaf(value: &Value) -> bool
    ensures { result ≡ is_leaf (view value.now) }
{
    !matches!(value, Value::Array(_) | Value::Object(_))
}

/// Passes the arrival that the last frame has come to, with a frame for it unless nothing can come of it. If memory is
/// refused, nothing changes.
#[tactic(auto, using(crate::proofs::Words::common_steps, crate::proofs::Walks::Turns::sees_passed_below))]
fn enter<'b>(
    query: &Checked,
    segments: &[Part],
    frames: &mut Vec<Frame<'b>>,
    arrival: Arrival<'b>,
) -> Result<(), QueryError>
    requires within { parts_bound segments.now ≤ length (nodes_in query.now) }
    requires are { AreOfKind is_segment (nodes_in query.now) segments.now }
    requires some { 0 < length frames.old.items }
    ensures ok { OnOk result (frames_view frames.new.items
        ≡ entering (stages_at (nodes_in query.now) segments.now)
        (frames_view frames.old.items) (arrival_view arrival.entry)) }
    ensures unchanged { OnErr result (frames.new.items ≡ frames.old.items) }
    ensures refused { IfErr result (λ e. e ≡ Memory) }
{
    if is_leaf(arrival.child.value) {
        pass_last(frames);
        return Ok(());
    }
    let last = frames.len() - 1;
    let Child { step, value } = arrival.child;
    frames.push(Frame::at(query, segments, Some(step), arrival.segment, value))?;
    frames[last].pass();
    Ok(())
}

/// Goes on until the next node, which is not passed, or until no frame is left. Whatever the answer, no node is passed.
/// Without a frame it looks at nothing, so no refusal comes.
#[cycle(evaluation)]
pub(crate) fn find_next<'b, F: Functions>(
    scope: &Scope<'_, 'b, F>,
    segments: &[Part],
    frames: &mut Vec<Frame<'b>>,
) -> Result<Option<FoundNode<'b>>, QueryError>
    requires below { parts_bound segments.now ≤ length (nodes_of scope.now) }
    requires sound { SoundSegments scope.now segments.now }
    requires inside { ∥ IsStackIn (top_of scope.now) (frames_view frames.old.items) ∥₁ }
    ensures kept { IsKept scope.now segments.now
        (frames_view frames.old.items) (frames_view frames.new.items) }
    ensures found { IfOk result (λ found. MatchOption found (frames.new.items ≡ [])
        (λ f. (0 < length frames.new.items) × IsAtNode scope.now segments.now
        (frames_view frames.new.items) (option_map step_view f.step) (view f.value.now))) }
    ensures after_end { frames.old.items ≡ [] → result ≡ Ok None }
    ensures refused { IfErr result (λ e. e ≡ Pattern → MayRefuse scope.now) }
{
    while let Some(last) = frames.len().checked_sub(1) {
        match segments.get(frames[last].segment) {
            None => {
                return Ok(Some(FoundNode {
                    step: None,
                    value: frames[last].value,
                }));
            }
            Some(segment) => match frames[last].next_arrival(scope, *segment)? {
                None => frames.truncate(last),
                Some(arrival) => {
                    if arrival.segment >= segments.len() {
                        return Ok(Some(FoundNode {
                            step: Some(arrival.child.step),
                            value: arrival.child.value,
                        }));
                    }
                    enter(scope.query, segments, frames, arrival)?;
                }
            },
        }
    }
    Ok(None)
}
