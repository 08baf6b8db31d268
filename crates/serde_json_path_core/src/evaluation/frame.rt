//! Frames of a walk: a frame is a value at which one segment is being applied.

ghost use Rattle.std.specs.Prelude.{◌≡◌, ◌+◌, ◌<◌, ◌≤◌, ◌^◌, [], ◌∷◌, None, Some, IfOk, IfErr, drop, length, option_map};
ghost use Rattle.serde_json_path_core.specs.Inside.Words.{view, step_view, nodes_in, parts_bound, selector_bound, AreOfKind, IsOfKind, is_segment, IsAtAdmitted, IsAtArrival, Passes, Skips, SoundOr, SoundSegment, SoundSelector, MayRefuse, nodes_of, top_of, child_view, cursor_left, frame_view, frames_view, arrival_view, candidates, entered, opened, begun, passed, IsInside, AllStandIn, selector_view, stage_at, stages_at, Pattern};

use crate::child::{Child, item, member};
use crate::evaluation::cursor::Cursor;
use crate::evaluation::scope::Scope;
use crate::filter::comparison::leading_comparison;
use crate::filter::logic::{any_holds, compares};
use serde_json::Value;
use serde_json_path_functions::{Functions, QueryError};
use serde_json_path_nodes::PathElement;
use serde_json_path_syntax::{Checked, Part, SegmentKind, SelectorRef};
use std::alloc::{AllocError, Global};

/// A value at which a segment is applied, and the step that led to it.
///
/// The cursor holds the children that the current selector has not visited yet. After the last selector it holds the
/// children into which a descendant segment has yet to go down.
#[derive(Drop)]
pub(crate) struct Frame<'b> {
    pub(crate) step: Option<PathElement<'b>>,
    pub(crate) value: &'b Value,
    pub(crate) segment: usize,
    pub(crate) selector: usize,
    pub(crate) cursor: Cursor<'b>,
}

/// A child, and the segment to apply at it next.
#[derive(Clone, Copy)]
pub(crate) struct Arrival<'b> {
    pub(crate) segment: usize,
    pub(crate) child: Child<'b>,
}

/// The children that a selector chooses from.
fn choose<'b>(query: &Checked, selector_ref: SelectorRef<'_>, value: &'b Value) -> Cursor<'b>
    ensures { cursor_left result
        ≡ candidates (selector_view (nodes_in query.now) selector_ref.entry) (view value.now) }
{
    match selector_ref {
        SelectorRef::Name(name) => Cursor::one(member(value, name)),
        SelectorRef::Wildcard => Cursor::all(value),
        SelectorRef::Index(index) => Cursor::one(item(value, index)),
        SelectorRef::Slice(slice) => Cursor::slice(value, &slice),
        SelectorRef::Filter(_) => Cursor::all(value),
    }
}

/// The children for one selector of a segment; after the last selector, those to go down to.
#[tactic(auto, using(crate::proofs::Walks::Turns::of_stages))]
fn open<'b>(query: &Checked, segment: Part, selector: usize, value: &'b Value) -> Cursor<'b>
    requires within { segment.number < length (nodes_in query.now) }
    requires kind { IsOfKind is_segment (nodes_in query.now) segment }
    ensures { cursor_left result
        ≡ opened (stage_at (nodes_in query.now) segment).kind
        (drop selector (stage_at (nodes_in query.now) segment).selectors) (view value.now) }
{
    match query.selector_ref(segment, selector) {
        Some(selector_ref) => choose(query, selector_ref, value),
        None => match query.segment_kind(segment) {
            SegmentKind::Child => Cursor::none(),
            SegmentKind::Descendant => Cursor::all(value),
        },
    }
}

/// The children with which a segment begins.
#[tactic(auto, using(crate::proofs::Walks::Turns::of_stages))]
fn begin<'b>(query: &Checked, segments: &[Part], number: usize, value: &'b Value) -> Cursor<'b>
    requires within { parts_bound segments.now ≤ length (nodes_in query.now) }
    requires are { AreOfKind is_segment (nodes_in query.now) segments.now }
    ensures { cursor_left result
        ≡ begun (drop number (stages_at (nodes_in query.now) segments.now)) (view value.now) }
{
    match segments.get(number) {
        Some(segment) => open(query, *segment, 0, value),
        None => Cursor::none(),
    }
}

impl<'b> Frame<'b> {
    /// The frame at a value, where the segment of that number is applied.
    pub(crate) fn at(
        query: &Checked,
        segments: &[Part],
        step: Option<PathElement<'b>>,
        number: usize,
        value: &'b Value,
    ) -> Frame<'b>
        requires within { parts_bound segments.now ≤ length (nodes_in query.now) }
        requires are { AreOfKind is_segment (nodes_in query.now) segments.now }
        ensures { frame_view result ≡ entered (option_map step_view step.entry) number
            (drop number (stages_at (nodes_in query.now) segments.now)) (view value.now) }
    {
        Frame {
            step,
            value,
            segment: number,
            selector: 0,
            cursor: begin(query, segments, number, value),
        }
    }

    /// Comes to the next arrival, if one is left, and does not pass it. Whatever the answer, no arrival is passed.
    #[cycle(evaluation)]
    pub(crate) fn next_arrival<F: Functions>(
        &mut self,
        scope: &Scope<'_, 'b, F>,
        segment: Part,
    ) -> Result<Option<Arrival<'b>>, QueryError>
        requires within { segment.number < length (nodes_of scope.now) }
        requires number { self.old.segment + 1 < 2 ^ 64 }
        requires sound { SoundSegment scope.now segment }
        requires inside { ∥ IsInside (top_of scope.now) (frame_view self.old) ∥₁ }
        ensures passes { Passes scope.now segment (frame_view self.old) (frame_view self.new) }
        ensures found { IfOk result (λ found.
            IsAtArrival scope.now segment (frame_view self.new) (option_map arrival_view found)) }
        ensures refused { IfErr result (λ e. e ≡ Pattern → MayRefuse scope.now) }
    {
        // Looked up at each node: a frame that keeps it costs more than this look.
        while let Some(selector_ref) = scope.query.selector_ref(segment, self.selector) {
            match next_admitted(scope, selector_ref, &mut self.cursor)? {
                Some(child) => {
                    return Ok(Some(Arrival {
                        segment: self.segment + 1,
                        child,
                    }));
                }
                None => {
                    self.selector += 1;
                    self.cursor = open(scope.query, segment, self.selector, self.value);
                }
            }
        }
        match scope.query.segment_kind(segment) {
            SegmentKind::Child => Ok(None),
            SegmentKind::Descendant => match self.cursor.peek() {
                None => Ok(None),
                Some(child) => Ok(Some(Arrival {
                    segment: self.segment,
                    child,
                })),
            },
        }
    }

    /// Passes the arrival that it has come to.
    pub(crate) fn pass(&mut self)
        ensures { frame_view self.new ≡ passed (frame_view self.old) }
    {
        self.cursor.pass();
    }
}

/// The frames with which a walk begins: one, where the first of the segments is applied at the value.
#[inline(always)]
pub(crate) fn first_frames<'b>(
    alloc: Global,
    query: &Checked,
    segments: &[Part],
    value: &'b Value,
) -> Result<Vec<Frame<'b>>, AllocError>
    requires within { parts_bound segments.now ≤ length (nodes_in query.now) }
    requires are { AreOfKind is_segment (nodes_in query.now) segments.now }
    ensures { IfOk result (λ frames. frames_view frames.items
        ≡ entered None 0 (stages_at (nodes_in query.now) segments.now) (view value.now) ∷ []) }
{
    let mut frames = Vec::new(alloc);
    frames.push(Frame::at(query, segments, None, 0, value))?;
    Ok(frames)
}

/// Comes to the next child that the selector admits, if one is left. Whatever the answer, none that it admits is passed.
#[cycle(evaluation)]
fn next_admitted<'b, F: Functions>(
    scope: &Scope<'_, 'b, F>,
    selector_ref: SelectorRef<'_>,
    cursor: &mut Cursor<'b>,
) -> Result<Option<Child<'b>>, QueryError>
    requires below { selector_bound selector_ref ≤ length (nodes_of scope.now) }
    requires sound { SoundSelector scope.now selector_ref }
    requires inside { AllStandIn (top_of scope.now) (cursor_left cursor.old) }
    ensures skips { Skips scope.now selector_ref.entry (cursor_left cursor.old)
        (cursor_left cursor.new) }
    ensures found { IfOk result (λ found.
        IsAtAdmitted scope.now selector_ref.entry
        (cursor_left cursor.new) (option_map child_view found)) }
    ensures refused { IfErr result (λ e. e ≡ Pattern → MayRefuse scope.now) }
{
    match selector_ref {
        SelectorRef::Filter(test) => next_passing(scope, test, cursor),
        _ => Ok(cursor.peek()),
    }
}

/// Comes to the next child for which a logical expression holds, if one is left. Of a comparison with which it begins, what is the
/// same for each child is looked up before them.
#[cycle(evaluation)]
#[inline(never)]
#[tactic(auto, using(crate::proofs::Walks::Turns::of_found))]
fn next_passing<'b, F: Functions>(
    scope: &Scope<'_, 'b, F>,
    test: Part,
    cursor: &mut Cursor<'b>,
) -> Result<Option<Child<'b>>, QueryError>
    requires below { test.number < length (nodes_of scope.now) }
    requires sound { SoundOr scope.now test }
    requires inside { AllStandIn (top_of scope.now) (cursor_left cursor.old) }
    ensures skips { Skips scope.now (SelectorRef.Filter test)
        (cursor_left cursor.old) (cursor_left cursor.new) }
    ensures found { IfOk result (λ found.
        IsAtAdmitted scope.now (SelectorRef.Filter test)
        (cursor_left cursor.new) (option_map child_view found)) }
    ensures refused { IfErr result (λ e. e ≡ Pattern → MayRefuse scope.now) }
{
    let Some(comparison) = leading_comparison(scope, test) else {
        return next_holding(scope, test, cursor);
    };
    while let Some(child) = cursor.peek() {
        if compares(scope, &comparison, child.value)? {
            // Looked at again, so that the comparison need not keep the child's step.
            return Ok(cursor.peek());
        }
        cursor.pass();
    }
    Ok(None)
}

/// The same for any logical expression.
#[cycle(evaluation)]
#[inline(always)]
#[tactic(auto, using(crate::proofs::Walks::Turns::of_found))]
fn next_holding<'b, F: Functions>(
    scope: &Scope<'_, 'b, F>,
    test: Part,
    cursor: &mut Cursor<'b>,
) -> Result<Option<Child<'b>>, QueryError>
    requires below { test.number < length (nodes_of scope.now) }
    requires sound { SoundOr scope.now test }
    requires inside { AllStandIn (top_of scope.now) (cursor_left cursor.old) }
    ensures skips { Skips scope.now (SelectorRef.Filter test)
        (cursor_left cursor.old) (cursor_left cursor.new) }
    ensures found { IfOk result (λ found.
        IsAtAdmitted scope.now (SelectorRef.Filter test)
        (cursor_left cursor.new) (option_map child_view found)) }
    ensures refused { IfErr result (λ e. e ≡ Pattern → MayRefuse scope.now) }
{
    let operands = scope.query.or_parts(test);
    while let Some(child) = cursor.peek() {
        if any_holds(scope, operands, child.value)? {
            return Ok(cursor.peek());
        }
        cursor.pass();
    }
    Ok(None)
}
