//! The positions that a slice selects, one after the other (RFC 9535, section 2.3.4.2).

ghost use Rattle.std.specs.Prelude.{◌≡◌, ◌<◌, ◌+ℤ◌, ◌-ℤ◌, pos, [], ◌∷◌, Some, MatchOption, drop};
ghost use Rattle.serde_json_path_core.specs.Inside.Words.{bound_of, step_of, count_within, positions_by, falling, rising, child_view, positions_left, positions_view, slice_view};

use crate::child::Child;
use serde_json::Value;
use serde_json_path_nodes::PathElement;
use serde_json_path_syntax::Slice;

/// Evenly spaced positions, rising or falling.
#[derive(Clone, Copy)]
pub(crate) struct SlicePositions {
    /// Whether the positions rise.
    upwards: bool,
    /// The next position.
    next: usize,
    /// The distance between two neighbours.
    stride: usize,
    /// How many positions are left.
    left: usize,
}

impl SlicePositions {
    /// The positions that a slice selects in an array of `len` items, in the slice's order.
    pub(crate) fn new(slice: &Slice, len: usize) -> SlicePositions
        ensures { let s = slice_view slice.now in positions_view result
            ≡ positions_by (step_of s) s len }
    {
        let step = slice.step.unwrap_or(1);
        let stride = step.unsigned_abs() as usize;
        if step > 0 {
            SlicePositions::rising(slice, len, stride)
        } else if step < 0 {
            SlicePositions::falling(slice, len, stride)
        } else {
            SlicePositions {
                upwards: true,
                next: 0,
                stride: 0,
                left: 0,
            }
        }
    }

    /// From the slice's start up to its end.
    fn rising(slice: &Slice, len: usize, stride: usize) -> SlicePositions
        requires { 0 < stride }
        ensures { positions_view result ≡ rising (slice_view slice.now) len stride }
    {
        let start = match slice.start {
            None => 0,
            Some(bound) => items_before(bound, len),
        };
        let end = match slice.end {
            None => len,
            Some(bound) => items_before(bound, len),
        };
        SlicePositions {
            upwards: true,
            next: start,
            stride,
            left: strides_within(end.saturating_sub(start), stride),
        }
    }

    /// From the slice's start down to its end, each of which may lie just before position 0.
    fn falling(slice: &Slice, len: usize, stride: usize) -> SlicePositions
        requires { 0 < stride }
        ensures { positions_view result ≡ falling (slice_view slice.now) len stride }
    {
        let start = items_up_to_start(slice.start, len);
        let end = items_up_to_end(slice.end, len);
        SlicePositions {
            upwards: false,
            next: start.saturating_sub(1),
            stride,
            left: strides_within(start.saturating_sub(end), stride),
        }
    }

    /// The item at the next position, if one is left.
    #[tactic(auto, using(crate::proofs::Steps::Positions::of_positions))]
    pub(crate) fn peek<'b>(&self, items: &'b [Value]) -> Option<Child<'b>>
        ensures { MatchOption result (positions_left self.now items.now ≡ [])
            (λ c. positions_left self.now items.now
            ≡ child_view c ∷ drop 1 (positions_left self.now items.now)) }
    {
        let position = self.next;
        if self.left == 0 || position >= items.len() {
            return None;
        }
        Some(Child {
            step: PathElement::Index(position),
            value: &items[position],
        })
    }

    /// Passes the item at the next position, if one is left.
    #[tactic(auto, using(crate::proofs::Steps::Positions::of_positions))]
    pub(crate) fn pass(&mut self, items: &[Value])
        ensures { positions_left self.new items.now ≡ drop 1 (positions_left self.old items.now) }
    {
        let position = self.next;
        if self.left == 0 || position >= items.len() {
            return;
        }
        self.left -= 1;
        // A saturated sum is past the last item too.
        self.next = if self.upwards {
            position.saturating_add(self.stride)
        } else {
            position.saturating_sub(self.stride)
        };
    }
}

/// Items before `bound`; a negative bound counts from the end.
fn items_before(bound: i64, len: usize) -> usize
    ensures { pos result ≡ bound_of (pos len) (Some bound) (pos 0) (pos 0) (pos len) }
{
    let distance = bound.unsigned_abs() as usize;
    if bound >= 0 {
        distance.min(len)
    } else {
        len.saturating_sub(distance)
    }
}

/// Items up to and including the start of falling positions.
#[tactic(auto, using(std::proofs::lemmas::Int::ints, std::proofs::lemmas::Int::clamps))]
fn items_up_to_start(start: Option<i64>, len: usize) -> usize
    ensures { let last = pos len -ℤ pos 1 in
        pos result ≡ (bound_of (pos len) start last (pos 0 -ℤ pos 1) last +ℤ pos 1) }
{
    match start {
        None => len,
        Some(bound) => items_up_to(bound, len),
    }
}

/// Items up to and including the end of falling positions.
#[tactic(auto, using(std::proofs::lemmas::Int::ints, std::proofs::lemmas::Int::clamps))]
fn items_up_to_end(end: Option<i64>, len: usize) -> usize
    ensures { let last = pos len -ℤ pos 1 in pos result
        ≡ (bound_of (pos len) end ((pos 0 -ℤ pos len) -ℤ pos 1) (pos 0 -ℤ pos 1) last +ℤ pos 1) }
{
    match end {
        None => 0,
        Some(bound) => items_up_to(bound, len),
    }
}

/// Items up to and including `bound`; a negative bound counts from the end.
fn items_up_to(bound: i64, len: usize) -> usize
    ensures { pos result
        ≡ (bound_of (pos len) (Some bound) (pos 0) (pos 0 -ℤ pos 1) (pos len -ℤ pos 1) +ℤ pos 1) }
{
    let distance = bound.unsigned_abs() as usize;
    if bound >= 0 {
        (distance + 1).min(len)
    } else {
        len.saturating_sub(distance - 1)
    }
}

/// How many multiples of `stride`, from 0 on, are below `width`.
fn strides_within(width: usize, stride: usize) -> usize
    requires { 0 < stride }
    ensures { result ≡ count_within width stride }
{
    if width == 0 {
        0
    } else {
        (width - 1) / stride + 1
    }
}
