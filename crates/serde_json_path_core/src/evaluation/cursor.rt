//! Cursors over the children of one value.

ghost use Rattle.std.specs.Prelude.{◌≡◌, [], ◌∷◌, MatchOption, drop, option_map, option_to_list};
ghost use Rattle.serde_json_path_core.specs.Inside.Words.{object, view, members_view, children, members_all, sliced, child_view, cursor_left, members_from, members_left, slice_view};

use crate::child::Child;
use crate::evaluation::slice_positions::SlicePositions;
use serde_json::{Map, Value};
use serde_json_path_nodes::PathElement;
use serde_json_path_syntax::Slice;
use std::collections::btree_map::Iter;

/// The children of one value that remain, each with the step to it. The next one can be looked at before it is passed.
#[derive(Drop)]
pub(crate) enum Cursor<'b> {
    /// The items of an array, from a position on.
    Items {
        items: &'b [Value],
        next: usize,
    },
    /// Members of an object, in the order of their names.
    Members(MembersLeft<'b>),
    /// One child at most.
    One(Option<Child<'b>>),
    /// The items of an array at the positions of a slice.
    Slice {
        items: &'b [Value],
        positions: SlicePositions,
    },
}

/// Members of an object, in the order of their names.
#[derive(Drop)]
pub(crate) struct MembersLeft<'b> {
    /// The next one.
    next: Option<Child<'b>>,
    /// Those after it.
    after: Iter<'b, String, Value>,
}

impl<'b> MembersLeft<'b> {
    /// All members of an object.
    #[tactic(auto, using(crate::proofs::Steps::Lookups::of_cursors))]
    fn of(members: &'b Map<String, Value>) -> MembersLeft<'b>
        ensures { members_left result ≡ children (object (members_view members.now.entries)) }
    {
        let mut after = members.iter();
        let next = next_member(&mut after);
        MembersLeft { next, after }
    }

    /// Passes the next member, if one is left.
    fn pass(&mut self)
        ensures { members_left self.new ≡ drop 1 (members_left self.old) }
    {
        if self.next.is_some() {
            self.next = next_member(&mut self.after);
        }
    }
}

impl<'b> Cursor<'b> {
    /// A cursor over no child.
    pub(crate) fn none() -> Cursor<'b>
        ensures { cursor_left result ≡ [] }
    {
        Cursor::One(None)
    }

    /// A cursor over this child, if there is one.
    pub(crate) fn one(child: Option<Child<'b>>) -> Cursor<'b>
        ensures { cursor_left result ≡ option_to_list (option_map child_view child.entry) }
    {
        Cursor::One(child)
    }

    /// A cursor over all children of the value, in document order.
    pub(crate) fn all(value: &'b Value) -> Cursor<'b>
        ensures { cursor_left result ≡ children (view value.now) }
    {
        match value {
            Value::Array(items) => Cursor::Items {
                items: items.as_slice(),
                next: 0,
            },
            Value::Object(members) => Cursor::Members(MembersLeft::of(members)),
            _ => Cursor::none(),
        }
    }

    /// A cursor over the children that a slice selects, in its order.
    #[tactic(auto, using(crate::proofs::Steps::Lookups::of_cursors))]
    pub(crate) fn slice(value: &'b Value, slice: &Slice) -> Cursor<'b>
        ensures { cursor_left result ≡ sliced (slice_view slice.now) (view value.now) }
    {
        match value {
            Value::Array(items) => Cursor::Slice {
                items: items.as_slice(),
                positions: SlicePositions::new(slice, items.len()),
            },
            _ => Cursor::none(),
        }
    }

    /// The next child, if one is left.
    pub(crate) fn peek(&self) -> Option<Child<'b>>
        ensures { MatchOption result (cursor_left self.now ≡ [])
            (λ c. cursor_left self.now ≡ child_view c ∷ drop 1 (cursor_left self.now)) }
    {
        match self {
            Cursor::Items { items, next } => {
                let value = items.get(*next)?;
                Some(Child {
                    step: PathElement::Index(*next),
                    value,
                })
            }
            Cursor::Members(members) => members.next,
            Cursor::One(child) => *child,
            Cursor::Slice { items, positions } => positions.peek(items),
        }
    }

    /// Passes the next child, if one is left.
    pub(crate) fn pass(&mut self)
        ensures { cursor_left self.new ≡ drop 1 (cursor_left self.old) }
    {
        match self {
            Cursor::Items { items, next } => {
                if *next < items.len() {
                    *next += 1;
                }
            }
            Cursor::Members(members) => members.pass(),
            Cursor::One(child) => *child = None,
            Cursor::Slice { items, positions } => positions.pass(items),
        }
    }
}

/// Takes the next member of an object, if one is left.
fn next_member<'b>(members: &mut Iter<'b, String, Value>) -> Option<Child<'b>>
    ensures { members_from (option_map child_view result) (members_all (members_view members.new))
        ≡ members_all (members_view members.old) }
{
    let (name, value) = members.next()?;
    Some(Child {
        step: PathElement::Name(name.as_str()),
        value,
    })
}
