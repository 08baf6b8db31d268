//! Single children of a value.

ghost use Rattle.std.specs.Prelude.{◌≡◌, option_map};
ghost use Rattle.serde_json_path_core.specs.Inside.Words.{array, object, view, items_view, members_view, by_name, child_by, item_at, position_in, child_view};

use serde_json::{Map, Value};
use serde_json_path_nodes::PathElement;

/// A child, and the step that leads to it.
#[derive(Clone, Copy)]
pub(crate) struct Child<'b> {
    pub(crate) step: PathElement<'b>,
    pub(crate) value: &'b Value,
}

/// The member of that name, if the value is an object that has it.
// Inlined, so that a search for a value alone makes no `Child`.
#[inline(always)]
pub(crate) fn member<'b>(value: &'b Value, name: &str) -> Option<Child<'b>>
    ensures { option_map child_view result ≡ child_by (view value.now) (by_name name.now) }
{
    match value {
        Value::Object(members) => member_of(members, name),
        _ => None,
    }
}

#[inline(always)]
#[tactic(auto, using(crate::proofs::Steps::Lookups::member_found, crate::proofs::Steps::Lookups::member_missing))]
fn member_of<'b>(members: &'b Map<String, Value>, name: &str) -> Option<Child<'b>>
    ensures { option_map child_view result
        ≡ child_by (object (members_view members.now.entries)) (by_name name.now) }
{
    match members.get_key_value(name) {
        Some((key, value)) => Some(Child {
            step: PathElement::Name(key.as_str()),
            value,
        }),
        None => None,
    }
}

/// The item at an index, if the value is an array that has it; a negative index counts from the end.
#[inline]
pub(crate) fn item<'b>(value: &'b Value, index: i64) -> Option<Child<'b>>
    ensures { option_map child_view result ≡ item_at (view value.now) index }
{
    match value {
        Value::Array(items) => item_of(items, index),
        _ => None,
    }
}

#[inline]
#[tactic(auto, using(crate::proofs::Steps::Lookups::item_none, crate::proofs::Steps::Lookups::item_found))]
fn item_of<'b>(items: &'b Vec<Value>, index: i64) -> Option<Child<'b>>
    ensures { option_map child_view result ≡ item_at (array (items_view items.now.items)) index }
{
    match position(index, items.len()) {
        None => None,
        Some(position) => {
            if position < items.len() {
                Some(Child {
                    step: PathElement::Index(position),
                    value: &items[position],
                })
            } else {
                None
            }
        }
    }
}

/// The position of an index in an array of `len` items, from 0; it may lie past the end.
#[inline]
fn position(index: i64, len: usize) -> Option<usize>
    ensures { result ≡ position_in index len }
{
    let distance = index.unsigned_abs() as usize;
    if index >= 0 {
        Some(distance)
    } else {
        len.checked_sub(distance)
    }
}
