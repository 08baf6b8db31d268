//! Reads of a text what is pending there.

ghost use Rattle.std.specs.Prelude.{◌≡◌, ◌<◌, ◌++◌, length, option_map, ◌⊎◌, replicate, None, Some, IfOk, IsTrue, OnOk};
ghost use Rattle.json.specs.Json.{value};
ghost use Rattle.serde_json.specs.Data.{Data, Items, Members, array, object, no_members, put as put_data};
ghost use Rattle.serde_json.specs.Read.{read as read_text};
ghost use Rattle.serde_json.specs.View.{members_view, view};
ghost use Rattle.serde_json.specs.declared.value.Value.TheVariants.{Null};
ghost use Rattle.serde_json_path_reach.specs.Inside.Rows.{IsShown, in_stead};
ghost use Rattle.serde_json_path_reach.specs.Inside.Tokens.{AreItems, AreMembers, IsRead};

use crate::bits::{PLACE, is_place, is_whole};
use crate::leaf::{leaf, pass_leaf};
use crate::passed::pass;
use crate::plan::Plan;
use crate::refused::Refused;
use json::{Reader, Scratch, Token};
use serde_json::{Map, Value};
use serde_json_path_core::PathElement;
use std::alloc::Global;

/// How many arrays and objects `serde_json` takes within each other.
const MAX_DEPTH: usize = 127;

/// What is shown of the document that a text is; null where that is nothing.
pub(crate) fn read_reached(
    alloc: Global,
    text: &str,
    plan: &Plan<'_>,
    pending: u64,
    scratch: &mut Scratch,
) -> Result<Value, Refused>
    ensures ok { IfOk result (λ v. (d : Data) × (read_text text.now ≡ Some d)
        × IsShown plan.now.rows.items pending d (Some v)) }
{
    if is_whole(pending) {
        return match Value::from_str(alloc, text) {
            Ok(document) => Ok(document),
            Err(_error) => Err(Refused),
        };
    }
    let mut reader = Reader::new(text, scratch)?;
    let found = read(alloc, &mut reader, MAX_DEPTH, plan, pending)?;
    if reader.next().is_some() {
        return Err(Refused);
    }
    match found {
        Some(document) => Ok(document),
        None => Ok(Value::Null),
    }
}

/// What is shown of a value.
#[cycle(read)]
#[inline(always)]
fn read(
    alloc: Global,
    reader: &mut Reader<'_>,
    depth: usize,
    plan: &Plan<'_>,
    pending: u64,
) -> Result<Option<Value>, Refused>
    ensures ok { IfOk result (λ v.
        (d : Data) × IsRead (value depth) reader.old reader.new d
        × IsShown plan.now.rows.items pending d v) }
    ensures shorter { OnOk result (length reader.new < length reader.old) }
{
    if is_bare(pending) {
        pass(reader, depth)?;
        return Ok(place(pending));
    }
    let token = reader.next().ok_or(Refused)?;
    match token {
        Token::BeginArray => {
            if depth == 0 {
                return Err(Refused);
            }
            read_items(alloc, reader, depth - 1, plan, pending)
        }
        Token::BeginObject => {
            if depth == 0 {
                return Err(Refused);
            }
            read_members(alloc, reader, depth - 1, plan, pending)
        }
        _ => {
            if !is_whole(pending) {
                pass_leaf(token)?;
                return Ok(place(pending));
            }
            Ok(Some(leaf(alloc, token)?))
        }
    }
}

/// What is shown of an array, from its first item on.
#[cycle(read)]
#[inline(never)]
fn read_items(
    alloc: Global,
    reader: &mut Reader<'_>,
    depth: usize,
    plan: &Plan<'_>,
    pending: u64,
) -> Result<Option<Value>, Refused>
    ensures ok { IfOk result (λ v.
        (ds : Items)
        × AreItems (value depth) (length reader.old) reader.old reader.new ds
        × IsShown plan.now.rows.items pending (array ds) v) }
    ensures shorter { OnOk result (length reader.new < length reader.old) }
{
    let mut found = Vec::new(alloc);
    let mut passed = 0usize;
    let mut position = 0usize;
    'items: while !reader.take_end_array() {
        let item = read(
            alloc,
            reader,
            depth,
            plan,
            plan.after(pending, PathElement::Index(position)),
        )?;
        position = position.checked_add(1).ok_or(Refused)?;
        match item {
            None => passed = passed.checked_add(1).ok_or(Refused)?,
            Some(item) => {
                push_nulls(&mut found, passed)?;
                passed = 0;
                found.push(item)?;
            }
        }
    }
    if found.is_empty() && !is_whole(pending) {
        return Ok(place(pending));
    }
    push_nulls(&mut found, passed)?;
    Ok(Some(Value::Array(found)))
}

/// What is shown of an object, from its first member on.
#[cycle(read)]
#[inline(never)]
fn read_members(
    alloc: Global,
    reader: &mut Reader<'_>,
    depth: usize,
    plan: &Plan<'_>,
    pending: u64,
) -> Result<Option<Value>, Refused>
    ensures ok { IfOk result (λ v.
        (ms : Members)
        × AreMembers (value depth) (length reader.old) reader.old reader.new no_members ms
        × IsShown plan.now.rows.items pending (object ms) v) }
    ensures shorter { OnOk result (length reader.new < length reader.old) }
{
    let mut found: Map<String, Value> = Map::new(alloc);
    'members: while let Some(name) = reader.next_key()? {
        let after = plan.after(pending, PathElement::Name(name));
        if after == 0 {
            pass(reader, depth)?;
            continue;
        }
        match read(alloc, reader, depth, plan, after)? {
            Some(member) => put(alloc, &mut found, name, member)?,
            // Null takes the place of an earlier member of this name.
            None => {
                if found.contains_key(name) {
                    put(alloc, &mut found, name, Value::Null)?;
                }
            }
        }
    }
    if found.is_empty() && !is_whole(pending) {
        return Ok(place(pending));
    }
    Ok(Some(Value::Object(found)))
}

/// Whether nothing is pending at a value, or its place alone.
#[inline(always)]
fn is_bare(pending: u64) -> bool
    ensures { IsTrue result → (pending ≡ 0) ⊎ (pending ≡ 2) }
{
    pending == 0 || pending == PLACE
}

/// What stands for a value of which nothing is shown inside.
#[inline(always)]
fn place(pending: u64) -> Option<Value>
    ensures { option_map view result ≡ in_stead pending }
{
    if is_place(pending) {
        Some(Value::Null)
    } else {
        None
    }
}

/// Puts a member, in the place of an earlier one of its name.
#[inline(always)]
fn put(
    alloc: Global,
    found: &mut Map<String, Value>,
    name: &str,
    member: Value,
) -> Result<(), Refused>
    ensures { OnOk result (members_view found.new.entries
        ≡ put_data name.now (view member) (members_view found.old.entries)) }
{
    let key = String::from_str(alloc, name)?;
    drop(found.insert(key, member)?);
    Ok(())
}

/// Pushes so many nulls.
fn push_nulls(found: &mut Vec<Value>, count: usize) -> Result<(), Refused>
    ensures ok { OnOk result (found.new.items ≡ found.old.items ++ replicate count Null) }
{
    for _ in 0..count {
        found.push(Value::Null)?;
    }
    Ok(())
}
