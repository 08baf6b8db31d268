//! Values that are passed over.

ghost use Rattle.std.specs.Prelude.{◌<◌, length, OnOk};
ghost use Rattle.json.specs.Json.{value};
ghost use Rattle.serde_json.specs.Data.{Data, Items, Members, no_members};
ghost use Rattle.serde_json_path_reach.specs.Inside.Tokens.{AreItems, AreMembers, IsRead};

use crate::leaf::pass_leaf;
use crate::refused::Refused;
use json::{Reader, Token};

/// Passes over a value, which is read as far as it takes to see that it is one.
#[cycle(passed)]
#[inline(always)]
pub(crate) fn pass(reader: &mut Reader<'_>, depth: usize) -> Result<(), Refused>
    ensures ok { OnOk result ((d : Data)
        × IsRead (value depth) reader.old reader.new d) }
    ensures shorter { OnOk result (length reader.new < length reader.old) }
{
    let token = reader.next().ok_or(Refused)?;
    match token {
        Token::BeginArray => {
            if depth == 0 {
                return Err(Refused);
            }
            pass_items(reader, depth - 1)
        }
        Token::BeginObject => {
            if depth == 0 {
                return Err(Refused);
            }
            pass_members(reader, depth - 1)
        }
        _ => pass_leaf(token),
    }
}

/// Passes over the items of an array, and its end.
#[cycle(passed)]
#[inline(never)]
fn pass_items(reader: &mut Reader<'_>, depth: usize) -> Result<(), Refused>
    ensures ok { OnOk result ((ds : Items)
        × AreItems (value depth) (length reader.old) reader.old reader.new ds) }
    ensures shorter { OnOk result (length reader.new < length reader.old) }
{
    'items: while !reader.take_end_array() {
        pass(reader, depth)?;
    }
    Ok(())
}

/// Passes over the members of an object, and its end.
#[cycle(passed)]
#[inline(never)]
fn pass_members(reader: &mut Reader<'_>, depth: usize) -> Result<(), Refused>
    ensures ok { OnOk result ((ms : Members)
        × AreMembers (value depth) (length reader.old) reader.old reader.new no_members ms) }
    ensures shorter { OnOk result (length reader.new < length reader.old) }
{
    'members: while let Some(_) = reader.next_key()? {
        pass(reader, depth)?;
    }
    Ok(())
}
