//! Values that are no arrays and no objects.

ghost use Rattle.std.specs.Prelude.{◌≡◌, Some, IfOk, IsSome, OnOk};
ghost use Rattle.json.specs.Reads.{token_of};
ghost use Rattle.serde_json.specs.View.{view};
ghost use Rattle.serde_json_path_reach.specs.Inside.Leaves.{leaf_of};

use crate::number::{is_number, number};
use crate::refused::Refused;
use json::Token;
use serde_json::Value;
use std::alloc::Global;

/// The value that a token is.
#[inline(always)]
pub(crate) fn leaf(alloc: Global, token: Token<'_>) -> Result<Value, Refused>
    ensures { IfOk result (λ v. leaf_of (token_of token.entry) ≡ Some (view v)) }
{
    match token {
        Token::String(text) => Ok(Value::String(String::from_str(alloc, text)?)),
        Token::Number(text) => match number(text) {
            Some(number) => Ok(Value::Number(number)),
            None => Err(Refused),
        },
        Token::Bool(b) => Ok(Value::Bool(b)),
        Token::Null => Ok(Value::Null),
        _ => Err(Refused),
    }
}

/// Refuses a token that is no value.
#[inline(always)]
pub(crate) fn pass_leaf(token: Token<'_>) -> Result<(), Refused>
    ensures { OnOk result (IsSome (leaf_of (token_of token.entry))) }
{
    match token {
        Token::String(_) => Ok(()),
        Token::Bool(_) => Ok(()),
        Token::Null => Ok(()),
        Token::Number(text) if is_number(text) => Ok(()),
        _ => Err(Refused),
    }
}
