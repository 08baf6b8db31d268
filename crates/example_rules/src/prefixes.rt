//! A function set of the program's own.

ghost use Rattle.std.specs.Prelude.{◌≡◌};
ghost use Rattle.serde_json_path_functions.specs.Terms.{value_view};
ghost use Rattle.example_rules.specs.Prefixes.{begins_with};

use serde_json::Value;
use serde_json_path::QueryError;
use serde_json_path::functions::FunctionArgType::{Logical, Value as AValue};
use serde_json_path::functions::{FunctionValue, Functions, LogicalType, Signature, ValueType};
use std::alloc::Global;

/// A set of one function: `starts_with(Value, Value) -> Logical` tells whether both are texts, of which the first begins with
/// the second.
#[derive(Clone, Copy, Debug)]
pub struct Prefixes;

/// Whether both are texts, of which the first begins with the second.
fn begins_with(text: &ValueType<'_>, start: &ValueType<'_>) -> bool
    ensures { result ≡ begins_with (value_view text.now) (value_view start.now) }
{
    match (text.as_value(), start.as_value()) {
        (Some(Value::String(text)), Some(Value::String(start))) => {
            text.as_bytes().starts_with(start.as_bytes())
        }
        _ => false,
    }
}

impl Functions for Prefixes {
    ghost use Rattle.example_rules.specs.Prefixes.{prefixes, prefixes_keep_types, prefixes_keep_patterns};

    ghost set = { λ _. prefixes };

    ghost typed = { λ _. prefixes_keep_types };

    ghost patterned = { λ _. prefixes_keep_patterns };

    fn signature(&self, name: &str) -> Option<Signature> {
        match name {
            "starts_with" => Signature::new(&[AValue, AValue], Logical),
            _ => None,
        }
    }

    fn call<'b>(
        &self,
        alloc: Global,
        name: &str,
        mut args: Vec<FunctionValue<'b>>,
    ) -> Result<FunctionValue<'b>, QueryError> {
        match name {
            "starts_with" => match (args.pop(), args.pop()) {
                (Some(FunctionValue::Value(start)), Some(FunctionValue::Value(text))) => Ok(
                    FunctionValue::Logical(LogicalType::from(begins_with(&text, &start))),
                ),
                _ => unreachable!(),
            },
            _ => unreachable!(),
        }
    }
}
