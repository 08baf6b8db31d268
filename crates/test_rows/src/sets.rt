//! A function set that declares a name of the built-in set otherwise, and one of names of its own.

use serde_json::Value;
use serde_json_path_functions::FunctionArgType::{Logical, Nodelist};
use serde_json_path_functions::{
    Builtin, FunctionArgType, FunctionValue, Functions, LogicalType, QueryError, Signature,
    ValueType,
};
use std::alloc::Global;
use std::cell::Cell;

/// `length` and `own` give one more than the nodes that they take. `pattern`, which stands for `search`, is refused for its
/// pattern as that is, and `memory` for memory.
#[derive(Clone, Copy)]
pub struct Overriding;

impl Functions for Overriding {
    ghost use Rattle.test_rows.specs.TestSets.{overriding_functions, overriding_keeps_types, overriding_keeps_patterns};

    ghost set = { λ _. overriding_functions };

    ghost typed = { λ _. overriding_keeps_types };

    ghost patterned = { λ _. overriding_keeps_patterns };

    fn signature(&self, name: &str) -> Option<Signature> {
        match name {
            "pattern" => {
                Signature::new(&[FunctionArgType::Value, FunctionArgType::Value], Logical)
            }
            "length" | "own" => Signature::new(&[Nodelist], FunctionArgType::Value),
            "memory" => Signature::new(&[], Logical),
            _ => None,
        }
    }

    fn call<'b>(
        &self,
        alloc: Global,
        name: &str,
        mut args: Vec<FunctionValue<'b>>,
    ) -> Result<FunctionValue<'b>, QueryError> {
        match name {
            "pattern" => Builtin.call(alloc, "search", args),
            "memory" => Err(QueryError::Memory),
            _ => match args.pop() {
                Some(FunctionValue::Nodes(nodes)) => {
                    let more = Value::from(nodes.len() as u64 + 1);
                    Ok(FunctionValue::Value(ValueType::Value(more)))
                }
                _ => unreachable!(),
            },
        }
    }
}

/// `first` gives the value of its first node, or Nothing. `kids` gives its nodes back, but for the calls that the bits of
/// `refused` tell, 64 of them over and over. `both` gives whether both are true, and `none` gives Nothing. `f`, `true` and
/// `eight` are true, and `refuse` is refused for memory.
#[derive(Drop)]
pub struct Own {
    calls: Cell<u32>,
    refused: u64,
}

impl Own {
    /// The set that refuses these calls of `kids`.
    pub fn refusing(refused: u64) -> Own {
        let calls = Cell::new(0);
        Own { calls, refused }
    }

    /// Whether the next call of `kids` is refused.
    fn is_refused(&self) -> bool {
        let call = self.calls.get() % 64;
        self.calls.set(call + 1);
        (self.refused >> call) & 1 == 1
    }
}

impl Functions for Own {
    ghost use Rattle.test_rows.specs.TestSets.{own_functions, own_keeps_types, own_keeps_patterns};

    ghost set = { λ _. own_functions };

    ghost typed = { λ _. own_keeps_types };

    ghost patterned = { λ _. own_keeps_patterns };

    fn signature(&self, name: &str) -> Option<Signature> {
        match name {
            "first" => Signature::new(&[Nodelist], FunctionArgType::Value),
            "kids" => Signature::new(&[Nodelist], Nodelist),
            "both" => Signature::new(&[Logical, Logical], Logical),
            "none" => Signature::new(&[], FunctionArgType::Value),
            "f" | "true" | "refuse" => Signature::new(&[], Logical),
            "eight" => Signature::new(&[FunctionArgType::Value; 8], Logical),
            _ => None,
        }
    }

    fn call<'b>(
        &self,
        alloc: Global,
        name: &str,
        mut args: Vec<FunctionValue<'b>>,
    ) -> Result<FunctionValue<'b>, QueryError> {
        match name {
            "first" => match args.pop() {
                Some(FunctionValue::Nodes(nodes)) => match nodes.first() {
                    Some(node) => Ok(FunctionValue::Value(ValueType::Node(node))),
                    None => Ok(FunctionValue::Value(ValueType::Nothing)),
                },
                _ => unreachable!(),
            },
            "kids" if self.is_refused() => Err(QueryError::Memory),
            "kids" => match args.pop() {
                Some(FunctionValue::Nodes(nodes)) => Ok(FunctionValue::Nodes(nodes)),
                _ => unreachable!(),
            },
            "both" => match (args.pop(), args.pop()) {
                (Some(FunctionValue::Logical(b)), Some(FunctionValue::Logical(a))) => {
                    let both = a == LogicalType::True && b == LogicalType::True;
                    Ok(FunctionValue::Logical(LogicalType::from(both)))
                }
                _ => unreachable!(),
            },
            "none" => Ok(FunctionValue::Value(ValueType::Nothing)),
            "refuse" => Err(QueryError::Memory),
            _ => Ok(FunctionValue::Logical(LogicalType::True)),
        }
    }
}
