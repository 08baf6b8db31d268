//! A function set before the built-in one.

ghost use Rattle.std.specs.Prelude.{◌≡◌, [], ◌∷◌, map, IfOk};
ghost use Rattle.serde_json_path_functions.specs.Words.{before_builtin, term_view};
ghost use Rattle.serde_json_path_functions.specs.Functions.{nodes, Takes};
ghost use Rattle.test_rows.specs.TestSets.{overriding_functions};

use serde_json::Value;
use serde_json_path_functions::FunctionArgType::Nodelist;
use serde_json_path_functions::{Both, Builtin, FunctionValue, Functions, NodesType};
use std::alloc::Global;
use std::test::Fail;
use test_rows::Overriding;

/// The list of no nodes, as arguments.
fn no_nodes<'b>(alloc: Global) -> Result<Vec<FunctionValue<'b>>, Fail>
    ensures { IfOk result (λ args. map term_view args.items ≡ nodes [] ∷ []) }
{
    let mut args = Vec::new(alloc);
    args.push(FunctionValue::Nodes(NodesType::from(Vec::new(alloc))))?;
    Ok(args)
}

/// Whether a name of `Overriding`, or else a built-in one, takes a list of nodes.
fn takes_nodes(name: &str) -> bool {
    match Both(&Overriding, Builtin).signature(name) {
        Some(signature) => signature.params() == [Nodelist].as_slice(),
        None => false,
    }
}

/// Whether a name of `Overriding`, or else a built-in one, answers this value to no nodes.
fn answers(alloc: Global, name: &str, wanted: &Value) -> Result<bool, Fail>
    requires { Takes ((before_builtin overriding_functions).signature name.now) (nodes [] ∷ []) }
{
    match Both(&Overriding, Builtin).call(alloc, name, no_nodes(alloc)?)? {
        FunctionValue::Value(value) => Ok(value.as_value() == Some(wanted)),
        _ => Ok(false),
    }
}

#[test]
fn own_functions_stand_first(rt: HostRuntime) -> Result<(), Fail> {
    let alloc = rt.alloc();
    assert!(rt; answers(alloc, "length", &Value::from(1u64))?);
    assert!(rt; answers(alloc, "own", &Value::from(1u64))?);
    assert!(rt; answers(alloc, "count", &Value::from(0u64))?);
    Ok(())
}

#[test]
fn names_of_both_are_declared(rt: HostRuntime) -> Result<(), Fail> {
    assert!(rt; takes_nodes("length") && takes_nodes("own") && takes_nodes("count"));
    assert!(rt; Both(&Overriding, Builtin).signature("search").is_some());
    assert!(rt; Both(&Overriding, Builtin).signature("other").is_none());
    Ok(())
}
