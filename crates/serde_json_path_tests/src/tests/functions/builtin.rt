//! Types of functions, and what the built-in functions answer.

ghost use Rattle.std.specs.Prelude.{◌≡◌, [], ◌∷◌, Some};
ghost use Rattle.serde_json_path_functions.specs.Functions.{of_nodes, of_value, plain_signature};

use serde_json::Value;
use serde_json_path_functions::FunctionArgType::{Logical, Nodelist};
use serde_json_path_functions::{
    Builtin, FunctionArgType, FunctionValue, Functions, LogicalType, NodesType, Signature,
    ValueType,
};
use std::alloc::Global;
use std::test::Fail;
use test_rows::{Came, hold_pairs, hold_rows};

/// An answer of type Value, as JSON or the word `Nothing`.
fn printed_answer(alloc: Global, answer: &FunctionValue) -> Came {
    match answer {
        FunctionValue::Value(value) => match value.as_value() {
            Some(value) => Ok(value.to_string(alloc)?),
            None => Ok(String::from_str(alloc, "Nothing")?),
        },
        _ => Ok(String::from_str(alloc, "another type")?),
    }
}

/// The answer of a function to `number` nodes, each of them the document.
fn answer_to(alloc: Global, name: &str, document: &Value, number: usize) -> Came
    requires { (plain_signature name.now
        ≡ Some (record { params = of_nodes ∷ []; result = of_value })) }
{
    let mut nodes = Vec::new(alloc);
    for _ in 0..number {
        nodes.push(document)?;
    }
    let mut args = Vec::new(alloc);
    args.push(FunctionValue::Nodes(NodesType::from(nodes)))?;
    let answer = Builtin.call(alloc, name, args)?;
    printed_answer(alloc, &answer)
}

/// A value, and its length.
const LENGTHS: &[&str] = &[
    r#""" -> 0"#,
    r#""a\u00e9\ud834\udd1e" -> 3"#,
    "[] -> 0",
    "[1,[2,3]] -> 2",
    r#"{"a":1,"b":{"c":2}} -> 2"#,
    "12 -> Nothing",
    "true -> Nothing",
    "null -> Nothing",
];

/// The length of a value, printed.
fn length_of(alloc: Global, document: &str) -> Came {
    let value = Value::from_str(alloc, document)?;
    let mut args = Vec::new(alloc);
    args.push(FunctionValue::Value(ValueType::Node(&value)))?;
    let answer = Builtin.call(alloc, "length", args)?;
    printed_answer(alloc, &answer)
}

#[test]
fn length_of_values(rt: HostRuntime) -> Result<(), Fail> {
    hold_rows(&rt, LENGTHS, length_of)
}

/// A number of nodes, and what `count` and `value` answer to so many.
const NODES: &[&str] = &["0 -> 0, Nothing", "1 -> 1, true", "2 -> 2, Nothing"];

/// What `count` and `value` answer to so many nodes.
fn answers_to(alloc: Global, number: &str) -> Came {
    let number = number.parse::<usize>()?;
    let document = Value::from(true);
    let count = answer_to(alloc, "count", &document, number)?;
    let value = answer_to(alloc, "value", &document, number)?;
    Ok(format!(in alloc; "{count}, {value}")?)
}

#[test]
fn count_and_value_of_nodes(rt: HostRuntime) -> Result<(), Fail> {
    hold_rows(&rt, NODES, answers_to)
}

#[test]
fn signatures_have_eight_parameters_at_most(rt: HostRuntime) -> Result<(), Fail> {
    let params = [Logical; 9];
    assert!(rt; Signature::new(&params, Nodelist).is_none());
    assert!(rt; Signature::new(&[FunctionArgType::Value; 9], Logical).is_none());
    let eight = Signature::new(&params[..8], Nodelist).ok_or("eight parameters are refused")?;
    assert_eq!(rt; (eight.params(), eight.result()), (&params[..8], Nodelist));
    Ok(())
}

/// Parameters and the type of a result, and whether a signature of them is that of `fn(Logical) -> Nodelist`.
const SIGNATURES: &[(Types, &str)] = &[
    ((&[Logical], Nodelist), "true"),
    ((&[Logical], Logical), "false"),
    ((&[Nodelist], Nodelist), "false"),
    ((&[], Nodelist), "false"),
    ((&[Logical, Logical], Nodelist), "false"),
];

type Types = (&'static [FunctionArgType], FunctionArgType);

/// Whether the signature of types is that of `fn(Logical) -> Nodelist`.
fn is_same(alloc: Global, (params, answer): Types) -> Came {
    let one = Signature::new(&[Logical], Nodelist).ok_or("no signature")?;
    let other = Signature::new(params, answer).ok_or("no other signature")?;
    Ok(format!(in alloc; "{}", one.is_same(&other))?)
}

#[test]
fn signatures_are_the_same_by_their_types(rt: HostRuntime) -> Result<(), Fail> {
    hold_pairs(&rt, SIGNATURES, is_same)
}

#[test]
fn types_by_default(rt: HostRuntime) -> Result<(), Fail> {
    assert_eq!(rt; LogicalType::default(), LogicalType::False);
    assert_eq!(rt; LogicalType::from(true), LogicalType::True);
    assert_eq!(rt; LogicalType::from(false), LogicalType::False);
    assert!(rt; ValueType::default().as_value().is_none());
    Ok(())
}
