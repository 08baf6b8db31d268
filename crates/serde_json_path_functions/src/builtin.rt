//! The built-in functions (RFC 9535, sections 2.4.4 to 2.4.8).

ghost use Rattle.std.specs.Prelude.{◌≡◌, [], ◌∷◌, length, map, is_some, IfOk, IfSome, Err};
ghost use Rattle.serde_json_path_functions.specs.Words.{chars, value, logical, of_logical, kind_of_term, Takes, Gives, plain_signature, plain_meaning, counted, length_of, value_of_one, MayRefuse, pattern_meaning, builtin_functions, term_view, value_view, nodes_view, matching_view, name_of};
ghost use Rattle.serde_json_path_functions.specs.Functions as spec;
ghost use Rattle.serde_json_path_functions.specs.declared.error.QueryError.TheVariants.{Pattern};

use crate::error::QueryError;
use crate::patterns::{FindsPatterns, Matching, ReadPattern};
use crate::set::Functions;
use crate::signature::Signature;
use crate::types::{FunctionArgType, FunctionValue, LogicalType, NodesType, ValueType};
use serde_json::Value;
use std::alloc::Global;

/// The built-in functions `length`, `count`, `value`, `match` and `search`.
#[derive(Clone, Copy, Debug)]
pub struct Builtin;

/// A built-in function.
#[derive(Clone, Copy)]
enum BuiltinFunction {
    /// `length`.
    Length,
    /// `count`.
    Count,
    /// `value`.
    Value,
    /// `match`.
    Match,
    /// `search`.
    Search,
}

/// The built-in function of a name.
fn named(name: &str) -> Option<BuiltinFunction>
    ensures names { IfSome result (λ function. name.now ≡ name_of function) }
    ensures declared { is_some result ≡ is_some (builtin_functions.signature name.now) }
{
    match name {
        "length" => Some(BuiltinFunction::Length),
        "count" => Some(BuiltinFunction::Count),
        "value" => Some(BuiltinFunction::Value),
        "match" => Some(BuiltinFunction::Match),
        "search" => Some(BuiltinFunction::Search),
        _ => None,
    }
}

/// A number as a value.
fn counted<'b>(number: usize) -> ValueType<'b>
    ensures { value_view result ≡ spec.counted number }
{
    ValueType::Value(Value::from(number as u64))
}

/// How many characters a text has.
#[tactic(auto, using(std::proofs::lemmas::Str::chars_from_encodes))]
fn characters(text: &str) -> usize
    ensures { result ≡ length (chars text.now) }
{
    text.chars().count()
}

/// How many characters a text has, items an array, or members an object; Nothing for any other value.
#[tactic(auto, using(crate::proofs::Lengths::of_values))]
fn length<'b>(value: &ValueType<'b>) -> ValueType<'b>
    ensures { value_view result ≡ length_of (value_view value.now) }
{
    match value.as_value() {
        Some(Value::String(text)) => counted(characters(text.as_str())),
        Some(Value::Array(items)) => counted(items.len()),
        Some(Value::Object(members)) => counted(members.len()),
        _ => ValueType::Nothing,
    }
}

/// The value of a list's only node, or Nothing.
fn value_of_one<'b>(nodes: &NodesType<'b>) -> ValueType<'b>
    ensures { value_view result ≡ spec.value_of_one (nodes_view nodes.now) }
{
    match nodes.first() {
        Some(node) if nodes.len() == 1 => ValueType::Node(node),
        _ => ValueType::Nothing,
    }
}

/// The answer of `length`, `count` or `value`.
fn plain_answer<'b>(function: BuiltinFunction, mut args: Vec<FunctionValue<'b>>) -> ValueType<'b>
    requires { Takes (plain_signature (name_of function)) (map term_view args.items) }
    ensures { value (value_view result)
        ≡ plain_meaning (name_of function) (map term_view args.entry.items) }
{
    match (function, args.pop()) {
        (BuiltinFunction::Length, Some(FunctionValue::Value(value))) => length(&value),
        (BuiltinFunction::Count, Some(FunctionValue::Nodes(nodes))) => counted(nodes.len()),
        (BuiltinFunction::Value, Some(FunctionValue::Nodes(nodes))) => value_of_one(&nodes),
        _ => unreachable!(),
    }
}

impl FindsPatterns for Builtin {
    fn is_found(
        &self,
        alloc: Global,
        matching: Matching,
        pattern: &str,
        text: &str,
    ) -> Result<bool, QueryError> {
        Ok(ReadPattern::new(alloc, matching, pattern)?.is_found(alloc, text)?)
    }
}

/// Whether a text matches a pattern; false unless both are texts.
fn texts_match<P: FindsPatterns>(
    patterns: &P,
    alloc: Global,
    matching: Matching,
    text: &ValueType,
    pattern: &ValueType,
) -> Result<bool, QueryError>
    ensures means { IfOk result (λ found.
        let terms = value (value_view text.now) ∷ value (value_view pattern.now) ∷ [] in
        logical found ≡ pattern_meaning (matching_view matching) terms) }
    ensures refused { result ≡ Err Pattern →
        MayRefuse (Some (matching_view matching))
        (value (value_view text.now) ∷ value (value_view pattern.now) ∷ []) }
{
    match (text.as_value(), pattern.as_value()) {
        (Some(Value::String(text)), Some(Value::String(pattern))) => {
            patterns.is_found(alloc, matching, pattern.as_str(), text.as_str())
        }
        _ => Ok(false),
    }
}

/// The answer of `match` or `search`; false unless there are two arguments.
fn pattern_answer<'b, P: FindsPatterns>(
    patterns: &P,
    alloc: Global,
    matching: Matching,
    args: &[FunctionValue<'b>],
) -> Result<FunctionValue<'b>, QueryError>
    ensures means { IfOk result (λ answer.
        term_view answer ≡ pattern_meaning (matching_view matching) (map term_view args.now)) }
    ensures typed_answer { IfOk result (λ answer. kind_of_term (term_view answer) ≡ of_logical) }
    ensures refused { result ≡ Err Pattern
        → MayRefuse (Some (matching_view matching)) (map term_view args.now) }
{
    let found = match args {
        [text, pattern] => match (text, pattern) {
            (FunctionValue::Value(text), FunctionValue::Value(pattern)) => {
                texts_match(patterns, alloc, matching, text, pattern)?
            }
            _ => false,
        },
        _ => false,
    };
    Ok(FunctionValue::Logical(LogicalType::from(found)))
}

/// The answer of a built-in function.
pub(crate) fn answer_by<'b, P: FindsPatterns>(
    patterns: &P,
    alloc: Global,
    name: &str,
    args: Vec<FunctionValue<'b>>,
) -> Result<FunctionValue<'b>, QueryError>
    requires { Takes (builtin_functions.signature name.now) (map term_view args.items) }
    ensures means { IfOk result (λ answer.
        term_view answer ≡ builtin_functions.meaning name.now (map term_view args.entry.items)) }
    ensures typed_answer { IfOk result (λ answer.
        Gives (builtin_functions.signature name.now) (term_view answer)) }
    ensures pattern { result ≡ Err Pattern
        → MayRefuse (builtin_functions.by_regex name.now) (map term_view args.entry.items) }
{
    match named(name) {
        Some(BuiltinFunction::Match) => {
            pattern_answer(patterns, alloc, Matching::WholeText, args.as_slice())
        }
        Some(BuiltinFunction::Search) => {
            pattern_answer(patterns, alloc, Matching::AnyPart, args.as_slice())
        }
        Some(function) => Ok(FunctionValue::Value(plain_answer(function, args))),
        None => unreachable!(),
    }
}

impl Functions for Builtin {
    ghost use Rattle.serde_json_path_functions.specs.Inside.BuiltinTypes.{builtin_keeps_types, builtin_keeps_patterns};

    ghost set = { λ _. builtin_functions };

    ghost typed = { λ _. builtin_keeps_types };

    ghost patterned = { λ _. builtin_keeps_patterns };

    fn signature(&self, name: &str) -> Option<Signature> {
        match named(name)? {
            BuiltinFunction::Length => {
                Signature::new(&[FunctionArgType::Value], FunctionArgType::Value)
            }
            BuiltinFunction::Count | BuiltinFunction::Value => {
                Signature::new(&[FunctionArgType::Nodelist], FunctionArgType::Value)
            }
            BuiltinFunction::Match | BuiltinFunction::Search => Signature::new(
                &[FunctionArgType::Value, FunctionArgType::Value],
                FunctionArgType::Logical,
            ),
        }
    }

    fn declares(&self, name: &str) -> bool {
        named(name).is_some()
    }

    fn call<'b>(
        &self,
        alloc: Global,
        name: &str,
        args: Vec<FunctionValue<'b>>,
    ) -> Result<FunctionValue<'b>, QueryError> {
        answer_by(self, alloc, name, args)
    }
}
