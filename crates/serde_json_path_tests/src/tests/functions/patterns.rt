//! What `match` and `search` answer.

ghost use Rattle.std.specs.Prelude.{◌≡◌, map, Some, IfOk};
ghost use Rattle.serde_json_path_functions.specs.Functions.{Takes, matching_signature, builtin_signature};
ghost use Rattle.serde_json_path_functions.specs.Terms.{term_view};

use serde_json::Value;
use serde_json_path_functions::{
    Builtin, CachedPatterns, FunctionValue, Functions, LogicalType, PatternStore, ValueType,
};
use std::alloc::Global;
use std::test::Fail;
use test_rows::{Came, alike, fields, hold_rows};

/// The value of a JSON text, or Nothing for the empty text.
fn value_of(alloc: Global, json: &str) -> Result<ValueType<'static>, Fail> {
    if json.is_empty() {
        return Ok(ValueType::Nothing);
    }
    Ok(ValueType::Value(Value::from_str(alloc, json)?))
}

/// Two values as arguments, each a JSON text.
pub(crate) fn arguments(
    alloc: Global,
    text: &str,
    pattern: &str,
) -> Result<Vec<FunctionValue<'static>>, Fail>
    ensures { IfOk result (λ args. Takes (Some matching_signature) (map term_view args.items)) }
{
    let mut args = Vec::new(alloc);
    args.push(FunctionValue::Value(value_of(alloc, text)?))?;
    args.push(FunctionValue::Value(value_of(alloc, pattern)?))?;
    Ok(args)
}

/// What a set answers: whether the text matches, or that the pattern is refused.
fn told<F: Functions>(
    alloc: Global,
    functions: &F,
    name: &str,
    args: Vec<FunctionValue<'static>>,
) -> Came
    requires { Takes ((F.set functions.now).signature name.now) (map term_view args.items) }
{
    match functions.call(alloc, name, args) {
        Ok(FunctionValue::Logical(truth)) => {
            let is_true = truth == LogicalType::True;
            Ok(format!(in alloc; "{is_true}")?)
        }
        Ok(_) => Err(Fail::from("another type")),
        Err(e) => Ok(e.to_string(alloc)?),
    }
}

/// What a function answers to two values, each a JSON text. It is asked of `Builtin`, and twice of a set that keeps patterns,
/// which has a matcher at the second time.
fn answer_to(alloc: Global, name: &str, given: &str) -> Came
    requires { builtin_signature name.now ≡ Some matching_signature }
{
    let (text, pattern) = fields(given)?;
    let store = PatternStore::new();
    let kept = CachedPatterns::new(alloc, &store);
    let storeless = CachedPatterns::without_store(alloc);
    let mut answer = told(alloc, &Builtin, name, arguments(alloc, text, pattern)?)?;
    for _ in 0..2 {
        let args = arguments(alloc, text, pattern)?;
        answer = alike(answer, told(alloc, &kept, name, args)?)?;
        let args = arguments(alloc, text, pattern)?;
        answer = alike(answer, told(alloc, &storeless, name, args)?)?;
    }
    Ok(answer)
}

/// A text, a pattern, and whether `match` is true of them.
const MATCHES: &[&str] = &[
    r#""a" ~ "a" -> true"#,
    r#""ab" ~ "a" -> false"#,
    r#""ax" ~ "a)|(b" -> true"#,
    r#""xb" ~ "a)|(b" -> true"#,
    r#""xbx" ~ "a)|(b" -> false"#,
    r#""bar" ~ "|" -> false"#,
    r#""" ~ "|" -> true"#,
    r#""x" ~ "(" -> false"#,
    r#""\n" ~ "." -> false"#,
    r#""\r" ~ "." -> false"#,
    r#""\u2028" ~ "." -> true"#,
    r#"1 ~ "a" -> false"#,
    r#""a" ~ 1 -> false"#,
    r#" ~ "a" -> false"#,
    r#""a" ~  -> false"#,
    r#""Marge Simpson" ~ "M[A-Za-z ]*Simpson" -> true"#,
    r#""Bart Simpson" ~ "M[A-Za-z ]*Simpson" -> false"#,
];

/// A text, a pattern, and whether `search` is true of them.
const SEARCHES: &[&str] = &[
    r#""bab" ~ "a" -> true"#,
    r#""x" ~ "(" -> false"#,
    r#"1 ~ "a" -> false"#,
    r#""a" ~ 1 -> false"#,
    r#" ~ "a" -> false"#,
    r#""Ned Flanders" ~ "Flanders" -> true"#,
    r#""Marge Simpson" ~ "Flanders" -> false"#,
];

#[test]
fn matches_the_whole_text(rt: HostRuntime) -> Result<(), Fail> {
    hold_rows(&rt, MATCHES, |alloc, row| answer_to(alloc, "match", row))
}

#[test]
fn searches_in_the_text(rt: HostRuntime) -> Result<(), Fail> {
    hold_rows(&rt, SEARCHES, |alloc, row| answer_to(alloc, "search", row))
}

/// A text, a pattern, and what `match` and `search` answer: one that would be too great is refused, and one that `regex`
/// cannot read is not found.
const GREAT: &[&str] = &[
    r#""a" ~ "a{1000}{1000}" -> pattern refused"#,
    r#""a" ~ "a{1000}{1000" -> false"#,
];

#[test]
fn refuses_patterns_that_are_too_great(rt: HostRuntime) -> Result<(), Fail> {
    hold_rows(&rt, GREAT, |alloc, row| answer_to(alloc, "match", row))?;
    hold_rows(&rt, GREAT, |alloc, row| answer_to(alloc, "search", row))
}
