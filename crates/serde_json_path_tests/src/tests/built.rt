//! Queries out of parts that are made one by one.

ghost use Rattle.std.specs.Prelude.{◌≡◌, ℕ, List, [], IfOk};
ghost use Rattle.serde_json_path_syntax.specs.Words.{IsPart, calls_in, signatures_of, a_selector, name};

use serde_json::Value;
use serde_json_path_core::{
    Checked, Part, Parts, QueryKind, SegmentKind, Slice, SyntaxBuilder, Walk, evaluate,
    evaluate_located, walk,
};
use serde_json_path_functions::{Builtin, FunctionArgType, Signature};
use serde_json_path_syntax::ArgumentRef;
use std::alloc::Global;
use std::test::Fail;
use test_rows::{Came, hold_row, holds, located};

/// The query `$.a[0]`.
fn first_of_member(alloc: Global) -> Result<Checked, Fail>
    ensures { IfOk result (λ query. signatures_of query ≡ []) }
{
    let mut builder = SyntaxBuilder::new(alloc);
    let member = builder.dot_name(SegmentKind::Child, String::from_str(alloc, "a")?)?;
    let index = builder.index(0)?;
    let selectors = Parts::from(vec![in alloc; index]?);
    let bracket = builder.long_hand(SegmentKind::Child, selectors)?;
    let segments = Parts::from(vec![in alloc; member, bracket]?);
    let query = builder.query(QueryKind::Root, segments)?;
    Ok(builder.finish(query))
}

/// The query of one bracket with two names, whose parts are there.
fn two_names(
    alloc: Global,
    mut builder: SyntaxBuilder,
    first: Part,
    second: Part,
) -> Result<Checked, Fail>
    requires first { (k : List ℕ) × IsPart builder first (a_selector (name k)) }
    requires second { (k : List ℕ) × IsPart builder second (a_selector (name k)) }
    requires no_calls { calls_in builder ≡ [] }
    ensures { IfOk result (λ query. signatures_of query ≡ []) }
{
    let selectors = Parts::from(vec![in alloc; first, second]?);
    let bracket = builder.long_hand(SegmentKind::Child, selectors)?;
    let segments = Parts::from(vec![in alloc; bracket]?);
    let query = builder.query(QueryKind::Root, segments)?;
    Ok(builder.finish(query))
}

/// The query `$['a', 'b']`, its parts made in order.
fn made_in_order(alloc: Global) -> Result<Checked, Fail>
    ensures { IfOk result (λ query. signatures_of query ≡ []) }
{
    let mut builder = SyntaxBuilder::new(alloc);
    let first = builder.name(String::from_str(alloc, "a")?)?;
    let second = builder.name(String::from_str(alloc, "b")?)?;
    two_names(alloc, builder, first, second)
}

/// The query `$['a', 'b']`, for which the part of `'b'` is made first.
fn made_from_the_end(alloc: Global) -> Result<Checked, Fail>
    ensures { IfOk result (λ query. signatures_of query ≡ []) }
{
    let mut builder = SyntaxBuilder::new(alloc);
    let second = builder.name(String::from_str(alloc, "b")?)?;
    let first = builder.name(String::from_str(alloc, "a")?)?;
    two_names(alloc, builder, first, second)
}

/// The query `$..*[*,1:]`.
fn all_and_all_but_the_first(alloc: Global) -> Result<Checked, Fail>
    ensures { IfOk result (λ query. signatures_of query ≡ []) }
{
    let mut builder = SyntaxBuilder::new(alloc);
    let below = builder.dot_wildcard(SegmentKind::Descendant)?;
    let all = builder.wildcard()?;
    let (start, end, step) = (Some(1), None, None);
    let rest = builder.slice(Slice { start, end, step })?;
    let selectors = Parts::from(vec![in alloc; all, rest]?);
    let bracket = builder.long_hand(SegmentKind::Child, selectors)?;
    let segments = Parts::from(vec![in alloc; below, bracket]?);
    let query = builder.query(QueryKind::Root, segments)?;
    Ok(builder.finish(query))
}

/// What a query selects in a document.
fn selected(alloc: Global, query: &Checked, document: &str) -> Came
    requires { signatures_of query.now ≡ [] }
{
    let root = Value::from_str(alloc, document)?;
    located(alloc, &evaluate_located(alloc, query, &root, Builtin)?)
}

#[test]
fn selects_by_parts(rt: HostRuntime) -> Result<(), Fail> {
    let alloc = rt.alloc();
    let row = (r#"{"a":[1,2]}"#, "$.a[0]", "$['a'][0] ~ 1");
    hold_row(&rt, row, selected(alloc, &first_of_member(alloc)?, row.0))?;
    let row = (r#"{"b":2,"a":1}"#, "$['a', 'b']", "$['a'] $['b'] ~ 1 2");
    hold_row(&rt, row, selected(alloc, &made_from_the_end(alloc)?, row.0))?;
    let row = ("[[1,2]]", "$..*[*,1:]", "$[0][0] $[0][1] $[0][1] ~ 1 2 2");
    let query = all_and_all_but_the_first(alloc)?;
    hold_row(&rt, row, selected(alloc, &query, row.0))
}

/// Fails where a walk does not give one node, or keeps more than one place.
fn gives_one(walk: &mut Walk<'_, '_, Builtin>) -> Result<(), Fail> {
    holds(walk.places() <= 1, "more than one place")?;
    holds(
        walk.next()?.is_some() && walk.next()?.is_none(),
        "not one node",
    )?;
    holds(walk.places() == 0, "a place is left")
}

/// The one node that a query selects in a document, as a list, as values and in a walk.
fn selected_alone(alloc: Global, query: &Checked, document: &str) -> Came
    requires { signatures_of query.now ≡ [] }
{
    let root = Value::from_str(alloc, document)?;
    let count = evaluate(alloc, query, &root, Builtin)?.len();
    holds(count == 1, "not one value")?;
    gives_one(&mut walk(alloc, query, &root, Builtin)?)?;
    selected(alloc, query, document)
}

#[test]
fn gives_one_node_in_each_way(rt: HostRuntime) -> Result<(), Fail> {
    let alloc = rt.alloc();
    let row = (r#"{"a":[1]}"#, "$", r#"$ ~ {"a":[1]}"#);
    hold_row(&rt, row, selected_alone(alloc, &Checked::new(alloc), row.0))?;
    let row = (r#"{"a":[1]}"#, "$.a[0]", "$['a'][0] ~ 1");
    hold_row(
        &rt,
        row,
        selected_alone(alloc, &first_of_member(alloc)?, row.0),
    )
}

#[test]
fn tells_a_singular_query(rt: HostRuntime) -> Result<(), Fail> {
    let mut builder = SyntaxBuilder::new(rt.alloc());
    let query = builder.query(QueryKind::Root, Parts::new(rt.alloc()))?;
    assert!(rt; builder.is_singular(query));
    Ok(())
}

#[test]
fn tells_the_result_of_a_call(rt: HostRuntime) -> Result<(), Fail> {
    let alloc = rt.alloc();
    let mut builder = SyntaxBuilder::new(alloc);
    let signature = Signature::new(&[], FunctionArgType::Nodelist).ok_or("no signature")?;
    let call = builder.call(String::from_str(alloc, "f")?, signature, Vec::new(alloc))?;
    let operand = builder.called(call)?;
    let told = builder.argument(operand);
    assert!(rt; matches!(told, ArgumentRef::Call(FunctionArgType::Nodelist)));
    Ok(())
}

/// Whether a query prints a text, in both ways.
fn prints(alloc: Global, query: &Checked, wanted: &str) -> Result<bool, Fail> {
    let text = query.to_text(alloc)?;
    let other = query.to_string(alloc)?;
    Ok(text.as_str() == wanted && other == text)
}

#[test]
fn prints_and_copies_by_the_tree(rt: HostRuntime) -> Result<(), Fail> {
    let alloc = rt.alloc();
    let query = made_in_order(alloc)?;
    let other = made_from_the_end(alloc)?;
    assert!(rt; prints(alloc, &query, "$['a', 'b']")?);
    assert!(rt; prints(alloc, &other, "$['a', 'b']")?);
    assert!(rt; query == other);
    assert!(rt; query == query.try_clone(alloc)?);
    assert!(rt; query != first_of_member(alloc)?);
    Ok(())
}
