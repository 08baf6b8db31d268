//! Logical expressions of filters (RFC 9535, section 2.3.5).

ghost use Rattle.std.specs.Prelude.{◌≡◌, ◌≤◌, Some, length};
ghost use Rattle.serde_json_path_core.specs.Inside.Words.{view, MayEvaluate, Tells, SoundForm, compared_by, compared_with, filter_holds_by, holds_by, relation_holds, is_nonempty, SoundAnd, SoundBasic, SoundBasics, SoundCall, SoundComparable, SoundOperands, SoundOr, SoundQuery, SoundTest, all_hold, and_holds, answer_at, any_holds, basic_holds, or_holds, results_at, test_holds, side_view, StandsIn, nodes_of, top_of, operator_view, parts_bound};
ghost use Rattle.serde_json_path_core.specs.Inside.Computed as computed;

use crate::evaluation::scope::Scope;
use crate::filter::call::{answer, answer_holds};
use crate::filter::compare::compare_sides;
use crate::filter::comparison::{Comparison, SideForm, form_of, plain_side};
use crate::filter::query::first;
use crate::filter::side::{Side, side_of_answer};
use serde_json::Value;
use serde_json_path_functions::{Functions, QueryError};
use serde_json_path_syntax::{Basic, ComparisonOperator, Node, Operand, Part};

/// Whether a logical expression holds for `@` at the value.
#[cycle(evaluation)]
pub(crate) fn or_holds<'b, F: Functions>(
    scope: &Scope<'_, 'b, F>,
    expression: Part,
    current: &'b Value,
) -> Result<bool, QueryError>
    requires { MayEvaluate scope.now (SoundOr scope.now) expression (view current.now) }
    ensures { Tells scope.now result (or_holds scope.now expression (view current.now)) }
{
    any_holds(scope, scope.query.or_parts(expression), current)
}

/// Whether one of the operands of `||` holds.
#[cycle(evaluation)]
#[inline(always)]
pub(crate) fn any_holds<'b, F: Functions>(
    scope: &Scope<'_, 'b, F>,
    operands: &[Part],
    current: &'b Value,
) -> Result<bool, QueryError>
    requires below { parts_bound operands.now ≤ length (nodes_of scope.now) }
    requires sound { SoundOperands scope.now operands.now }
    requires inside { StandsIn (top_of scope.now) (view current.now) }
    ensures { Tells scope.now result (any_holds scope.now operands.now (view current.now)) }
{
    for operand in operands {
        if and_holds(scope, *operand, current)? {
            return Ok(true);
        }
    }
    Ok(false)
}

/// Whether all operands of `&&` hold.
#[cycle(evaluation)]
#[inline(always)]
fn and_holds<'b, F: Functions>(
    scope: &Scope<'_, 'b, F>,
    expression: Part,
    current: &'b Value,
) -> Result<bool, QueryError>
    requires { MayEvaluate scope.now (SoundAnd scope.now) expression (view current.now) }
    ensures { Tells scope.now result (and_holds scope.now expression (view current.now)) }
{
    all_hold(scope, scope.query.and_parts(expression), current)
}

/// Whether each of some operands of `&&` holds.
#[cycle(evaluation)]
#[inline(always)]
fn all_hold<'b, F: Functions>(
    scope: &Scope<'_, 'b, F>,
    operands: &[Part],
    current: &'b Value,
) -> Result<bool, QueryError>
    requires below { parts_bound operands.now ≤ length (nodes_of scope.now) }
    requires sound { SoundBasics scope.now operands.now }
    requires inside { StandsIn (top_of scope.now) (view current.now) }
    ensures { Tells scope.now result (all_hold scope.now operands.now (view current.now)) }
{
    for part in operands {
        if !basic_holds(scope, *part, current)? {
            return Ok(false);
        }
    }
    Ok(true)
}

/// The same, after a first comparison. Not inlined, so that a filter of one comparison takes nothing of it.
#[cycle(evaluation)]
#[inline(never)]
fn others_hold<'b, F: Functions>(
    scope: &Scope<'_, 'b, F>,
    operands: &[Part],
    current: &'b Value,
) -> Result<bool, QueryError>
    requires below { parts_bound operands.now ≤ length (nodes_of scope.now) }
    requires sound { SoundBasics scope.now operands.now }
    requires inside { StandsIn (top_of scope.now) (view current.now) }
    ensures { Tells scope.now result (all_hold scope.now operands.now (view current.now)) }
{
    all_hold(scope, operands, current)
}

/// Whether a parenthesis, a comparison or a test holds.
#[cycle(evaluation)]
#[inline(always)]
fn basic_holds<'b, F: Functions>(
    scope: &Scope<'_, 'b, F>,
    expression: Part,
    current: &'b Value,
) -> Result<bool, QueryError>
    requires { MayEvaluate scope.now (SoundBasic scope.now) expression (view current.now) }
    ensures { Tells scope.now result (basic_holds scope.now expression (view current.now)) }
{
    match scope.query.node(expression) {
        Node::Basic(basic) => match basic {
            Basic::Relation {
                left,
                operator,
                right,
            } => relation_holds(scope, *left, *operator, *right, current),
            Basic::Paren { negated, inner } => {
                Ok(not_if(*negated, or_holds(scope, *inner, current)?))
            }
            Basic::Test { negated, operand } => {
                Ok(not_if(*negated, test_holds(scope, *operand, current)?))
            }
        },
        _ => unreachable!(),
    }
}

/// What was found, or its opposite where it is negated.
#[inline(always)]
fn not_if(negated: bool, holds: bool) -> bool
    ensures { result ≡ computed.not_if negated holds }
{
    if negated { !holds } else { holds }
}

/// Whether a query selects a node, or a call's answer holds.
#[cycle(evaluation)]
#[inline(always)]
fn test_holds<'b, F: Functions>(
    scope: &Scope<'_, 'b, F>,
    operand: Part,
    current: &'b Value,
) -> Result<bool, QueryError>
    requires { MayEvaluate scope.now (SoundTest scope.now) operand (view current.now) }
    ensures { Tells scope.now result (test_holds scope.now operand (view current.now)) }
{
    match scope.query.node(operand) {
        Node::Operand(operand) => match operand {
            Operand::Query(query) => exists(scope, *query, current),
            Operand::Call(call) => call_holds(scope, *call, current),
            Operand::Literal(_) => unreachable!(),
        },
        _ => unreachable!(),
    }
}

/// Whether a query selects a node (RFC 9535, section 2.3.5.2.1).
#[cycle(evaluation)]
#[inline(never)]
fn exists<'b, F: Functions>(
    scope: &Scope<'_, 'b, F>,
    query: Part,
    current: &'b Value,
) -> Result<bool, QueryError>
    requires { MayEvaluate scope.now (SoundQuery scope.now) query (view current.now) }
    ensures { Tells scope.now result (is_nonempty (results_at scope.now query (view current.now))) }
{
    Ok(first(scope, query, current)?.is_some())
}

/// Whether a call's answer holds as a test (RFC 9535, section 2.4.2).
#[cycle(evaluation)]
#[inline(never)]
fn call_holds<'b, F: Functions>(
    scope: &Scope<'_, 'b, F>,
    call: Part,
    current: &'b Value,
) -> Result<bool, QueryError>
    requires { MayEvaluate scope.now (SoundCall scope.now) call (view current.now) }
    ensures { Tells scope.now result
        (computed.answer_holds (answer_at scope.now call (view current.now))) }
{
    let answer = answer(scope, call, current)?;
    Ok(answer_holds(&answer))
}

/// Whether a comparison of two comparables holds, as one of several in an expression. The form of each is found where it is
/// wanted: forms that were kept over the other side's search would cost more than they spare.
#[cycle(evaluation)]
#[inline(always)]
fn relation_holds<'b, F: Functions>(
    scope: &Scope<'_, 'b, F>,
    left: Part,
    operator: ComparisonOperator,
    right: Part,
    current: &'b Value,
) -> Result<bool, QueryError>
    requires left { MayEvaluate scope.now (SoundComparable scope.now) left (view current.now) }
    requires right { MayEvaluate scope.now (SoundComparable scope.now) right (view current.now) }
    ensures { Tells scope.now result
        (relation_holds scope.now left (operator_view operator) right (view current.now)) }
{
    match form_of(scope, left) {
        SideForm::Plain(left) => {
            let left = plain_side(scope, left, current);
            compares_with(scope, left, operator, form_of(scope, right), current)
        }
        SideForm::Called(left) => {
            answer_compares(scope, left, operator, form_of(scope, right), current)
        }
    }
}

/// Whether a filter holds that begins with a comparison, whose forms were found before the nodes. Without a call it takes no
/// memory.
#[cycle(evaluation)]
#[inline(always)]
pub(crate) fn compares<'b, F: Functions>(
    scope: &Scope<'_, 'b, F>,
    comparison: &Comparison<'_>,
    current: &'b Value,
) -> Result<bool, QueryError>
    requires left { SoundForm scope.now comparison.now.left }
    requires right { SoundForm scope.now comparison.now.right }
    requires below { parts_bound comparison.now.others.now ≤ length (nodes_of scope.now) }
    requires others { SoundBasics scope.now comparison.now.others.now }
    requires inside { StandsIn (top_of scope.now) (view current.now) }
    ensures { Tells scope.now result (filter_holds_by scope.now comparison.now (view current.now)) }
{
    let holds = first_compares(scope, comparison, current)?;
    if !holds || comparison.others.is_empty() {
        return Ok(holds);
    }
    others_hold(scope, comparison.others, current)
}

/// Whether its comparison does.
#[cycle(evaluation)]
#[inline(always)]
fn first_compares<'b, F: Functions>(
    scope: &Scope<'_, 'b, F>,
    comparison: &Comparison<'_>,
    current: &'b Value,
) -> Result<bool, QueryError>
    requires left { SoundForm scope.now comparison.now.left }
    requires right { SoundForm scope.now comparison.now.right }
    requires inside { StandsIn (top_of scope.now) (view current.now) }
    ensures { Tells scope.now result (holds_by scope.now comparison.now (view current.now)) }
{
    match comparison.left {
        SideForm::Plain(left) => {
            let left = plain_side(scope, left, current);
            compares_with(scope, left, comparison.operator, comparison.right, current)
        }
        SideForm::Called(left) => {
            answer_compares(scope, left, comparison.operator, comparison.right, current)
        }
    }
}

/// Whether a comparison holds whose left side is the answer of a call.
#[cycle(evaluation)]
#[inline(never)]
fn answer_compares<'b, F: Functions>(
    scope: &Scope<'_, 'b, F>,
    call: Part,
    operator: ComparisonOperator,
    right: SideForm<'_>,
    current: &'b Value,
) -> Result<bool, QueryError>
    requires left { SoundForm scope.now (SideForm.Called call) }
    requires right { SoundForm scope.now right }
    requires inside { StandsIn (top_of scope.now) (view current.now) }
    ensures { Tells scope.now result (compared_with scope.now
        (compared_by scope.now (SideForm.Called call) (view current.now))
        (operator_view operator) right.entry (view current.now)) }
{
    let answer = answer(scope, call, current)?;
    compares_with(scope, side_of_answer(&answer), operator, right, current)
}

/// Whether a comparison holds whose left side is found.
#[cycle(evaluation)]
#[inline(always)]
fn compares_with<'b, F: Functions>(
    scope: &Scope<'_, 'b, F>,
    left: Side<'_>,
    operator: ComparisonOperator,
    right: SideForm<'_>,
    current: &'b Value,
) -> Result<bool, QueryError>
    requires right { SoundForm scope.now right }
    requires inside { StandsIn (top_of scope.now) (view current.now) }
    ensures { Tells scope.now result (compared_with scope.now (Some (side_view left.entry))
        (operator_view operator) right.entry (view current.now)) }
{
    match right {
        SideForm::Plain(right) => {
            let right = plain_side(scope, right, current);
            Ok(compare_sides(scope.query.numbers(), operator, left, right))
        }
        SideForm::Called(right) => compares_with_answer(scope, left, operator, right, current),
    }
}

/// Whether a comparison holds whose left side is found, and whose right side is the answer of a call.
#[cycle(evaluation)]
#[inline(never)]
fn compares_with_answer<'b, F: Functions>(
    scope: &Scope<'_, 'b, F>,
    left: Side<'_>,
    operator: ComparisonOperator,
    call: Part,
    current: &'b Value,
) -> Result<bool, QueryError>
    requires right { SoundForm scope.now (SideForm.Called call) }
    requires inside { StandsIn (top_of scope.now) (view current.now) }
    ensures { Tells scope.now result (compared_with scope.now (Some (side_view left.entry))
        (operator_view operator) (SideForm.Called call) (view current.now)) }
{
    let answer = answer(scope, call, current)?;
    let right = side_of_answer(&answer);
    Ok(compare_sides(scope.query.numbers(), operator, left, right))
}
