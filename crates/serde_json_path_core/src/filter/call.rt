//! Calls of functions in filters (RFC 9535, section 2.4).

ghost use Rattle.std.specs.Prelude.{◌≡◌, Some, IfOk};
ghost use Rattle.serde_json_path_core.specs.Inside.Words.{view, kind_of_term, MayEvaluate, Computes, SoundArgument, SoundCall, SoundQuery, answer_at, given_at, results_at, kind_view, term_view, result_kind, call_at, nodes_of, set_of};
ghost use Rattle.serde_json_path_core.specs.Inside.Computed as computed;

use crate::evaluation::scope::Scope;
use crate::filter::logic::or_holds;
use crate::filter::query::{all_values, first};
use serde_json::Value;
use serde_json_path_functions::{
    FunctionArgType, FunctionValue, Functions, LogicalType, NodesType, QueryError, ValueType,
};
use serde_json_path_syntax::{LiteralValue, Node, Operand, Part};

/// Whether a function's answer holds as a test (RFC 9535, section 2.4.2).
pub(crate) fn answer_holds(answer: &FunctionValue<'_>) -> bool
    ensures { result ≡ computed.answer_holds (term_view answer.now) }
{
    match answer {
        FunctionValue::Value(_) => false,
        FunctionValue::Nodes(nodes) => !nodes.is_empty(),
        FunctionValue::Logical(truth) => *truth == LogicalType::True,
    }
}

/// An answer as an argument of that type (RFC 9535, section 2.4.2).
fn answer_as<'x>(answer: FunctionValue<'x>, kind: FunctionArgType) -> FunctionValue<'x>
    ensures { term_view result ≡ computed.answer_as (kind_view kind) (term_view answer.entry) }
{
    match kind {
        FunctionArgType::Value | FunctionArgType::Nodelist => answer,
        FunctionArgType::Logical => {
            FunctionValue::Logical(LogicalType::from(answer_holds(&answer)))
        }
    }
}

/// The answer of a call, with `@` at the value.
#[cycle(evaluation)]
#[tactic(auto, using(crate::proofs::Steps::Answered::of_calls))]
pub(crate) fn answer<'x, 'q: 'x, 'b: 'x, F: Functions>(
    scope: &Scope<'q, 'b, F>,
    call: Part,
    current: &'b Value,
) -> Result<FunctionValue<'x>, QueryError>
    requires { MayEvaluate scope.now (SoundCall scope.now) call (view current.now) }
    ensures kind { IfOk result (λ answer.
        Some (kind_of_term (term_view answer))
        ≡ result_kind (set_of scope.now).signature (call_at (nodes_of scope.now) call)) }
    ensures computes { Computes scope.now result (λ answer.
        term_view answer ≡ answer_at scope.now call (view current.now)) }
{
    let name = scope.query.called_name(call);
    let parameters = scope.query.parameters(call);
    let mut given: Vec<FunctionValue<'x>> = Vec::new(scope.alloc);
    for (argument, kind) in scope.query.arguments(call).iter().zip(parameters.iter()) {
        let term: FunctionValue<'x> = argument_as(scope, *argument, *kind, current)?;
        given.push(term)?;
    }
    scope.functions.call(scope.alloc, name, given)
}

/// Evaluates an argument for a parameter of that type (RFC 9535, section 2.4.3).
#[cycle(evaluation)]
fn argument_as<'x, 'q: 'x, 'b: 'x, F: Functions>(
    scope: &Scope<'q, 'b, F>,
    argument: Part,
    kind: FunctionArgType,
    current: &'b Value,
) -> Result<FunctionValue<'x>, QueryError>
    requires { MayEvaluate scope.now (SoundArgument scope.now (kind_view kind))
        argument (view current.now) }
    ensures kind { IfOk result (λ term. kind_of_term (term_view term) ≡ kind_view kind) }
    ensures computes { Computes scope.now result (λ term.
        term_view term ≡ given_at scope.now argument (kind_view kind) (view current.now)) }
{
    match scope.query.node(argument) {
        Node::Operand(operand) => match operand {
            Operand::Literal(LiteralValue::Value(literal)) => {
                let literal: &'x Value = literal;
                Ok(FunctionValue::Value(ValueType::Node(literal)))
            }
            Operand::Literal(LiteralValue::Number(number)) => {
                Ok(FunctionValue::Value(ValueType::Value(number.value())))
            }
            Operand::Literal(LiteralValue::Decimal(held)) => {
                let literal: &'x Value = held.as_ref().value();
                Ok(FunctionValue::Value(ValueType::Node(literal)))
            }
            Operand::Query(query) => result_as(scope, *query, kind, current),
            Operand::Call(call) => {
                let answer: FunctionValue<'x> = answer(scope, *call, current)?;
                Ok(answer_as(answer, kind))
            }
        },
        Node::LogicalOr(_) => {
            let holds = or_holds(scope, argument, current)?;
            Ok(FunctionValue::Logical(LogicalType::from(holds)))
        }
        _ => unreachable!(),
    }
}

/// Evaluates a query that is an argument, for a parameter of that type (RFC 9535, section 2.4.3).
#[cycle(evaluation)]
fn result_as<'x, 'q: 'x, 'b: 'x, F: Functions>(
    scope: &Scope<'q, 'b, F>,
    query: Part,
    kind: FunctionArgType,
    current: &'b Value,
) -> Result<FunctionValue<'x>, QueryError>
    requires { MayEvaluate scope.now (SoundQuery scope.now) query (view current.now) }
    ensures kind { IfOk result (λ term. kind_of_term (term_view term) ≡ kind_view kind) }
    ensures computes { Computes scope.now result (λ term.
        term_view term
        ≡ computed.result_as (kind_view kind) (results_at scope.now query (view current.now))) }
{
    match kind {
        FunctionArgType::Value => match first(scope, query, current)? {
            Some(node) => {
                let node: &'x Value = node;
                Ok(FunctionValue::Value(ValueType::Node(node)))
            }
            None => Ok(FunctionValue::Value(ValueType::Nothing)),
        },
        FunctionArgType::Nodelist => {
            let nodes: Vec<&'x Value> = all_values(scope, query, current)?;
            Ok(FunctionValue::Nodes(NodesType::from(nodes)))
        }
        FunctionArgType::Logical => {
            let exists = first(scope, query, current)?.is_some();
            Ok(FunctionValue::Logical(LogicalType::from(exists)))
        }
    }
}
