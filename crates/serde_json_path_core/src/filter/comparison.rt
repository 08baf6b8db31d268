//! The comparisons of filters (RFC 9535, section 2.3.5.2.2), and how their sides are found.
//!
//! Where a filter begins with a comparison and has no `||`, what is the same for each node is looked up before the nodes.

ghost use Rattle.std.specs.Prelude.{◌≡◌, ◌<◌, ◌≤◌, Some, IfSome, length, true};
ghost use Rattle.serde_json_path_core.specs.Inside.Words.{Data, view, part_query, segments_at, are_singular, is_singular, parts_bound, IsComparisonOf, SoundForm, SoundPlain, compared_by, first_compared, form_bound, plain_compared, SoundComparable, SoundOr, SoundQuery, SoundSegments, compared_at, values_at, values_of_segments, nodes_of, side_view};

use crate::evaluation::scope::Scope;
use crate::evaluation::single_children::{SingleSelector, go_down, only_child, select};
use crate::filter::side::{Side, side_of_literal, side_of_value};
use serde_json::Value;
use serde_json_path_functions::Functions;
use serde_json_path_syntax::{
    Basic, ComparisonOperator, LiteralValue, Node, Operand, Part, QueryKind,
};

/// How a side of a comparison is found for each node.
#[derive(Clone, Copy)]
pub(crate) enum SideForm<'x> {
    /// Without memory, and without a call.
    Plain(PlainForm<'x>),
    /// It is the answer of a call.
    Called(Part),
}

/// How a side of a comparison is found that is no call.
#[derive(Clone, Copy)]
pub(crate) enum PlainForm<'x> {
    /// It is the same for all nodes.
    Fixed(Side<'x>),
    /// It is the child of the node that a name or an index selects, or Nothing without one.
    Child(SingleSelector<'x>),
    /// It is what segments of a singular query select from the node, or Nothing.
    Descent(&'x [Part]),
}

/// A comparison with which a filter begins, by the forms of its sides.
#[derive(Clone, Copy)]
pub(crate) struct Comparison<'x> {
    pub(crate) left: SideForm<'x>,
    pub(crate) operator: ComparisonOperator,
    pub(crate) right: SideForm<'x>,
    /// The operands of `&&` after it.
    pub(crate) others: &'x [Part],
}

/// The value that segments of a singular query select from a value, or Nothing. Inlined, it would make each comparison clear a
/// place for where it comes to.
#[inline(never)]
fn descended<'b, F: Functions>(
    scope: &Scope<'_, 'b, F>,
    segments: &[Part],
    value: &'b Value,
) -> Side<'b>
    requires within { parts_bound segments.now ≤ length (nodes_of scope.now) }
    requires sound { SoundSegments scope.now segments.now }
    requires singular { are_singular (segments_at (nodes_of scope.now) segments.now) ≡ true }
    ensures { side_view result
        ≡ first_compared (values_of_segments scope.now segments.now (view value.now)) }
{
    side_of_value(go_down(scope.query, segments, value).value)
}

/// What a side of that form stands for, with `@` at the value.
#[inline(always)]
pub(crate) fn plain_side<'x, 'q: 'x, 'b: 'x, F: Functions>(
    scope: &Scope<'q, 'b, F>,
    form: PlainForm<'x>,
    current: &'b Value,
) -> Side<'x>
    requires { SoundPlain scope.now form }
    ensures { side_view result ≡ plain_compared scope.now form.entry (view current.now) }
{
    match form {
        PlainForm::Fixed(side) => side,
        PlainForm::Child(selector) => {
            let current: &'x Value = current;
            side_of_value(select(selector, current))
        }
        PlainForm::Descent(segments) => {
            let current: &'x Value = current;
            descended(scope, segments, current)
        }
    }
}

/// The form of a singular query.
#[inline(always)]
fn query_form<'x, 'q: 'x, 'b: 'x, F: Functions>(
    scope: &Scope<'q, 'b, F>,
    query: Part,
) -> PlainForm<'x>
    requires within { query.number < length (nodes_of scope.now) }
    requires sound { SoundQuery scope.now query }
    requires singular { is_singular (part_query (nodes_of scope.now) query) ≡ true }
    ensures means { (v : Data) → plain_compared scope.now result v
        ≡ first_compared (values_at scope.now query v) }
    ensures sound { SoundPlain scope.now result }
{
    let segments = scope.query.part_segments(query);
    match scope.query.part_kind(query) {
        QueryKind::Root => {
            let root: &'x Value = scope.root;
            PlainForm::Fixed(descended(scope, segments, root))
        }
        QueryKind::Current => match only_child(scope.query, segments) {
            Some(selector) => PlainForm::Child(selector),
            None => PlainForm::Descent(segments),
        },
    }
}

/// The form of a comparable.
#[inline(always)]
pub(crate) fn form_of<'x, 'q: 'x, 'b: 'x, F: Functions>(
    scope: &Scope<'q, 'b, F>,
    comparable: Part,
) -> SideForm<'x>
    requires within { comparable.number < length (nodes_of scope.now) }
    requires sound { SoundComparable scope.now comparable }
    ensures means { (v : Data) → compared_by scope.now result v
        ≡ compared_at scope.now comparable v }
    ensures below { form_bound result ≤ comparable.number }
    ensures sound { SoundForm scope.now result }
{
    match scope.query.node(comparable) {
        Node::Operand(operand) => match operand {
            Operand::Literal(literal) => {
                let literal: &'x LiteralValue = literal;
                SideForm::Plain(PlainForm::Fixed(side_of_literal(literal)))
            }
            Operand::Query(query) => SideForm::Plain(query_form(scope, *query)),
            Operand::Call(call) => SideForm::Called(*call),
        },
        _ => unreachable!(),
    }
}

/// The comparison with which a filter begins that has no `||`; `None` for any other filter.
#[tactic(auto, using(crate::proofs::Words::common_steps, crate::proofs::Words::one_is))]
pub(crate) fn leading_comparison<'x, 'q: 'x, 'b: 'x, F: Functions>(
    scope: &Scope<'q, 'b, F>,
    test: Part,
) -> Option<Comparison<'x>>
    requires within { test.number < length (nodes_of scope.now) }
    requires sound { SoundOr scope.now test }
    ensures { IfSome result (λ comparison. IsComparisonOf scope.now comparison test) }
{
    let [operands] = scope.query.or_parts(test) else {
        return None;
    };
    let [first, others @ ..] = scope.query.and_parts(*operands) else {
        return None;
    };
    match scope.query.node(*first) {
        Node::Basic(
            Basic::Relation {
                left,
                operator,
                right,
            },
        ) => {
            let left: SideForm<'x> = form_of(scope, *left);
            let right: SideForm<'x> = form_of(scope, *right);
            Some(Comparison {
                left,
                operator: *operator,
                right,
                others,
            })
        }
        _ => None,
    }
}
