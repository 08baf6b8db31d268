//! What a query selects: node by node, or as a list.

pub(crate) mod child_values;
pub(crate) mod cursor;
pub(crate) mod frame;
pub(crate) mod scope;
pub(crate) mod single_children;
pub(crate) mod sink;
pub(crate) mod slice_positions;
pub(crate) mod stack;
pub(crate) mod walks;

ghost use Rattle.std.specs.Prelude.{◌≡◌, IfOk, IfErr};
ghost use Rattle.serde_json_path_core.specs.Inside.Words.{view, located_nodes, node_values, Fits, with_rule, start_of, query_kind_view, OnlyMemoryOrPattern, Selects, SelectsValues, rest, document_of, rule_of, signatures_of, tree_of, Memory};
ghost use Rattle.serde_json_path_core.specs.Walks.{query_of, set_of};

use crate::evaluation::frame::first_frames;
use crate::evaluation::scope::Scope;
use crate::evaluation::walks::Walk;
use crate::filter::query::all_from;
use serde_json::Value;
use serde_json_path_functions::{Functions, QueryError};
use serde_json_path_nodes::{LocatedNodeList, NodeList};
use serde_json_path_syntax::{Checked, QueryKind};
use std::alloc::Global;

/// The value at which a query of that kind starts.
pub(crate) fn start<'b>(kind: QueryKind, node: &'b Value, root: &'b Value) -> &'b Value
    ensures { view result.now ≡ start_of (query_kind_view kind) (view root.now) (view node.now) }
{
    match kind {
        QueryKind::Root => root,
        QueryKind::Current => node,
    }
}

/// A walk over what the query selects in the document, node by node (RFC 9535, sections 2.1.2 and 2.5), under a function
/// set that the query fits, which the walk keeps. Comparisons take numbers by the query's rule.
///
/// The nodes and the names of their locations borrow the document. An error comes only where memory is refused.
///
/// Between calls the query's stack has at most one frame more than the document is high ([`Walk::places`]). Each query in
/// a filter or in a call's argument that is being worked on has a stack of its own, with the same bound, and at most 128
/// filters, parentheses and calls are within each other. No clause adds these stacks up.
///
/// ```text
/// let mut walk = walk(alloc, &query, &document, Builtin)?;
/// let first = walk.next()?;
/// ```
pub fn walk<'q, 'b, F: Functions + Drop>(
    alloc: Global,
    query: &'q Checked,
    document: &'b Value,
    functions: F,
) -> Result<Walk<'q, 'b, F>, QueryError>
    requires { Fits (F.set functions) (signatures_of query.now) }
    ensures selects { IfOk result (λ walk.
        Selects (with_rule (rule_of query.now) (F.set functions)) (tree_of query.now)
        (view document.now) (rest walk)) }
    ensures query { IfOk result (λ walk. query_of walk ≡ tree_of query.now) }
    ensures set { IfOk result (λ walk.
        set_of walk ≡ with_rule (rule_of query.now) (F.set functions)) }
    ensures document { IfOk result (λ walk. document_of walk ≡ view document.now) }
    ensures refused { IfErr result (λ e. e ≡ Memory) }
{
    let frames = first_frames(alloc, query, query.segments(), document)?;
    let scope = Scope {
        alloc,
        query,
        root: document,
        functions,
    };
    Ok(Walk { scope, frames })
}

/// What the query selects in the document, with locations, in order (RFC 9535, sections 2.1.2 and 2.5), under a function
/// set that the query fits. Comparisons take numbers by the query's rule.
///
/// The nodes and the names of their locations borrow the document. Where an error comes there is no list: `Pattern` comes
/// only where some call of `match` or `search`, under whatever name, has a pattern that `regex` reads (`specs/PatternCalls`);
/// every other error is of memory.
///
/// ```text
/// let nodes = evaluate_located(alloc, &query, &document, Builtin)?;
/// ```
pub fn evaluate_located<'b, F: Functions + Drop>(
    alloc: Global,
    query: &Checked,
    document: &'b Value,
    functions: F,
) -> Result<LocatedNodeList<'b>, QueryError>
    requires { Fits (F.set functions) (signatures_of query.now) }
    ensures selects { IfOk result (λ list.
        Selects (with_rule (rule_of query.now) (F.set functions)) (tree_of query.now)
        (view document.now) (located_nodes list)) }
    ensures refused { OnlyMemoryOrPattern (with_rule (rule_of query.now) (F.set functions))
        (tree_of query.now) (view document.now) result }
{
    walk(alloc, query, document, functions)?.collect()
}

/// The values of what the query selects, in order, as [`evaluate_located`] gives them (RFC 9535, section 2.1.2). Errors
/// come as there.
pub fn evaluate<'b, F: Functions + Drop>(
    alloc: Global,
    query: &Checked,
    document: &'b Value,
    functions: F,
) -> Result<NodeList<'b>, QueryError>
    requires { Fits (F.set functions) (signatures_of query.now) }
    ensures selects { IfOk result (λ list.
        SelectsValues (with_rule (rule_of query.now) (F.set functions)) (tree_of query.now)
        (view document.now) (node_values list)) }
    ensures refused { OnlyMemoryOrPattern (with_rule (rule_of query.now) (F.set functions))
        (tree_of query.now) (view document.now) result }
{
    let scope = Scope {
        alloc,
        query,
        root: document,
        functions,
    };
    let found = all_from(&scope, query.segments(), document)?;
    Ok(NodeList::from(found))
}
