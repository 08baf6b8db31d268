//! Walks over what compiled paths select.

ghost use Rattle.std.specs.Prelude.{◌≡◌, IfErr, IfOk};
ghost use Rattle.jsonpath_c.specs.Clauses.{view, document_of, query_of, rest, set_of, Memory, path_tree, SelectsFrom, functions_of};

use crate::compiled::Compiled;
use serde_json::Value;
use serde_json_path::functions::{Builtin, CachedPatterns, PatternStore};
use serde_json_path::{QueryError, Walk};
use std::alloc::Global;

/// A walk over the nodes that a path selects from a document. Patterns are built anew at each node.
pub(crate) fn plain_walk<'a>(
    alloc: Global,
    path: &'a Compiled,
    document: &'a Value,
) -> Result<Walk<'a, 'a, Builtin>, QueryError>
    ensures selects { IfOk result (λ walk. SelectsFrom path.now (view document.now) (rest walk)) }
    ensures query { IfOk result (λ walk. query_of walk ≡ path_tree path.now.path.value) }
    ensures set { IfOk result (λ walk. set_of walk ≡ functions_of path.now) }
    ensures document { IfOk result (λ walk. document_of walk ≡ view document.now) }
    ensures refused { IfErr result (λ e. e ≡ Memory) }
{
    path.path.walk_under(alloc, document, Builtin)
}

/// The same. Patterns are kept in the store.
pub(crate) fn walk<'a>(
    alloc: Global,
    path: &'a Compiled,
    document: &'a Value,
    store: &'a PatternStore,
) -> Result<Walk<'a, 'a, CachedPatterns<'a>>, QueryError>
    ensures selects { IfOk result (λ walk. SelectsFrom path.now (view document.now) (rest walk)) }
    ensures query { IfOk result (λ walk. query_of walk ≡ path_tree path.now.path.value) }
    ensures set { IfOk result (λ walk. set_of walk ≡ functions_of path.now) }
    ensures document { IfOk result (λ walk. document_of walk ≡ view document.now) }
    ensures refused { IfErr result (λ e. e ≡ Memory) }
{
    let functions = CachedPatterns::new(alloc, store);
    path.path.walk_under(alloc, document, functions)
}
