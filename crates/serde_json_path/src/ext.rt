//! Queries as calls of a JSON value.

ghost use Rattle.std.specs.Prelude.{IfOk};
ghost use Rattle.serde_json.specs.Data.{Data};
ghost use Rattle.serde_json.specs.View.{view};
ghost use Rattle.serde_json_path_nodes.specs.Views.{node_values};
ghost use Rattle.serde_json_path_core.specs.Selects.{OnlyMemoryOrPattern, SelectsValues};
ghost use Rattle.serde_json_path_functions.specs.Functions.{Fits};
ghost use Rattle.serde_json_path_functions.specs.Patterns.{builtin_functions};
ghost use Rattle.serde_json_path.specs.Paths.{path_signatures, path_tree, with_rule_of};

use crate::path::JsonPath;
use serde_json::Value;
use serde_json_path_core::QueryError;
use serde_json_path_nodes::NodeList;
use std::alloc::Global;

/// What can be queried by a path: a `serde_json` value.
pub trait JsonPathExt {
    /// The document.
    ghost document: { Self → Data };

    /// The nodes that the path selects from the value, in order, as [`JsonPath::query`] gives them (RFC 9535, section 2.1.2).
    /// The path must fit the built-in functions, and errors come as there.
    ///
    /// ```text
    /// let path = JsonPath::parse(alloc, "$..book[-1:].title")?;
    /// let last = document.json_path(alloc, &path)?.exactly_one();
    /// ```
    fn json_path<'b>(&'b self, alloc: Global, path: &JsonPath) -> Result<NodeList<'b>, QueryError>
        requires { Fits builtin_functions (path_signatures path.now) }
        ensures selects { IfOk result (λ list.
            SelectsValues (with_rule_of path.now builtin_functions) (path_tree path.now)
            (document self.now) (node_values list)) }
        ensures refused { OnlyMemoryOrPattern (with_rule_of path.now builtin_functions)
            (path_tree path.now) (document self.now) result };
}

impl JsonPathExt for Value {
    ghost document = { view };

    fn json_path<'b>(&'b self, alloc: Global, path: &JsonPath) -> Result<NodeList<'b>, QueryError> {
        path.query(alloc, self)
    }
}
