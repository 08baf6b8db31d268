//! What a path selects from a document, in a form.

ghost use Rattle.std.specs.Prelude.{◌≡◌, ◌++◌, ℕ, List, IfErr, IfOk, OnOk, string_bytes};
ghost use Rattle.serde_json_path_core.specs.Inside.Words.{view, Located, Fits, OnlyMemoryOrPattern, Selects};
ghost use Rattle.serde_json_path.specs.Paths.{path_signatures, path_tree, with_rule_of};
ghost use Rattle.jsonpath_lines.specs.Output.{AreLines, IsCount};

use jsonpath_lines::{Output, write_nodes};
use serde_json::Value;
use serde_json_path::functions::Functions;
use serde_json_path::{JsonPath, QueryError};
use std::alloc::{AllocError, Global};

/// Appends a text to another; where that is empty, it becomes the text. An error appends nothing.
fn join(text: &mut String, more: String) -> Result<(), AllocError>
    ensures joined { OnOk result
        (string_bytes text.new ≡ string_bytes text.old ++ string_bytes more) }
    ensures unchanged { IfErr result (λ e. string_bytes text.new ≡ string_bytes text.old) }
{
    if text.is_empty() {
        *text = more;
        return Ok(());
    }
    text.push_str(more.as_str())
}

/// Appends what is shown of the nodes that a path selects from a document under a function set, each line after a head, and
/// returns how many were chosen; with `Form::Nothing` only whether there is one, as 1 or 0. The path must fit the set.
///
/// Nothing is appended where the query is refused: `Pattern` comes only where some call of `match` or `search` has a pattern that
/// `regex` reads, otherwise it is `Memory`.
///
/// ```text
/// push_answer(alloc, &output, "", &path, &Builtin, &document, &mut text)?
/// ```
pub fn push_answer<F: Functions>(
    alloc: Global,
    output: &Output,
    head: &str,
    path: &JsonPath,
    functions: &F,
    document: &Value,
    text: &mut String,
) -> Result<u64, QueryError>
    requires { Fits (F.set functions.now) (path_signatures path.now) }
    ensures lines { IfOk result (λ count. (nodes : List Located) × (shown : List ℕ)
        × Selects (with_rule_of path.now (F.set functions.now)) (path_tree path.now)
        (view document.now) nodes
        × AreLines output.now head.now nodes shown
        × (string_bytes text.new ≡ string_bytes text.old ++ shown)
        × IsCount output.now nodes count) }
    ensures unchanged { IfErr result (λ e. string_bytes text.new ≡ string_bytes text.old) }
    ensures refused { OnlyMemoryOrPattern (with_rule_of path.now (F.set functions.now))
        (path_tree path.now) (view document.now) result }
{
    let walk = path.walk_under(alloc, document, functions)?;
    let written = write_nodes(alloc, output, head, String::new(alloc), walk)?;
    join(text, written.text)?;
    Ok(written.count)
}
