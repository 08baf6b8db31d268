//! A path that is compiled once.

ghost use Rattle.std.specs.Prelude.{◌≡◌, IfOk};
ghost use Rattle.jsonpath_c.specs.Words.{FitsBuiltin, FitsBuiltin-prop, path_signatures, path_tree, tree_of};

use serde_json_path::JsonPath;
use serde_json_path_core::Checked;
use std::alloc::{AllocError, Global};
use std::sync::Arc;

/// A path under the built-in functions: what a path's handle holds. Its owners share it.
#[derive(Drop)]
pub struct Compiled {
    /// The path.
    pub path: Arc<JsonPath, Global>,
    /// Whether it may call functions: only then its text has a parenthesis. Of others no patterns need to be kept.
    pub may_call: bool,
    ghost fits: { FitsBuiltin (path_signatures path.value) } by { FitsBuiltin-prop (path_signatures path.value) },
}

impl Compiled {
    /// A path of `parse`.
    pub(crate) fn new(alloc: Global, path: JsonPath, may_call: bool) -> Result<Compiled, AllocError>
        requires { FitsBuiltin (path_signatures path) }
        ensures { IfOk result (λ compiled. compiled.path.value ≡ path) }
    {
        let path = Arc::new(alloc, path)?;
        Ok(Compiled { path, may_call })
    }

    /// The path's syntax tree.
    pub(crate) fn tree(&self) -> &Checked
        ensures tree { tree_of result.now ≡ path_tree self.now.path.value }
    {
        self.path.tree()
    }

    /// Another owner of the same path.
    pub(crate) fn share(&self) -> Result<Compiled, AllocError>
        ensures { IfOk result (λ compiled. compiled.path.value ≡ self.now.path.value) }
    {
        let path = Arc::try_clone(&self.path)?;
        Ok(Compiled {
            path,
            may_call: self.may_call,
        })
    }
}
