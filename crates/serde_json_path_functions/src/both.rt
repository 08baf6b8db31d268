//! One function set before another.

use crate::error::QueryError;
use crate::set::Functions;
use crate::signature::Signature;
use crate::types::FunctionValue;
use std::alloc::Global;

/// The functions of the first set, and then those of the second whose names the first does not declare.
///
/// A `Both<&F, Builtin>` puts your own functions before the built-in ones, and replaces those of the same name:
///
/// ```text
/// let functions = Both(&own, Builtin);
/// ```
#[derive(Debug, Drop)]
pub struct Both<A, B>(pub A, pub B);

impl<A: Functions, B: Functions> Functions for Both<A, B> {
    ghost use Rattle.serde_json_path_functions.specs.Words.{both_keeps_types, both_keeps_patterns, both};

    ghost set = { λ functions. both (A.set functions.0) (B.set functions.1) };

    ghost typed = { λ functions. both_keeps_types (A.set functions.0) (B.set functions.1)
        (A.typed functions.0) (B.typed functions.1) };

    ghost patterned = { λ functions. both_keeps_patterns (A.set functions.0) (B.set functions.1)
        (A.patterned functions.0) (B.patterned functions.1) };

    fn signature(&self, name: &str) -> Option<Signature> {
        match self.0.signature(name) {
            Some(signature) => Some(signature),
            None => self.1.signature(name),
        }
    }

    fn declares(&self, name: &str) -> bool {
        self.0.declares(name) || self.1.declares(name)
    }

    fn call<'b>(
        &self,
        alloc: Global,
        name: &str,
        args: Vec<FunctionValue<'b>>,
    ) -> Result<FunctionValue<'b>, QueryError> {
        if self.0.declares(name) {
            self.0.call(alloc, name, args)
        } else {
            self.1.call(alloc, name, args)
        }
    }
}
