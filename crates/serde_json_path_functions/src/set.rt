//! The trait of function sets.

ghost use Rattle.std.specs.Prelude.{◌≡◌, IfOk, Err, is_some, map, option_map};
ghost use Rattle.serde_json_path_functions.specs.Functions.{FunctionSet, Takes, Gives, KeepsTypes};
ghost use Rattle.serde_json_path_functions.specs.Patterns.{KeepsPatterns, MayRefuse};
ghost use Rattle.serde_json_path_functions.specs.Terms.{term_view, signature_view};
ghost use Rattle.serde_json_path_functions.specs.declared.error.QueryError.TheVariants.{Pattern};

use crate::error::QueryError;
use crate::signature::Signature;
use crate::types::FunctionValue;
use std::alloc::Global;

/// A set of functions, which filters call by name (RFC 9535, section 2.4).
///
/// An implementation states once what it declares and what its names mean (`set`), and that does not change. When a call
/// succeeds, its answer is the stated meaning of the name at the arguments. What it states of numbers counts for nothing: a
/// query says how its comparisons take them.
pub trait Functions {
    /// The set that contracts see.
    ghost set: { Self → FunctionSet };

    /// Meanings have the declared types.
    ghost typed: { (functions : Self) → KeepsTypes (set functions) };

    /// A name that stands for `match` or `search` has their signature and means what `regex` finds.
    ghost patterned: { (functions : Self) → KeepsPatterns (set functions) };

    /// The signature of a name, or `None` for a name that the set does not declare.
    fn signature(&self, name: &str) -> Option<Signature>
        ensures { option_map signature_view result ≡ (set self.now).signature name.now };

    /// Whether the set declares a name.
    fn declares(&self, name: &str) -> bool
        ensures { result ≡ is_some ((set self.now).signature name.now) }
    {
        self.signature(name).is_some()
    }

    /// The answer of a declared name to arguments of the declared types.
    ///
    /// Only a name that stands for the built-in `match` or `search` may answer `Pattern`, and only where both arguments are
    /// texts and `regex` reads the text that is built of the pattern. Any name may answer `Memory`.
    fn call<'b>(
        &self,
        alloc: Global,
        name: &str,
        args: Vec<FunctionValue<'b>>,
    ) -> Result<FunctionValue<'b>, QueryError>
        requires { Takes ((set self.now).signature name.now) (map term_view args.items) }
        ensures means { IfOk result (λ answer.
            term_view answer ≡ (set self.now).meaning name.now (map term_view args.entry.items)) }
        ensures typed_answer { IfOk result (λ answer.
            Gives ((set self.now).signature name.now) (term_view answer)) }
        ensures pattern { result ≡ Err Pattern
            → MayRefuse ((set self.now).by_regex name.now) (map term_view args.entry.items) };
}

impl<F: Functions> Functions for &F {
    ghost set = { λ functions. F.set functions.now };

    ghost typed = { λ functions. F.typed functions.now };

    ghost patterned = { λ functions. F.patterned functions.now };

    fn signature(&self, name: &str) -> Option<Signature> {
        (**self).signature(name)
    }

    fn declares(&self, name: &str) -> bool {
        (**self).declares(name)
    }

    fn call<'b>(
        &self,
        alloc: Global,
        name: &str,
        args: Vec<FunctionValue<'b>>,
    ) -> Result<FunctionValue<'b>, QueryError> {
        (**self).call(alloc, name, args)
    }
}
