//! Texts that stand for others in the literals of a query.

ghost use Rattle.std.specs.Prelude.{◌≡◌, option_map, unwrap_or};
ghost use Rattle.serde_json_path_syntax.specs.Bound.{value_in};
ghost use Rattle.serde_json_path_syntax.specs.Bindings.{pairs_of};

/// A text that literals have, and the text that they stand for.
///
/// ```text
/// let title = Binding { text: "$title", value: "Moby Dick" };
/// ```
#[derive(Clone, Copy, Debug)]
pub struct Binding<'a> {
    /// The whole text of a literal.
    pub text: &'a str,
    /// The text for which the literal stands.
    pub value: &'a str,
}

/// The value of the first binding of a text.
#[tactic(auto, using(crate::proofs::Bindings::of_values))]
pub(crate) fn value_of<'a>(bindings: &[Binding<'a>], text: &str) -> Option<&'a str>
    ensures { value_in (pairs_of bindings.now) text.now
        ≡ unwrap_or (option_map (λ value. value.now) result) text.now }
{
    for binding in bindings {
        if binding.text == text {
            return Some(binding.value);
        }
    }
    None
}
