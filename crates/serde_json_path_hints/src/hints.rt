//! The hint of a refusal.

ghost use Rattle.std.specs.Prelude.{◌≡◌, option_map};
ghost use Rattle.serde_json_path_parser.specs.Errors.{kind_of, position_of};
ghost use Rattle.serde_json_path_functions.specs.Terms.{numbers_view};
ghost use Rattle.serde_json_path_hints.specs.Hints.{hint_of};

use crate::slip::{first_of_two, first_there, sides};
use crate::slips::slips_of;
use serde_json_path_functions::Numbers;
use serde_json_path_parser::ParseError;

/// What was probably meant where a path is refused, in a few words, or `None` if the refusal's kind and the text around its
/// place show no known slip.
///
/// The text is the one that was refused by the rule for numbers. No memory is taken, and the time grows with the text's length.
///
/// ```text
/// let text = "$.a b";
/// let e = parse(alloc, &mut TextSource::new(text), &Builtin).unwrap_err();
/// assert_eq!(rt; hint(text, &e, Numbers::Whole), Some("`$['a b']`: such a name is quoted in brackets"));
/// ```
pub fn hint(text: &str, e: &ParseError, numbers: Numbers) -> Option<&'static str>
    ensures { option_map (λ s. s.now) result
        ≡ hint_of (numbers_view numbers) (kind_of e.now) (position_of e.now) text.now }
{
    let (before, ahead) = sides(text.as_bytes(), e.position());
    let (own, words, signs) = slips_of(e.kind(), numbers);
    match first_there(own, before, ahead) {
        Some(hint) => Some(hint),
        None => first_of_two(words, signs, before, ahead),
    }
}
