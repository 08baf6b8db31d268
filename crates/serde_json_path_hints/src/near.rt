//! Words that are one letter away from each other.

ghost use Rattle.std.specs.Prelude.{◌≡◌, ◌+◌, ◌≤◌, length};
ghost use Rattle.serde_json_path_hints.specs.Conditions.{is_swapped, is_one_letter_away};

/// Whether the word is the name with its first two letters swapped.
fn is_swapped(word: &[u8], name: &[u8]) -> bool
    ensures { result ≡ is_swapped word.now name.now }
{
    match (word, name) {
        ([a, b, word @ ..], [c, d, name @ ..]) => a == d && b == c && word == name,
        _ => false,
    }
}

/// Whether the word is the name with one letter replaced, left out or put in, or with two neighbours swapped, or the name
/// itself. It recurses no deeper than the name is long.
pub(crate) fn is_one_letter_away(word: &[u8], name: &[u8]) -> bool
    ensures { result ≡ is_one_letter_away word.now name.now }
{
    match (word, name) {
        ([a, after_a @ ..], [b, after_b @ ..]) => {
            (a == b && is_one_letter_away(after_a, after_b))
                || after_a == after_b
                || word == after_b
                || after_a == name
                || is_swapped(word, name)
        }
        ([_, after @ ..], []) => after.is_empty(),
        ([], [_, after @ ..]) => after.is_empty(),
        ([], []) => true,
    }
}
