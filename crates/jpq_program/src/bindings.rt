//! Values for names that stand in paths, such as `'$title'`.

ghost use Rattle.std.specs.Prelude.{◌≡◌, IfOk, map, reverse};
ghost use Rattle.serde_json_path_syntax.specs.Bindings.{pairs_of};
ghost use Rattle.jpq_program.specs.Bindings.{binding_in};
ghost use Rattle.jpq_program.specs.Inside.{value_pairs};

use serde_json_path::{Binding, JsonPath};
use std::alloc::{AllocError, Global};

/// A name with its value.
#[derive(Drop)]
pub(crate) struct NamedValue<'a> {
    pub(crate) name: &'a str,
    /// The text that stands for it in paths: the name after a dollar sign.
    text: String,
    value: &'a str,
}

/// The values of words such as `title=Moby Dick`, or the first word that has none.
pub(crate) fn values_of<'a>(
    alloc: Global,
    words: &[&'a str],
) -> Result<Result<Vec<NamedValue<'a>>, &'a str>, AllocError>
    ensures { IfOk result (λ read. IfOk read (λ values. value_pairs values.items
        ≡ map (λ word. binding_in word.now) words.now)) }
{
    let mut values = Vec::new(alloc);
    for word in words {
        match word.split_once('=') {
            Some((name, value)) if !name.is_empty() => {
                let text = format!(in alloc; "${name}")?;
                values.push(NamedValue { name, text, value })?;
            }
            _ => return Ok(Err(*word)),
        }
    }
    Ok(Ok(values))
}

/// What stands for what in paths. Of two values of one name the last counts.
pub(crate) fn bindings_of<'a>(
    alloc: Global,
    values: &'a [NamedValue<'a>],
) -> Result<Vec<Binding<'a>>, AllocError>
    ensures { IfOk result (λ bindings.
        pairs_of bindings.items ≡ reverse (value_pairs values.entry.now)) }
{
    let mut bindings = Vec::new(alloc);
    for named in values {
        let text = named.text.as_str();
        let value = named.value;
        bindings.push(Binding { text, value })?;
    }
    bindings.reverse();
    Ok(bindings)
}

impl NamedValue<'_> {
    /// Whether some literal of a path is the text of the name: then the path is another one with another text in its place.
    pub(crate) fn is_in(&self, alloc: Global, path: &JsonPath) -> Result<bool, AllocError> {
        let text = self.text.as_str();
        let other = path.bound(alloc, &[Binding { text, value: "" }])?;
        Ok(other != *path)
    }
}
