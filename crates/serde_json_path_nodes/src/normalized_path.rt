//! Locations, as normalised paths.

ghost use Rattle.std.specs.Prelude.{◌≡◌, ◌==◌, ◌↔◌, ◌++◌, length, map, slice_get, option_map, Some, IfOk, OnOk, IsTrue, string_bytes};
ghost use Rattle.serde_json_path_nodes.specs.Words.{flat_map, normal, pointer, in_pointer};

use crate::iterators::PathElements;
use crate::path_element::PathElement;
use crate::quoted::{Quoted, push_inside};
use itoa::Buffer;
use std::alloc::{AllocError, Global};
use std::cmp::Ordering;
use std::fmt;
use std::fmt::Write;
use std::marker::Model;

/// The location of one node: the steps that lead to it from the document's root (RFC 9535, section 2.7).
///
/// Names borrow the document's keys. Contracts see a location as the list of its steps.
#[derive(Drop)]
pub struct NormalizedPath<'b> {
    steps: Vec<PathElement<'b>>,
}

impl<'b> Model for NormalizedPath<'b> {
    ghost use Rattle.std.specs.Prelude.{List, map};
    ghost use Rattle.serde_json_path_nodes.specs.Location.{Step};

    ghost Value = { List Step };

    ghost use Rattle.serde_json_path_nodes.specs.Views.{step_view};

    ghost view = { λ path. map step_view path.steps.items };
}

impl<'b> NormalizedPath<'b> {
    ghost use Rattle.serde_json_path_nodes.specs.Words.{step_view, location_cmp};

    /// The location that the steps lead to. Takes no memory.
    pub fn from_steps(steps: Vec<PathElement<'b>>) -> NormalizedPath<'b>
        ensures { result ≡ map step_view steps.entry.items }
    {
        NormalizedPath { steps }
    }

    /// The steps from the root on, in the vector that holds them.
    pub(crate) fn into_steps(self) -> Vec<PathElement<'b>>
        ensures { map step_view result.items ≡ self.entry }
    {
        self.steps
    }

    /// How many steps there are; 0 for the root.
    pub fn len(&self) -> usize
        ensures { result ≡ length self.now }
    {
        self.steps.len()
    }

    /// Whether this is the location of the root.
    pub fn is_empty(&self) -> bool
        ensures { result ≡ (length self.now == 0) }
    {
        self.steps.is_empty()
    }

    /// The step at `index`, from 0, or `None` past the last.
    pub fn get(&self, index: usize) -> Option<PathElement<'b>>
        ensures { option_map step_view result ≡ slice_get self.now index }
    {
        self.steps.get(index).copied()
    }

    /// The steps from the root on, by value.
    pub fn iter(&self) -> PathElements<'_, 'b>
        ensures { result ≡ self.now }
    {
        PathElements::new(self.steps.as_slice())
    }

    /// The normalised path as text (RFC 9535, section 2.7), as `$['store']['book'][0]`.
    ///
    /// An error comes only where memory is refused.
    pub fn to_text(&self, alloc: Global) -> Result<String, AllocError>
        ensures { IfOk result (λ text. string_bytes text ≡ normal self.now) }
    {
        let mut text = String::new(alloc);
        self.push_to(&mut text)?;
        Ok(text)
    }

    /// Appends the normalised path to a text (RFC 9535, section 2.7), in half the steps of a formatter.
    ///
    /// An error comes only where memory is refused.
    pub fn push_to(&self, text: &mut String) -> Result<(), AllocError>
        ensures { OnOk result
            (string_bytes text.new ≡ string_bytes text.old ++ normal self.now) }
    {
        text.push('$')?;
        for element in &self.steps {
            text.push('[')?;
            match *element {
                PathElement::Name(name) => {
                    text.push('\'')?;
                    push_inside(text, name)?;
                    text.push('\'')?;
                }
                PathElement::Index(position) => text.push_str(Buffer::new().format(position))?,
            }
            text.push(']')?;
        }
        Ok(())
    }

    /// The JSON pointer to the same node (RFC 6901, section 3), as `/store/book/0`; the empty text for the root.
    ///
    /// An error comes only where memory is refused.
    pub fn to_json_pointer(&self, alloc: Global) -> Result<String, AllocError>
        ensures { IfOk result (λ text. string_bytes text ≡ pointer self.now) }
    {
        let mut text = String::new(alloc);
        for element in &self.steps {
            text.push('/')?;
            match *element {
                PathElement::Name(name) => push_in_pointer(&mut text, name)?,
                PathElement::Index(position) => text.push_str(Buffer::new().format(position))?,
            }
        }
        Ok(text)
    }

    /// A total order in which only equal locations tie.
    #[tactic(auto, using(crate::proofs::Orders::of_lists))]
    pub(crate) fn compare(&self, other: &NormalizedPath<'b>) -> Ordering
        ensures { result ≡ location_cmp self.now other.now }
    {
        for (mine, theirs) in self.steps.iter().zip(&other.steps) {
            match mine.compare(theirs) {
                Ordering::Equal => {}
                order => return order,
            }
        }
        self.steps.len().cmp(&other.steps.len())
    }
}

impl<'b> PartialEq for NormalizedPath<'b> {
    ghost use Rattle.serde_json_path_nodes.specs.Words.{partial_equiv_from_equiv, same_steps, same_steps-equiv};

    ghost eq = { same_steps };

    ghost laws = { partial_equiv_from_equiv same_steps-equiv };

    fn eq(&self, other: &NormalizedPath<'b>) -> bool
        ensures computes { result ≡ same_steps self.now other.now }
        ensures same { IsTrue result ↔ (self.now ≡ other.now) }
    {
        // Locations of one result mostly differ in their length or their last step.
        self.steps.len() == other.steps.len()
            && self.steps.last() == other.steps.last()
            && self.steps == other.steps
    }
}

impl<'b> Eq for NormalizedPath<'b> {
    ghost use Rattle.serde_json_path_nodes.specs.Same.{same_steps-equiv};

    ghost laws = { same_steps-equiv };
}

impl<'b> fmt::Display for NormalizedPath<'b> {
    ghost output = { λ location. Some (normal location) };

    fn fmt<W: fmt::Write>(&self, f: &mut fmt::Formatter<W>) -> fmt::Result {
        f.write_str("$")?;
        for element in &self.steps {
            match *element {
                PathElement::Name(name) => write!(f, "[{}]", Quoted(name))?,
                PathElement::Index(position) => write!(f, "[{position}]")?,
            }
        }
        Ok(())
    }
}

/// Appends a name as a JSON pointer writes it: `~` as `~0`, `/` as `~1`.
fn push_in_pointer(text: &mut String, name: &str) -> Result<(), AllocError>
    ensures { OnOk result (string_bytes text.new
        ≡ string_bytes text.old ++ flat_map in_pointer name.now) }
{
    for c in name.chars() {
        match c {
            '~' => text.push_str("~0")?,
            '/' => text.push_str("~1")?,
            c => text.push(c)?,
        }
    }
    Ok(())
}
