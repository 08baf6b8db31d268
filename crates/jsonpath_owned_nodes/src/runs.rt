//! Lists that stand one after the other in one vector.

ghost use Rattle.std.specs.Prelude.{◌≡◌, ◌≤◌, ◌++◌, ◌∷◌, [], length, slice_get, slice_index, option_map, is_ok, if◌then◌else◌};

use std::alloc::{AllocError, Global};
use std::marker::Model;

/// Lists that stand one after the other in one vector, so that a list takes no memory of its own.
///
/// Contracts see the lists that were ended, and the one that was begun.
#[derive(Drop)]
pub struct Runs<T> {
    items: Vec<T>,
    ends: Vec<usize>,
}

impl<T> Model for Runs<T> {
    ghost use Rattle.std.specs.Prelude.{length, drop};
    ghost use Rattle.jsonpath_owned_nodes.specs.Lists.{Lists};

    ghost Value = { Lists T };

    ghost use Rattle.jsonpath_owned_nodes.specs.Inside.Cut.{cut, last_end, AreEnds};

    ghost view = { λ runs. record {
      ended = cut 0 runs.ends.items runs.items.items;
      begun = drop (last_end 0 runs.ends.items) runs.items.items;
    } };

    ghost invariant = { λ runs. AreEnds 0 runs.ends.items (length runs.items.items) };
}

#[tactic(auto, using(crate::proofs::Cuts::of_cuts))]
impl<T> Runs<T> {
    /// No list, and none begun. Takes no memory.
    pub fn new(alloc: Global) -> Runs<T>
        ensures ended { result.ended ≡ [] }
        ensures begun { result.begun ≡ [] }
    {
        Runs {
            items: Vec::new(alloc),
            ends: Vec::new(alloc),
        }
    }

    /// How many lists were ended.
    pub fn len(&self) -> usize
        ensures { result ≡ length self.now.ended }
    {
        self.ends.len()
    }

    /// The list at `index`, or `None` beyond those that were ended.
    pub fn get(&self, index: usize) -> Option<&[T]>
        ensures { option_map (λ run. run.now) result ≡ slice_get self.now.ended index }
    {
        if index >= self.ends.len() {
            return None;
        }
        let start = start_at(self.ends.as_slice(), index);
        let end = self.ends[index];
        Some(&self.items[start..end])
    }

    /// Appends an item to the list that was begun.
    ///
    /// An error comes only where memory is refused; nothing changes then.
    pub fn push(&mut self, item: T) -> Result<(), AllocError>
    where
        T: Drop,
        ensures ended { self.new.ended ≡ self.old.ended }
        ensures begun { self.new.begun
            ≡ (if is_ok result then self.old.begun ++ item ∷ [] else self.old.begun) }
    {
        self.items.push(item)?;
        Ok(())
    }

    /// Ends the list that was begun.
    ///
    /// An error comes only where memory is refused; nothing changes then.
    pub fn end(&mut self) -> Result<(), AllocError>
        ensures ended { self.new.ended
            ≡ (if is_ok result then self.old.ended ++ self.old.begun ∷ [] else self.old.ended) }
        ensures begun { self.new.begun ≡ (if is_ok result then [] else self.old.begun) }
    {
        self.ends.push(self.items.len())?;
        Ok(())
    }

    /// Drops the items of the list that was begun.
    pub fn restart(&mut self)
    where
        T: Drop,
        ensures ended { self.new.ended ≡ self.old.ended }
        ensures begun { self.new.begun ≡ [] }
    {
        let start = start_at(self.ends.as_slice(), self.ends.len());
        self.items.truncate(start);
    }
}

/// Where the list at `index` begins: where the one before it ends.
fn start_at(ends: &[usize], index: usize) -> usize
    requires { index ≤ length ends.now }
    ensures { result ≡ slice_index (0 ∷ ends.now) index }
{
    if index == 0 { 0 } else { ends[index - 1] }
}
