//! Parts in order.

ghost use Rattle.std.specs.Prelude.{◌≡◌, ◌++◌, ◌∷◌, [], ◌↔◌, if◌then◌else◌, is_ok, IsTrue};
ghost use Rattle.serde_json_path_syntax.specs.Words.{parts_in};

use crate::node::Part;
use std::alloc::{AllocError, Global};
use std::slice;

/// The parts of a query, a bracket or an expression, in order. A single part that is pushed takes no memory.
#[derive(Clone, Debug, Drop)]
pub struct Parts {
    alloc: Global,
    kept: Kept,
}

/// How parts are kept.
#[derive(Clone, Debug, Drop)]
enum Kept {
    /// No part.
    None,
    /// A single part.
    One(Part),
    /// A list of parts.
    Listed(Vec<Part>),
}

impl Parts {
    /// No parts. Takes no memory.
    #[tactic(auto, unfolding(crate::specs::Flat::parts_in))]
    pub fn new(alloc: Global) -> Parts
        ensures items { parts_in result ≡ [] }
    {
        Parts {
            alloc,
            kept: Kept::None,
        }
    }

    /// Appends a part. If memory is refused, nothing changes.
    #[tactic(auto, unfolding(crate::specs::Flat::parts_in))]
    #[inline(always)]
    pub fn push(&mut self, part: Part) -> Result<(), AllocError>
        ensures items { parts_in self.new
            ≡ (if is_ok result then parts_in self.old ++ part ∷ [] else parts_in self.old) }
    {
        match &mut self.kept {
            Kept::None => self.kept = Kept::One(part),
            Kept::One(first) => {
                let mut listed = Vec::new(self.alloc);
                listed.push(*first)?;
                listed.push(part)?;
                self.kept = Kept::Listed(listed);
            }
            Kept::Listed(parts) => parts.push(part)?,
        }
        Ok(())
    }

    /// Whether there is no part.
    pub fn is_empty(&self) -> bool
        ensures { IsTrue result ↔ parts_in self.now ≡ [] }
    {
        self.as_slice().is_empty()
    }

    /// The parts, in order.
    #[tactic(auto, unfolding(crate::specs::Flat::parts_in))]
    pub fn as_slice(&self) -> &[Part]
        ensures value { result.now ≡ parts_in self.now }
    {
        match &self.kept {
            Kept::None => &[],
            Kept::One(part) => slice::from_ref(part),
            Kept::Listed(parts) => parts.as_slice(),
        }
    }
}

impl From<Vec<Part>> for Parts {
    ghost from_gives = { λ parts r. parts_in r ≡ parts.items };

    /// The parts of a list, in order. Takes no memory.
    #[tactic(auto, unfolding(crate::specs::Flat::parts_in))]
    fn from(parts: Vec<Part>) -> Parts {
        Parts {
            alloc: *parts.allocator(),
            kept: Kept::Listed(parts),
        }
    }
}
