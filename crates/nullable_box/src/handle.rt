//! Handles for C, whatever they hold.

ghost use Rattle.std.specs.Prelude.{◌≡◌, IfErr, IfOk, Option, Some, None};
ghost use Rattle.std.specs.Option.{MatchOption};

use crate::NullableBox;
use std::alloc::{AllocError, Global};
use std::mem::replace;

/// A struct by which C holds a value, or nothing.
pub trait Handle: Sized {
    /// What it holds.
    type Held: Drop;

    ghost holds: { Self → Option Self.Held };

    /// The handle of a box, or of nothing.
    fn of(value: NullableBox<Self::Held>) -> Self
        ensures { holds result ≡ value.value };

    /// What the handle holds.
    fn into_nullable(self) -> NullableBox<Self::Held>
        ensures { result.value ≡ holds self };

    /// Takes what the handle holds, and leaves nothing there.
    final fn take(&mut self, alloc: Global) -> Option<Box<Self::Held>>
        ensures emptied { holds self.new ≡ None }
        ensures taken { MatchOption result (holds self.old ≡ None)
            (λ b. holds self.old ≡ Some b.value) }
    {
        let empty = Self::of(NullableBox::none());
        replace(self, empty).into_nullable().into_box(alloc)
    }

    /// Holds what a box has, in place of what was held, which is freed. Takes no memory.
    final fn put(&mut self, alloc: Global, value: Box<Self::Held>)
        ensures { holds self.new ≡ Some value.value }
    {
        let full = Self::of(NullableBox::of(value));
        drop(replace(self, full).into_nullable().into_box(alloc));
    }

    /// Holds a value, in place of what was held, which is freed.
    final fn hold(&mut self, alloc: Global, value: Self::Held) -> Result<(), AllocError>
        ensures held { IfOk result (λ _. holds self.new ≡ Some value) }
        ensures kept { IfErr result (λ _. holds self.new ≡ holds self.old) }
    {
        self.put(alloc, Box::new(alloc, value)?);
        Ok(())
    }
}
