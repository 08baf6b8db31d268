//! What C lends for a call, whatever it is.

ghost use Rattle.std.specs.Prelude.{◌≡◌, ◌⊎◌, Option, Some, None};
ghost use Rattle.std.specs.Option.{MatchOption};

use crate::NullableRef;

/// A struct by which C lends a value for a call, or nothing. Any number of calls may be lent one value at once.
pub trait Lent: Sized {
    /// What it lends.
    type Held;

    ghost lends: { Self → Option Self.Held };

    /// What is lent.
    fn into_nullable(self) -> NullableRef<Self::Held>
        ensures { result.value ≡ lends self };

    /// A reference to what is lent.
    final fn get<'a>(self) -> Option<&'a Self::Held>
        ensures { MatchOption result (lends self ≡ None) (λ r. lends self ≡ Some r.now) }
    {
        self.into_nullable().get()
    }
}

/// References to what two structs lend, or nothing where one lends nothing.
pub fn get_both<'a, A: Lent, B: Lent>(first: A, second: B) -> Option<(&'a A::Held, &'a B::Held)>
    ensures { MatchOption result ((A.lends first ≡ None) ⊎ (B.lends second ≡ None))
        (λ both. (A.lends first ≡ Some both.0.now) × (B.lends second ≡ Some both.1.now)) }
{
    let (held, other) = (first.get(), second.get());
    Some((held?, other?))
}
