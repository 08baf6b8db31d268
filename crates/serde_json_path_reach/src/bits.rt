//! What is pending at a value, as the bits of a number.

ghost use Rattle.std.specs.Prelude.{◌≡◌};
ghost use Rattle.serde_json_path_reach.specs.Inside.Bits as bits;

/// The bit of a value that a query may end at.
pub(crate) const WHOLE: u64 = 1;

/// The bit of a value that a query may end at of which places are enough.
pub(crate) const PLACE: u64 = 2;

/// Whether some bit of the two is the same.
#[inline(always)]
#[tactic(auto, unfolding(crate::specs::Inside::Bits::meets))]
pub(crate) fn meets(a: u64, b: u64) -> bool
    ensures { result ≡ bits.meets a b }
{
    a & b != 0
}

/// Whether a query may end at the value, so that all of it is kept.
#[inline(always)]
pub(crate) fn is_whole(pending: u64) -> bool
    ensures { result ≡ bits.is_whole pending }
{
    meets(pending, WHOLE)
}

/// Whether a query may end at the value of which places are enough, so that its place is kept.
#[inline(always)]
pub(crate) fn is_place(pending: u64) -> bool
    ensures { result ≡ bits.is_place pending }
{
    meets(pending, PLACE)
}
