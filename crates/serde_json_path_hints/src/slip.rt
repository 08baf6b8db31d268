//! A slip, and the first of several that is there.

ghost use Rattle.std.specs.Prelude.{◌≡◌, ◌++◌, option_map, map};
ghost use Rattle.serde_json_path_hints.specs.Hints.{is_there, first_hint, before_place, ahead_of_place};
ghost use Rattle.serde_json_path_hints.specs.Inside.Lent.{slip_of};

use crate::condition::{Side, is_met};

/// A slip: what the text before the place is like, what the text from the place on is like, and what was probably meant.
pub(crate) type Slip = (Side, Side, &'static str);

/// Whether a slip is there, between what is before the place and what is ahead.
fn is_there(slip: &Slip, before: &[u8], ahead: &[u8]) -> bool
    ensures { result ≡ is_there before.now ahead.now (slip_of slip.now) }
{
    let (of_before, of_ahead, _) = slip;
    is_met(of_before, before) && is_met(of_ahead, ahead)
}

/// The hint of the first slip that is there.
pub(crate) fn first_there(
    slips: &'static [Slip],
    before: &[u8],
    ahead: &[u8],
) -> Option<&'static str>
    ensures { option_map (λ s. s.now) result
        ≡ first_hint before.now ahead.now (map slip_of slips.now) }
{
    for slip in slips {
        if is_there(slip, before, ahead) {
            return Some(slip.2);
        }
    }
    None
}

/// The hint of the first slip that is there, in one table or else in another.
pub(crate) fn first_of_two(
    slips: &'static [Slip],
    others: &'static [Slip],
    before: &[u8],
    ahead: &[u8],
) -> Option<&'static str>
    ensures { option_map (λ s. s.now) result
        ≡ first_hint before.now ahead.now (map slip_of slips.now ++ map slip_of others.now) }
{
    match first_there(slips, before, ahead) {
        Some(hint) => Some(hint),
        None => first_there(others, before, ahead),
    }
}

/// The text before a place and the text from it on, both without the blanks beside the place. Positions count from 1.
pub(crate) fn sides(text: &[u8], position: usize) -> (&[u8], &[u8])
    ensures before { result.0.now ≡ before_place position text.now }
    ensures ahead { result.1.now ≡ ahead_of_place position text.now }
{
    let place = position.saturating_sub(1).min(text.len());
    let (before, ahead) = text.split_at(place);
    (before.trim_ascii_end(), ahead.trim_ascii_start())
}
