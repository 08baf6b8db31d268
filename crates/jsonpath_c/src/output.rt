//! Answers in what the caller lends.

ghost use Rattle.std.specs.Prelude.{◌≡◌, ◌⊎◌, IfErr, IfOk};
ghost use Rattle.jsonpath_c.specs.Exports.{IsPut, FindsNoRoom};

use crate::status::{DONE, NO_ROOM};

/// Copies a text to the beginning of `out`, if it finds room there. Returns the status.
pub(crate) fn put(text: &str, out: &mut [u8], size: &mut usize) -> u8
    ensures either { (result ≡ 0) ⊎ (result ≡ 5) }
    ensures put { result ≡ 0 → IsPut text.now out.old out.new size.new }
    ensures no_room { result ≡ 5 → FindsNoRoom text.now out.old size.new × (out.new ≡ out.old) }
{
    let bytes = text.as_bytes();
    *size = bytes.len();
    if bytes.len() > out.len() {
        return NO_ROOM;
    }
    out[..bytes.len()].copy_from_slice(bytes);
    DONE
}

/// Puts an answer, or nothing where there is a status instead. Returns the status.
pub(crate) fn put_answer<T: Copy>(found: Result<T, u8>, out: &mut T) -> u8
    ensures done { IfOk found (λ answer. (result ≡ 0) × (out.new ≡ answer)) }
    ensures none { IfErr found (λ status. (result ≡ status) × (out.new ≡ out.old)) }
{
    match found {
        Ok(answer) => {
            *out = answer;
            DONE
        }
        Err(status) => status,
    }
}
