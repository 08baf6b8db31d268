//! A text that is not read as far as a path can reach.

use std::alloc::{AllocError, AllocFailed};

/// The text is no document, or memory is refused. The whole reading says which.
#[derive(Clone, Copy, Drop)]
pub(crate) struct Refused;

impl From<AllocError> for Refused {
    fn from(_refused: AllocError) -> Refused {
        Refused
    }
}

impl<T: Drop> From<AllocFailed<T>> for Refused {
    fn from(_refused: AllocFailed<T>) -> Refused {
        Refused
    }
}

impl From<json::Invalid> for Refused {
    fn from(_invalid: json::Invalid) -> Refused {
        Refused
    }
}
