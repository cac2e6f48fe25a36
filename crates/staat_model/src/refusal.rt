// Why a text is not made.
ghost use Rattle.std.specs.Prelude.{◌≡◌};
ghost use Rattle.staat_model.specs.declared.refusal.TextRefusal.TheVariants.{OutOfMemory as NoMemory};

use staat_vec::OutOfMemory;
use std::alloc::{AllocError, AllocFailed};
use thiserror::Error;

/// Why there is no text.
#[derive(Clone, Copy, Debug, PartialEq, Eq, Error)]
pub enum TextRefusal {
    /// The text has this length in bytes, which is above [`TEXT_LIMIT`](staat_limits::TEXT_LIMIT).
    #[error("text too long ({0})")]
    TextTooLong(u128),
    /// There was no memory.
    #[error("out of memory")]
    OutOfMemory,
}

impl From<OutOfMemory> for TextRefusal {
    ghost from_gives = { λ _ e. e ≡ NoMemory };

    fn from(_: OutOfMemory) -> Self {
        TextRefusal::OutOfMemory
    }
}

impl From<AllocError> for TextRefusal {
    ghost from_gives = { λ _ e. e ≡ NoMemory };

    fn from(_: AllocError) -> Self {
        TextRefusal::OutOfMemory
    }
}

impl<T: Drop> From<AllocFailed<T>> for TextRefusal {
    ghost from_gives = { λ _ e. e ≡ NoMemory };

    fn from(_: AllocFailed<T>) -> Self {
        TextRefusal::OutOfMemory
    }
}
