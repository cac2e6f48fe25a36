// Why bytes are no OFF file.
use std::alloc::{AllocError, AllocFailed};
use thiserror::Error;

/// Why bytes are not read as an OFF file: the first fault in reading order.
///
/// A number with a refusal is the offset of the word at fault: that of its first byte, counted from 0.
#[derive(Clone, Copy, Debug, PartialEq, Eq, Error)]
pub enum OffRefusal {
    /// The first word is not `OFF`, or there is no word.
    #[error("no OFF header")]
    NoHeader,
    /// A word that should be a coordinate is no decimal number of at most 64 bytes.
    #[error("bad number at {0}")]
    BadNumber(u64),
    /// A coordinate is not whole after scaling.
    #[error("not a whole number at {0}")]
    NotWhole(u64),
    /// A coordinate exceeds [`POINT`](staat_vec::POINT) in absolute value after scaling.
    #[error("number too big at {0}")]
    TooBig(u64),
    /// A word that should be a count is none, or a face has no corners.
    #[error("bad count at {0}")]
    BadCount(u64),
    /// A word that should be an index is no number below the number of vertices.
    #[error("bad index at {0}")]
    BadIndex(u64),
    /// The file ends where a word is wanted.
    #[error("file too short")]
    ShortFile,
    /// A word stands behind the last face.
    #[error("extra word at {0}")]
    Trailing(u64),
    /// There was no memory.
    #[error("out of memory")]
    OutOfMemory,
}

impl From<AllocError> for OffRefusal {
    ghost use Rattle.std.specs.Prelude.{◌≡◌};
    ghost use Rattle.staat_off.specs.declared.refusal.OffRefusal.TheVariants.{OutOfMemory};

    ghost from_gives = { λ _ e. e ≡ OutOfMemory };

    fn from(_: AllocError) -> Self {
        OffRefusal::OutOfMemory
    }
}

impl<T: Drop> From<AllocFailed<T>> for OffRefusal {
    ghost use Rattle.std.specs.Prelude.{◌≡◌};
    ghost use Rattle.staat_off.specs.declared.refusal.OffRefusal.TheVariants.{OutOfMemory};

    ghost from_gives = { λ _ e. e ≡ OutOfMemory };

    fn from(_: AllocFailed<T>) -> Self {
        OffRefusal::OutOfMemory
    }
}
