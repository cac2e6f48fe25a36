// Why bytes are no part list.
ghost use Rattle.std.specs.Prelude.{◌≡◌, codes, decimal, ◌++◌};
ghost use Rattle.staat_manifest.specs.declared.refusal.ManifestRefusal.TheVariants.{OutOfMemory};

use staat_vec::Name;
use std::alloc::{AllocError, AllocFailed};
use std::fmt;
use thiserror::Error;

/// Why bytes are no part list.
///
/// A path leads to the place of the fault, as `/parts/2/pieces/0`; parts and pieces count from 0.
#[derive(Drop, Error)]
pub enum ManifestRefusal {
    /// The bytes are no JSON value.
    #[error("not JSON")]
    NotJson,
    /// The value at this path is not of the wanted form, or has a member that is not known.
    #[error("bad shape at {}", .0.as_str())]
    BadShape(Name),
    /// Two parts have this name.
    #[error("repeated name {}", .0.as_str())]
    RepeatedName(Name),
    /// The part of this number has no pieces.
    #[error("no pieces in part {0}")]
    NoPieces(u32),
    /// There are more parts than may be.
    #[error("too many parts")]
    TooManyParts,
    /// The parts have more pieces in all than may be.
    #[error("too many pieces")]
    TooManyPieces,
    /// There was no memory for the value or for the list.
    #[error("out of memory")]
    OutOfMemory,
}

impl fmt::Debug for ManifestRefusal {
    fn fmt<W: fmt::Write>(&self, f: &mut fmt::Formatter<W>) -> fmt::Result {
        write!(f, "{self}")
    }
}

impl From<AllocError> for ManifestRefusal {
    ghost from_gives = { λ _ e. e ≡ OutOfMemory };

    fn from(_: AllocError) -> Self {
        ManifestRefusal::OutOfMemory
    }
}

impl<T: Drop> From<AllocFailed<T>> for ManifestRefusal {
    ghost from_gives = { λ _ e. e ≡ OutOfMemory };

    fn from(_: AllocFailed<T>) -> Self {
        ManifestRefusal::OutOfMemory
    }
}
