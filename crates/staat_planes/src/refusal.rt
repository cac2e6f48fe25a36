// Why there is no table of planes.
ghost use Rattle.std.specs.Prelude.{◌≡◌};
ghost use Rattle.staat_planes.specs.declared.refusal.PlanesRefusal.TheVariants.{OutOfMemory as NoMemory};

use staat_vec::OutOfMemory;
use thiserror::Error;

/// Why there is no table of planes.
#[derive(Clone, Copy, Debug, PartialEq, Eq, Error)]
pub enum PlanesRefusal {
    /// The parts have this many planes, which is above the limit.
    #[error("too many planes ({0})")]
    TooManyPlanes(u64),
    /// There was no memory.
    #[error("out of memory")]
    OutOfMemory,
}

impl From<OutOfMemory> for PlanesRefusal {
    ghost from_gives = { λ _ e. e ≡ NoMemory };

    fn from(_: OutOfMemory) -> Self {
        PlanesRefusal::OutOfMemory
    }
}
