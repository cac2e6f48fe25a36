// Why an assembly or a product is not sound.
use staat_vec::OutOfMemory;
use thiserror::Error;

/// Why no sound assembly or product was made.
#[derive(Clone, Copy, Debug, PartialEq, Eq, Error)]
pub enum AsmRefusal {
    /// Pieces of two parts overlap: a part and its piece, and a part with a greater number and its piece. No other two
    /// overlap that come before them, by these four numbers in this order.
    #[error("parts {0} and {2} overlap in pieces {1} and {3}")]
    Overlap(u32, u32, u32, u32),
    /// There was no memory.
    #[error("out of memory")]
    OutOfMemory,
}

impl From<OutOfMemory> for AsmRefusal {
    ghost use Rattle.std.specs.Prelude.{◌≡◌};
    ghost use Rattle.staat_asm.specs.declared.refusal.AsmRefusal.TheVariants.{OutOfMemory};

    ghost from_gives = { λ _ e. e ≡ OutOfMemory };

    fn from(_: OutOfMemory) -> Self {
        AsmRefusal::OutOfMemory
    }
}
