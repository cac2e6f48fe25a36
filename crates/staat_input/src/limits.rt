// How much an input may name.
use staat_limits::{MOST_PARTS, MOST_PIECES, MOST_PRODUCT_PARTS, MOST_PRODUCT_PIECES};

/// How many parts an input may name at most, and how many pieces in all.
#[derive(Clone, Copy, Drop)]
pub struct Limits {
    pub parts: u32,
    pub pieces: u32,
}

impl Limits {
    /// What an assembly may have.
    pub const ASSEMBLY: Limits = Limits {
        parts: MOST_PARTS,
        pieces: MOST_PIECES,
    };

    /// What a product may have.
    pub const PRODUCT: Limits = Limits {
        parts: MOST_PRODUCT_PARTS,
        pieces: MOST_PRODUCT_PIECES,
    };
}
