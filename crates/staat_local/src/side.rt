// A side that begins to move.
use staat_model::PartSet;
use staat_vec::V3;

/// A side of a set of parts that begins to move: no piece of it collides at once with a piece of the rest.
#[derive(Clone, Copy)]
pub struct Loose {
    /// The parts that move.
    pub side: PartSet,
    /// The direction in which they move, not zero.
    pub d: V3,
}
