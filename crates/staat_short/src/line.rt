// The lines of a short certificate's text.
use staat_model::Arc;
use staat_vec::V3;

/// What one line of a short certificate's text says: words and their numbers.
#[derive(Clone, Copy)]
pub enum ShortLine {
    /// `STAAT SHORT 1`.
    Title,
    /// `parts` and the number of parts.
    Parts(u32),
    /// `plan`.
    Plan,
    /// `stuck`.
    Stuck,
    /// `rest`.
    Rest,
    /// `split` and a direction.
    Split(V3),
    /// `leaf` and a part.
    Leaf(u32),
    /// `group`.
    Group,
    /// `hold`.
    Hold,
    /// `part` and the least part of a node.
    Part(u32),
    /// `pair` and two pieces of parts.
    Pair(Arc),
    /// `end`.
    End,
}
