// The lines of a certificate's text.
use crate::certificate::{Arc, Dir, Sep};
use crate::set::PartSet;
use staat_vec::V3;

/// What one line of a certificate's text says: a word and its numbers.
#[derive(Clone, Copy)]
pub enum Line {
    /// `STAAT` and the version of the format.
    Head(u32),
    /// `parts` and the number of parts.
    Parts(u32),
    /// `plan`.
    Plan,
    /// `stuck` and the parts of the set, ascending.
    Stuck(PartSet),
    /// `leaf` and a part.
    Leaf(u32),
    /// `split` and a direction.
    Split(V3),
    /// `sep`, an arc and a normal.
    Sep(Sep),
    /// `witness` and its number.
    Witness(u32),
    /// `out` and an arc.
    Out(Arc),
    /// `in` and an arc.
    In(Arc),
    /// `dir`, a direction and the number of a witness.
    Dir(Dir),
    /// `end`.
    End,
}
