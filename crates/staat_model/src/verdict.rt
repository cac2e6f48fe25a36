// What the checker answers.
use staat_vec::V3;

/// What is said of a certificate.
#[derive(Clone, Copy)]
pub enum Verdict {
    ValidPlan,
    ValidRefusal,
    Not(Reason),
}

/// The first rule that a certificate breaks. Nodes, witnesses and places in lists count from 0, lines from 1.
#[derive(Clone, Copy)]
pub enum Reason {
    /// It states this number of parts, which is not the assembly's.
    WrongParts(u32),
    /// This node is the first leaf whose part does not exist or has an earlier leaf. Where there is none and a part
    /// has no leaf, it is the number of nodes.
    BadLeaves(u32),
    /// The split at this node has no direction.
    ZeroDirection(u32),
    /// The wall on this line does not keep its pieces apart along the split's direction, or is out of place.
    BadSeparator(u32),
    /// The split has no wall for piece `i` of part `a` and piece `j` of part `b`.
    MissingSeparator(u32, u32, u32, u32),
    /// The set has fewer than two parts, or a part that does not exist.
    BadStuckSet,
    /// An arc of the witness that this line names does not block its direction.
    BadArc(u32),
    /// The arcs of this witness do not join the parts of the set.
    BadTree(u32),
    /// No line has this direction, which is a vertex of the set's planes.
    MissingDirection(V3),
}
