// Holds of nodes, and the rules that they may break.
use staat_model::Arcs;
use staat_vec::{Listed, V3};

/// Nodes, each named by its least part, ascending, and pairs of pieces of their parts that hold them together.
#[derive(Drop)]
pub struct Hold {
    pub nodes: Listed<u32>,
    pub pairs: Arcs,
}

/// A list of holds. What a hold joins is one node for those after it.
pub type Holds = Listed<Hold>;

/// A rule that a hold breaks. Places in lists count from 0.
#[derive(Clone, Copy, PartialEq, Eq)]
pub enum HoldRule {
    /// No node has the name at this place.
    NoNode(usize),
    /// There are fewer than two nodes.
    FewNodes,
    /// The pair at this place is not of two pieces that exist, of parts of two of the nodes.
    BadPair(usize),
    /// At this vertex of the planes of the pairs some node does not reach some other one.
    Gap(V3),
}

/// The place of a hold, and a rule that it breaks.
#[derive(Clone, Copy, PartialEq, Eq)]
pub struct BrokenHold {
    pub hold: usize,
    pub rule: HoldRule,
}
