// Certificates of plans and of refusals.
use crate::set::PartSet;
use staat_vec::{Listed, V3};

/// Piece `i` of part `a` against piece `j` of part `b`. Arcs are ordered by `a`, then `i`, then `b`, then `j`.
#[derive(Clone, Copy, PartialEq, Eq, PartialOrd, Ord)]
pub struct Arc {
    pub a: u32,
    pub i: u32,
    pub b: u32,
    pub j: u32,
}

/// The normal of a wall that keeps the two pieces of an arc apart.
#[derive(Clone, Copy)]
pub struct Sep {
    pub arc: Arc,
    pub n: V3,
}

/// A node of a plan: a part by itself, or a step along `d` with a wall for each two pieces across.
#[derive(Drop)]
pub enum Node {
    Leaf(u32),
    Split { d: V3, seps: Seps },
}

/// Arcs that show that each part of a set can be reached from each other: the arcs from the least part outwards,
/// and those back to it.
#[derive(Drop)]
pub struct Witness {
    pub outs: Arcs,
    pub ins: Arcs,
}

/// A direction, and the number of the witness for it.
#[derive(Clone, Copy)]
pub struct Dir {
    pub d: V3,
    pub witness: u32,
}

/// A whole plan in preorder, or a set of parts that no step takes apart.
#[derive(Drop)]
pub enum Body {
    Plan(Nodes),
    Stuck {
        set: PartSet,
        witnesses: Witnesses,
        dirs: Dirs,
    },
}

/// A certificate for an assembly of so many parts. Its version is 1 or 2: the second has one of each two opposite
/// directions.
#[derive(Drop)]
pub struct Certificate {
    pub version: u32,
    pub parts: u32,
    pub body: Body,
}

/// A list of arcs.
pub type Arcs = Listed<Arc>;

/// A list of walls.
pub type Seps = Listed<Sep>;

/// A list of nodes.
pub type Nodes = Listed<Node>;

/// A list of witnesses.
pub type Witnesses = Listed<Witness>;

/// A list of directions with their witnesses.
pub type Dirs = Listed<Dir>;
