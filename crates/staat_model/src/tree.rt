// Plans, and what the planner finds.
use crate::set::PartSet;
use staat_vec::{Listed, V3};

/// A plan for two hands: a part by itself, or a step that moves one side away from the other along `d` to infinity,
/// and the plans of the two sides.
#[derive(Drop)]
pub enum Tree {
    Leaf(u32),
    Split {
        d: V3,
        moved: Box<Tree>,
        rest: Box<Tree>,
    },
}

/// The kind of a cell of directions: on two planes or more, on one plane, or on none.
#[derive(Clone, Copy, Debug, PartialEq, Eq)]
pub enum Kind {
    Point,
    Edge,
    Open,
}

/// The kinds of the cells of a plan's directions, one for each split in preorder, or none where the plan is not
/// robust.
pub type Marks = Listed<Kind>;

/// What the planner finds: a plan, or a set of parts that no step takes apart.
#[derive(Drop)]
pub enum Outcome {
    Plan { tree: Tree, marks: Marks },
    Stuck(PartSet),
}

/// One step: the side that moves, and its direction.
#[derive(Clone, Copy)]
pub struct Step {
    pub moved: PartSet,
    pub d: V3,
}
