// Plans that may end in groups.
use crate::hold::Holds;
use staat_vec::{Listed, V3};

/// Parts that are stuck together, ascending, and the holds that show it: the last of them joins these parts.
#[derive(Drop)]
pub struct Group {
    pub members: Listed<u32>,
    pub holds: Holds,
}

/// A plan that may end in groups: a part by itself, a group, or a step that moves one side away from the other along
/// `d` to infinity, and the plans of the two sides.
#[derive(Drop)]
pub enum GroupedTree {
    Leaf(u32),
    Group(Group),
    Split {
        d: V3,
        moved: Box<GroupedTree>,
        rest: Box<GroupedTree>,
    },
}
