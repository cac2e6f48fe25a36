// Certificates by holds.
use staat_holds::Holds;
use staat_vec::{Listed, V3};

/// A node of a plan: a part by itself, a step that moves one side along the direction to infinity away from the other
/// one, or a group of parts that no step takes apart, shown by holds of which the last joins them all.
#[derive(Drop)]
pub enum ShortNode {
    Leaf(u32),
    Split(V3),
    Group(Holds),
}

/// The nodes of a plan in preorder: behind a split stand the nodes of the side that moves, and then those of the side
/// that rests. A list takes no memory that lies deep, however far a plan leans to one side.
pub type ShortNodes = Listed<ShortNode>;

/// A plan that takes all parts apart, or a set of parts that is stuck, which the last of the holds joins, or a plan
/// that takes apart all but its groups.
#[derive(Drop)]
pub enum ShortAnswer {
    Plan(ShortNodes),
    Stuck(Holds),
    Rest(ShortNodes),
}

/// A certificate for a product of so many parts that names no walls and no witnesses: whoever judges it looks for
/// them.
#[derive(Drop)]
pub struct ShortCertificate {
    pub parts: u32,
    pub answer: ShortAnswer,
}
