// Orders of parts, and sets from which no part can be taken.
use staat_model::PartSet;
use staat_vec::{Listed, V3};

/// One step of an order: a part that is taken away along `d` to infinity.
#[derive(Clone, Copy)]
pub struct Leave {
    pub part: u32,
    pub d: V3,
}

/// The steps of an order, the first one first.
pub type Leaves = Listed<Leave>;

/// In what order the parts are taken away, one at a time, up to the last; or a set of parts from which none can be
/// taken.
#[derive(Drop)]
pub enum Order {
    Whole { leaves: Leaves, last: u32 },
    Locked(PartSet),
}
