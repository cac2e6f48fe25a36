// What a set of parts comes to.
use crate::sets::Sets;
use staat_holds::Hold;
use staat_model::Tree;
use staat_vec::V3;

/// Sets of parts that leave along `d` one after the other, the last of which stays.
#[derive(Drop)]
pub struct Leaving {
    pub d: V3,
    pub sets: Sets,
}

/// How a set of parts goes on: it comes apart along one direction, or some of its parts are stuck.
#[derive(Drop)]
pub enum Parting {
    Leaves(Leaving),
    Stays(Hold),
}

/// What a set of parts comes to: a plan that takes it apart, or some of its parts that are stuck, so that none does,
/// with pairs of their pieces that hold them together.
#[derive(Drop)]
pub enum Decision {
    Apart(Tree),
    Held(Hold),
}
