//! Exact vectors of whole numbers, their signs, and the list types that every crate shares.
#![tactic(auto)]

mod ascending;
mod course;
pub mod laws;
mod lists;
mod memory;
mod normal;
mod products;
mod rays;
mod vector;
mod words;

pub use ascending::{in_order, normals_in_order};
pub use course::Course;
pub use lists::{Bytes, Listed, Name, Names};
pub use memory::OutOfMemory;
pub use normal::Normal;
pub use products::{add, cross_normal, det, dot, neg, order_on, sign_dot, sub};
pub use rays::{canon, first_nonzero, first_of_cross, primitive};
pub use vector::{
    DIFF, DIRECTION, EDGE, NORMAL, ORIGIN, POINT, Sign, V3, VERTEX, X_AXIS, Y_AXIS, Z_AXIS, is_same,
};
pub use words::{BROAD, SMALL, are_within, cross_diff, is_within, small_dot, small_sign};
