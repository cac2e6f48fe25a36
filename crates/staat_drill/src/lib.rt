//! Products that the program makes itself, to be tried on.
#![tactic(auto)]

mod products;

pub use products::{nested_boxes, row_of_cubes};
