//! Whether a piece meets another along a direction: cheaply by how far the pieces reach along a few normals, and else
//! by their facets. There is no limit on parts or pieces.
#![tactic(auto)]

mod along;
mod bounds;
mod frame;
pub mod laws;
mod meeting;
mod shadow;
mod spans;

pub use along::Along;
pub use bounds::{Bodies, Bounds, Boxes};
pub use frame::Frame;
pub use shadow::{Shadow, Shadows};
pub use spans::Span;
