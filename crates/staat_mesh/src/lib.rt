//! From a mesh to a convex piece.
#![tactic(auto)]

mod edges;
mod face;
mod faces;
pub mod laws;
mod make;
mod numbers;
mod plane;
mod refusal;
mod table;
mod used;

pub use make::make_piece;
pub use refusal::MeshRefusal;
