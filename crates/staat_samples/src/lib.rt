//! Pieces, parts and assemblies for tests: boxes and prisms.
#![tactic(auto)]

mod assemblies;
mod pieces;

pub use assemblies::{assembly_of, boxes, part_of, prisms};
pub use pieces::{at, boxed, piece_of, prism};
