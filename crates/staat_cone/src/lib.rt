//! Walls between two pieces: the facets of the cone of directions along which one piece meets the other.
#![tactic(auto)]

mod apart;
mod around;
mod behind;
mod edges;
mod facets;
mod few;
pub mod laws;
mod method;
mod plain;
mod scan;
mod search;
mod source;
mod spread;
mod walls;

pub use apart::overlap;
pub use around::furthest;
pub use plain::Plain;
pub use scan::Scan;
pub use source::FacetSource;
pub use walls::{blocks, separates};
