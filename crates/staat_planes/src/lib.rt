//! Tables of the planes of a set of parts and of the facets of their pieces, and the blocking graph at any direction.
#![tactic(auto)]

mod build;
mod graph;
mod leads;
mod marked_planes;
mod pairs;
mod refusal;
mod steps;
mod table;

pub use build::tabulate;
pub use leads::{Heading, Leads};
pub use pairs::PlanePairs;
pub use refusal::PlanesRefusal;
pub use steps::Steps;
pub use table::PlaneTable;
