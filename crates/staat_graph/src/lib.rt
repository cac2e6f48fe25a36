//! Graphs on parts: in words of bits what walks reach, groups that reach each other, and trees that show it; in rows of
//! marks groups that reach each other, for any number of parts.
#![tactic(auto)]

mod both_ways;
mod graph;
mod groups;
pub mod laws;
mod rows;
mod trees;
mod walks;

pub use graph::Graph;
pub use groups::{Groups, sink_of, strong_parts};
pub use rows::{PartNumbers, Row, row_groups};
pub use trees::{Trees, trees_of};
pub use walks::{is_strong, reach};
