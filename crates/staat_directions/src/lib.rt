//! The commands that ask of parts and of given directions: `pair`, `look`, `graph` and `cells`.
#![tactic(auto)]

pub mod cells;
pub mod graph;
pub mod look;
pub mod pair;
