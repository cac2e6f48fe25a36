//! The cells into which planes cut the directions.
#![tactic(auto)]

mod all;
mod batches;
mod cell;
mod compose;
mod edge_incidences;
mod first_cell;
mod graphs;
mod half_spaces;
mod incidence;
mod joined_batches;
pub mod laws;
mod open_incidences;
mod order;
mod part_arcs;
mod points;
mod signs;
mod skeleton;
mod zero_signs;

pub use all::all_cells;
pub use cell::{Cell, Cells, Signs};
pub use first_cell::first_open;
pub use graphs::CellGraphs;
pub use skeleton::Skeleton;
