//! The texts that the program prints.
#![tactic(auto)]

mod arcs;
mod cells;
mod drills;
mod graphs;
mod holding;
pub mod laws;
mod numbers;
mod parts;
mod plans;
mod rows;
mod verdicts;

pub use cells::cells_text;
pub use drills::drill_text;
pub use graphs::graph_text;
pub use numbers::numbers_text;
pub use parts::{look_text, parts_text};
pub use plans::{
    direction_text, each_once, moves_line, parts_listed, plan_text, steps_text, stuck_text,
};
pub use rows::rows_text;
pub use verdicts::verdict_text;
