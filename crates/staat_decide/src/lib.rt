//! Taking sets of parts apart: what one direction alone takes apart, and a plan for all parts, or parts that are stuck.
#![tactic(auto)]

mod arcs;
mod asking;
mod circles;
mod decision;
mod directions;
mod every;
mod growing;
mod guess;
mod halves;
mod holding;
mod labels;
mod likely;
mod listing;
mod order;
mod pairs;
mod peeling;
mod planes;
mod planning;
mod reach;
mod scene;
mod sets;
mod settling;
mod spots;
mod spreading;
mod table;
mod turns;
mod unlisted;

pub use arcs::{Row, rows_of};
pub use decision::Decision;
pub use likely::numbers;
pub use peeling::{peel, take_apart};
pub use planning::decide;
pub use sets::{PartList, Sets};
