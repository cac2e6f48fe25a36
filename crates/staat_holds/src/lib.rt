//! Whether a few pairs of pieces hold nodes of parts together along every direction. A node is a part by itself, or a
//! set of parts that is stuck.
#![tactic(auto)]

mod grouped;
mod hold;
mod judge;
mod last_joined;
pub mod laws;
mod links;
mod names;
mod ordering;
mod planes;
mod reach;
mod rules;
mod ways;

pub use grouped::{Group, GroupedTree};
pub use hold::{BrokenHold, Hold, HoldRule, Holds};
pub use judge::{first_gap, judge_hold};
pub use last_joined::joined_parts;
pub use links::{has_pieces, is_core_pair, piece_of};
pub use names::{joined_names, own_names, places_of};
pub use ordering::ordered;
pub use rules::first_broken_hold;
