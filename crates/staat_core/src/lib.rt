//! Cores: a few pairs of pieces by which a set of parts is seen to be held together.
#![tactic(auto)]

mod bonds;
mod cores;
mod decide;
mod grow;
mod joins;
mod listed;
mod search;
mod source;
mod table_core;
mod table_pairs;

pub use cores::Core;
pub use joins::Moving;
pub use listed::PairList;
pub use search::{ALL_PAIRS, Search, Served, Trial, Tried, first_vertex, first_within};
pub use source::PairSource;
pub use table_core::TableCore;
pub use table_pairs::TablePairs;
