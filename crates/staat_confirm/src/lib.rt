//! The judge of short certificates for a product of any size.
#![tactic(auto)]

mod ends;
mod groups;
mod judging;
pub mod laws;
mod meeting;
mod owners;
mod sides;
mod splits;
mod verdict;

pub use judging::confirm;
pub use verdict::{ShortReason, ShortVerdict};
