//! Assemblies and products in which no pieces of different parts overlap.
#![tactic(auto)]

pub mod laws;
mod placing;
mod refusal;
mod search;
mod sound;

pub use placing::{PlaceRefusal, place};
pub use refusal::AsmRefusal;
pub use sound::{build, build_product};
