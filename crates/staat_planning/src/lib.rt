//! The commands that plan: `plan`, `explode` and `drill`.
#![tactic(auto)]

pub mod drill;
pub mod explode;
pub mod plan;
