//! The commands `linear` and `local`: the order in which single parts leave, and the side that begins to move.
#![tactic(auto)]

pub mod linear;
pub mod local;
