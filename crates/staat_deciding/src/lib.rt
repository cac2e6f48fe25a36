//! The commands on products of any size: `decide` and `blocks`.
#![tactic(auto)]

pub mod blocks;
pub mod certificate;
pub mod decide;
pub mod rest_text;
