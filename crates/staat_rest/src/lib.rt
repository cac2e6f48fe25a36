//! Plans for products of any size that take apart all that comes apart, down to groups of parts that are stuck.
#![tactic(auto)]

mod copying;
mod groups;
mod merging;
mod rest;
mod turning;

pub use rest::plan_to_groups;
