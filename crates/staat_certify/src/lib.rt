//! The certificate of a plan or of a refusal.
#![tactic(auto)]

mod certificate;
pub mod laws;
mod listing;
mod nodes;
mod vantage;
mod visit_list;
mod visits;
mod walls;
mod witnesses;

pub use certificate::certify;
