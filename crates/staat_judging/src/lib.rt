//! The commands `check` and `confirm`, which judge certificates.
#![tactic(auto)]

mod certificate;
pub mod check;
pub mod confirm;
mod feeding;
mod lines;
mod short_certificate;
