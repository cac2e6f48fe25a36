//! What stops a request: each fault with its status and its line.
#![tactic(auto)]

mod fault;
pub mod laws;
mod line;
mod status;

pub use fault::Fault;
pub use line::{MEMORY_LINE, USAGE_LINE, WRITE_LINE, fault_line};
pub use status::status_of;
