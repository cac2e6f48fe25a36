//! The whole program, over any shelf of files and any sinks for its texts.
#![tactic(auto)]

pub mod laws;
mod print;
mod top;

pub use print::want_memory;
pub use staat_fault::{Fault, fault_line};
pub use top::staat;
