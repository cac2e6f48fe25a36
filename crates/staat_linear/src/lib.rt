//! Orders in which one part after another is taken away, for a hand that holds one part alone.
#![tactic(auto)]

mod chosen;
pub mod laws;
mod order;
mod step;
mod text;

pub use chosen::{LinearRefusal, linear};
pub use order::{Leave, Leaves, Order};
pub use step::linear_step;
pub use text::linear_text;
