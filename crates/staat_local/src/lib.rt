//! Moves that begin: the pieces that touch, and the sides of a set of parts that they do not hold.
#![tactic(auto)]

mod graph;
pub mod laws;
mod pieces;
mod side;
mod step;
mod texts;
mod tight;
mod touching;

pub use graph::local_graph;
pub use pieces::touch;
pub use side::Loose;
pub use step::local_step;
pub use texts::local_text;
