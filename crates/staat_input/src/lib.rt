//! What every command on parts begins with: the sound assembly that an input names, and the planes of its parts.
#![tactic(auto)]

mod answer;
mod input;
mod limits;
mod moved;
mod planes;
mod read;
mod refusals;
mod sketch;
mod sound;

pub use answer::Answer;
pub use planes::table_of;
pub use read::read_piece;
pub use refusals::{planes_fault, text_fault};
pub use sketch::Sketch;
pub use sound::{read_product, read_sketched, read_sound, tested};
