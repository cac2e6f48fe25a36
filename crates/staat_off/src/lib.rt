//! The reader of OFF files, the Object File Format of Geomview: words, comments, numbers and faces.
#![tactic(auto)]

mod coordinate;
mod digits;
mod fields;
mod file;
pub mod laws;
mod numeral;
mod raw;
mod refusal;
mod rest;
mod trim;

pub use file::read_off;
pub use raw::{Corners, Faces, Raw, Vertex, Vertices};
pub use refusal::OffRefusal;
