//! The arrangement of great circles, as circles of vertices that are linked by index, from which planes are taken out
//! and put back without a search; and walks along its circles, which keep the blocking graph of the vertex.
#![tactic(auto)]

mod arrays;
mod block_counts;
mod build;
mod circle;
mod counted_signs;
mod entry;
mod half_circle;
mod index;
mod keys;
pub mod laws;
mod linking;
mod next_stops;
mod nodes;
mod order;
mod pairs;
mod rings;
mod rounds;
mod stop_list;
mod vertex;
mod walk;

pub use circle::Circle;
pub use counted_signs::CountedSigns;
pub use entry::Entry;
pub use rings::Rings;
pub use vertex::Vertex;
pub use walk::Walk;
