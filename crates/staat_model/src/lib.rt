//! Pieces, assemblies, plans and certificates, and what is said of them.
#![tactic(auto)]

mod assembly;
mod cell_laws;
mod certificate;
mod cone_laws;
mod core_laws;
pub mod laws;
mod line;
mod one_laws;
mod piece;
mod piece_laws;
mod plan_laws;
mod product;
mod refusal;
mod set;
mod solid;
mod tree;
mod verdict;

pub use assembly::{Assembly, Part, Parts, Sound};
pub use certificate::{
    Arc, Arcs, Body, Certificate, Dir, Dirs, Node, Nodes, Sep, Seps, Witness, Witnesses,
};
pub use line::Line;
pub use piece::{Piece, Pieces, Points};
pub use product::{Product, SoundProduct};
pub use refusal::TextRefusal;
pub use set::PartSet;
pub use solid::{is_solid, normal_off_line, other_than};
pub use tree::{Kind, Marks, Outcome, Step, Tree};
pub use verdict::{Reason, Verdict};
