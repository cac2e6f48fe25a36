//! The exploded view: how far each part of a plan is moved, and the text of the scene.
#![tactic(auto)]

mod axis;
mod boxes;
mod exploded;
mod grow;
pub mod laws;
mod off;
mod refusal;
mod scene;
mod sheet;
mod shifted;
mod shifts;
mod texts;

pub use boxes::Bounds;
pub use exploded::explode;
pub use grow::FARTHEST;
pub use refusal::{ExplodeRefusal, SceneRefusal};
pub use scene::{Solid, Solids, scene_text};
pub use shifted::Shifted;
pub use shifts::Shifts;
pub use texts::shifts_text;
