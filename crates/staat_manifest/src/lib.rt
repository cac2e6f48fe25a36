//! Part lists: JSON texts that name the parts of a product, each with the files of its pieces.
#![tactic(auto)]

mod json;
mod listing;
mod part;
mod paths;
mod placement;
mod reader;
mod refusal;

pub use listing::{ListedPart, Listing};
pub use reader::{read_listing, read_manifest};
pub use refusal::ManifestRefusal;
