//! The text of certificates that name holds and no walls, written and read.
#![tactic(auto)]

mod hold_lines;
pub mod laws;
mod line;
mod line_reading;
mod machine;
mod nodes;
mod plan_lines;
mod reader;
mod short;
mod stage;
mod whole;
mod writing;

pub use line::ShortLine;
pub use nodes::{grouped_nodes, plan_nodes};
pub use reader::ShortReader;
pub use short::{ShortAnswer, ShortCertificate, ShortNode, ShortNodes};
pub use whole::read_short;
pub use writing::short_text;
