//! Where bytes come from and go to: shelves of files, sinks of text, and the calls that read and
//! write a whole one.
#![tactic(auto)]

mod disk;
mod laws;
mod lists;
mod memory_shelf;
mod memory_sink;
mod schedule;
mod shelf;
mod sink;
mod trace;
mod whole;

pub use disk::{DiskShelf, StreamSink};
pub use laws::own_files;
pub use lists::{Calls, Files};
pub use memory_shelf::MemoryShelf;
pub use memory_sink::MemorySink;
pub use shelf::{Failed, Shelf};
pub use sink::Sink;
pub use whole::{ReadRefusal, WriteFault, read_whole, write_whole};
