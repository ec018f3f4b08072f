//! Ids, the two dies, and the outside as two traits, a folder of files and a sink of printed bytes:
//! in memory for tests, and over the system's files and standard output.
#![tactic(auto)]

mod buffer;
mod call_count;
mod device;
mod dir_folder;
mod file_table;
mod folder;
mod ids;
mod mem_folder;
mod mem_sink;
mod side;
mod sink;
mod stdout_sink;

pub use dir_folder::DirFolder;
pub use folder::{Failed, Folder, NoMemory, ReadFault};
pub use ids::{CellId, ConnId, Die, LibId, NetId, Point, SlotId, TechId};
pub use mem_folder::MemFolder;
pub use mem_sink::MemSink;
pub use side::{Bottom, SegId, Side, Top};
pub use sink::Sink;
pub use stdout_sink::StdoutSink;

#[cfg(test)]
mod tests;
