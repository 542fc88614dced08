//! The outside of the gateway: files by name, and a place for what the program says.
#![tactic(auto)]

mod faults;
mod folder_depot;
mod mem_depot;
mod mem_files;
mod mem_sink;
mod never_fails;
mod open_files;
mod opened_file;
mod out_sink;
mod outside;
mod piece;
mod plan;

pub use folder_depot::FolderDepot;
pub use mem_depot::MemDepot;
pub use mem_sink::MemSink;
pub use never_fails::NeverFails;
pub use out_sink::OutSink;
pub use outside::{CallKind, Depot, Failed, Sink};
