//! Which channel and which interface paths a frame belongs to, by its bus, its identifier and its first byte.
//!
//! Matching by identifier and address byte is that of ISO 15765-2, "Addressing formats"; the table is this project's
//! own.
#![tactic(auto)]

mod by_bus;
mod entry;
mod table;
#[cfg(test)]
mod tests;

pub use entry::{ChanEntry, IfEntry};
pub use table::Table;
