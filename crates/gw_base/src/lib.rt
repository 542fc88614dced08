//! The numbers, lists and digits that every crate of the gateway speaks of.
#![tactic(auto)]

mod digits;
mod list;
mod memory;
mod numbers;

pub use digits::decimal;
pub use list::{Bytes, ListOf};
pub use memory::Memory;
pub use numbers::{BufNo, BusNo, ChanNo, DestNo, GroupNo, Micros, PathNo, Tick};
