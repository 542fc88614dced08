//! The report of a run: what came of each session, of each of its destinations and of the units of interface paths, and the
//! moves of the pools, as text that is printed and read.
//!
//! The report's lines and their order are this project's own.
#![tactic(auto)]

mod fault;
mod fields;
mod line;
mod lines;
mod parts;
mod print;
mod read;
mod report;
mod results;
mod words;

pub use fault::ReportFault;
pub use print::print_report;
pub use read::read_report;
pub use report::{
    DestLines, GroupMove, GroupMoveLines, GroupPool, GroupPoolLines, IfLines, MoveLines, PoolLine,
    Report, SessionLines,
};
