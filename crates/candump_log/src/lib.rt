//! A log of one interface, after candump's log format: read in pieces, cut at each line feed, and each line read as a
//! frame.
#![tactic(auto)]

mod held;
mod law;
mod line;
mod listing;
mod log;
mod reader;
mod reading;
mod so_far;
mod source;
mod writer;

pub use law::pieces_law;
pub use log::{LineStop, Log, LogStop, Stamped};
pub use reader::LogReader;
pub use reading::read_log;
pub use source::LogSource;
pub use writer::LogWriter;
