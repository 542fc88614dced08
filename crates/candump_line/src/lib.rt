//! Lines of a log, after candump's log format: a stamp, an interface and a frame.
#![tactic(auto)]

mod data;
mod digit;
mod fault;
mod fields;
mod id;
mod law;
mod line;
mod pair;
mod read;
mod spell;
mod stamp;
mod write;

pub use fault::{LineFault, LineKind};
pub use law::{reading_law, spelling_law};
pub use line::Line;
pub use read::read_line;
pub use spell::{LineBytes, MOST_WRITTEN};
pub use write::{frame_line, write_line};
