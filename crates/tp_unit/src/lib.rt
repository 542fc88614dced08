//! Protocol units of ISO 15765-2: how a frame is read as a unit, and how a unit is written as a frame.
#![tactic(auto)]

mod box_act;
mod pci;
mod reading;
mod shape;
#[cfg(test)]
mod tests;
mod unit;
mod writing;

pub use box_act::BoxAct;
pub use reading::read_unit;
pub use shape::{Part, Shape, cf_part, start_part, unit_fits};
pub use unit::{MAX_CONSECUTIVE, MAX_START, Unit, Why};
pub use writing::write_unit;
