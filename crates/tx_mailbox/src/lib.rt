//! The boxes of a bus: frames that wait for arbitration, of which in each tick those of the highest priority leave.
#![tactic(auto)]

mod boxes;
#[cfg(test)]
mod tests;

pub use boxes::Boxes;
