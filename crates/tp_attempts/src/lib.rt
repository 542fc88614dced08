//! Reassembly of ISO 15765-2 over a list of frames: which attempts to send a message it holds, and their bytes.
#![tactic(auto)]

mod attempt;
mod begun;
mod cutting;
mod laws;
mod reassembly;
#[cfg(test)]
mod tests;

pub use attempt::{Attempt, AttemptList};
pub use laws::segments_are_one_attempt;
pub use reassembly::attempts;
