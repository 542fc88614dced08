//! The cancellations of a configuration, found by their bus and tick.
//!
//! They are this project's own.
#![tactic(auto)]

mod entry;
mod plan;
#[cfg(test)]
mod tests;

pub use entry::CancelEntry;
pub use plan::CancelPlan;
