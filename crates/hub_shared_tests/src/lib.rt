//! Takes over a shared hub by ports in threads of their own; they stand in a crate of their own, so that the hub is
//! proved once.
#![tactic(auto)]

mod sessions;
mod takers;

pub use sessions::{Meeting, enter_and_join};
pub use takers::{Outcome, four_takers, two_takers};

#[cfg(test)]
mod tests;
