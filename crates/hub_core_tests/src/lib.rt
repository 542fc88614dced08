//! Tests of hub_core's public calls, and examples of its law; they stand in a crate of their own, so that the hub is
//! proved once.
#![tactic(auto)]

mod examples;
#[cfg(test)]
mod groups;
#[cfg(test)]
mod rings;
#[cfg(test)]
mod tests;

pub use examples::{mistakes_are_refused, two_paths_over_two_groups};
