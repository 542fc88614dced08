//! Re-addressing: the frame that a unit becomes on the bus that its interface path leads to.
#![tactic(auto)]

mod readdressing;
#[cfg(test)]
mod tests;

pub use readdressing::readdress;
