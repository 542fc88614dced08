//! Tests of setups, in a crate of their own: how the machines of whole configurations are configured, and what isn't built.
#![tactic(auto)]

#[cfg(test)]
mod tests;
