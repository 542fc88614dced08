//! Tests of the settings, in a crate of their own: values of each kind and their faults.
#![tactic(auto)]

#[cfg(test)]
mod tests;
