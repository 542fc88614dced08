//! Tests of the configuration, in a crate of their own: texts read, printed and refused.
#![tactic(auto)]

#[cfg(test)]
mod tests;
