//! Tests of the conflicts, in a crate of their own: what is said of each, and how it is mended.
#![tactic(auto)]

#[cfg(test)]
mod tests;
