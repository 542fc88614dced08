//! Tests of the outside, in a crate of their own: its doubles, whose calls fail in turn, and the real folder and output.
#![tactic(auto)]

#[cfg(test)]
mod tests;
