//! Tests of the lines of a log, in a crate of their own: lines read, written and refused.
#![tactic(auto)]

#[cfg(test)]
mod tests;
