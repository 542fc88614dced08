//! Tests of the report, in a crate of their own: a text with each kind of line.
#![tactic(auto)]

#[cfg(test)]
mod tests;
