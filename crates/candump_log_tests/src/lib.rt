//! Tests of logs in pieces, in a crate of their own: pieces of every size, logs that change, and calls that fail in turn.
#![tactic(auto)]

#[cfg(test)]
mod tests;
