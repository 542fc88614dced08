//! Tests of the interface queues, in a crate of their own: every order of a few calls against a plain list.
#![tactic(auto)]

#[cfg(test)]
mod tests;
