//! Tests of the receiver, in a crate of their own: receptions over a plain hub, step by step, and whole messages through a small
//! buffer.
#![tactic(auto)]

#[cfg(test)]
mod boxes;
#[cfg(test)]
mod granting;
#[cfg(test)]
mod messages;
#[cfg(test)]
mod tests;
