//! Tests of the sender, in a crate of their own: sessions over a plain hub, event by event.
#![tactic(auto)]

#[cfg(test)]
mod pacing;
#[cfg(test)]
mod tests;
