//! Tests of bus_worker's public calls, in a crate of their own: a tick of one bus over a plain hub.
#![tactic(auto)]

#[cfg(test)]
mod tests;
