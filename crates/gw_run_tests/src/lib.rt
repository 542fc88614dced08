//! Tests of the top call, in a crate of their own: what no clause of `run` says.
#![tactic(auto)]

#[cfg(test)]
mod addresses;
#[cfg(test)]
mod base;
#[cfg(test)]
mod blocks;
#[cfg(test)]
mod configurations;
#[cfg(test)]
mod faults;
#[cfg(test)]
mod long;
#[cfg(test)]
mod names_and_timers;
#[cfg(test)]
mod refusals;
#[cfg(test)]
mod runs;
