//! The conflicts between the entries of a configuration: the first one, or a configuration that is accepted.
#![tactic(auto)]

mod checked;
mod conflict;
mod entries;
mod holds;
mod names;
mod search;

pub use checked::{Checked, Refused, check};
pub use conflict::{Conflict, ConflictKind, Place};
