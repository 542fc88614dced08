//! Where the words of a shared hub lie in its table.
#![tactic(auto)]

mod law;
mod layout;

pub use law::{places_differ, places_lie_within};
pub use layout::Layout;

#[cfg(test)]
mod tests;
