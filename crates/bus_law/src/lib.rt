//! Laws of one bus's run, over what its machines did: each machine's run by itself, what it was told of, and what left.
#![tactic(auto)]

mod emission;
mod machines;

pub use emission::emission_law;
pub use machines::machines_law;
