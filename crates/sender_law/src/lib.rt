//! Laws of one sender, whatever other machines there are: what its frames, the flow controls that came and its records
//! say together.
#![tactic(auto)]

mod frames;
mod transfer;
mod transmission;

pub use frames::emission_law;
pub use transfer::transfer_law;
pub use transmission::transmission_law;
