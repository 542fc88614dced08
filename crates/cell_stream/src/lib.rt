//! Cells and their bytes: a payload packed into words of up to seven bytes, and the bytes of words carried on
//! until a frame takes them.
#![tactic(auto)]

mod carry;
mod packing;
#[cfg(test)]
mod tests;

pub use carry::Carry;
pub use packing::pack;
