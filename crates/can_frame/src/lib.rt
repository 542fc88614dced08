//! Frames of CAN and CAN FD, after ISO 11898-1: an identifier of 11 or 29 bits and up to 8, or up to 64, bytes.
#![tactic(auto)]

mod arbitration;
mod bits;
mod frame;
mod id;
mod length;

pub use arbitration::{Priority, priority_law};
pub use bits::priority;
pub use frame::{Frame, FrameFault};
pub use id::{CanId, MAX_EXT, MAX_STD};
pub use length::{MAX_CLASSIC, MAX_FD, fill_up};
