//! Sending: a session's cells become single, first and consecutive frames, as the receiver's flow controls permit
//! (ISO 15765-2, segmentation and flow control).
#![tactic(auto)]

mod ending;
mod event;
mod frame;
mod joining;
mod progress;
mod sender;
mod set;
mod transmission;
mod turn;

pub use event::{TxActs, TxEvent};
pub use sender::Sender;
pub use set::TxSet;
