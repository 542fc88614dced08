//! One bus of a run: the machines of its channels, and the boxes in which their frames wait to leave.
#![tactic(auto)]

mod boxed;
mod channel;
mod comes;
mod dated;
mod emission;
mod finish;
mod hearing;
mod idle;
mod notes;
mod plan;
mod receiving;
mod sending;
mod sent;
mod start;
mod tick;
mod ticks;
mod told;
mod window;
mod worker;

pub use comes::Comes;
pub use dated::Dated;
pub use plan::{ChannelPlan, SourcePlan};
pub use sent::Sent;
pub use worker::Worker;
