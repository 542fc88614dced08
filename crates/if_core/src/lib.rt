//! Interface queues: frames of one bus wait here as units until they leave on another. The contract of access to them,
//! the law of both ends of a queue, and queues on one thread.
#![tactic(auto)]

mod fates;
mod history;
mod lanes;
mod plain;
mod queue;
mod record;
mod unit;

pub use fates::fates_law;
pub use history::{Offering, Taking};
pub use lanes::{Lanes, Offer};
pub use plain::PlainLanes;
pub use record::{IfKind, IfRecord};
pub use unit::IfUnit;
