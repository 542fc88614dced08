//! A receiver of one channel whose flow controls let come what its session has room for: its messages come in frames and are put
//! into sessions that are shared.
#![tactic(auto)]

mod acts;
mod consecutive;
mod ending;
mod granting;
mod putting;
mod receiver;
mod reception;
mod set;
mod starting;
mod timing;

pub use acts::RxActs;
pub use receiver::Receiver;
pub use set::{RxEvent, RxSet};
