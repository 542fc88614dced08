//! A hub over shared words, whose seats take buffers in threads of their own and wait for nobody.
#![tactic(auto)]

mod calls;
mod enter;
mod hub;
mod make;
mod next;
mod part;
mod plays;
mod port;
mod seat;
mod sight;
mod take;

pub use hub::SharedHub;
pub use part::HubPart;
pub use port::SharedPort;
pub use seat::HubSeat;
