//! How the machines of a run are configured, by any configuration that is accepted, and the run's plan.
#![tactic(auto)]

mod address;
mod build;
mod bus;
mod channels;
mod destination;
mod groups;
mod lists;
mod names;
mod setup;
mod shapes;
mod source;

pub use address::Address;
pub use build::setup_of;
pub use bus::Bus;
pub use destination::Destination;
pub use setup::Setup;
pub use source::Source;
