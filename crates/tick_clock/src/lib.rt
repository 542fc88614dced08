//! Time in ticks of one period: which tick a stamp is of, which stamp a tick has, and when a timer is due.
#![tactic(auto)]

mod clock;
mod timer;

pub use clock::Clock;
pub use timer::Timer;
