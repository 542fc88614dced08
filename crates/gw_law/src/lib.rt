//! Laws over whole runs: what lists of frames, flow controls and records say together, whatever machine made them.
#![tactic(auto)]

mod delivery;
mod each;
mod examples;
mod pool;
mod run;

pub use delivery::delivery_law;
pub use each::each_session_law;
pub use examples::{neighbours_are_unlawful, two_paths_in_windows};
pub use pool::pool_law;
pub use run::run_law;
