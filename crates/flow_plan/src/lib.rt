//! What a message needs of a buffer, what a receiver grants, and when a sender's next frame may leave (ISO 15765-2, flow control).
#![tactic(auto)]

mod block;
mod buffer;
mod cells;
mod gap;
mod granting;
mod law;

pub use block::Grant;
pub use buffer::need;
pub use cells::{cells_of, whole_cells};
pub use gap::gap_ticks;
pub use granting::grant;
pub use law::{granted_law, payloads_law, progress_law};
