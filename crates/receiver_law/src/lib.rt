//! Laws of a source channel's receptions: what its frames, its flow controls and its records say together.
#![tactic(auto)]

mod reception;
mod source;
mod stored;

pub use reception::reception_law;
pub use source::source_law;
pub use stored::stored_law;
