//! The settings of a configuration's text by key: typed, and each fault with its place.
//!
//! TOML is read by the kit's `toml`; which keys there are and what they hold is this project's own.
#![tactic(auto)]

mod fault;
mod groups;
mod key;
mod settings;
mod table_kind;

pub use fault::{ConfigError, ConfigFault, FaultKind};
pub use key::Key;
pub use settings::Settings;
pub use table_kind::TableKind;
