//! The gateway's configuration: the table of its keys, and its reading from a text.
//!
//! The keys, their ranges and their defaults are this project's own.
#![tactic(auto)]

mod config;
mod groups;
pub mod keys;
mod lists;
mod read;
mod repeated;
mod rows;
mod words;

pub use config::{
    BusKeys, BusList, CancelKeys, CancelList, CellsList, ChannelKeys, ChannelList, Config,
    GroupList, InterfaceKeys, InterfaceList, NameList, PathKeys, PathList,
};
pub use read::read_config;
pub use rows::{CountRow, FlagRow, ListRow, NumberRow, TextRow, WordRow};
pub use words::{Addressing, Mode, QueueKind, Role};
