//! Sessions that are shared between a writer and its destinations: the contract of a port to them, their records,
//! and a plain hub.
#![tactic(auto)]

mod groups;
mod history;
mod law;
mod place;
mod plain;
mod port;
mod record;
mod rings;
mod row;
mod token;

pub use groups::{find_group, first_buffer};
pub use history::Deed;
pub use law::{again_law, core_law, join_law, leading_law, led_law, merging_law, quiet_law};
pub use plain::PlainHub;
pub use port::{Left, Port, Room, Seen, Take};
pub use record::{
    DestRecord, DestResult, Move, OpenedAt, RxLimit, RxWait, SessionRecord, SessionResult, TxWait,
};
pub use token::{End, Held, Joined, Opened};
