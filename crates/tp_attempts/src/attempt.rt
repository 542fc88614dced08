use gw_base::{Bytes, ListOf};

/// One attempt to send a message: its start, and what the frames up to the next start add to it.
#[derive(Debug, Drop)]
pub struct Attempt {
    /// The place of its start among the frames, from 0.
    pub start: u32,
    /// The length of the message in bytes, as the start announces it.
    pub len: u32,
    /// The bytes of the message that the start and the counted frames carry.
    pub bytes: Bytes,
    /// The place of the last counted frame, which is the start's where none is counted.
    pub end: u32,
}

/// Attempts, in the order of their starts.
pub type AttemptList = ListOf<Attempt>;
