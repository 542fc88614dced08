use hub_core::{DestRecord, Move};
use tp_unit::BoxAct;

/// What happens to a sender.
#[derive(Clone, Copy, Debug, PartialEq, Eq)]
pub enum TxEvent {
    /// Its turn in a tick.
    Turn,
    /// A flow control of its receiver came (ISO 15765-2, flow control).
    Fc {
        /// The flow status: 0 to continue, 1 to wait, 2 for overflow.
        fs: u8,
        /// The block size in frames; 0 is no limit.
        bs: u8,
        /// The least separation time, in the standard's code.
        st: u8,
    },
    /// The frame that lay in its box left.
    Left,
    /// The run ends.
    RunEnd,
}

/// What a sender does in a step.
#[derive(Debug, Drop)]
pub struct TxActs {
    /// What is done with its box.
    pub boxed: BoxAct,
    /// The record of the session that it ended.
    pub ended: Option<DestRecord>,
    /// The buffer's free, where it was the last that took part in that session.
    pub moved: Option<Move>,
}
