ghost use Rattle.std.specs.Prelude.{◌<◌, ◌≤◌};

use crate::TxActs;
use cell_stream::Carry;
use gw_base::Tick;
use hub_core::Joined;

/// What a session waits for.
#[derive(Clone, Copy, Debug, PartialEq, Eq)]
pub enum Phase {
    /// That enough is published to begin with.
    Start,
    /// The next frame's bytes.
    Bytes,
    /// That the frame in the box leaves.
    Box,
    /// A flow control.
    Fc,
    /// The tick from which the next frame may be offered.
    Gap { until: Tick },
}

/// A session that is being sent.
#[derive(Debug, Drop)]
pub struct Transmission {
    pub at: Joined,
    /// The bytes that were read and haven't been offered in a frame.
    pub carry: Carry,
    /// The tick in which it was joined.
    pub begin: Tick,
    /// The bytes that left in frames.
    pub sent: u32,
    /// The sequence number of the next consecutive frame.
    pub number: u8,
    /// The frames that may still leave before a flow control is awaited again; 0 is no limit.
    pub block: u8,
    /// The ticks between two consecutive frames.
    pub gap: u64,
    pub phase: Phase,
    /// The tick since which the phase lasts.
    pub since: Tick,
    ghost unfinished: { sent < at.len },
    ghost numbered: { number ≤ 15 },
    ghost gapped: { gap ≤ 127000 },
}

/// What a step comes to: the session that goes on, where one does, and what is done.
#[derive(Debug, Drop)]
pub struct Outcome {
    pub live: Option<Transmission>,
    pub acts: TxActs,
}
