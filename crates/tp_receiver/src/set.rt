//! How a receiver is configured, and what can happen to it.
use gw_base::{ChanNo, GroupNo, PathNo};
use tp_unit::Unit;

/// The configured numbers of a channel that is a source.
#[derive(Clone, Copy, Debug, PartialEq, Eq)]
pub struct RxSet {
    pub chan: ChanNo,
    /// The path that its messages are put on.
    pub path: PathNo,
    /// The group of buffers that its messages are stored in.
    pub group: GroupNo,
    /// The destinations of the path, from 1 to 8.
    pub readers: u8,
    /// The address bytes of its frames: 0 or 1.
    pub a: u8,
    /// Whether its frames are for many receivers at once, so that single frames alone are received.
    pub functional: bool,
    /// The most frames that a flow control lets come before a further one is awaited; 0 is no limit.
    pub bs: u8,
    /// The separation time of its flow controls, in the standard's code.
    pub st: u8,
    /// The most flow controls that ask to wait and follow one another (ISO 15765-2, N_WFTmax).
    pub wft_max: u8,
    /// The most ticks that a flow control lies in its box (ISO 15765-2, N_Ar).
    pub n_ar: u32,
    /// The ticks after which room is looked for again, from the leaving of a flow control that asks to wait on (ISO 15765-2,
    /// N_Br).
    pub n_br: u32,
    /// The most ticks between two frames of a message (ISO 15765-2, N_Cr).
    pub n_cr: u32,
    /// The cells from which on a message is forwarded.
    pub threshold: u32,
    /// Whether a message is forwarded only once it is whole, so that all of it must fit its buffer.
    pub store: bool,
}

/// What a receiver is told.
#[derive(Debug, Drop)]
pub enum RxEvent {
    /// A unit came, in a frame of `dl` bytes.
    Unit { unit: Unit, dl: u8 },
    /// A tick is over.
    Timer,
    /// Its flow control left.
    FcLeft,
    /// The run ends.
    RunEnd,
}
