use gw_base::{DestNo, GroupNo, PathNo};
use tp_unit::Shape;

/// How a sender is configured.
#[derive(Clone, Copy, Debug, PartialEq, Eq)]
pub struct TxSet {
    /// The path that it is a destination of.
    pub path: PathNo,
    /// The group of buffers that the path's messages are stored in.
    pub group: GroupNo,
    /// Its place among the path's destinations.
    pub dest: DestNo,
    /// How its units become frames.
    pub shape: Shape,
    /// The published cells from which on a session is sent, from 1 to 8192.
    pub threshold: u32,
    /// Whether a session is sent only once it is whole.
    pub store: bool,
    /// How many ticks a frame may lie in its box (ISO 15765-2, N_As).
    pub n_as: u32,
    /// How many ticks a flow control may be awaited (ISO 15765-2, N_Bs).
    pub n_bs: u32,
    /// How many ticks the next frame's bytes may be awaited (ISO 15765-2, N_Cs).
    pub n_cs: u32,
    /// A tick in microseconds, by which a separation time becomes ticks.
    pub period: u32,
}
