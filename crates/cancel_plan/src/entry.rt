//! One configured cancellation.
use gw_base::{BusNo, DestNo, PathNo, Tick};

/// A configured cancellation.
#[derive(Clone, Copy, Debug, PartialEq, Eq)]
pub struct CancelEntry {
    /// The bus whose machine is cancelled: that of the path's source, or that of the destination.
    pub bus: BusNo,
    /// The tick in which it is cancelled.
    pub tick: Tick,
    /// The path whose session is cancelled.
    pub path: PathNo,
    /// The destination whose transmission is cancelled; without one it is the reception.
    pub dest: Option<DestNo>,
}
