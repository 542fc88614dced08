//! What a line of a log says.
use can_frame::Frame;
use gw_base::Micros;

/// What a line of a log says.
#[derive(Debug, Drop, PartialEq, Eq)]
pub enum Line {
    /// A data frame of the bus, classic or FD, with its stamp in microseconds, below 2^32 seconds.
    Frame { at: Micros, frame: Frame },
    /// A line that the bus passes over: of another interface, of a remote frame or of an error frame.
    Passed,
    /// Nothing, or spaces alone.
    Empty,
}
