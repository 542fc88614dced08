//! A log that was read, and why one wasn't.
use can_frame::Frame;
use candump_line::LineFault;
use gw_base::{ListOf, Memory, Micros};

/// A frame of a log with its stamp.
#[derive(Debug, Drop)]
pub struct Stamped {
    /// The stamp, in microseconds.
    pub at: Micros,
    /// The frame.
    pub frame: Frame,
}

/// Why a log's lines weren't read to the end.
#[derive(Clone, Copy, Debug, PartialEq, Eq)]
pub enum LineStop {
    /// Memory was refused.
    Memory,
    /// A line has a fault.
    Refused {
        /// The line, counted from 1.
        line: u32,
        /// Its first fault.
        fault: LineFault,
    },
    /// A line begins after as many as the log may have.
    Limit,
}

impl From<Memory> for LineStop {
    ghost use Rattle.std.specs.Prelude.{◌≡◌};
    ghost use Rattle.candump_log.specs.declared.log.LineStop.TheVariants.{Memory};

    ghost from_gives = { λ _ stop. stop ≡ Memory };

    fn from(_: Memory) -> LineStop {
        LineStop::Memory
    }
}

/// Why a log wasn't read to its end.
#[derive(Clone, Copy, Debug, PartialEq, Eq)]
pub enum LogStop {
    /// A read failed.
    Fault,
    /// Its lines weren't read to the end.
    Line(LineStop),
}

impl From<LineStop> for LogStop {
    ghost use Rattle.std.specs.Prelude.{◌≡◌};
    ghost use Rattle.candump_log.specs.declared.log.LogStop.TheVariants.{Line};

    ghost from_gives = { λ line stop. stop ≡ Line line };

    fn from(stop: LineStop) -> LogStop {
        LogStop::Line(stop)
    }
}

/// A log that was read to its end.
#[derive(Debug, Drop)]
pub struct Log {
    /// How many lines it has.
    pub lines: u32,
    /// The frames that they give, in their order.
    pub frames: ListOf<Stamped>,
}
