//! The faults of a line: what is wrong, and at which byte.
use std::fmt;

/// What is wrong with a line.
#[derive(Clone, Copy, Debug, PartialEq, Eq)]
pub enum LineKind {
    /// It has more than 512 bytes.
    TooLong,
    /// It doesn't begin with a parenthesis.
    NoStamp,
    /// Its stamp isn't 1 to 10 digits of seconds below 2^32, a dot, 6 or 9 digits and a parenthesis.
    BadStamp,
    /// After the stamp stand no spaces and no name of 1 to 15 visible characters.
    NoIface,
    /// After the interface stand no spaces and no 3 or 8 hex digits, or their number is above the format's range.
    BadId,
    /// After the identifier stands no `#`.
    NoHash,
    /// A hex digit is missing, or after the data stands what can't stand there.
    BadData,
    /// A frame of this kind has no such number of data bytes.
    BadLength,
}

/// The first fault of a line, and the place of its byte, counted from 0.
#[derive(Clone, Copy, Debug, PartialEq, Eq)]
pub struct LineFault {
    /// What is wrong.
    pub kind: LineKind,
    /// The place of the first byte that can't stand there, at most 512. It is the line's length where the line ends too early.
    pub at: u32,
}

/// The cause in words, as `bad stamp`.
impl fmt::Display for LineKind {
    ghost use Rattle.std.specs.Prelude.{Some};
    ghost use Rattle.candump_line.specs.Fault.{cause_text};

    ghost output = { λ kind. Some (cause_text kind) };

    fn fmt<W: fmt::Write>(&self, f: &mut fmt::Formatter<W>) -> fmt::Result {
        match self {
            LineKind::TooLong => write!(f, "too long"),
            LineKind::NoStamp => write!(f, "no stamp"),
            LineKind::BadStamp => write!(f, "bad stamp"),
            LineKind::NoIface => write!(f, "no interface"),
            LineKind::BadId => write!(f, "bad id"),
            LineKind::NoHash => write!(f, "no hash"),
            LineKind::BadData => write!(f, "bad data"),
            LineKind::BadLength => write!(f, "bad length"),
        }
    }
}
