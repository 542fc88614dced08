//! Why a report isn't read.

/// Why a report isn't read.
#[derive(Clone, Copy, Debug, PartialEq, Eq)]
pub enum ReportFault {
    /// The first line, counted from 1, that can't stand where it stands; the number after the last line where the text ends
    /// too early.
    Bad { line: u32 },
    /// Want of memory.
    Memory,
}
