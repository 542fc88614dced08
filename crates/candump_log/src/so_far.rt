//! A log as far as it was read: whole lines with their frames, and the beginning of the next one.
ghost use Rattle.std.specs.Prelude.{◌<◌, ◌≤◌, ◌+◌, ◌-◌, ◌*◌, ◌^◌, length};

use crate::log::Stamped;
use crate::reader::MOST_KEPT;
use arrayvec::ArrayVec;
use gw_base::ListOf;

/// A log as far as it was read.
#[derive(Debug, Drop)]
pub(crate) struct LogSoFar {
    /// The most lines that the log may have.
    pub(crate) most: u32,
    /// The whole lines.
    pub(crate) lines: u32,
    /// The bytes that were read.
    pub(crate) taken: u64,
    /// What stands after the last line feed.
    pub(crate) piece: ArrayVec<u8, MOST_KEPT>,
    /// The frames that the whole lines give.
    pub(crate) frames: ListOf<Stamped>,
    ghost few: { lines ≤ most },
    ghost given: { length frames ≤ lines },
    ghost begun: { 0 < length piece.items → lines < most },
    ghost kept: { length piece.items ≤ 513 },
    ghost bounded: { taken ≤ 514 * lines + length piece.items },
    ghost limit: { most < 2 ^ 32 - 1 },
}
