//! What one line gives: the frame that it lists, or why it isn't taken.
ghost use Rattle.std.specs.Prelude.{◌≡◌, ◌&&◌, not, ◌<◌, ◌≤◌, ◌+◌, ◌-◌, ◌*◌, ◌^◌, length, IfErr, IfOk, IfSome, OnErr, OnOk};
ghost use Rattle.candump_line.specs.Reading.{IsLawfulLine};
ghost use Rattle.candump_log.specs.Dated.{IsDated};
ghost use Rattle.candump_log.specs.Line.{listed, taken_by, taken_of, without_return};
ghost use Rattle.candump_log.specs.Log.{AddsLine, GivesFrame, Refuses};
ghost use Rattle.candump_log.specs.Reader.{source_in};

use crate::listing::Listing;
use crate::log::{LineStop, Stamped};
use crate::source::LogSource;
use can_frame::Frame;
use candump_line::{Line, read_line};
use gw_base::ListOf;

/// The piece without one carriage return at its end.
fn without_return(piece: &[u8]) -> &[u8]
    ensures { result.now ≡ without_return piece.now }
{
    match piece {
        [line @ .., b'\r'] => line,
        _ => piece,
    }
}

/// The frame that a line lists, without its line feed, after so many. A bus without CAN FD passes over FD frames.
pub(crate) fn line_frame(
    listing: &Listing<'_>,
    piece: &[u8],
    before: u32,
) -> Result<Option<Stamped>, LineStop>
    requires { before < 2 ^ 32 - 1 }
    ensures taken { IfOk result (GivesFrame (source_in listing.now) piece.now) }
    ensures refused { IfErr result (Refuses (source_in listing.now) piece.now before) }
{
    let line = before + 1;
    match read_line(without_return(piece), listing.interface) {
        Ok(Line::Frame { at, frame }) if listing.fd || !frame.fd() => Ok(Some(Stamped {
            at,
            frame,
        })),
        Ok(Line::Frame { at: _, frame: _ } | Line::Passed | Line::Empty) => Ok(None),
        Err(fault) => Err(LineStop::Refused { line, fault }),
    }
}

/// Whether the bus passes over the frame: an FD frame, where it has no CAN FD.
fn is_passed<S: LogSource>(source: &S, frame: &Frame) -> bool
    ensures { result ≡ (frame.now.fd && not (S.source source.now).fd) }
{
    frame.fd() && !source.is_fd()
}

/// Reads one more line, without its line feed, after so many. A bus without CAN FD passes over FD frames.
pub(crate) fn push_line<S: LogSource>(
    source: &S,
    piece: &[u8],
    before: u32,
    frames: &mut ListOf<Stamped>,
) -> Result<(), LineStop>
    requires { before < 2 ^ 32 - 1 }
    ensures ok { OnOk result (AddsLine (S.source source.now) piece.now frames.old frames.new) }
    ensures more { OnOk result (length frames.new ≤ length frames.old + 1) }
    ensures err { OnErr result (frames.new ≡ frames.old) }
    ensures refused { IfErr result (Refuses (S.source source.now) piece.now before) }
{
    let line = before + 1;
    let (at, frame) = match read_line(without_return(piece), source.interface()) {
        Ok(Line::Frame { at, frame }) => (at, frame),
        Ok(Line::Passed | Line::Empty) => return Ok(()),
        Err(fault) => return Err(LineStop::Refused { line, fault }),
    };
    if is_passed(source, &frame) {
        return Ok(());
    }
    Ok(frames.push(Stamped { at, frame })?)
}
