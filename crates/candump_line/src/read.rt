//! A line of a log that is read.
ghost use Rattle.std.specs.Prelude.{◌≡◌, ◌≤◌, ◌<◌, ◌^◌, ◌*◌, true, length, Some, None, Ok, Err, IfOk};
ghost use Rattle.can_frame.specs.Id.{id_fits};
ghost use Rattle.candump_line.specs.Reading.{IsLawfulLine, content_at, is_remote, line_of, named_at};

use crate::data::{classic_line, read_classic, read_fd, take_last_eight};
use crate::fault::{LineFault, LineKind};
use crate::fields::{MOST_LINE, after, fault_at, is_blank};
use crate::id::{read_id, read_name};
use crate::line::Line;
use crate::stamp::read_stamp;
use can_frame::{CanId, MAX_CLASSIC};
use gw_base::Micros;

/// Whether a remote frame's mark stands here.
fn is_remote(rest: &[u8]) -> bool
    ensures { result ≡ is_remote rest.now }
{
    after(b'R', rest).is_some() || after(b'r', rest).is_some()
}

/// What stands after an identifier.
#[tactic(auto, unfolding(crate::specs::Reading::content_at))]
#[inline(always)]
fn read_content(len: usize, at: Micros, id: CanId, rest: &[u8]) -> Result<Line, LineFault>
    requires short { len ≤ MOST_LINE }
    requires id { id_fits id ≡ true }
    requires dated { at.0 < 2 ^ 32 * 10 ^ 6 }
    ensures read { result ≡ content_at len at.0 (Some id) rest.now }
    ensures lawful { IfOk result IsLawfulLine }
{
    let mut bytes = [0; MAX_CLASSIC];
    if take_last_eight(rest, &mut bytes) {
        return Ok(classic_line(at, id, &bytes));
    }
    let Some(rest) = after(b'#', rest) else {
        return Err(fault_at(len, LineKind::NoHash, rest));
    };
    if is_remote(rest) {
        return Ok(Line::Passed);
    }
    match after(b'#', rest) {
        Some(flags) => read_fd(len, at, id, flags),
        None => read_classic(len, at, id, rest),
    }
}

/// What stands after the bus's own name.
#[tactic(auto, unfolding(crate::specs::Reading::named_at, crate::specs::Reading::content_at))]
#[inline(always)]
fn read_named(len: usize, at: Micros, rest: &[u8]) -> Result<Line, LineFault>
    requires short { len ≤ MOST_LINE }
    requires dated { at.0 < 2 ^ 32 * 10 ^ 6 }
    ensures read { result ≡ named_at len at.0 rest.now }
    ensures lawful { IfOk result IsLawfulLine }
{
    match read_id(len, rest)? {
        (Some(id), rest) => read_content(len, at, id, rest),
        (None, _) => Ok(Line::Passed),
    }
}

/// Reads a line of the log of the bus with this name, without its line end, in candump's log format: a stamp in parentheses, the
/// interface, and a frame: `(1436509053.850870) can0 7E0#021003` or `(1436509053.850870) can0 1FFFFFFF##19F`, perhaps with a data
/// length code as `_9`, and with a direction, `R` or `T`.
///
/// The fault is the first one from the left. A line of another interface is read as far as that name alone, one of an error frame or of
/// a remote frame as far as its mark.
#[tactic(auto, unfolding(crate::specs::Reading::line_of))]
pub fn read_line(line: &[u8], iface: &[u8]) -> Result<Line, LineFault>
    ensures read { result ≡ line_of iface.now line.now }
    ensures lawful { IfOk result IsLawfulLine }
{
    let len = line.len();
    if len > MOST_LINE {
        return Err(LineFault {
            kind: LineKind::TooLong,
            at: MOST_LINE as u32,
        });
    }
    let (at, rest) = match read_stamp(line) {
        Ok(read) => read,
        Err(_) if is_blank(line) => return Ok(Line::Empty),
        Err(fault) => return Err(fault),
    };
    match read_name(len, rest, iface)? {
        Some(rest) => read_named(len, at, rest),
        None => Ok(Line::Passed),
    }
}
