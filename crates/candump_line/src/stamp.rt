//! A line's stamp.
ghost use Rattle.std.specs.Prelude.{◌≡◌, ◌==◌, ◌&&◌, ◌||◌, ◌<◌, ◌≤◌, ◌^◌, ◌*◌, length, Ok, Err, IfOk, IfSome};
ghost use Rattle.candump_line.specs.Fault.{Gives};
ghost use Rattle.candump_line.specs.Reading.{stamp_at};

use crate::digit::{DECIMAL, all_decimal, number};
use crate::fault::{LineFault, LineKind};
use crate::fields::{MOST_LINE, after, fault_at, skip};
use crate::spell::{MICROS_WIDTH, SECOND, SECONDS_WIDTH};
use gw_base::Micros;

/// How many digits after the microseconds are dropped: those of nanoseconds.
const NANOS_WIDTH: usize = 3;

/// The most seconds of a stamp.
const MOST_SECONDS: u64 = 4_294_967_295;

/// The place of the seconds, after the parenthesis.
const SECONDS_AT: u32 = 1;

/// Whether so many digits of microseconds and so many further ones stand in a stamp.
fn is_fraction(micros: usize, more: usize) -> bool
    ensures { result ≡ (micros == 6 && (more == 0 || more == 3)) }
{
    if micros != MICROS_WIDTH {
        return false;
    }
    more == 0 || more == NANOS_WIDTH
}

/// The place of the dot in a stamp of ten digits of seconds.
const DOT_AT: usize = 1 + SECONDS_WIDTH;

/// The place of its end, after six digits of microseconds.
const END_AT: usize = DOT_AT + 1 + MICROS_WIDTH;

/// The stamp of ten and six digits that begins a line as candump writes it, and what stands after it.
#[inline(always)]
fn written_stamp(line: &[u8]) -> Option<(Micros, &[u8])>
    ensures read { IfSome result (λ read. stamp_at line.now ≡ Ok (read.0.0, read.1.now)) }
    ensures dated { IfSome result (λ read. read.0.0 < 2 ^ 32 * 10 ^ 6) }
{
    if line.len() <= END_AT || line[0] != b'(' || line[DOT_AT] != b'.' || line[END_AT] != b')' {
        return None;
    }
    let seconds = all_decimal(&line[1..DOT_AT])?;
    let micros = all_decimal(&line[DOT_AT + 1..END_AT])?;
    if seconds > MOST_SECONDS {
        return None;
    }
    Some((Micros(seconds * SECOND + micros), &line[END_AT + 1..]))
}

/// The stamp that begins a line, and what stands after it, whatever its width.
#[tactic(auto, unfolding(crate::specs::Reading::stamp_at, crate::specs::Reading::seconds_at, crate::specs::Reading::micros_at))]
#[inline(never)]
fn read_any_stamp(line: &[u8]) -> Result<(Micros, &[u8]), LineFault>
    requires { length line.now ≤ MOST_LINE }
    ensures read { Gives result (λ read. (read.0.0, read.1.now)) (stamp_at line.now) }
    ensures dated { IfOk result (λ read. read.0.0 < 2 ^ 32 * 10 ^ 6) }
{
    let Some(rest) = after(b'(', line) else {
        return Err(LineFault {
            kind: LineKind::NoStamp,
            at: 0,
        });
    };
    let (seconds, digits) = number(rest, DECIMAL, SECONDS_WIDTH);
    let rest = skip(rest, digits);
    if digits == 0 {
        return Err(fault_at(line.len(), LineKind::BadStamp, rest));
    }
    let Some(rest) = after(b'.', rest) else {
        return Err(fault_at(line.len(), LineKind::BadStamp, rest));
    };
    let (micros, digits) = number(rest, DECIMAL, MICROS_WIDTH);
    let rest = skip(rest, digits);
    let (_, more) = number(rest, DECIMAL, NANOS_WIDTH);
    let rest = skip(rest, more);
    if !is_fraction(digits, more) {
        return Err(fault_at(line.len(), LineKind::BadStamp, rest));
    }
    let Some(rest) = after(b')', rest) else {
        return Err(fault_at(line.len(), LineKind::BadStamp, rest));
    };
    if seconds > MOST_SECONDS {
        return Err(LineFault {
            kind: LineKind::BadStamp,
            at: SECONDS_AT,
        });
    }
    Ok((Micros(seconds * SECOND + micros), rest))
}

/// The stamp that begins a line, and what stands after it.
#[inline(always)]
pub(crate) fn read_stamp(line: &[u8]) -> Result<(Micros, &[u8]), LineFault>
    requires { length line.now ≤ MOST_LINE }
    ensures read { Gives result (λ read. (read.0.0, read.1.now)) (stamp_at line.now) }
    ensures dated { IfOk result (λ read. read.0.0 < 2 ^ 32 * 10 ^ 6) }
{
    match written_stamp(line) {
        Some(read) => Ok(read),
        None => read_any_stamp(line),
    }
}
