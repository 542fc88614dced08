//! A frame's data in a line, and the line's end.
ghost use Rattle.std.specs.Prelude.{◌≡◌, ◌≤◌, ◌<◌, ◌+◌, ◌*◌, ◌^◌, ◌++◌, ◌&&◌, length, drop, take, true, false, Ok, Err, IfOk, IfSome, MatchBool};
ghost use Rattle.std.specs.Bool.{OnTrue};
ghost use Rattle.std.specs.List.{prefix_len};
ghost use Rattle.can_frame.specs.Frame.{IsLawful};
ghost use Rattle.can_frame.specs.Id.{id_fits};
ghost use Rattle.candump_line.specs.Fault.{Gives};
ghost use Rattle.candump_line.specs.Spelling.{AreDataDigits};
ghost use Rattle.candump_line.specs.Steps.{data_within};
ghost use Rattle.candump_line.specs.Reading.{IsLawfulLine, after_direction, begins, classic_at, data_at, end_at, ended_at, fd_at, frame_of, front_bytes, is_hex, length_code_at};

use crate::digit::{HEX, count_hex, digit_value, number};
use crate::fault::{LineFault, LineKind};
use crate::fields::{MOST_LINE, after, after_spaces, fault_at, skip};
use crate::line::Line;
use crate::pair::{HEX_PAIRS, hex_pair};
use can_frame::{CanId, Frame, FrameFault, MAX_CLASSIC, MAX_FD};
use gw_base::Micros;

/// The least data length code that stands after `_`.
const LEAST_LENGTH_CODE: u64 = 9;

/// Takes the pairs of hex digits at the front as bytes, as far as there is room, and gives how many they are and what
/// stands after them.
#[inline(always)]
fn take_pairs<'a, const N: usize>(text: &'a [u8], bytes: &mut [u8; N]) -> (usize, &'a [u8])
    requires { N ≤ 64 }
    ensures digits { prefix_len is_hex text.now ≡ 2 * result.0 + prefix_len is_hex result.1.now }
    ensures bytes { front_bytes text.now ≡ take result.0 bytes.new ++ front_bytes result.1.now }
    ensures rest { result.1.now ≡ drop (2 * result.0) text.now }
    ensures most { result.0 ≤ N }
    ensures size { length bytes.new ≡ N }
    ensures full { 2 ≤ prefix_len is_hex result.1.now → result.0 ≡ N }
{
    let mut rest = text;
    let mut count = 0;
    while count < N {
        let [high, low, later @ ..] = rest else {
            return (count, rest);
        };
        let pair = hex_pair(*high, *low);
        if pair >= HEX_PAIRS {
            return (count, rest);
        }
        bytes[count] = pair as u8;
        count += 1;
        rest = later;
    }
    (count, rest)
}

/// Whether a hex digit stands here.
fn begins_with_hex(rest: &[u8]) -> bool
    ensures { MatchBool result (0 < prefix_len is_hex rest.now) (prefix_len is_hex rest.now ≡ 0) }
{
    let [first, ..] = rest else {
        return false;
    };
    digit_value(*first) < HEX
}

/// Takes the bytes of the data, where there is room for them, and gives how many they are and what stands after them.
#[inline(always)]
#[tactic(auto, unfolding(crate::specs::Steps::data_within, crate::specs::Reading::data_at))]
fn read_data<'a, const N: usize>(
    len: usize,
    rest: &'a [u8],
    bytes: &mut [u8; N],
) -> Result<(usize, &'a [u8]), LineFault>
    requires short { len ≤ MOST_LINE }
    requires room { N ≤ 64 }
    ensures read { Gives result (λ read. (take read.0 bytes.new, read.1.now)) (data_within N len rest.now) }
    ensures most { IfOk result (λ read. read.0 ≤ N) }
{
    let (count, left) = take_pairs(rest, bytes);
    if !begins_with_hex(left) {
        return Ok((count, left));
    }
    let digits = count_hex(left);
    if digits % 2 == 1 {
        return Err(fault_at(len, LineKind::BadData, skip(left, digits - 1)));
    }
    Err(fault_at(len, LineKind::BadLength, rest))
}

/// The frame of these parts, or the fault where the data begins.
#[inline(always)]
fn frame_of(
    len: usize,
    id: CanId,
    fd: bool,
    brs: bool,
    bytes: &[u8],
    rest: &[u8],
) -> Result<Frame, LineFault>
    requires short { len ≤ MOST_LINE }
    requires id { id_fits id ≡ true }
    ensures made { result ≡ frame_of len (record { id = id; fd = fd; brs = fd && brs; bytes = bytes.now }) rest.now }
    ensures lawful { IfOk result IsLawful }
{
    match Frame::new(id, fd, brs, bytes) {
        Ok(frame) => Ok(frame),
        Err(FrameFault::BadLength) => Err(fault_at(len, LineKind::BadLength, rest)),
        Err(FrameFault::BadId) => unreachable!(),
    }
}

/// The FD frame whose flags begin here, to the line's end.
#[tactic(auto, unfolding(crate::specs::Reading::fd_at))]
#[inline(never)]
pub(crate) fn read_fd(len: usize, at: Micros, id: CanId, rest: &[u8]) -> Result<Line, LineFault>
    requires short { len ≤ MOST_LINE }
    requires id { id_fits id ≡ true }
    requires dated { at.0 < 2 ^ 32 * 10 ^ 6 }
    ensures read { result ≡ ended_at len at.0 (fd_at len id rest.now) }
    ensures lawful { IfOk result IsLawfulLine }
{
    let (flags, digits) = number(rest, HEX, 1);
    if digits != 1 {
        return Err(fault_at(len, LineKind::BadData, rest));
    }
    let data = skip(rest, 1);
    let mut bytes = [0; MAX_FD];
    let (count, left) = read_data(len, data, &mut bytes)?;
    let frame = frame_of(len, id, true, flags % 2 == 1, &bytes[..count], data)?;
    read_end(len, left)?;
    Ok(Line::Frame { at, frame })
}

/// What stands after a classic frame's data length code, where there is one.
#[tactic(auto, unfolding(crate::specs::Reading::length_code_at))]
#[inline(always)]
fn after_length_code(len: usize, bytes: usize, rest: &[u8]) -> Result<&[u8], LineFault>
    requires { len ≤ MOST_LINE }
    ensures { Gives result (λ read. read.now) (length_code_at len bytes rest.now) }
{
    if bytes != MAX_CLASSIC {
        return Ok(rest);
    }
    let Some(code) = after(b'_', rest) else {
        return Ok(rest);
    };
    let (number, digits) = number(code, HEX, 1);
    if digits == 1 && number >= LEAST_LENGTH_CODE {
        Ok(skip(code, 1))
    } else {
        Err(fault_at(len, LineKind::BadData, code))
    }
}

/// The line of the classic frame of these parts.
#[inline(always)]
pub(crate) fn classic_line(at: Micros, id: CanId, bytes: &[u8]) -> Line
    requires few { length bytes.now ≤ 8 }
    requires id { id_fits id ≡ true }
    requires dated { at.0 < 2 ^ 32 * 10 ^ 6 }
    ensures line { result ≡ Line.Frame at (record { id = id; fd = false; brs = false; bytes = bytes.now }) }
    ensures lawful { IsLawfulLine result }
{
    let Ok(frame) = Frame::new(id, false, false, bytes) else {
        unreachable!();
    };
    Line::Frame { at, frame }
}

/// The classic frame whose data begins here, to the line's end.
#[tactic(auto, unfolding(crate::specs::Reading::classic_at))]
#[inline(never)]
pub(crate) fn read_classic(
    len: usize,
    at: Micros,
    id: CanId,
    rest: &[u8],
) -> Result<Line, LineFault>
    requires short { len ≤ MOST_LINE }
    requires id { id_fits id ≡ true }
    requires dated { at.0 < 2 ^ 32 * 10 ^ 6 }
    ensures read { result ≡ ended_at len at.0 (classic_at len id rest.now) }
    ensures lawful { IfOk result IsLawfulLine }
{
    let mut bytes = [0; MAX_CLASSIC];
    let (count, left) = read_data(len, rest, &mut bytes)?;
    let left = after_length_code(len, count, left)?;
    read_end(len, left)?;
    Ok(classic_line(at, id, &bytes[..count]))
}

/// Takes the eight bytes of a classic frame, and says whether `#` and their digits are all that is left of a line.
#[inline(never)]
pub(crate) fn take_last_eight(rest: &[u8], bytes: &mut [u8; MAX_CLASSIC]) -> bool
    ensures hash { OnTrue result (begins 35 rest.now ≡ true) }
    ensures digits { OnTrue result (AreDataDigits (drop 1 rest.now) bytes.new) }
{
    let [b'#', digits @ ..] = rest else {
        return false;
    };
    if digits.len() != 2 * MAX_CLASSIC {
        return false;
    }
    let mut count = 0;
    while count < MAX_CLASSIC {
        let pair = hex_pair(digits[2 * count], digits[2 * count + 1]);
        if pair >= HEX_PAIRS {
            return false;
        }
        bytes[count] = pair as u8;
        count += 1;
    }
    true
}

/// What stands after spaces and a direction, else what stands after the spaces.
#[inline(never)]
fn after_direction(rest: &[u8]) -> &[u8]
    ensures { result.now ≡ after_direction rest.now }
{
    let marked = after_spaces(rest);
    if after(b' ', rest).is_none() {
        return marked;
    }
    if let Some(left) = after(b'R', marked) {
        return after_spaces(left);
    }
    if let Some(left) = after(b'T', marked) {
        return after_spaces(left);
    }
    marked
}

/// Looks at what stands after a frame: the end, perhaps after a direction.
#[tactic(auto, unfolding(crate::specs::Reading::end_at))]
#[inline(always)]
fn read_end(len: usize, rest: &[u8]) -> Result<(), LineFault>
    requires { len ≤ MOST_LINE }
    ensures { result ≡ end_at len rest.now }
{
    if rest.is_empty() {
        return Ok(());
    }
    let left = after_direction(rest);
    if left.is_empty() {
        Ok(())
    } else {
        Err(fault_at(len, LineKind::BadData, left))
    }
}
