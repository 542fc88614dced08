//! A line's interface and identifier.
ghost use Rattle.std.specs.Prelude.{◌≡◌, ◌≤◌, ℕ, ◌^◌, ◌<◌, true, false, length, Some, None, Ok, Err, MatchOption, IfOk, IfSome, option_map};
ghost use Rattle.can_frame.specs.Id.{id_fits};
ghost use Rattle.candump_line.specs.Fault.{Gives};
ghost use Rattle.candump_line.specs.Steps.{name_at};
ghost use Rattle.candump_line.specs.Reading.{id_at, id_of, interface_at, is_error_frame};

use crate::digit::{HEX, number};
use crate::fault::{LineFault, LineKind};
use crate::fields::{MOST_LINE, after, after_spaces, count_visible, fault_at, is_visible, skip};
use can_frame::{CanId, MAX_EXT, MAX_STD};

/// The most characters of an interface's name.
const MOST_NAME: usize = 15;

/// How many hex digits an identifier of the base format has.
const STD_DIGITS: usize = 3;

/// The place of the `#` behind a space and an identifier of the base format.
const HASH_AT: usize = 1 + STD_DIGITS;

/// How many hex digits an identifier of the extended format has.
const EXT_DIGITS: usize = 8;

/// What eight digits are divided by to see the bit that an error frame has.
const ERROR_FRAME: u64 = 0x2000_0000;

/// The name of the interface, and what stands after it.
#[tactic(auto, unfolding(crate::specs::Reading::interface_at))]
#[inline(never)]
fn read_interface(len: usize, rest: &[u8]) -> Result<(&[u8], &[u8]), LineFault>
    requires { len ≤ MOST_LINE }
    ensures { Gives result (λ read. (read.0.now, read.1.now)) (interface_at len rest.now) }
{
    if after(b' ', rest).is_none() {
        return Err(fault_at(len, LineKind::NoIface, rest));
    }
    let text = after_spaces(rest);
    let bytes = count_visible(text);
    if bytes == 0 || bytes > MOST_NAME {
        return Err(fault_at(len, LineKind::NoIface, skip(text, bytes.min(MOST_NAME))));
    }
    Ok((&text[..bytes], skip(text, bytes)))
}

/// What stands after a space and this name, where a space follows them.
#[inline(always)]
fn after_name<'a>(rest: &'a [u8], name: &[u8]) -> Option<&'a [u8]>
    ensures { IfSome result (λ later. (len : ℕ) → interface_at len rest.now ≡ Ok (name.now, later.now)) }
{
    let bytes = name.len();
    if bytes == 0 || bytes > MOST_NAME || rest.len() < bytes + 2 {
        return None;
    }
    let text = &rest[1..];
    if rest[0] != b' ' || text[bytes] != b' ' {
        return None;
    }
    let mut at = 0;
    while at < bytes {
        if text[at] != name[at] || !is_visible(name[at]) {
            return None;
        }
        at += 1;
    }
    Some(skip(text, bytes))
}

/// What stands after the interface, where it is the one with this name; None is another one's.
#[tactic(auto, unfolding(crate::specs::Steps::name_at))]
#[inline(always)]
pub(crate) fn read_name<'a>(
    len: usize,
    rest: &'a [u8],
    iface: &[u8],
) -> Result<Option<&'a [u8]>, LineFault>
    requires { len ≤ MOST_LINE }
    ensures { Gives result (λ found. option_map (λ later. later.now) found) (name_at len iface.now rest.now) }
{
    if let Some(later) = after_name(rest, iface) {
        return Ok(Some(later));
    }
    let (name, later) = read_interface(len, rest)?;
    if name == iface {
        Ok(Some(later))
    } else {
        Ok(None)
    }
}

/// Whether the digits of an identifier are an error frame's.
fn is_error_frame(digits: usize, number: u64) -> bool
    ensures { result ≡ is_error_frame digits number }
{
    digits == EXT_DIGITS && number / ERROR_FRAME % 2 == 1
}

/// The identifier that so many digits write, where it is in its format's range.
fn id_of(digits: usize, number: u64) -> Option<CanId>
    ensures id { result ≡ id_of digits number }
    ensures fits { IfSome result (λ id. id_fits id ≡ true) }
{
    if digits == STD_DIGITS && number <= u64::from(MAX_STD) {
        return Some(CanId::Std(number as u16));
    }
    if digits == EXT_DIGITS && number <= u64::from(MAX_EXT) {
        return Some(CanId::Ext(number as u32));
    }
    None
}

/// The identifier, and what stands after it; None is an error frame's.
#[tactic(auto, unfolding(crate::specs::Reading::id_at))]
#[inline(never)]
fn read_any_id(len: usize, rest: &[u8]) -> Result<(Option<CanId>, &[u8]), LineFault>
    requires { len ≤ MOST_LINE }
    ensures read { Gives result (λ read. (read.0, read.1.now)) (id_at len rest.now) }
    ensures fits { IfOk result (λ read. IfSome read.0 (λ id. id_fits id ≡ true)) }
{
    let name = after_spaces(rest);
    let (number, digits) = number(name, HEX, EXT_DIGITS + 1);
    if is_error_frame(digits, number) {
        return Ok((None, skip(name, digits)));
    }
    let Some(id) = id_of(digits, number) else {
        return Err(fault_at(len, LineKind::BadId, name));
    };
    Ok((Some(id), skip(name, digits)))
}

/// The identifier of three digits after one space, where `#` follows it, and what stands after it.
#[inline(always)]
fn written_id(rest: &[u8]) -> Option<(CanId, &[u8])>
    ensures read { IfSome result (λ read. (len : ℕ) → id_at len rest.now ≡ Ok (Some read.0, read.1.now)) }
    ensures fits { IfSome result (λ read. id_fits read.0 ≡ true) }
{
    if rest.len() <= HASH_AT || rest[0] != b' ' || rest[HASH_AT] != b'#' {
        return None;
    }
    let (number, digits) = number(&rest[1..HASH_AT], HEX, STD_DIGITS);
    if digits != STD_DIGITS || number > u64::from(MAX_STD) {
        return None;
    }
    Some((CanId::Std(number as u16), skip(rest, HASH_AT)))
}

/// The identifier, and what stands after it; None is an error frame's.
#[inline(always)]
pub(crate) fn read_id(len: usize, rest: &[u8]) -> Result<(Option<CanId>, &[u8]), LineFault>
    requires { len ≤ MOST_LINE }
    ensures read { Gives result (λ read. (read.0, read.1.now)) (id_at len rest.now) }
    ensures fits { IfOk result (λ read. IfSome read.0 (λ id. id_fits id ≡ true)) }
{
    match written_id(rest) {
        Some((id, later)) => Ok((Some(id), later)),
        None => read_any_id(len, rest),
    }
}
