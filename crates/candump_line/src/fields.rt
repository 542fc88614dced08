//! The pieces that a line's fields are made of.
ghost use Rattle.std.specs.Prelude.{◌≡◌, ◌≤◌, length, drop};
ghost use Rattle.std.specs.List.{list_all, prefix_len};
ghost use Rattle.candump_line.specs.Fault.{fault_at};
ghost use Rattle.candump_line.specs.Reading.{IsAfter, after_spaces, is_space, is_visible};

use crate::fault::{LineFault, LineKind};

/// The most bytes of a line, without its line end.
pub(crate) const MOST_LINE: usize = 512;

/// The fault at the place in a line of so many bytes where this rest begins.
pub(crate) fn fault_at(len: usize, kind: LineKind, rest: &[u8]) -> LineFault
    requires { len ≤ MOST_LINE }
    ensures { result ≡ fault_at len kind rest.now }
{
    LineFault {
        kind,
        at: len.saturating_sub(rest.len()) as u32,
    }
}

/// What stands after so many bytes.
pub(crate) fn skip(rest: &[u8], bytes: usize) -> &[u8]
    requires { bytes ≤ length rest.now }
    ensures { result.now ≡ drop bytes rest.now }
{
    &rest[bytes..]
}

/// What stands after the byte, where it is the first.
pub(crate) fn after(byte: u8, rest: &[u8]) -> Option<&[u8]>
    ensures { IsAfter byte rest.now result (λ later. later.now) }
{
    let [first, later @ ..] = rest else {
        return None;
    };
    if *first == byte { Some(later) } else { None }
}

/// Whether there are spaces alone.
pub(crate) fn is_blank(line: &[u8]) -> bool
    ensures { result ≡ list_all is_space line.now }
{
    line.iter().all(|byte| *byte == b' ')
}

/// How many spaces stand at the front.
fn count_spaces(rest: &[u8]) -> usize
    ensures count { result ≡ prefix_len is_space rest.now }
    ensures fits { result ≤ length rest.now }
{
    rest.iter().take_while(|byte| **byte == b' ').count()
}

/// What stands after the spaces at the front.
pub(crate) fn after_spaces(rest: &[u8]) -> &[u8]
    ensures { result.now ≡ after_spaces rest.now }
{
    skip(rest, count_spaces(rest))
}

/// Whether the byte is a visible character.
#[inline(always)]
pub(crate) fn is_visible(byte: u8) -> bool
    ensures { result ≡ is_visible byte }
{
    byte.is_ascii_graphic()
}

/// How many visible characters stand at the front.
pub(crate) fn count_visible(rest: &[u8]) -> usize
    ensures count { result ≡ prefix_len is_visible rest.now }
    ensures fits { result ≤ length rest.now }
{
    rest.iter()
        .take_while(|byte| byte.is_ascii_graphic())
        .count()
}
