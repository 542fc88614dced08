//! The pieces of a line that is written.
ghost use Rattle.std.specs.Prelude.{◌≡◌, ◌+◌, ◌*◌, ◌^◌, ◌<◌, ◌≤◌, [], ◌∷◌, ◌++◌, length, slice_index, All};
ghost use Rattle.can_frame.specs.Frame.{IsLawful};
ghost use Rattle.hex.specs.Hex.{upper_digits, encode_upper};
ghost use Rattle.candump_line.specs.Line.{IsInterface, stamp_text, hex_number, id_text, kind_text, frame_text, entry_text};

use crate::digit::HEX;
use arrayvec::ArrayVec;
use can_frame::{CanId, Frame};
use gw_base::{Micros, decimal};

/// The most bytes of a written line: 19 of the stamp, two spaces, 15 of the name, 8 of the identifier, 3 of the
/// kind, 128 of the data, and the line feed.
pub const MOST_WRITTEN: usize = 176;

/// The bytes of a line that is written, or of its beginning.
pub type LineBytes = ArrayVec<u8, MOST_WRITTEN>;

/// Microseconds in a second.
pub(crate) const SECOND: u64 = 1_000_000;

/// How many digits of seconds a stamp has.
pub(crate) const SECONDS_WIDTH: usize = 10;

/// How many digits of microseconds a stamp has.
pub(crate) const MICROS_WIDTH: usize = 6;

/// How many hex digits an identifier of the base format has.
const STD_WIDTH: u8 = 3;

/// How many hex digits an identifier of the extended format has.
const EXT_WIDTH: u8 = 8;

/// The base of hex digits, as a number of an identifier's width.
const HEX_WIDE: u32 = 16;

/// The hex digits.
const UPPER_DIGITS: [u8; 16] = *b"0123456789ABCDEF";

/// Appends the bytes.
pub(crate) fn put(text: &mut LineBytes, piece: &[u8])
    requires { length text.old.items + length piece.now ≤ MOST_WRITTEN }
    ensures text { text.new.items ≡ text.old.items ++ piece.now }
    ensures len { length text.new.items ≡ length text.old.items + length piece.now }
{
    let Ok(()) = text.try_extend_from_slice(piece) else {
        unreachable!();
    };
}

/// Appends the hex digit of a value below 16.
fn put_digit(text: &mut LineBytes, digit: u8)
    requires digit { digit < 16 }
    requires room { length text.old.items < MOST_WRITTEN }
    ensures text { text.new.items ≡ text.old.items ++ slice_index upper_digits digit ∷ [] }
    ensures len { length text.new.items ≡ length text.old.items + 1 }
{
    text.push(UPPER_DIGITS[usize::from(digit)]);
}

/// Appends the number's last `width` hex digits.
fn put_number(text: &mut LineBytes, number: u32, width: u8)
    requires { length text.old.items + width ≤ MOST_WRITTEN }
    ensures text { text.new.items ≡ text.old.items ++ hex_number width number }
    ensures len { length text.new.items ≡ length text.old.items + width }
{
    if width > 0 {
        put_number(text, number / HEX_WIDE, width - 1);
        put_digit(text, (number % HEX_WIDE) as u8);
    }
}

/// Appends two hex digits for each byte.
fn put_bytes(text: &mut LineBytes, bytes: &[u8])
    requires { length text.old.items + 2 * length bytes.now ≤ MOST_WRITTEN }
    ensures text { text.new.items ≡ text.old.items ++ encode_upper bytes.now }
    ensures len { length text.new.items ≡ length text.old.items + 2 * length bytes.now }
    ensures small { All (λ b. b < 256) bytes.now }
{
    for byte in bytes {
        put_digit(text, byte / HEX);
        put_digit(text, byte % HEX);
    }
}

/// The stamp, as it begins a line.
fn stamp(at: Micros) -> LineBytes
    requires { at.0 < 10 ^ 16 }
    ensures text { result.items ≡ stamp_text at.0 }
    ensures len { length result.items ≡ 19 }
{
    let mut text = LineBytes::new();
    put(&mut text, b"(");
    put(&mut text, &decimal(at.0 / SECOND, SECONDS_WIDTH));
    put(&mut text, b".");
    put(&mut text, &decimal(at.0 % SECOND, MICROS_WIDTH));
    put(&mut text, b")");
    text
}

/// Appends the identifier, in three hex digits or in eight.
fn put_id(text: &mut LineBytes, id: CanId)
    requires { length text.old.items + 8 ≤ MOST_WRITTEN }
    ensures text { text.new.items ≡ text.old.items ++ id_text id }
    ensures len { length text.new.items ≤ length text.old.items + 8 }
{
    match id {
        CanId::Std(number) => put_number(text, u32::from(number), STD_WIDTH),
        CanId::Ext(number) => put_number(text, number, EXT_WIDTH),
    }
}

/// Appends what parts the identifier from the data.
fn put_kind(text: &mut LineBytes, fd: bool, brs: bool)
    requires { length text.old.items + 3 ≤ MOST_WRITTEN }
    ensures text { text.new.items ≡ text.old.items ++ kind_text fd brs }
    ensures len { length text.new.items ≤ length text.old.items + 3 }
{
    match (fd, brs) {
        (false, _) => put(text, b"#"),
        (true, false) => put(text, b"##0"),
        (true, true) => put(text, b"##1"),
    }
}

/// A written line without its line feed.
pub(crate) fn spell(at: Micros, iface: &[u8], frame: &Frame) -> LineBytes
    requires date { at.0 < 10 ^ 16 }
    requires name { IsInterface iface.now }
    ensures text { result.items ≡ entry_text at.0 iface.now frame.now }
    ensures len { length result.items < MOST_WRITTEN }
    ensures lawful { IsLawful frame.now }
    ensures bytes { All (λ b. b < 256) frame.now.bytes }
{
    let mut text = stamp(at);
    put(&mut text, b" ");
    put(&mut text, iface);
    put(&mut text, b" ");
    put_id(&mut text, frame.id());
    put_kind(&mut text, frame.fd(), frame.brs());
    put_bytes(&mut text, frame.bytes());
    text
}
