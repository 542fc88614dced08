//! A line that is written.
ghost use Rattle.std.specs.Prelude.{◌≡◌, ◌^◌, ◌*◌, ◌<◌, ◌≤◌, ◌++◌, length, All, OnOk, OnErr};
ghost use Rattle.candump_line.specs.Line.{IsInterface, entry_text, line_text};
ghost use Rattle.candump_line.specs.Reading.{ReadsBack};

use crate::spell::{LineBytes, MOST_WRITTEN, put, spell};
use can_frame::Frame;
use gw_base::{Bytes, Memory, Micros};

/// The line of a frame, with its line feed, in candump's log format: `(0000000001.000000) can0 700#021122`. It takes no memory.
///
/// The line is read, in the log of its interface, as that stamp and that frame, where the stamp is below 2^32 seconds.
pub fn frame_line(at: Micros, iface: &[u8], frame: &Frame) -> LineBytes
    requires date { at.0 < 10 ^ 16 }
    requires name { IsInterface iface.now }
    ensures text { result.items ≡ line_text at.0 iface.now frame.now }
    ensures some { 0 < length result.items }
    ensures short { length result.items ≤ MOST_WRITTEN }
    ensures reads_back { at.0 < 2 ^ 32 * 10 ^ 6 → ReadsBack at.0 iface.now frame.now }
    ensures one_line { All (λ b. 0x20 ≤ b) (entry_text at.0 iface.now frame.now) }
{
    let mut line = spell(at, iface, frame);
    put(&mut line, b"\n");
    line
}

/// Appends the line of a frame, with its line feed, in candump's log format: `(0000000001.000000) can0 700#021122`.
///
/// The line is read, in the log of its interface, as that stamp and that frame, where the stamp is below 2^32 seconds.
///
/// After `Memory` nothing was appended.
pub fn write_line(at: Micros, iface: &[u8], frame: &Frame, out: &mut Bytes) -> Result<(), Memory>
    requires date { at.0 < 10 ^ 16 }
    requires name { IsInterface iface.now }
    ensures ok { OnOk result (out.new ≡ out.old ++ line_text at.0 iface.now frame.now) }
    ensures reads_back { at.0 < 2 ^ 32 * 10 ^ 6 → ReadsBack at.0 iface.now frame.now }
    ensures one_line { All (λ b. 0x20 ≤ b) (entry_text at.0 iface.now frame.now) }
    ensures err { OnErr result (out.new ≡ out.old) }
{
    out.append(&frame_line(at, iface, frame))
}
