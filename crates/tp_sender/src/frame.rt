ghost use Rattle.std.specs.Prelude.{◌≡◌, ◌+◌, ◌<◌, ◌≤◌, true, length};
ghost use Rattle.tp_unit.specs.Shape.{IsShape, fits_shape};
ghost use Rattle.tp_unit.specs.Unit.{meaning_of, ConsecutiveFrame};
ghost use Rattle.tp_sender.specs.Frame.{part_after, start_with, unit_after};

use arrayvec::ArrayVec;
use tp_unit::{Shape, Unit, cf_part, start_part};

/// The bytes that a unit's next frame carries after `sent` bytes of its `len`: those of its start frame, then of the
/// next consecutive frame.
pub fn next_part(shape: &Shape, len: u32, sent: u32) -> usize
    requires shape { IsShape shape.now }
    requires unfinished { sent < len }
    ensures part { result ≡ part_after shape.now len sent }
    ensures some { 0 < result }
    ensures most { result ≤ 63 }
    ensures within { sent + result ≤ len }
{
    if sent == 0 {
        return start_part(shape, len).bytes as usize;
    }
    cf_part(shape, len - sent) as usize
}

/// The frame after `sent` bytes: the start frame with the bytes, then consecutive frames.
pub fn next_unit(shape: &Shape, len: u32, sent: u32, number: u8, bytes: &[u8]) -> Unit
    requires shape { IsShape shape.now }
    requires unfinished { sent < len }
    requires number { number ≤ 15 }
    requires part { length bytes.now ≡ part_after shape.now len sent }
    ensures unit { meaning_of result ≡ unit_after shape.now len sent number bytes.now }
    ensures fits { fits_shape shape.now (unit_after shape.now len sent number bytes.now) ≡ true }
{
    if sent > 0 {
        return consecutive_frame(number, bytes);
    }
    start_frame(shape, len, bytes)
}

/// A consecutive frame of the bytes.
fn consecutive_frame(number: u8, bytes: &[u8]) -> Unit
    requires { length bytes.now ≤ 63 }
    ensures { meaning_of result ≡ ConsecutiveFrame number bytes.now }
{
    let Ok(bytes) = ArrayVec::try_from(bytes) else {
        unreachable!();
    };
    Unit::Cf { sn: number, bytes }
}

/// A single frame of the bytes, or a first frame that begins with them.
fn start_frame(shape: &Shape, len: u32, bytes: &[u8]) -> Unit
    requires shape { IsShape shape.now }
    requires most { length bytes.now ≤ 62 }
    ensures { meaning_of result ≡ start_with shape.now len bytes.now }
{
    let Ok(bytes) = ArrayVec::try_from(bytes) else {
        unreachable!();
    };
    if start_part(shape, len).single {
        return Unit::Sf { bytes };
    }
    Unit::Ff { len, bytes }
}
