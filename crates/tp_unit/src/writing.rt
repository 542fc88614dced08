ghost use Rattle.std.specs.Prelude.{◌≡◌, ◌+◌, ◌≤◌, ◌++◌, ◌&&◌, length, replicate, true};
ghost use Rattle.can_frame.specs.Frame.{IsLawful};
ghost use Rattle.can_frame.specs.Length.{length_fits};
ghost use Rattle.tp_unit.specs.Reading.{unit_of};
ghost use Rattle.tp_unit.specs.Shape.{address_of, address_size, fits_shape, IsShape};
ghost use Rattle.tp_unit.specs.Unit.{meaning_of};
ghost use Rattle.tp_unit.specs.Writing.{control_of, data_of, fill_of, filled_length, first_control_of, frame_of, read_back, single_control_of, unfilled};

use crate::pci::{
    BYTE, CONSECUTIVE_FRAME, FIRST_FRAME, FLOW_CONTROL, LONG_FIRST_PCI, MAX_CLASSIC, MAX_FD,
    MAX_SHORT_LENGTH, NIBBLE, SHORT_SINGLE_PCI, SINGLE_FRAME,
};
use crate::shape::address_len;
use crate::{Shape, Unit};
use arrayvec::ArrayVec;
use can_frame::{Frame, fill_up};

/// The bytes of a frame that is being written.
type FrameBytes = ArrayVec<u8, MAX_FD>;

/// Puts the piece behind the bytes.
fn put(bytes: &mut FrameBytes, piece: &[u8])
    requires { length bytes.old.items + length piece.now ≤ 64 }
    ensures { bytes.new.items ≡ bytes.old.items ++ piece.now }
{
    let Ok(()) = bytes.try_extend_from_slice(piece) else {
        unreachable!();
    };
}

/// The address byte, where the shape has one.
fn address_bytes(shape: &Shape) -> ArrayVec<u8, 1>
    ensures { result.items ≡ address_of shape.now }
{
    match shape.address {
        Some(address) => ArrayVec::from([address]),
        None => ArrayVec::new(),
    }
}

/// The protocol control information of the unit.
fn control_bytes(shape: &Shape, unit: &Unit) -> ArrayVec<u8, LONG_FIRST_PCI>
    requires { fits_shape shape.now (meaning_of unit.now) ≡ true }
    ensures { result.items ≡ control_of shape.now (meaning_of unit.now) }
{
    match unit {
        Unit::Sf { bytes } => single_control(shape, bytes.len() as u8),
        Unit::Ff { len, bytes: _ } => first_control(*len),
        Unit::Cf { sn, bytes: _ } => control(&[CONSECUTIVE_FRAME * NIBBLE + *sn]),
        Unit::Fc { fs, bs, st } => control(&[FLOW_CONTROL * NIBBLE + *fs, *bs, *st]),
        Unit::Ignored(_) => ArrayVec::new(),
    }
}

/// The protocol control information of a single frame of `len` bytes.
fn single_control(shape: &Shape, len: u8) -> ArrayVec<u8, LONG_FIRST_PCI>
    ensures { result.items ≡ single_control_of shape.now len }
{
    if usize::from(len) <= MAX_CLASSIC - SHORT_SINGLE_PCI - address_len(shape) {
        return control(&[SINGLE_FRAME * NIBBLE + len]);
    }
    control(&[SINGLE_FRAME * NIBBLE, len])
}

/// The protocol control information of a first frame of a message of `len` bytes.
fn first_control(len: u32) -> ArrayVec<u8, LONG_FIRST_PCI>
    ensures { result.items ≡ first_control_of len }
{
    if len <= MAX_SHORT_LENGTH {
        return control(&[
            FIRST_FRAME * NIBBLE + (len / BYTE) as u8,
            (len % BYTE) as u8,
        ]);
    }
    let [highest, high, low, lowest] = len.to_be_bytes();
    control(&[FIRST_FRAME * NIBBLE, 0, highest, high, low, lowest])
}

/// At most six bytes of protocol control information.
fn control(bytes: &[u8]) -> ArrayVec<u8, LONG_FIRST_PCI>
    requires { length bytes.now ≤ 6 }
    ensures { result.items ≡ bytes.now }
{
    let Ok(held) = ArrayVec::try_from(bytes) else {
        unreachable!();
    };
    held
}

/// The bytes of the message in the unit.
fn data_bytes(unit: &Unit) -> &[u8]
    ensures { result.now ≡ data_of (meaning_of unit.now) }
{
    match unit {
        Unit::Sf { bytes } => bytes.as_slice(),
        Unit::Ff { len: _, bytes } => bytes.as_slice(),
        Unit::Cf { sn: _, bytes } => bytes.as_slice(),
        Unit::Fc { .. } | Unit::Ignored(_) => &[],
    }
}

/// The length that a frame of `len` bytes is filled up to.
fn length_after_fill(shape: &Shape, len: usize) -> usize
    requires { len ≤ 64 }
    ensures { result ≡ filled_length shape.now len }
{
    let padded = if shape.pad { len.max(MAX_CLASSIC) } else { len };
    if shape.fd { fill_up(padded) } else { padded }
}

/// The bytes of the unit's frame before it is filled.
fn unfilled_bytes(shape: &Shape, unit: &Unit) -> FrameBytes
    requires shape { IsShape shape.now }
    requires fits { fits_shape shape.now (meaning_of unit.now) ≡ true }
    ensures bytes { result.items ≡ unfilled shape.now (meaning_of unit.now) }
    ensures fits { length result.items ≤ shape.now.dl }
{
    let mut bytes = ArrayVec::new();
    put(&mut bytes, address_bytes(shape).as_slice());
    put(&mut bytes, control_bytes(shape, unit).as_slice());
    put(&mut bytes, data_bytes(unit));
    bytes
}

/// So many fill bytes.
fn fill_bytes(fill: u8, count: usize) -> FrameBytes
    requires { count ≤ 64 }
    ensures { result.items ≡ replicate count fill }
{
    let row = [fill; MAX_FD];
    let Ok(held) = ArrayVec::try_from(&row[..count]) else {
        unreachable!();
    };
    held
}

/// The bytes that fill a frame of `len` bytes.
#[tactic(auto, using(crate::proofs::Sizes::sizes))]
fn filling(shape: &Shape, len: usize) -> FrameBytes
    requires shape { IsShape shape.now }
    requires fits { len ≤ shape.now.dl }
    ensures { result.items ≡ fill_of shape.now len }
{
    fill_bytes(shape.fill, length_after_fill(shape, len) - len)
}

/// The bytes of the unit's frame.
fn frame_bytes(shape: &Shape, unit: &Unit) -> FrameBytes
    requires shape { IsShape shape.now }
    requires fits { fits_shape shape.now (meaning_of unit.now) ≡ true }
    ensures { result.items ≡ (frame_of shape.now (meaning_of unit.now)).bytes }
{
    let mut bytes = unfilled_bytes(shape, unit);
    let fill = filling(shape, bytes.len());
    put(&mut bytes, fill.as_slice());
    bytes
}

/// The frame of these bytes in the shape.
fn framed(shape: &Shape, bytes: &[u8]) -> Frame
    requires shape { IsShape shape.now }
    requires fits { length_fits shape.now.fd (length bytes.now) ≡ true }
    ensures frame { result ≡ record { id = shape.now.id; fd = shape.now.fd; brs = shape.now.fd && shape.now.brs; bytes = bytes.now } }
    ensures lawful { IsLawful result }
{
    let Ok(frame) = Frame::new(shape.id, shape.fd, shape.brs, bytes) else {
        unreachable!();
    };
    frame
}

/// The frame of the unit in this shape: the address byte if the shape has one, the protocol control information
/// (ISO 15765-2), the bytes, and the fill bytes.
///
/// Read again it is the same unit, but for the fill bytes behind the bytes of a consecutive frame.
pub fn write_unit(shape: &Shape, unit: &Unit) -> Frame
    requires shape { IsShape shape.now }
    requires fits { fits_shape shape.now (meaning_of unit.now) ≡ true }
    ensures written { result ≡ frame_of shape.now (meaning_of unit.now) }
    ensures lawful { IsLawful result }
    ensures reads_back { unit_of (address_size shape.now) result ≡ read_back shape.now (meaning_of unit.now) }
{
    framed(shape, frame_bytes(shape, unit).as_slice())
}
