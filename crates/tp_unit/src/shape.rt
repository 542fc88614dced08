ghost use Rattle.std.specs.Prelude.{◌≡◌, ◌≤◌, true};
ghost use Rattle.tp_unit.specs.Shape.{address_size, fits_shape, first_part, is_frame_size, most_consecutive, most_single, part_of_consecutive, part_of_start, IsShape};
ghost use Rattle.tp_unit.specs.Unit.{meaning_of};

use crate::Unit;
use crate::pci::{
    CONSECUTIVE_PCI, LONG_FIRST_PCI, LONG_SINGLE_PCI, MAX_CLASSIC, MAX_SHORT_LENGTH, NIBBLE,
    SHORT_FIRST_PCI, SHORT_SINGLE_PCI,
};
use can_frame::CanId;

/// The flow status by which a receiver asks for a pause.
const WAIT: u8 = 1;

/// The flow status by which a receiver refuses a message.
const OVERFLOW: u8 = 2;

/// How a channel's units become frames.
#[derive(Clone, Copy, Debug, PartialEq, Eq)]
pub struct Shape {
    /// The identifier that the frames have.
    pub id: CanId,
    /// Whether they are FD frames; so exactly where `dl` is above 8.
    pub fd: bool,
    /// Whether FD frames switch to the higher bit rate.
    pub brs: bool,
    /// The address byte that stands first, where the channel has one.
    pub address: Option<u8>,
    /// The most bytes of a frame: 8, 12, 16, 20, 24, 32, 48 or 64.
    pub dl: u8,
    /// Whether a frame shorter than 8 bytes is filled up to 8.
    pub pad: bool,
    /// The fill byte.
    pub fill: u8,
}

/// What the start frame of a message is and carries.
#[derive(Clone, Copy, Debug, PartialEq, Eq)]
pub struct Part {
    /// Whether it is a single frame, else a first frame.
    pub single: bool,
    /// The bytes of the message that it carries.
    pub bytes: u8,
}

/// How many address bytes a frame of the shape has, 0 or 1.
pub(crate) fn address_len(shape: &Shape) -> usize
    ensures size { result ≡ address_size shape.now }
    ensures at_most { result ≤ 1 }
{
    match shape.address {
        Some(_) => 1,
        None => 0,
    }
}

/// The most bytes of a message that a single frame carries.
fn max_single(shape: &Shape) -> usize
    requires { is_frame_size shape.now.dl ≡ true }
    ensures { result ≡ most_single shape.now }
{
    let size = usize::from(shape.dl);
    if size == MAX_CLASSIC {
        MAX_CLASSIC - SHORT_SINGLE_PCI - address_len(shape)
    } else {
        size - LONG_SINGLE_PCI - address_len(shape)
    }
}

/// The bytes that the first frame of a message of `len` bytes carries.
fn first_frame_part(shape: &Shape, len: u32) -> usize
    requires { is_frame_size shape.now.dl ≡ true }
    ensures { result ≡ first_part shape.now len }
{
    let size = usize::from(shape.dl);
    if len <= MAX_SHORT_LENGTH {
        size - SHORT_FIRST_PCI - address_len(shape)
    } else {
        size - LONG_FIRST_PCI - address_len(shape)
    }
}

/// The most bytes of a message that a consecutive frame carries.
fn max_consecutive(shape: &Shape) -> usize
    requires { is_frame_size shape.now.dl ≡ true }
    ensures { result ≡ most_consecutive shape.now }
{
    usize::from(shape.dl) - CONSECUTIVE_PCI - address_len(shape)
}

/// What the start frame of a message of `len` bytes is and carries.
pub fn start_part(shape: &Shape, len: u32) -> Part
    requires { is_frame_size shape.now.dl ≡ true }
    ensures { result ≡ part_of_start shape.now len }
{
    if len as usize <= max_single(shape) {
        return Part {
            single: true,
            bytes: len as u8,
        };
    }
    Part {
        single: false,
        bytes: first_frame_part(shape, len) as u8,
    }
}

/// The bytes that the next consecutive frame carries where `left` bytes of the message remain.
pub fn cf_part(shape: &Shape, left: u32) -> u8
    requires { is_frame_size shape.now.dl ≡ true }
    ensures { result ≡ part_of_consecutive shape.now left }
{
    max_consecutive(shape).min(left as usize) as u8
}

/// Whether the unit can be written in this shape.
///
/// A single frame has from 1 byte up to what the shape allows; a first frame has a length that no single frame
/// carries and exactly its share of bytes; a consecutive frame has a sequence number up to 15 and from 1 byte up to
/// what the shape allows; a flow control has a status up to 15, and nothing but zeros beside wait and overflow.
pub fn unit_fits(shape: &Shape, unit: &Unit) -> bool
    requires { IsShape shape.now }
    ensures { result ≡ fits_shape shape.now (meaning_of unit.now) }
{
    match unit {
        Unit::Sf { bytes } => 1 <= bytes.len() && bytes.len() <= max_single(shape),
        Unit::Ff { len, bytes } => {
            *len as usize > max_single(shape) && bytes.len() == first_frame_part(shape, *len)
        }
        Unit::Cf { sn, bytes } => {
            *sn < NIBBLE && 1 <= bytes.len() && bytes.len() <= max_consecutive(shape)
        }
        Unit::Fc { fs, bs, st } => *fs < NIBBLE
            && (*fs != WAIT && *fs != OVERFLOW || *bs == 0 && *st == 0),
        Unit::Ignored(_) => false,
    }
}
