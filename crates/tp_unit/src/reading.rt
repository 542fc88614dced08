ghost use Rattle.std.specs.Prelude.{◌≡◌, ◌<◌, ◌≤◌, length, drop};
ghost use Rattle.tp_unit.specs.Reading.{consecutive_frame, first_frame, flow_control, least_segmented, long_first_frame, long_single_frame, short_single_frame, unit_of};
ghost use Rattle.tp_unit.specs.Unit.{meaning_of};

use crate::pci::{
    BYTE, CONSECUTIVE_FRAME, CONSECUTIVE_PCI, FIRST_FRAME, FLOW_CONTROL, FLOW_CONTROL_SIZE,
    LONG_FIRST_PCI, LONG_SINGLE_PCI, MAX_CLASSIC, MAX_SHORT_LENGTH, NIBBLE, SHORT_FIRST_PCI,
    SHORT_SINGLE_PCI, SINGLE_FRAME,
};
use crate::{Unit, Why};
use arrayvec::ArrayVec;
use can_frame::Frame;

/// The bytes from that place on.
fn bytes_from(bytes: &[u8], from: usize) -> &[u8]
    requires { from ≤ length bytes.now }
    ensures { result.now ≡ drop from bytes.now }
{
    &bytes[from..]
}

/// Reads a single frame of at most 8 bytes.
fn read_short_single(address: usize, bytes: &[u8]) -> Unit
    requires address { address ≤ 1 }
    requires kind { address < length bytes.now }
    ensures { meaning_of result ≡ short_single_frame address bytes.now }
{
    let len = usize::from(bytes[address] % NIBBLE);
    if len < 1 {
        return Unit::Ignored(Why::Length);
    }
    if len > MAX_CLASSIC - SHORT_SINGLE_PCI - address {
        return Unit::Ignored(Why::Length);
    }
    if len + SHORT_SINGLE_PCI + address > bytes.len() {
        return Unit::Ignored(Why::Length);
    }
    let Ok(bytes) = ArrayVec::try_from(
        &bytes[address + SHORT_SINGLE_PCI..address + SHORT_SINGLE_PCI + len],
    ) else {
        unreachable!();
    };
    Unit::Sf { bytes }
}

/// Reads a single frame of more than 8 bytes.
fn read_long_single(address: usize, bytes: &[u8]) -> Unit
    requires address { address ≤ 1 }
    requires long { 8 < length bytes.now }
    requires fits { length bytes.now ≤ 64 }
    ensures { meaning_of result ≡ long_single_frame address bytes.now }
{
    if bytes[address] % NIBBLE != 0 {
        return Unit::Ignored(Why::Length);
    }
    let len = usize::from(bytes[address + 1]);
    if len < MAX_CLASSIC - address {
        return Unit::Ignored(Why::Length);
    }
    if len > bytes.len() - LONG_SINGLE_PCI - address {
        return Unit::Ignored(Why::Length);
    }
    let Ok(bytes) = ArrayVec::try_from(
        &bytes[address + LONG_SINGLE_PCI..address + LONG_SINGLE_PCI + len],
    ) else {
        unreachable!();
    };
    Unit::Sf { bytes }
}

/// Reads a first frame.
fn read_first(address: usize, bytes: &[u8]) -> Unit
    requires address { address ≤ 1 }
    requires fits { length bytes.now ≤ 64 }
    ensures { meaning_of result ≡ first_frame address bytes.now }
{
    if bytes.len() < MAX_CLASSIC {
        return Unit::Ignored(Why::Length);
    }
    let short = u32::from(bytes[address] % NIBBLE) * BYTE + u32::from(bytes[address + 1]);
    if short == 0 {
        return read_long_first(address, bytes);
    }
    if (short as usize) < least_segmented(address, bytes.len()) {
        return Unit::Ignored(Why::Length);
    }
    let Ok(bytes) = ArrayVec::try_from(bytes_from(bytes, address + SHORT_FIRST_PCI)) else {
        unreachable!();
    };
    Unit::Ff { len: short, bytes }
}

/// Reads a first frame whose length stands in 32 bits.
fn read_long_first(address: usize, bytes: &[u8]) -> Unit
    requires address { address ≤ 1 }
    requires long { 8 ≤ length bytes.now }
    requires fits { length bytes.now ≤ 64 }
    ensures { meaning_of result ≡ long_first_frame address bytes.now }
{
    let len = u32::from_be_bytes([
        bytes[address + 2],
        bytes[address + 3],
        bytes[address + 4],
        bytes[address + 5],
    ]);
    if len <= MAX_SHORT_LENGTH {
        return Unit::Ignored(Why::Length);
    }
    let Ok(bytes) = ArrayVec::try_from(bytes_from(bytes, address + LONG_FIRST_PCI)) else {
        unreachable!();
    };
    Unit::Ff { len, bytes }
}

/// The least length of a message that takes more than a single frame of so many bytes.
fn least_segmented(address: usize, size: usize) -> usize
    requires address { address ≤ 1 }
    requires size { 8 ≤ size }
    ensures { result ≡ least_segmented address size }
{
    if size == MAX_CLASSIC {
        MAX_CLASSIC - address
    } else {
        size - 1 - address
    }
}

/// Reads a consecutive frame.
fn read_consecutive(address: usize, bytes: &[u8]) -> Unit
    requires kind { address < length bytes.now }
    requires fits { length bytes.now ≤ 64 }
    ensures { meaning_of result ≡ consecutive_frame address bytes.now }
{
    let sn = bytes[address] % NIBBLE;
    let Ok(bytes) = ArrayVec::try_from(bytes_from(bytes, address + CONSECUTIVE_PCI)) else {
        unreachable!();
    };
    Unit::Cf { sn, bytes }
}

/// Reads a flow control.
fn read_flow_control(address: usize, bytes: &[u8]) -> Unit
    requires address { address ≤ 1 }
    ensures { meaning_of result ≡ flow_control address bytes.now }
{
    if bytes.len() < FLOW_CONTROL_SIZE + address {
        return Unit::Ignored(Why::Short);
    }
    Unit::Fc {
        fs: bytes[address] % NIBBLE,
        bs: bytes[address + 1],
        st: bytes[address + 2],
    }
}

/// The unit of a frame on a channel with `a` address bytes (ISO 15765-2, protocol control information).
///
/// `Ignored(Short)` where the frame ends before the kind, or before the three bytes of a flow control;
/// `Ignored(Kind)` where the upper nibble is above 3; `Ignored(Length)` where a single frame's or a first frame's
/// length isn't accepted, which is this project's own choice.
#[tactic(auto, unfolding(crate::specs::Reading::unit_in))]
pub fn read_unit(a: u8, frame: &Frame) -> Unit
    requires { a ≤ 1 }
    ensures { meaning_of result ≡ unit_of a frame.now }
{
    let address = usize::from(a);
    let bytes = frame.bytes();
    if bytes.len() <= address {
        return Unit::Ignored(Why::Short);
    }
    match bytes[address] / NIBBLE {
        SINGLE_FRAME if bytes.len() <= MAX_CLASSIC => read_short_single(address, bytes),
        SINGLE_FRAME => read_long_single(address, bytes),
        FIRST_FRAME => read_first(address, bytes),
        CONSECUTIVE_FRAME => read_consecutive(address, bytes),
        FLOW_CONTROL => read_flow_control(address, bytes),
        _ => Unit::Ignored(Why::Kind),
    }
}
