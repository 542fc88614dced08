ghost use Rattle.std.specs.Prelude.{◌≡◌, ◌↔◌, ◌&&◌, true, false, length, IfOk};
ghost use Rattle.can_frame.specs.Id.{id_fits};
ghost use Rattle.can_frame.specs.Length.{length_fits};

use crate::CanId;
use crate::length::{MAX_CLASSIC, MAX_FD};
use arrayvec::ArrayVec;
use std::marker::Model;

/// A CAN frame whose identifier is in range and whose length is lawful for its kind.
///
/// Contracts see it as the record `CanFrame` of its identifier, its two flags and its data bytes.
#[derive(Debug, Drop, PartialEq, Eq)]
pub struct Frame {
    id: CanId,
    fd: bool,
    brs: bool,
    bytes: ArrayVec<u8, MAX_FD>,
}

impl Model for Frame {
    ghost use Rattle.can_frame.specs.Frame.{CanFrame, IsLawful};

    ghost Value = { CanFrame };

    ghost view = { λ frame. record { id = frame.id; fd = frame.fd; brs = frame.brs; bytes = frame.bytes.items } };

    ghost invariant = { λ frame. IsLawful (record { id = frame.id; fd = frame.fd; brs = frame.brs; bytes = frame.bytes.items }) };

    ghost inverse = { λ frame. record { id = frame.id; fd = frame.fd; brs = frame.brs; bytes = record { items = frame.bytes } } };
}

/// Why an identifier and data make no frame.
#[derive(Clone, Copy, Debug, PartialEq, Eq)]
pub enum FrameFault {
    /// The identifier is above the range of its format.
    BadId,
    /// A frame of this kind has no such number of data bytes.
    BadLength,
}

/// Whether a classic frame (not `fd`) or an FD frame may have so many data bytes.
fn has_lawful_length(fd: bool, len: usize) -> bool
    ensures { result ≡ length_fits fd len }
{
    match len {
        0..=MAX_CLASSIC => true,
        12 | 16 | 20 | 24 | 32 | 48 | MAX_FD => fd,
        _ => false,
    }
}

impl Frame {
    ghost use Rattle.can_frame.specs.Frame.{CanFrame, IsLawful};

    /// A frame of these parts. `brs`, the switch to the higher bit rate, is kept only for an FD frame.
    ///
    /// `BadId` where the identifier is out of range; else `BadLength` where a classic frame has more than 8
    /// bytes, or an FD frame another number than 0 to 8, 12, 16, 20, 24, 32, 48 or 64 (ISO 11898-1, data length code).
    pub fn new(id: CanId, fd: bool, brs: bool, bytes: &[u8]) -> Result<Frame, FrameFault>
        ensures ok { IfOk result (λ frame. frame ≡ record { id = id; fd = fd; brs = fd && brs; bytes = bytes.now }) }
        ensures lawful { IfOk result IsLawful }
        ensures bad_id { (result ≡ Err FrameFault.BadId) ↔ (id_fits id ≡ false) }
        ensures bad_length { (result ≡ Err FrameFault.BadLength) ↔ ((id_fits id ≡ true) × (length_fits fd (length bytes.now) ≡ false)) }
    {
        if !id.is_in_range() {
            return Err(FrameFault::BadId);
        }
        if !has_lawful_length(fd, bytes.len()) {
            return Err(FrameFault::BadLength);
        }
        let Ok(held) = ArrayVec::try_from(bytes) else {
            unreachable!();
        };
        Ok(Frame {
            id,
            fd,
            brs: fd && brs,
            bytes: held,
        })
    }

    /// The identifier.
    pub fn id(&self) -> CanId
        ensures id { result ≡ self.now.id }
        ensures lawful { IsLawful self.now }
    {
        self.id
    }

    /// Whether it is an FD frame.
    pub fn fd(&self) -> bool
        ensures { result ≡ self.now.fd }
    {
        self.fd
    }

    /// Whether an FD frame's data is sent at the higher bit rate; never for a classic frame.
    pub fn brs(&self) -> bool
        ensures { result ≡ self.now.brs }
    {
        self.brs
    }

    /// The data bytes.
    pub fn bytes(&self) -> &[u8]
        ensures bytes { result.now ≡ self.now.bytes }
        ensures lawful { IsLawful self.now }
    {
        self.bytes.as_slice()
    }
}

impl Default for Frame {
    ghost use Rattle.std.specs.Prelude.{◌≡◌};
    ghost use Rattle.can_frame.specs.Frame.{empty_frame};

    ghost is_default = { λ frame. frame ≡ empty_frame };

    fn default() -> Frame {
        Frame {
            id: CanId::Std(0),
            fd: false,
            brs: false,
            bytes: ArrayVec::new(),
        }
    }
}
