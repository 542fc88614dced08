//! Which frames come to a channel, and what they say.
ghost use Rattle.std.specs.Prelude.{◌≡◌};
ghost use Rattle.gw_law.specs.Channels.{begins_with, is_same_id};

use can_frame::{CanId, Frame};
use tp_unit::{Unit, read_unit};

/// Which frames are a channel's: their identifier and, where the channel has one, their address byte.
#[derive(Clone, Copy, Debug, PartialEq, Eq)]
pub struct Comes {
    pub id: CanId,
    /// The byte that stands first in the channel's frames.
    pub byte: Option<u8>,
}

/// Whether two identifiers are the same, in the same format.
fn is_same_id(one: CanId, other: CanId) -> bool
    ensures { result ≡ is_same_id one other }
{
    match (one, other) {
        (CanId::Std(one), CanId::Std(other)) => one == other,
        (CanId::Ext(one), CanId::Ext(other)) => one == other,
        (CanId::Std(_), CanId::Ext(_)) | (CanId::Ext(_), CanId::Std(_)) => false,
    }
}

/// Whether the bytes begin with the address byte, where there is one.
fn begins_with(byte: Option<u8>, bytes: &[u8]) -> bool
    ensures { result ≡ begins_with byte bytes.now }
{
    let Some(byte) = byte else {
        return true;
    };
    match bytes {
        [] => false,
        [first, ..] => *first == byte,
    }
}

impl Comes {
    ghost use Rattle.std.specs.Prelude.{◌≡◌, ◌≤◌};
    ghost use Rattle.gw_law.specs.Channels.{bytes_of_address, is_addressed};
    ghost use Rattle.bus_worker.specs.Comes.{address_of};
    ghost use Rattle.tp_unit.specs.Reading.{unit_of};
    ghost use Rattle.tp_unit.specs.Unit.{meaning_of};

    /// How many address bytes the channel's frames have, 0 or 1.
    pub(crate) fn size(self) -> u8
        ensures size { result ≡ bytes_of_address self.byte }
        ensures most { result ≤ 1 }
    {
        match self.byte {
            Some(_) => 1,
            None => 0,
        }
    }

    /// Whether the frame is one of the channel's.
    pub(crate) fn is_of(self, frame: &Frame) -> bool
        ensures { result ≡ is_addressed (address_of self) frame.now }
    {
        begins_with(self.byte, frame.bytes()) && is_same_id(self.id, frame.id())
    }

    /// The unit of a frame of the channel.
    pub(crate) fn unit(self, frame: &Frame) -> Unit
        ensures { meaning_of result ≡ unit_of (bytes_of_address self.byte) frame.now }
    {
        read_unit(self.size(), frame)
    }
}
