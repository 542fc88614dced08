//! Which frames come to a channel.
ghost use Rattle.std.specs.Prelude.{◌≡◌, ◌≤◌};
ghost use Rattle.gw_law.specs.Channels.{bytes_of_address};
ghost use Rattle.gw_setup.specs.Machines.{comes_to};

use can_frame::CanId;
use gw_config::ChannelKeys;

/// Which frames are a channel's: their identifier and, where the channel has one, their address byte.
#[derive(Clone, Copy, Debug, PartialEq, Eq)]
pub struct Address {
    pub id: CanId,
    /// The byte that stands first in the channel's frames.
    pub byte: Option<u8>,
}

/// Which frames come to a channel.
pub(crate) fn comes_to(channel: &ChannelKeys) -> Address
    ensures { result ≡ comes_to channel.now }
{
    Address {
        id: channel.rx,
        byte: channel.rx_address,
    }
}

/// How many address bytes the channel's frames have, 0 or 1.
pub(crate) fn address_bytes(byte: Option<u8>) -> u8
    ensures { result ≡ bytes_of_address byte }
{
    match byte {
        Some(_) => 1,
        None => 0,
    }
}
