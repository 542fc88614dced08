//! The shape of a channel's frames.
ghost use Rattle.std.specs.Prelude.{◌≡◌};
ghost use Rattle.gw_setup.specs.Machines.{shape_of};

use gw_config::{BusKeys, ChannelKeys};
use tp_unit::Shape;

/// The most bytes of a classic frame.
const CLASSIC_BYTES: u8 = 8;

/// The shape of a channel's frames on its bus: FD frames where they may be longer than classic ones.
pub(crate) fn shape_of(bus: &BusKeys, channel: &ChannelKeys) -> Shape
    ensures { result ≡ shape_of bus.now channel.now }
{
    Shape {
        id: channel.tx,
        fd: channel.dl > CLASSIC_BYTES,
        brs: bus.brs,
        address: channel.tx_address,
        dl: channel.dl,
        pad: channel.pad,
        fill: channel.fill,
    }
}
