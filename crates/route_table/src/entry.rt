//! The entries of the table.
ghost use Rattle.std.specs.Prelude.{◌≡◌};

use crate::by_bus::OnBus;
use can_frame::CanId;
use gw_base::{BusNo, ChanNo, PathNo};

/// A channel, and the frames that belong to it.
#[derive(Clone, Copy, Debug, PartialEq, Eq)]
pub struct ChanEntry {
    /// The channel.
    pub chan: ChanNo,
    /// The bus that the frames come from.
    pub bus: BusNo,
    /// The frames' identifier.
    pub id: CanId,
    /// The frames' first byte; without an address any byte or none.
    pub address: Option<u8>,
}

/// An interface path, and the frames that it takes.
#[derive(Clone, Copy, Debug, PartialEq, Eq)]
pub struct IfEntry {
    /// The interface path.
    pub path: PathNo,
    /// The bus that the frames come from.
    pub bus: BusNo,
    /// The frames' identifier.
    pub id: CanId,
}

impl ChanEntry {
    ghost use Rattle.route_table.specs.Match.{frame_fits};

    /// Whether a frame of the entry's bus with this identifier and this first byte belongs to the channel.
    pub(crate) fn fits(&self, id: CanId, first: Option<u8>) -> bool
        ensures { result ≡ frame_fits id first self.now }
    {
        if self.id != id {
            return false;
        }
        match self.address {
            Some(address) => first == Some(address),
            None => true,
        }
    }
}

impl IfEntry {
    ghost use Rattle.route_table.specs.Match.{same_id};

    /// Whether the interface path takes a frame of the entry's bus with this identifier.
    pub(crate) fn fits(&self, id: CanId) -> bool
        ensures { result ≡ same_id self.now.id id }
    {
        self.id == id
    }
}

impl OnBus for ChanEntry {
    ghost bus_of = { λ entry. entry.bus.0 };

    fn bus(&self) -> BusNo {
        self.bus
    }
}

impl OnBus for IfEntry {
    ghost bus_of = { λ entry. entry.bus.0 };

    fn bus(&self) -> BusNo {
        self.bus
    }
}
