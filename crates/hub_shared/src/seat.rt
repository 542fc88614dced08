//! A seat at a hub.
ghost use Rattle.std.specs.Prelude.{◌≡◌, ◌<◌, []};
ghost use Rattle.hub_shared.specs.History.{IsWhole};
ghost use Rattle.hub_shared.specs.declared.sight.Hand.TheVariants.{Idle};

use crate::sight::{Note, Sight};
use atomic_table::Seat;

/// A seat at a hub, between calls: it acts for parties of the hub and has a share of its takes.
#[derive(Drop)]
pub struct HubSeat {
    pub(crate) seat: Seat<Note, Sight>,
    pub(crate) takes: u64,
    ghost counted: { takes ≡ seat.me.0.takes },
    ghost carries: { seat.me.1 ≡ [] },
    ghost live: { 0 < seat.me.0.parts },
    ghost idle: { seat.me.0.hand ≡ Idle },
    ghost whole: { IsWhole seat.me.0.entries },
}

impl HubSeat {
    /// The takes that the seat has left.
    pub fn takes(&self) -> u64
        ensures { result ≡ self.now.seat.me.0.takes }
    {
        self.takes
    }
}
