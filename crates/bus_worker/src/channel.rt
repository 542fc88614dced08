//! A channel of the bus: its machines, and what they told.
ghost use Rattle.std.specs.Prelude.{◌≡◌};
ghost use Rattle.tp_sender.specs.State.{set_of};
ghost use Rattle.tp_unit.specs.Shape.{IsShape};

use gw_base::ListOf;
use hub_core::{DestRecord, SessionRecord};
use tp_receiver::Receiver;
use tp_sender::Sender;
use tp_unit::Shape;

/// A source channel: its receiver, the shape of its flow controls, and the records of its sessions.
#[derive(Debug, Drop)]
pub(crate) struct Receiving {
    pub(crate) machine: Receiver,
    pub(crate) shape: Shape,
    pub(crate) sessions: ListOf<SessionRecord>,
    ghost lawful: { IsShape shape },
}

/// A destination's channel: its sender, the shape of its frames, and the records of the sessions that it sent.
#[derive(Debug, Drop)]
pub(crate) struct Sending {
    pub(crate) machine: Sender,
    pub(crate) shape: Shape,
    pub(crate) dests: ListOf<DestRecord>,
    ghost lawful: { IsShape shape },
    ghost own: { (set_of machine).shape ≡ shape },
}

/// A channel: its receiver where it is a source, and its sender where it is a destination.
#[derive(Debug, Drop)]
pub(crate) struct Channel {
    pub(crate) receiving: Option<Receiving>,
    pub(crate) sending: Option<Sending>,
}
