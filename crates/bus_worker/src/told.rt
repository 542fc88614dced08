//! What a worker tells: the frames that left, and the records of its machines.
ghost use Rattle.std.specs.Prelude.{◌≡◌, option_map};
ghost use Rattle.bus_worker.specs.Stands.{receiver_at, sender_at};

use crate::sent::Sent;
use crate::worker::Worker;
use hub_core::{DestRecord, Move, SessionRecord};

impl Worker {
    /// The frames that left the bus, each with its tick, in order.
    pub fn sent(&self) -> &[Sent]
        ensures { result.now ≡ self.now.sent }
    {
        self.sent.items()
    }

    /// The moves of the pool of buffers that the bus's machines made, in order.
    pub fn moves(&self) -> &[Move]
        ensures { result.now ≡ self.now.moves }
    {
        self.moves.items()
    }

    /// The records of the sessions that the channel at that place received, in order; None where it is no source.
    pub fn sessions(&self, place: usize) -> Option<&[SessionRecord]>
        ensures { option_map (λ told. told.now) result ≡ option_map (λ r. r.sessions) (receiver_at self.now.channels.items place) }
    {
        let channel = self.channels.get(place)?;
        match &channel.receiving {
            Some(receiving) => Some(receiving.sessions.items()),
            None => None,
        }
    }

    /// The records of the sessions that the channel at that place sent, in order; None where it is no destination.
    pub fn dests(&self, place: usize) -> Option<&[DestRecord]>
        ensures { option_map (λ told. told.now) result ≡ option_map (λ s. s.dests) (sender_at self.now.channels.items place) }
    {
        let channel = self.channels.get(place)?;
        match &channel.sending {
            Some(sending) => Some(sending.dests.items()),
            None => None,
        }
    }
}
