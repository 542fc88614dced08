//! Whether anything goes on on the bus.
ghost use Rattle.std.specs.Prelude.{◌≡◌};
ghost use Rattle.std.specs.List.{list_all};
ghost use Rattle.bus_worker.specs.Idle.{is_still};

use crate::channel::Channel;
use crate::worker::Worker;

/// Whether that holds of all channels.
fn are_idle(channels: &[Channel]) -> bool
    ensures { result ≡ list_all is_still channels.now }
{
    channels.iter().all(|channel| channel.is_idle())
}

impl Channel {
    ghost use Rattle.std.specs.Prelude.{◌≡◌};
    ghost use Rattle.bus_worker.specs.Idle.{is_still};

    /// Whether no reception is in progress, and no session is sent.
    fn is_idle(&self) -> bool
        ensures { result ≡ is_still self.now }
    {
        if let Some(receiving) = &self.receiving
            && receiving.machine.busy()
        {
            return false;
        }
        if let Some(sending) = &self.sending
            && sending.machine.live()
        {
            return false;
        }
        true
    }
}

impl Worker {
    ghost use Rattle.std.specs.Prelude.{MatchBool};
    ghost use Rattle.bus_worker.specs.Idle.{IsStill};

    /// Whether no reception is in progress on the bus, no session is sent, and nothing lies in a box.
    pub fn is_idle(&self) -> bool
        ensures { MatchBool result (IsStill self.now) (IsStill self.now → ⊥) }
    {
        if !self.boxes.is_empty() {
            return false;
        }
        are_idle(self.channels.as_slice())
    }
}
