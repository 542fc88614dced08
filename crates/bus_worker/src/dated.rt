//! A frame that comes in a tick.
use can_frame::Frame;
use gw_base::Tick;
use std::marker::Model;

/// A frame of a bus's log, with its tick.
#[derive(Debug, Drop)]
pub struct Dated {
    pub tick: Tick,
    pub frame: Frame,
}

impl Model for Dated {
    ghost use Rattle.gw_law.specs.Channels.{InTick};

    ghost Value = { InTick };

    ghost view = { λ dated. record { tick = dated.tick.0; frame = dated.frame } };
}

impl Dated {
    ghost use Rattle.std.specs.Prelude.{◌≡◌};
    ghost use Rattle.bus_worker.specs.Window.{is_in};

    /// The frame alone.
    pub fn frame(&self) -> &Frame
        ensures { result.now ≡ self.now.frame }
    {
        &self.frame
    }

    /// Whether it is one of that tick.
    pub fn is_in(&self, tick: Tick) -> bool
        ensures { result ≡ is_in tick.0 self.now }
    {
        self.tick == tick
    }
}
