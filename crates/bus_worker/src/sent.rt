//! A frame that left.
use can_frame::Frame;
use gw_base::Tick;
use std::marker::Model;

/// A frame that the bus sent in a tick.
#[derive(Debug, Drop)]
pub struct Sent {
    pub tick: Tick,
    pub frame: Frame,
}

impl Model for Sent {
    ghost use Rattle.tp_unit.specs.Box.{Written};

    ghost Value = { Written };

    ghost view = { λ sent. record { tick = sent.tick.0; frame = sent.frame } };
}
