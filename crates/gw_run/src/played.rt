//! What a run over the frames of two logs has sent and tells.
use can_frame::Frame;
use gw_base::{ListOf, Tick};
use session_report::Report;
use std::marker::Model;

/// A frame that left in a tick.
#[derive(Debug, Drop)]
pub(crate) struct Sent {
    pub(crate) tick: Tick,
    pub(crate) frame: Frame,
}

impl Model for Sent {
    ghost use Rattle.tp_unit.specs.Box.{Written};

    ghost Value = { Written };

    ghost view = { λ sent. record { tick = sent.tick.0; frame = sent.frame } };
}

/// What the run sent on the source's bus and on the destination's bus, and its report.
#[derive(Debug, Drop)]
pub(crate) struct Played {
    pub(crate) controls: ListOf<Sent>,
    pub(crate) frames: ListOf<Sent>,
    pub(crate) report: Report,
}

impl Model for Played {
    ghost use Rattle.gw_run.specs.Played.{Told};

    ghost Value = { Told };

    ghost view = { λ played. record { controls = played.controls; frames = played.frames; report = played.report } };
}
