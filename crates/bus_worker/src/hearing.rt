//! A frame that comes to the bus.
ghost use Rattle.std.specs.Prelude.{◌≡◌, ◌≤◌, ℕ, Some, OnOk, MatchOption, length, slice_get};
ghost use Rattle.gw_law.specs.Channels.{bytes_of_address};
ghost use Rattle.tp_receiver.specs.Port.{IsRead};
ghost use Rattle.tp_unit.specs.Unit.{meaning_of};
ghost use Rattle.bus_worker.specs.Hearing.{ComesTo, ComesToNone, HearsAfter, HearsAll, HearsBy, Hears, IsAnswer, IsFrameHeard, frames_of};
ghost use Rattle.bus_worker.specs.Phases.{IsSent};
ghost use Rattle.bus_worker.specs.declared.comes.Comes.{Comes};
ghost use Rattle.tp_sender.specs.declared.event.TxEvent.TheVariants.{Fc};

use crate::dated::Dated;
use crate::worker::Worker;
use can_frame::Frame;
use gw_base::{Memory, Tick};
use hub_core::Port;
use tp_receiver::RxEvent;
use tp_sender::TxEvent;
use tp_unit::Unit;

/// What a sender is told of the unit: of a flow control, and of nothing else.
fn answer_of(unit: &Unit) -> Option<TxEvent>
    ensures { IsAnswer (meaning_of unit.now) result }
{
    match unit {
        Unit::Fc { fs, bs, st } => Some(TxEvent::Fc {
            fs: *fs,
            bs: *bs,
            st: *st,
        }),
        Unit::Sf { .. } | Unit::Ff { .. } | Unit::Cf { .. } | Unit::Ignored(_) => None,
    }
}

impl Worker {
    /// The place of the channel that the frame comes to.
    fn place_of(&self, frame: &Frame) -> Option<usize>
        ensures { MatchOption result (ComesToNone self.now.routes.items frame.now) (ComesTo self.now.routes.items frame.now) }
    {
        self.routes.iter().position(|comes| comes.is_of(frame))
    }

    /// The receiver of the channel at that place, where it is a source, is told of a unit in a frame of so many bytes.
    fn hear_unit<P: Port>(
        &mut self,
        place: usize,
        unit: Unit,
        size: u8,
        tick: Tick,
        port: &mut P,
    ) -> Result<(), Memory>
        requires can { HearsBy tick.0 1 self.old (P.state port.old) }
        requires read { (comes : Comes) × (slice_get self.old.routes.items place ≡ Some comes) × IsRead (bytes_of_address comes.byte) size (meaning_of unit) }
        ensures { OnOk result (HearsAfter tick.0 1 9 (IsFrameHeard tick.0 place size (meaning_of unit) self.old.channels.items) self.old self.new (P.state port.old) (P.state port.new)) }
    {
        if self.is_source(place) {
            self.tell_receiver(place, RxEvent::Unit { unit, dl: size }, tick, port)?;
        }
        Ok(())
    }

    /// The sender of the channel at that place, where it is a destination, is told of a flow control.
    fn hear_answer<P: Port>(
        &mut self,
        place: usize,
        event: TxEvent,
        tick: Tick,
        port: &mut P,
    ) -> Result<(), Memory>
        requires tick { tick.0 ≤ 10_000_000 }
        requires can { HearsBy tick.0 0 self.old (P.state port.old) }
        requires answer { (fs bs st : ℕ) × (event ≡ Fc fs bs st) }
        ensures { OnOk result (HearsAfter tick.0 0 0 (IsSent tick.0 event place self.old.channels.items) self.old self.new (P.state port.old) (P.state port.new)) }
    {
        if self.is_destination(place) {
            self.tell_sender(place, event, tick, port)?;
        }
        Ok(())
    }

    /// A frame comes in a tick: at its channel the receiver is told of its unit, and the sender of a flow control.
    pub(crate) fn hear<P: Port>(
        &mut self,
        frame: &Frame,
        tick: Tick,
        port: &mut P,
    ) -> Result<(), Memory>
        requires tick { tick.0 ≤ 10_000_000 }
        requires can { HearsBy tick.0 1 self.old (P.state port.old) }
        ensures { OnOk result (Hears tick.0 frame.now self.old self.new (P.state port.old) (P.state port.new)) }
    {
        let Some(place) = self.place_of(frame) else {
            return Ok(());
        };
        let unit = self.routes[place].unit(frame);
        let answer = answer_of(&unit);
        self.hear_unit(place, unit, frame.bytes().len() as u8, tick, port)?;
        if let Some(event) = answer {
            self.hear_answer(place, event, tick, port)?;
        }
        Ok(())
    }

    /// All frames of a tick come, in the order of the log.
    pub(crate) fn hear_all<P: Port>(
        &mut self,
        frames: &[Dated],
        tick: Tick,
        port: &mut P,
    ) -> Result<(), Memory>
        requires tick { tick.0 ≤ 10_000_000 }
        requires can { HearsBy tick.0 (length frames.now) self.old (P.state port.old) }
        ensures { OnOk result (HearsAll tick.0 (frames_of frames.now) self.old self.new (P.state port.old) (P.state port.new)) }
    {
        for dated in frames {
            self.hear(dated.frame(), tick, port)?;
        }
        Ok(())
    }
}
