//! The machines' own work in a tick: the receivers' timers, and the senders' turns.
ghost use Rattle.std.specs.Prelude.{◌≤◌, ◌<◌, OnOk, length};
ghost use Rattle.bus_worker.specs.Phases.{RestsBy, TimesAll, TimesAt, TurnsAll, TurnsAt};

use crate::worker::Worker;
use gw_base::{Memory, Tick};
use hub_core::Port;
use tp_receiver::RxEvent;
use tp_sender::TxEvent;

impl Worker {
    /// Each receiver is told that the tick is over, in the order of the channels.
    pub(crate) fn time<P: Port>(&mut self, tick: Tick, port: &mut P) -> Result<(), Memory>
        requires rests { RestsBy tick.0 self.old (P.state port.old) }
        ensures { OnOk result (TimesAll tick.0 (length self.old.channels.items) self.old self.new (P.state port.old) (P.state port.new)) }
    {
        for place in 0..self.channels.len() {
            self.time_at(place, tick, port)?;
        }
        Ok(())
    }

    /// The receiver of the channel at that place, where it is a source, is told that the tick is over.
    fn time_at<P: Port>(&mut self, place: usize, tick: Tick, port: &mut P) -> Result<(), Memory>
        requires place { place < 64 }
        requires rests { RestsBy tick.0 self.old (P.state port.old) }
        ensures { OnOk result (TimesAt tick.0 place self.old self.new (P.state port.old) (P.state port.new)) }
    {
        if self.is_source(place) {
            self.tell_receiver(place, RxEvent::Timer, tick, port)?;
        }
        Ok(())
    }

    /// Each sender takes its turn, in the order of the channels.
    pub(crate) fn turn<P: Port>(&mut self, tick: Tick, port: &mut P) -> Result<(), Memory>
        requires tick { tick.0 ≤ 10_000_000 }
        requires rests { RestsBy tick.0 self.old (P.state port.old) }
        ensures { OnOk result (TurnsAll tick.0 (length self.old.channels.items) self.old self.new (P.state port.old) (P.state port.new)) }
    {
        for place in 0..self.channels.len() {
            self.turn_at(place, tick, port)?;
        }
        Ok(())
    }

    /// The sender of the channel at that place takes its turn, where it is a destination.
    fn turn_at<P: Port>(&mut self, place: usize, tick: Tick, port: &mut P) -> Result<(), Memory>
        requires place { place < 64 }
        requires tick { tick.0 ≤ 10_000_000 }
        requires rests { RestsBy tick.0 self.old (P.state port.old) }
        ensures { OnOk result (TurnsAt tick.0 place self.old self.new (P.state port.old) (P.state port.new)) }
    {
        if self.is_destination(place) {
            self.tell_sender(place, TxEvent::Turn, tick, port)?;
        }
        Ok(())
    }
}
