//! The run's end.
ghost use Rattle.std.specs.Prelude.{◌≡◌, ◌<◌, ◌≤◌, IfOk, IsSome, OnOk, Some, length};
ghost use Rattle.bus_worker.specs.Ending.{EndsReceiver, EndsReceivers, EndsSender, EndsSenders, Finishes, IsToldOnce};
ghost use Rattle.bus_worker.specs.Phases.{RestsBy};
ghost use Rattle.bus_worker.specs.Stands.{sender_at};
ghost use Rattle.bus_worker.specs.declared.channel.Sending.{Sending};

use crate::worker::Worker;
use gw_base::{Memory, Tick};
use hub_core::Port;
use tp_receiver::RxEvent;
use tp_sender::TxEvent;

/// More sessions than a path can have, since a port has no session with a number from here on.
const MOST_SESSIONS: u32 = 8_000_001;

impl Worker {
    /// The run's end in its last tick: each receiver is told, and then each sender, until it sends nothing and no session
    /// of its path is left that it hasn't joined; both in the order of the channels. `Memory` where memory is wanting.
    pub fn finish<P: Port>(&mut self, last: Tick, port: &mut P) -> Result<(), Memory>
        requires tick { last.0 ≤ 10_000_000 }
        requires rests { RestsBy last.0 self.old (P.state port.old) }
        ensures { OnOk result (Finishes last.0 self.old self.new (P.state port.old) (P.state port.new)) }
    {
        self.end_receivers(last, port)?;
        self.end_senders(last, port)?;
        Ok(())
    }

    /// Each receiver is told of the run's end.
    fn end_receivers<P: Port>(&mut self, last: Tick, port: &mut P) -> Result<(), Memory>
        requires rests { RestsBy last.0 self.old (P.state port.old) }
        ensures { OnOk result (EndsReceivers last.0 (length self.old.channels.items) self.old self.new (P.state port.old) (P.state port.new)) }
    {
        for place in 0..self.channels.len() {
            self.end_receiver(place, last, port)?;
        }
        Ok(())
    }

    /// The receiver of the channel at that place, where it is a source, is told of the run's end.
    fn end_receiver<P: Port>(
        &mut self,
        place: usize,
        last: Tick,
        port: &mut P,
    ) -> Result<(), Memory>
        requires place { place < 64 }
        requires rests { RestsBy last.0 self.old (P.state port.old) }
        ensures { OnOk result (EndsReceiver last.0 place self.old self.new (P.state port.old) (P.state port.new)) }
    {
        if self.is_source(place) {
            self.tell_receiver(place, RxEvent::RunEnd, last, port)?;
        }
        Ok(())
    }

    /// Each sender is told of the run's end until nothing is left for it.
    fn end_senders<P: Port>(&mut self, last: Tick, port: &mut P) -> Result<(), Memory>
        requires tick { last.0 ≤ 10_000_000 }
        requires rests { RestsBy last.0 self.old (P.state port.old) }
        ensures { OnOk result (EndsSenders last.0 (length self.old.channels.items) self.old self.new (P.state port.old) (P.state port.new)) }
    {
        for place in 0..self.channels.len() {
            self.end_sender(place, last, port)?;
        }
        Ok(())
    }

    /// The sender of the channel at that place, where it is a destination, is told of the run's end until it makes no
    /// record.
    fn end_sender<P: Port>(&mut self, place: usize, last: Tick, port: &mut P) -> Result<(), Memory>
        requires place { place < 64 }
        requires tick { last.0 ≤ 10_000_000 }
        requires rests { RestsBy last.0 self.old (P.state port.old) }
        ensures { OnOk result (EndsSender last.0 place self.old self.new (P.state port.old) (P.state port.new)) }
    {
        if !self.is_destination(place) {
            return Ok(());
        }
        for _ in 0..MOST_SESSIONS {
            if !self.end_once(place, last, port)? {
                return Ok(());
            }
        }
        Err(Memory)
    }

    /// The sender of the channel at that place, which is a destination, is told of the run's end. The answer is whether it
    /// made a record.
    fn end_once<P: Port>(&mut self, place: usize, last: Tick, port: &mut P) -> Result<bool, Memory>
        requires place { place < 64 }
        requires there { IsSome (sender_at self.old.channels.items place) }
        requires tick { last.0 ≤ 10_000_000 }
        requires rests { RestsBy last.0 self.old (P.state port.old) }
        ensures { IfOk result (λ some. IsToldOnce last.0 place some self.old self.new (P.state port.old) (P.state port.new)) }
    {
        let before = self.records_of(place);
        self.tell_sender(place, TxEvent::RunEnd, last, port)?;
        Ok(before < self.records_of(place))
    }

    /// How many records the sender of the channel at that place has made, which is a destination.
    fn records_of(&self, place: usize) -> usize
        requires there { IsSome (sender_at self.now.channels.items place) }
        ensures { (s : Sending) → sender_at self.now.channels.items place ≡ Some s → result ≡ length s.dests }
    {
        let Some(channel) = self.channels.get(place) else {
            unreachable!();
        };
        let Some(sending) = &channel.sending else {
            unreachable!();
        };
        sending.dests.items().len()
    }
}
