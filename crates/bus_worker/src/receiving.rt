//! A step of the receiver of a source channel, and what is noted of it.
ghost use Rattle.std.specs.Prelude.{◌≡◌, [], IfOk, OnOk};
ghost use Rattle.tp_receiver.specs.Set.{IsRxSet};
ghost use Rattle.tp_receiver.specs.State.{event_of, rx_new, state_of};
ghost use Rattle.tp_unit.specs.Shape.{IsShape};
ghost use Rattle.bus_worker.specs.Told.{CanTellReceiver, TellsReceiver};

use crate::boxed::put;
use crate::channel::Receiving;
use crate::notes::note_all;
use gw_base::{ListOf, Memory, Tick};
use hub_core::{Move, Port, SessionRecord};
use std::alloc::Global;
use tp_receiver::{Receiver, RxActs, RxEvent, RxSet};
use tp_unit::Shape;
use tx_mailbox::Boxes;

impl Receiving {
    ghost use Rattle.std.specs.Prelude.{◌<◌};

    /// A channel to which no frame came yet.
    pub(crate) fn new(alloc: Global, set: RxSet, shape: Shape) -> Receiving
        requires set { IsRxSet set }
        requires shape { IsShape shape }
        ensures set { result.machine.set ≡ set }
        ensures shape { result.shape ≡ shape }
        ensures state { state_of result.machine ≡ rx_new }
        ensures sessions { result.sessions ≡ [] }
    {
        Receiving {
            machine: Receiver::new(set),
            shape,
            sessions: ListOf::new(alloc),
        }
    }

    /// A step of the receiver: its flow control is put into the box of that number, its records and moves are noted.
    pub(crate) fn tell<P: Port>(
        &mut self,
        event: RxEvent,
        tick: Tick,
        port: &mut P,
        number: u8,
        boxes: &mut Boxes,
        moves: &mut ListOf<Move>,
    ) -> Result<(), Memory>
        requires can { CanTellReceiver self.old (event_of event) tick.0 (P.state port.old) }
        requires number { number < 176 }
        ensures { OnOk result (TellsReceiver self.old self.new (event_of event) tick.0 (P.state port.old) (P.state port.new) number boxes.old boxes.new moves.old moves.new) }
    {
        let RxActs {
            fc,
            records,
            moves: made,
        } = self.machine.step(event, tick, port);
        put(boxes, number, &self.shape, fc);
        note_all(&mut self.sessions, records.as_slice())?;
        note_all(moves, made.as_slice())?;
        Ok(())
    }
}
