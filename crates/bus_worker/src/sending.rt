//! A step of the sender of a destination's channel, and what is noted of it.
ghost use Rattle.std.specs.Prelude.{◌≡◌, ◌<◌, [], ℕ, length, OnOk};
ghost use Rattle.hub_core.specs.View.{View};
ghost use Rattle.tp_sender.specs.Port.{Knows};
ghost use Rattle.tp_sender.specs.State.{set_of, state_of, tx_new};
ghost use Rattle.tp_unit.specs.Shape.{IsShape};
ghost use Rattle.bus_worker.specs.Told.{CanTellSender, TellsSender};

use crate::boxed::put;
use crate::channel::Sending;
use crate::notes::note;
use gw_base::{ListOf, Memory, Tick};
use hub_core::{DestRecord, Move, Port};
use std::alloc::Global;
use tp_sender::{Sender, TxActs, TxEvent, TxSet};
use tp_unit::Shape;
use tx_mailbox::Boxes;

impl Sending {
    /// A channel on which nothing is sent yet.
    pub(crate) fn new(alloc: Global, set: TxSet) -> Sending
        requires shape { IsShape set.shape }
        requires period { 0 < set.period }
        ensures set { set_of result.machine ≡ set }
        ensures state { state_of result.machine ≡ tx_new }
        ensures knows { (v : View) → length (v.readings set.path.0 set.dest.0) ≡ 0 → Knows v result.machine }
        ensures dests { result.dests ≡ [] }
    {
        Sending {
            machine: Sender::new(set),
            shape: set.shape,
            dests: ListOf::new(alloc),
        }
    }

    /// A step of the sender: its frame is put into the box of that number, its record and its move are noted.
    pub(crate) fn tell<P: Port>(
        &mut self,
        event: TxEvent,
        tick: Tick,
        port: &mut P,
        number: u8,
        boxes: &mut Boxes,
        moves: &mut ListOf<Move>,
    ) -> Result<(), Memory>
        requires can { CanTellSender self.old event tick.0 (P.state port.old) }
        requires number { number < 176 }
        ensures { OnOk result (TellsSender self.old self.new event tick.0 (P.state port.old) (P.state port.new) number boxes.old boxes.new moves.old moves.new) }
    {
        let TxActs {
            boxed,
            ended,
            moved,
        } = self.machine.step(event, tick, port);
        put(boxes, number, &self.shape, boxed);
        note(&mut self.dests, ended)?;
        note(moves, moved)?;
        Ok(())
    }
}
