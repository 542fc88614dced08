//! The worker of a bus, and a step of one of its machines.
ghost use Rattle.std.specs.Prelude.{◌≡◌, ◌<◌, ◌+◌, ◌*◌, None, IsSome, MatchBool, OnOk};
ghost use Rattle.bus_worker.specs.Stands.{receiver_at, sender_at};
ghost use Rattle.tp_receiver.specs.State.{event_of};
ghost use Rattle.bus_worker.specs.Steps.{MayTellReceiver, MayTellSender, ReceiverWasTold, SenderWasTold};

use crate::channel::Channel;
use crate::comes::Comes;
use crate::sent::Sent;
use gw_base::{ListOf, Memory, Tick};
use hub_core::{Move, Port};
use tp_receiver::RxEvent;
use tp_sender::TxEvent;
use tx_mailbox::Boxes;

/// The machines of a bus's channels, what lies in their boxes, and what they tell.
#[derive(Drop)]
pub struct Worker {
    /// The most frames that the bus sends in a tick.
    pub(crate) budget: u8,
    /// The channels, by their places on the bus.
    pub(crate) channels: Vec<Channel>,
    /// Which frames come to the channels, by the same places.
    pub(crate) routes: Vec<Comes>,
    pub(crate) boxes: Boxes,
    /// The frames that left, in order.
    pub(crate) sent: ListOf<Sent>,
    pub(crate) moves: ListOf<Move>,
}

/// The number of the box of a channel's flow controls, by its place on the bus.
pub(crate) fn control_box(place: usize) -> u8
    requires { place < 64 }
    ensures { result ≡ 2 * place }
{
    2 * place as u8
}

/// The number of the box of its data frames.
pub(crate) fn frame_box(place: usize) -> u8
    requires { place < 64 }
    ensures { result ≡ 2 * place + 1 }
{
    2 * place as u8 + 1
}

impl Worker {
    /// Whether the channel at that place is a source.
    pub(crate) fn is_source(&self, place: usize) -> bool
        ensures { MatchBool result (IsSome (receiver_at self.now.channels.items place)) (receiver_at self.now.channels.items place ≡ None) }
    {
        let Some(channel) = self.channels.get(place) else {
            return false;
        };
        channel.receiving.is_some()
    }

    /// Whether it is a destination.
    pub(crate) fn is_destination(&self, place: usize) -> bool
        ensures { MatchBool result (IsSome (sender_at self.now.channels.items place)) (sender_at self.now.channels.items place ≡ None) }
    {
        let Some(channel) = self.channels.get(place) else {
            return false;
        };
        channel.sending.is_some()
    }

    /// A step of the receiver of the channel at that place, which is a source.
    pub(crate) fn tell_receiver<P: Port>(
        &mut self,
        place: usize,
        event: RxEvent,
        tick: Tick,
        port: &mut P,
    ) -> Result<(), Memory>
        requires place { place < 64 }
        requires there { IsSome (receiver_at self.old.channels.items place) }
        requires can { MayTellReceiver place (event_of event) tick.0 self.old (P.state port.old) }
        ensures { OnOk result (ReceiverWasTold place (event_of event) tick.0 self.old self.new (P.state port.old) (P.state port.new)) }
    {
        let Some(channel) = self.channels.get_mut(place) else {
            unreachable!();
        };
        let Some(receiving) = &mut channel.receiving else {
            unreachable!();
        };
        let number = control_box(place);
        receiving.tell(event, tick, port, number, &mut self.boxes, &mut self.moves)?;
        Ok(())
    }

    /// A step of the sender of the channel at that place, which is a destination.
    pub(crate) fn tell_sender<P: Port>(
        &mut self,
        place: usize,
        event: TxEvent,
        tick: Tick,
        port: &mut P,
    ) -> Result<(), Memory>
        requires place { place < 64 }
        requires there { IsSome (sender_at self.old.channels.items place) }
        requires can { MayTellSender place event tick.0 self.old (P.state port.old) }
        ensures { OnOk result (SenderWasTold place event tick.0 self.old self.new (P.state port.old) (P.state port.new)) }
    {
        let Some(channel) = self.channels.get_mut(place) else {
            unreachable!();
        };
        let Some(sending) = &mut channel.sending else {
            unreachable!();
        };
        let number = frame_box(place);
        sending.tell(event, tick, port, number, &mut self.boxes, &mut self.moves)?;
        Ok(())
    }
}
