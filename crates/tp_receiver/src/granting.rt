//! What a receiver lets its sender do: a flow control, by the room of the session's buffer.
ghost use Rattle.std.specs.Prelude.{◌≡◌};
ghost use Rattle.tp_receiver.specs.Grant.{ask_to_wait, overflow};
ghost use Rattle.tp_unit.specs.Unit.{FlowControl, meaning_of};

use crate::reception::{Reception, State};
use crate::{Receiver, RxActs};
use flow_plan::Grant;
use gw_base::Tick;
use hub_core::{Port, RxWait, SessionResult};
use tp_unit::{BoxAct, Unit};

/// The flow status to go on sending.
const CONTINUE: u8 = 0;

/// The flow status to wait for a further flow control.
const WAIT: u8 = 1;

/// The flow status that refuses a message.
const OVERFLOW: u8 = 2;

impl Receiver {
    ghost use Rattle.std.specs.Prelude.{◌≡◌, ◌+◌, ◌<◌, ◌≤◌, [], Option, length};
    ghost use Rattle.tp_receiver.specs.Port.{Kept, Knows, KnowsReception, did_by};
    ghost use Rattle.tp_receiver.specs.State.{LiesBy, WaitsBy, idle, reception_of, state_of};
    ghost use Rattle.hub_core.specs.Turns.{OverPort};
    ghost use Rattle.tp_receiver.specs.Table.{Answers, Grants, SendsControl};
    ghost use Rattle.hub_core.specs.Stays.{IsSamePort};
    ghost use Rattle.tp_unit.specs.Unit.{meaning_of};

    /// Looks at the room and answers the sender, where the message still has readers.
    pub(crate) fn grant<P: Port>(
        &mut self,
        mut reception: Reception,
        tick: Tick,
        port: &mut P,
    ) -> RxActs
        requires state { self.old.state ≡ State.Idle }
        requires number { length ((P.state port.old).view.sessions self.old.set.path.0) ≡ self.old.next_seq }
        requires knows { KnowsReception (P.state port.old).view self.old.set.path.0 reception }
        ensures over { OverPort (P.state port.old) (P.state port.new) result.moves.items (λ calls. Grants self.old.set (idle (state_of self.old)) (reception_of reception) (did_by tick.0 calls result (state_of self.new))) }
        ensures set { self.new.set ≡ self.old.set }
        ensures next_n { self.new.next_n ≡ self.old.next_n }
        ensures knows { Knows (P.state port.new).view self.new }
        ensures tick { LiesBy self.old.refusing tick.0 → WaitsBy self.new tick.0 }
        ensures records { length result.records.items ≤ 1 }
        ensures moves { length result.moves.items ≤ 1 }
        ensures kept { Kept self.old.set.path.0 0 0 (P.state port.old).view (P.state port.new).view (P.state port.old).means (P.state port.new).means }
        ensures home { IsSamePort (P.state port.old) (P.state port.new) }
    {
        let room = port.room(&mut reception.writer);
        if room.readers == 0 {
            return self.end(reception, SessionResult::NoReaders, tick, port);
        }
        self.answer(reception, room.cells, tick, port)
    }

    /// Answers the sender where so many cells have room, or ends the reception after too many waits.
    fn answer<P: Port>(
        &mut self,
        reception: Reception,
        room: u32,
        tick: Tick,
        port: &mut P,
    ) -> RxActs
        requires state { self.old.state ≡ State.Idle }
        requires number { length ((P.state port.old).view.sessions self.old.set.path.0) ≡ self.old.next_seq }
        requires knows { KnowsReception (P.state port.old).view self.old.set.path.0 reception }
        ensures over { OverPort (P.state port.old) (P.state port.new) result.moves.items (λ calls. Answers self.old.set (idle (state_of self.old)) (reception_of reception) room (did_by tick.0 calls result (state_of self.new))) }
        ensures set { self.new.set ≡ self.old.set }
        ensures next_n { self.new.next_n ≡ self.old.next_n }
        ensures knows { Knows (P.state port.new).view self.new }
        ensures tick { LiesBy self.old.refusing tick.0 → WaitsBy self.new tick.0 }
        ensures records { length result.records.items ≤ 1 }
        ensures moves { length result.moves.items ≤ 1 }
        ensures kept { Kept self.old.set.path.0 0 0 (P.state port.old).view (P.state port.new).view (P.state port.old).means (P.state port.new).means }
        ensures home { IsSamePort (P.state port.old) (P.state port.new) }
    {
        match reception.granted(&self.set, room) {
            Grant::All => self.send(reception, continue_to_send(0, self.set.st), None, 0, tick),
            Grant::Block(frames) => {
                let control = continue_to_send(frames, self.set.st);
                self.send(reception, control, Some(frames), 0, tick)
            }
            Grant::Wait if reception.waits >= self.set.wft_max => {
                self.end(reception, SessionResult::WaitOver, tick, port)
            }
            Grant::Wait => {
                let waits = reception.waits + 1;
                self.send(reception, ask_to_wait(), Some(0), waits, tick)
            }
        }
    }

    /// Puts a flow control into the box, in place of what lies there: the reception waits for it to leave.
    fn send(
        &mut self,
        reception: Reception,
        control: Unit,
        left: Option<u8>,
        waits: u8,
        tick: Tick,
    ) -> RxActs
        requires path { reception.writer.path.0 ≡ self.old.set.path.0 }
        ensures row { SendsControl (idle (state_of self.old)) (reception_of reception) (meaning_of control) left waits (did_by tick.0 [] result (state_of self.new)) }
        ensures moves { result.moves.items ≡ [] }
        ensures receiver { self.new ≡ record self.old { state = State.Busy (record reception { wait = RxWait.Box; since = tick; left = left; waits = waits }); refusing = Option.None } }
    {
        self.state = State::Busy(Reception {
            wait: RxWait::Box,
            since: tick,
            left,
            waits,
            ..reception
        });
        self.refusing = None;
        RxActs::boxed(BoxAct::Offer(control))
    }
}

/// The flow control that lets so many frames come, or all where that is 0, in this separation time.
fn continue_to_send(frames: u8, st: u8) -> Unit
    ensures { meaning_of result ≡ FlowControl 0 frames st }
{
    Unit::Fc {
        fs: CONTINUE,
        bs: frames,
        st,
    }
}

/// The flow control that asks to wait for a further one.
fn ask_to_wait() -> Unit
    ensures { meaning_of result ≡ ask_to_wait }
{
    Unit::Fc {
        fs: WAIT,
        bs: 0,
        st: 0,
    }
}

/// The flow control that refuses a message.
pub(crate) fn overflow() -> Unit
    ensures { meaning_of result ≡ overflow }
{
    Unit::Fc {
        fs: OVERFLOW,
        bs: 0,
        st: 0,
    }
}
