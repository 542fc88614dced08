//! How a reception ends, and what is told of it.
use crate::reception::{Reception, State};
use crate::{Receiver, RxActs};
use gw_base::Tick;
use hub_core::{End, Port, SessionResult};
use std::mem;

impl Receiver {
    ghost use Rattle.std.specs.Prelude.{◌≡◌, ◌<◌, ◌≤◌, length};
    ghost use Rattle.tp_receiver.specs.Port.{Kept, Knows, did_by};
    ghost use Rattle.tp_receiver.specs.State.{reception_of, reception_in, idle, state_of};
    ghost use Rattle.hub_core.specs.Turns.{OverPort};
    ghost use Rattle.tp_receiver.specs.Table.{Ends, EndRow};
    ghost use Rattle.hub_core.specs.Stays.{IsSamePort};
    ghost use Rattle.hub_core.specs.Tokens.{Writes};

    /// The run ends.
    pub(crate) fn run_end<P: Port>(&mut self, tick: Tick, port: &mut P) -> RxActs
        requires knows { Knows (P.state port.old).view self.old }
        ensures over { OverPort (P.state port.old) (P.state port.new) result.moves.items (λ calls. EndRow self.old.set (state_of self.old) (reception_in self.old.state) (did_by tick.0 calls result (state_of self.new))) }
        ensures receiver { self.new ≡ record self.old { state = State.Idle } }
        ensures knows { Knows (P.state port.new).view self.new }
        ensures kept { Kept self.old.set.path.0 0 0 (P.state port.old).view (P.state port.new).view (P.state port.old).means (P.state port.new).means }
        ensures home { IsSamePort (P.state port.old) (P.state port.new) }
    {
        match mem::replace(&mut self.state, State::Idle) {
            State::Idle => RxActs::nothing(),
            State::Busy(reception) => {
                let how = SessionResult::RunEnd {
                    wait: reception.wait,
                    since: reception.since,
                };
                self.end(reception, how, tick, port)
            }
        }
    }

    /// Ends a reception: its writer leaves, and its flow control that lies in the box doesn't leave.
    pub(crate) fn end<P: Port>(
        &self,
        reception: Reception,
        how: SessionResult,
        tick: Tick,
        port: &mut P,
    ) -> RxActs
        requires path { reception.writer.path.0 ≡ self.now.set.path.0 }
        requires writes { Writes (P.state port.old).view reception.writer }
        ensures over { OverPort (P.state port.old) (P.state port.new) result.moves.items (λ calls. Ends self.now.set (idle (state_of self.now)) (reception_of reception) how (did_by tick.0 calls result (idle (state_of self.now)))) }
        ensures number { length ((P.state port.new).view.sessions self.now.set.path.0) ≡ length ((P.state port.old).view.sessions self.now.set.path.0) }
        ensures records { length result.records.items ≡ 1 }
        ensures moves { length result.moves.items ≤ 1 }
        ensures kept { Kept self.now.set.path.0 0 0 (P.state port.old).view (P.state port.new).view (P.state port.old).means (P.state port.new).means }
        ensures home { IsSamePort (P.state port.old) (P.state port.new) }
    {
        let fc = reception.revoking();
        let record = reception.ended(&self.set, how, tick);
        let left = port.leave(End::Write(reception.writer));
        RxActs::left(fc, record, left)
    }
}
