//! What a receiver does once a tick is over.
use crate::reception::{Reception, State, is_over};
use crate::{Receiver, RxActs};
use gw_base::Tick;
use hub_core::{Port, RxLimit, RxWait, SessionResult};
use std::mem;
use tp_unit::BoxAct;

impl Receiver {
    ghost use Rattle.std.specs.Prelude.{◌≡◌, ◌+◌, ◌<◌, ◌≤◌, [], length};
    ghost use Rattle.tp_receiver.specs.Port.{Kept, Knows, KnowsReception, did_by};
    ghost use Rattle.tp_receiver.specs.State.{LiesBy, WaitsBy, idle, reception_in, reception_of, state_of};
    ghost use Rattle.hub_core.specs.Turns.{OverPort};
    ghost use Rattle.tp_receiver.specs.Table.{LeftRow, TimerRow, Times, TimesRefusal, limit_of};
    ghost use Rattle.hub_core.specs.Stays.{IsSamePort};
    ghost use Rattle.hub_core.specs.View.{View};

    /// A tick is over: what a reception waits for may be due, and so may the revoking of a refusal.
    pub(crate) fn timer<P: Port>(&mut self, tick: Tick, port: &mut P) -> RxActs
        requires knows { Knows (P.state port.old).view self.old }
        requires tick { WaitsBy self.old tick.0 }
        ensures over { OverPort (P.state port.old) (P.state port.new) result.moves.items (λ calls. TimerRow self.old.set (state_of self.old) (reception_in self.old.state) (did_by tick.0 calls result (state_of self.new))) }
        ensures set { self.new.set ≡ self.old.set }
        ensures next_n { self.new.next_n ≡ self.old.next_n }
        ensures knows { Knows (P.state port.new).view self.new }
        ensures tick { WaitsBy self.new tick.0 }
        ensures kept { Kept self.old.set.path.0 0 0 (P.state port.old).view (P.state port.new).view (P.state port.old).means (P.state port.new).means }
        ensures home { IsSamePort (P.state port.old) (P.state port.new) }
    {
        match mem::replace(&mut self.state, State::Idle) {
            State::Idle => self.refusal_timer(tick),
            State::Busy(reception) if reception.is_due(&self.set, tick) => {
                self.run_over(reception, tick, port)
            }
            State::Busy(reception) => {
                self.state = State::Busy(reception);
                RxActs::nothing()
            }
        }
    }

    /// What a reception waits for is due: it ends, or looks for room again.
    fn run_over<P: Port>(&mut self, reception: Reception, tick: Tick, port: &mut P) -> RxActs
        requires state { self.old.state ≡ State.Idle }
        requires number { length ((P.state port.old).view.sessions self.old.set.path.0) ≡ self.old.next_seq }
        requires knows { KnowsReception (P.state port.old).view self.old.set.path.0 reception }
        requires refusing { LiesBy self.old.refusing tick.0 }
        requires due { reception.since.0 + limit_of self.old.set reception.wait ≤ tick.0 }
        ensures over { OverPort (P.state port.old) (P.state port.new) result.moves.items (λ calls. Times self.old.set (idle (state_of self.old)) (reception_of reception) (did_by tick.0 calls result (state_of self.new))) }
        ensures set { self.new.set ≡ self.old.set }
        ensures next_n { self.new.next_n ≡ self.old.next_n }
        ensures knows { Knows (P.state port.new).view self.new }
        ensures tick { WaitsBy self.new tick.0 }
        ensures kept { Kept self.old.set.path.0 0 0 (P.state port.old).view (P.state port.new).view (P.state port.old).means (P.state port.new).means }
        ensures home { IsSamePort (P.state port.old) (P.state port.new) }
    {
        match reception.wait {
            RxWait::Box => self.end(
                reception,
                SessionResult::RxTimeout(RxLimit::Box),
                tick,
                port,
            ),
            RxWait::Room => self.grant(reception, tick, port),
            RxWait::Cf => self.end(reception, SessionResult::RxTimeout(RxLimit::Cf), tick, port),
        }
    }

    /// Revokes a flow control that refused a message, once it lay in the box as long as is configured.
    fn refusal_timer(&mut self, tick: Tick) -> RxActs
        requires state { self.old.state ≡ State.Idle }
        requires refusing { LiesBy self.old.refusing tick.0 }
        ensures row { TimesRefusal self.old.set (idle (state_of self.old)) (state_of self.old).refusing (did_by tick.0 [] result (state_of self.new)) }
        ensures moves { result.moves.items ≡ [] }
        ensures set { self.new.set ≡ self.old.set }
        ensures numbers { (self.new.next_n ≡ self.old.next_n) × (self.new.next_seq ≡ self.old.next_seq) }
        ensures state { self.new.state ≡ State.Idle }
        ensures refusing { LiesBy self.new.refusing tick.0 }
    {
        let Some(since) = self.refusing else {
            return RxActs::nothing();
        };
        if !is_over(since, self.set.n_ar, tick) {
            return RxActs::nothing();
        }
        self.refusing = None;
        RxActs::boxed(BoxAct::Revoke)
    }

    /// The flow control left: room or a consecutive frame is awaited from now on, or nothing after a refusal.
    pub(crate) fn flow_control_left(&mut self, tick: Tick) -> RxActs
        requires { WaitsBy self.old tick.0 }
        ensures row { LeftRow (state_of self.old) (reception_in self.old.state) (did_by tick.0 [] result (state_of self.new)) }
        ensures moves { result.moves.items ≡ [] }
        ensures set { self.new.set ≡ self.old.set }
        ensures next_n { self.new.next_n ≡ self.old.next_n }
        ensures knows { (v : View) → Knows v self.old → Knows v self.new }
        ensures tick { WaitsBy self.new tick.0 }
    {
        match &mut self.state {
            State::Idle => self.refusing = None,
            State::Busy(reception) => reception.leave_box(tick),
        }
        RxActs::nothing()
    }
}
