ghost use Rattle.std.specs.Prelude.{◌<◌};
ghost use Rattle.tp_unit.specs.Shape.{IsShape};

use crate::ending::end;
use crate::joining::{join, nothing};
use crate::progress::step_live;
use crate::transmission::Transmission;
use crate::turn::begin;
use crate::{TxActs, TxEvent, TxSet};
use gw_base::Tick;
use hub_core::{DestResult, Port, TxWait};
use tp_unit::BoxAct;

/// Sends the sessions of one destination of one path, one after another, over a port and through a box that holds the
/// one frame that waits to leave.
#[derive(Debug, Drop)]
pub struct Sender {
    set: TxSet,
    /// The number of the session that it joins next.
    next: u32,
    live: Option<Transmission>,
    ghost shape: { IsShape set.shape },
    ghost period: { 0 < set.period },
}

impl Sender {
    ghost use Rattle.std.specs.Prelude.{◌≡◌, ◌+◌, ◌<◌, ◌≤◌, ℕ, is_some, length, None, Some};
    ghost use Rattle.tp_sender.specs.Port.{ActsFor, Knows, KnowsLive, KnowsToken, OthersStay, StepOverPort};
    ghost use Rattle.hub_core.specs.Calls.{SameMeans};
    ghost use Rattle.hub_core.specs.Stays.{IsSamePort};
    ghost use Rattle.hub_core.specs.View.{View};
    ghost use Rattle.tp_unit.specs.Unit.{box_meaning_of};
    ghost use Rattle.tp_sender.specs.declared.event.TxEvent.TheVariants.{Left};
    ghost use Rattle.tp_sender.specs.State.{HasFrame, IsInBox, StillHasFrame, transmission_of, set_of, since_of, state_of, tx_new};

    /// A sender that sends nothing yet.
    pub fn new(set: TxSet) -> Sender
        requires shape { IsShape set.shape }
        requires period { 0 < set.period }
        ensures set { set_of result ≡ set }
        ensures state { state_of result ≡ tx_new }
        ensures knows { (v : View) → length (v.readings set.path.0 set.dest.0) ≡ 0 → Knows v result }
    {
        Sender {
            set,
            next: 0,
            live: None,
        }
    }

    /// Whether it sends a session.
    pub fn live(&self) -> bool
        ensures { result ≡ is_some (state_of self.now).live }
    {
        self.live.is_some()
    }

    /// A step in a tick: what the event, the state and the port's answers come to.
    ///
    /// Ticks never fall, and `Left` comes only where a frame of this sender lay in its box.
    pub fn step<P: Port>(&mut self, event: TxEvent, tick: Tick, port: &mut P) -> TxActs
        requires knows { Knows (P.state port.old).view self.old }
        requires acts { ActsFor (P.state port.old).means self.old }
        requires since { since_of (state_of self.old).live ≤ tick.0 }
        requires tick { tick.0 ≤ 10000000 }
        requires left { event ≡ Left → HasFrame (state_of self.old).live }
        ensures step { StepOverPort (set_of self.old) (state_of self.old) (state_of self.new) event tick.0 (P.state port.old) (P.state port.new) result }
        ensures knows { Knows (P.state port.new).view self.new }
        ensures acts { ActsFor (P.state port.new).means self.new }
        ensures since { since_of (state_of self.new).live ≤ tick.0 }
        ensures boxed { IsInBox (box_meaning_of result.boxed) (StillHasFrame event (state_of self.old).live) (state_of self.new).live }
        ensures set { set_of self.new ≡ set_of self.old }
        ensures others { OthersStay (set_of self.old).path.0 (set_of self.old).dest.0 (P.state port.old).view (P.state port.new).view }
        ensures means { SameMeans (P.state port.old).means (P.state port.new).means }
        ensures home { IsSamePort (P.state port.old) (P.state port.new) }
    {
        let Some(live) = self.live.take() else {
            return self.step_idle(event, tick, port);
        };
        let outcome = step_live(&self.set, live, event, tick, port);
        self.live = outcome.live;
        outcome.acts
    }
}

impl Sender {
    ghost use Rattle.std.specs.Prelude.{◌≡◌, ◌+◌, ◌≤◌, None};
    ghost use Rattle.hub_core.specs.Calls.{SameMeans};
    ghost use Rattle.hub_core.specs.Stays.{IsSamePort};
    ghost use Rattle.tp_sender.specs.declared.event.TxEvent.TheVariants.{Left, Turn, RunEnd};
    ghost use Rattle.tp_sender.specs.Port.{ActsFor, Knows, OthersStay, StepOverPort};
    ghost use Rattle.tp_sender.specs.State.{set_of, since_of, state_of};

    /// A step where nothing is sent.
    fn step_idle<P: Port>(&mut self, event: TxEvent, tick: Tick, port: &mut P) -> TxActs
        requires knows { Knows (P.state port.old).view self.old }
        requires acts { ActsFor (P.state port.old).means self.old }
        requires idle { self.old.live ≡ None }
        requires left { event ≡ Left → ⊥ }
        ensures step { StepOverPort (set_of self.old) (state_of self.old) (state_of self.new) event tick.0 (P.state port.old) (P.state port.new) result }
        ensures knows { Knows (P.state port.new).view self.new }
        ensures set { set_of self.new ≡ set_of self.old }
        ensures others { OthersStay (set_of self.old).path.0 (set_of self.old).dest.0 (P.state port.old).view (P.state port.new).view }
        ensures means { SameMeans (P.state port.old).means (P.state port.new).means }
        ensures home { IsSamePort (P.state port.old) (P.state port.new) }
    {
        match event {
            TxEvent::Turn => self.turn_idle(tick, port),
            TxEvent::Fc {
                fs: _,
                bs: _,
                st: _,
            } => nothing(),
            TxEvent::Left => unreachable!(),
            TxEvent::RunEnd => self.end_idle(tick, port),
        }
    }

    /// A turn where nothing is sent: the next session is joined, and takes its turn.
    fn turn_idle<P: Port>(&mut self, tick: Tick, port: &mut P) -> TxActs
        requires knows { Knows (P.state port.old).view self.old }
        requires acts { ActsFor (P.state port.old).means self.old }
        requires idle { self.old.live ≡ None }
        ensures step { StepOverPort (set_of self.old) (state_of self.old) (state_of self.new) Turn tick.0 (P.state port.old) (P.state port.new) result }
        ensures knows { Knows (P.state port.new).view self.new }
        ensures set { set_of self.new ≡ set_of self.old }
        ensures others { OthersStay (set_of self.old).path.0 (set_of self.old).dest.0 (P.state port.old).view (P.state port.new).view }
        ensures means { SameMeans (P.state port.old).means (P.state port.new).means }
        ensures home { IsSamePort (P.state port.old) (P.state port.new) }
    {
        let Some(live) = join(&self.set, self.next, tick, port) else {
            return nothing();
        };
        self.next += 1;
        let outcome = begin(&self.set, live, tick, port);
        self.live = outcome.live;
        outcome.acts
    }

    /// The run's end where nothing is sent: a session that stands is joined, and ends unsent.
    fn end_idle<P: Port>(&mut self, tick: Tick, port: &mut P) -> TxActs
        requires knows { Knows (P.state port.old).view self.old }
        requires acts { ActsFor (P.state port.old).means self.old }
        requires idle { self.old.live ≡ None }
        ensures step { StepOverPort (set_of self.old) (state_of self.old) (state_of self.new) RunEnd tick.0 (P.state port.old) (P.state port.new) result }
        ensures knows { Knows (P.state port.new).view self.new }
        ensures set { set_of self.new ≡ set_of self.old }
        ensures others { OthersStay (set_of self.old).path.0 (set_of self.old).dest.0 (P.state port.old).view (P.state port.new).view }
        ensures means { SameMeans (P.state port.old).means (P.state port.new).means }
        ensures home { IsSamePort (P.state port.old) (P.state port.new) }
    {
        let Some(live) = join(&self.set, self.next, tick, port) else {
            return nothing();
        };
        self.next += 1;
        let cause = DestResult::RunEnd {
            wait: TxWait::Turn,
            since: tick,
        };
        let outcome = end(&self.set, live, BoxAct::Keep, cause, tick, port);
        self.live = outcome.live;
        outcome.acts
    }
}
