//! The receiver: how it is made, and which event takes it to which function.
ghost use Rattle.std.specs.Prelude.{◌≤◌};
ghost use Rattle.tp_receiver.specs.Set.{IsRxSet};

use crate::reception::State;
use crate::{RxActs, RxEvent, RxSet};
use gw_base::Tick;
use hub_core::Port;
use tp_unit::Unit;

/// The receiver of one channel (ISO 15765-2, segmentation and reassembly).
#[derive(Debug, Drop)]
pub struct Receiver {
    pub(crate) set: RxSet,
    /// The number of the next start.
    pub(crate) next_n: u32,
    /// The number of the path's next session.
    pub(crate) next_seq: u32,
    pub(crate) state: State,
    /// Since when a flow control that refused a message lies in the box.
    pub(crate) refusing: Option<Tick>,
    ghost set_in_range: { IsRxSet set },
    ghost sessions: { next_seq ≤ next_n },
}

impl Receiver {
    ghost use Rattle.std.specs.Prelude.{◌≡◌, ◌+◌, ◌<◌, ◌≤◌, is_some, take};
    ghost use Rattle.tp_receiver.specs.Port.{ActsFor, CanTake, IsRead, IsServed, Kept, Knows, did_by, spare_for, takes_for};
    ghost use Rattle.tp_receiver.specs.State.{WaitsBy, Came, event_of, rx_new, state_of};
    ghost use Rattle.hub_core.specs.Turns.{OverPort};
    ghost use Rattle.tp_receiver.specs.Table.{RxStep};
    ghost use Rattle.hub_core.specs.Stays.{IsSamePort};
    ghost use Rattle.tp_unit.specs.Unit.{meaning_of};

    /// A receiver that is idle, and whose channel had no start yet. A path has 1 to 8 destinations, and a frame at most
    /// one address byte.
    pub fn new(set: RxSet) -> Receiver
        requires { IsRxSet set }
        ensures set { result.set ≡ set }
        ensures state { state_of result ≡ rx_new }
    {
        Receiver {
            set,
            next_n: 0,
            next_seq: 0,
            state: State::Idle,
            refusing: None,
        }
    }

    /// Whether a reception is in progress.
    pub fn busy(&self) -> bool
        ensures { result ≡ is_some (state_of self.now).busy }
    {
        matches!(self.state, State::Busy(_))
    }

    /// A step in a tick: what the event, the state and the port's answers come to (ISO 15765-2, segmentation and
    /// reassembly; sessions, records and cells are this project's own).
    ///
    /// Ticks never fall. A unit is one that was read of a frame of `dl` bytes, and needs a take, nine cells that may be
    /// put, and a number below 1,000,000. `FcLeft` counts only where a flow control of this reception lay in its box.
    pub fn step<P: Port>(&mut self, event: RxEvent, tick: Tick, port: &mut P) -> RxActs
        requires acts { ActsFor self.old.set (P.state port.old).means }
        requires knows { Knows (P.state port.old).view self.old }
        requires tick { WaitsBy self.old tick.0 }
        requires unit { CanTake self.old.set (P.state port.old).means self.old.next_n (event_of event) }
        ensures over { OverPort (P.state port.old) (P.state port.new) result.moves.items (λ calls. RxStep self.old.set (state_of self.old) (event_of event) (did_by tick.0 calls result (state_of self.new))) }
        ensures set { self.new.set ≡ self.old.set }
        ensures knows { Knows (P.state port.new).view self.new }
        ensures tick { WaitsBy self.new tick.0 }
        ensures count { self.new.next_n ≤ self.old.next_n + takes_for (event_of event) }
        ensures kept { Kept self.old.set.path.0 (takes_for (event_of event)) (spare_for (event_of event)) (P.state port.old).view (P.state port.new).view (P.state port.old).means (P.state port.new).means }
        ensures home { IsSamePort (P.state port.old) (P.state port.new) }
    {
        match event {
            RxEvent::Unit { unit, dl } => self.unit(unit, dl, tick, port),
            RxEvent::Timer => self.timer(tick, port),
            RxEvent::FcLeft => self.flow_control_left(tick),
            RxEvent::RunEnd => self.run_end(tick, port),
        }
    }

    /// A unit, by its kind.
    fn unit<P: Port>(&mut self, unit: Unit, size: u8, tick: Tick, port: &mut P) -> RxActs
        requires acts { ActsFor self.old.set (P.state port.old).means }
        requires knows { Knows (P.state port.old).view self.old }
        requires served { IsServed (P.state port.old).means self.old.next_n }
        requires read { IsRead self.old.set.a size (meaning_of unit) }
        ensures over { OverPort (P.state port.old) (P.state port.new) result.moves.items (λ calls. RxStep self.old.set (state_of self.old) (Came size (meaning_of unit)) (did_by tick.0 calls result (state_of self.new))) }
        ensures set { self.new.set ≡ self.old.set }
        ensures knows { Knows (P.state port.new).view self.new }
        ensures tick { WaitsBy self.old tick.0 → WaitsBy self.new tick.0 }
        ensures count { self.new.next_n ≤ self.old.next_n + 1 }
        ensures kept { Kept self.old.set.path.0 1 9 (P.state port.old).view (P.state port.new).view (P.state port.old).means (P.state port.new).means }
        ensures home { IsSamePort (P.state port.old) (P.state port.new) }
    {
        match unit {
            Unit::Sf { bytes } => self.single_frame(bytes.as_slice(), size, tick, port),
            Unit::Ff { len: _, bytes: _ } if self.set.functional => RxActs::nothing(),
            Unit::Ff { len, bytes } => self.first_frame(len, bytes.as_slice(), size, tick, port),
            Unit::Cf { sn, bytes } => self.consecutive_frame(
                sn,
                bytes.as_slice(),
                size,
                tick,
                port,
            ),
            Unit::Fc {
                fs: _,
                bs: _,
                st: _,
            } => RxActs::nothing(),
            Unit::Ignored(_) => RxActs::nothing(),
        }
    }
}
