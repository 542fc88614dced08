//! The calls of a port.
ghost use Rattle.std.specs.Prelude.{◌≡◌, ◌<◌, ◌≤◌, true, length};
ghost use Rattle.hub_core.specs.Calls.{Answers, ByReader, ByWriter, Joins, SameMeans, SameParties, TakeUsed};
ghost use Rattle.hub_core.specs.Calls.{entered_of, joins, next_of, took_of};
ghost use Rattle.hub_core.specs.Tokens.{Holds, Writes, opened_new};
ghost use Rattle.hub_core.specs.Floors.{IsFresh};
ghost use Rattle.hub_core.specs.Stays.{IsFreshFor, Stays};
ghost use Rattle.hub_core.specs.View.{grow};
ghost use Rattle.hub_shared.specs.Ports.{hub_of, port_state, seat_of, view_of};
ghost use Rattle.hub_shared.specs.Seats.{IsSeatOf, groups_of};

use crate::{HubSeat, SharedHub, SharedPort};
use gw_base::{DestNo, GroupNo, PathNo};
use hub_core::{Held, Joined, Opened, Take};

impl<'a> SharedPort<'a> {
    /// The port of a seat.
    pub fn new(hub: &'a SharedHub, seat: HubSeat) -> SharedPort<'a>
        requires { IsSeatOf hub.now seat }
        ensures seat { seat_of result ≡ seat }
        ensures hub { hub_of result ≡ hub.now }
    {
        SharedPort { hub, seat }
    }

    /// Its seat.
    pub fn give_back(self) -> HubSeat
        ensures seat { result ≡ seat_of self.entry }
        ensures of { IsSeatOf (hub_of self.entry) result }
    {
        let SharedPort { hub: _hub, seat } = self;
        seat
    }

    /// Takes the group's smallest free buffer that has `need` cells, of equals the lowest number; `Overflow` with the
    /// group's pool word of one moment where none has. It waits for nobody, and returns.
    pub fn take(&mut self, group: GroupNo, need: u64) -> Take
        requires group { group.0 < length (port_state self.old).means.groups }
        requires takes { 0 < (port_state self.old).means.takes }
        ensures view { (port_state self.new).view ≡ grow (took_of group.0 need result) (port_state self.old).view }
        ensures answers { Answers (port_state self.new).view (port_state self.old).means.groups group.0 need result }
        ensures fresh { IsFresh (port_state self.old).view (port_state self.old).floors (took_of group.0 need result) }
        ensures stays { Stays SameParties TakeUsed (port_state self.old) (port_state self.new) }
        ensures hub { hub_of self.new ≡ hub_of self.old }
    {
        let hub = self.hub;
        hub.take(&mut self.seat, group, need)
    }
}

impl<'a> SharedPort<'a> {
    /// Makes the path's next session known, in a buffer that was taken, to `readers` destinations. `len` is the unit's
    /// length in bytes.
    pub fn enter(&mut self, held: Held, path: PathNo, seq: u32, len: u32, readers: u8) -> Opened
        requires acts { (port_state self.old).means.writes path.0 ≡ true }
        requires held { Holds (port_state self.old).view held }
        requires seq { length ((port_state self.old).view.sessions path.0) ≡ seq }
        requires len { 0 < len }
        requires readers { (0 < readers) × (readers ≤ (port_state self.old).means.most) }
        ensures view { view_of self.new ≡ grow (entered_of held path seq len readers) (view_of self.old) }
        ensures opened { result ≡ opened_new held path seq len readers }
        ensures writes { Writes (port_state self.new).view result }
        ensures stays { Stays (ByWriter path.0 1) SameMeans (port_state self.old) (port_state self.new) }
        ensures hub { hub_of self.new ≡ hub_of self.old }
    {
        let hub = self.hub;
        hub.enter(&mut self.seat, held, path, seq, len, readers)
    }

    /// Joins the destination's next session, the path's one with the number `seq`, which lies in the group. `None` where
    /// no such session was known in the group as the call began to look. It waits for nobody, and returns.
    pub fn next(&mut self, group: GroupNo, path: PathNo, dest: DestNo, seq: u32) -> Option<Joined>
        requires group { group.0 < length (port_state self.old).means.groups }
        requires acts { (port_state self.old).means.reads path.0 dest.0 ≡ true }
        requires seq { length ((view_of self.old).readings path.0 dest.0) ≡ seq }
        ensures view { view_of self.new ≡ grow (next_of group.0 path.0 dest.0 seq result) (view_of self.old) }
        ensures joins { Joins (port_state self.new).view path dest seq result }
        ensures fresh { IsFreshFor (port_state self.old) (next_of group.0 path.0 dest.0 seq result) }
        ensures stays { Stays (ByReader path.0 dest.0 (joins result)) SameMeans (port_state self.old) (port_state self.new) }
        ensures hub { hub_of self.new ≡ hub_of self.old }
    {
        let hub = self.hub;
        hub.next(&mut self.seat, group, path, dest, seq)
    }
}
