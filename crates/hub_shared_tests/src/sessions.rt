//! Seats whose sessions are entered in one thread and joined in another.
ghost use Rattle.std.specs.Prelude.{◌≡◌, ◌+◌, ◌<◌, ◌≤◌, true, false, length};
ghost use Rattle.hub_layout.specs.Pool.{IsPool};
ghost use Rattle.hub_shared.specs.History.{part_of};
ghost use Rattle.hub_shared.specs.Ports.{hub_of, port_state};
ghost use Rattle.hub_shared_tests.specs.Sessions.{CanEnter, CanJoin, IsOnward, IsSeatAgain};

use gw_base::{DestNo, GroupNo, Memory, PathNo};
use hub_core::Take;
use hub_shared::{HubPart, HubSeat, SharedHub, SharedPort};
use std::alloc::Global;
use std::thread;
use std::thread::Threads;

/// What came of it: the sessions that were entered, and those that were joined before the threads ended and after.
#[derive(Clone, Copy, Debug, PartialEq, Eq)]
pub struct Meeting {
    pub entered: u32,
    pub joined: u32,
    pub later: u32,
}

/// One take of one cell from the first group; where it is granted, the next session of path 0 is entered for one
/// destination. And how many there are then.
fn enter_one(port: &mut SharedPort, entered: u32) -> u32
    requires group { 0 < length (port_state port.old).means.groups }
    requires takes { 0 < (port_state port.old).means.takes }
    requires acts { (port_state port.old).means.writes 0 ≡ true }
    requires entered { length ((port_state port.old).view.sessions 0) ≡ entered }
    requires few { entered < 4000 }
    ensures number { length ((port_state port.new).view.sessions 0) ≡ result }
    ensures few { result ≤ entered + 1 }
    ensures takes { (port_state port.old).means.takes ≤ (port_state port.new).means.takes + 1 }
    ensures onward { IsOnward (port_state port.old) (port_state port.new) }
    ensures hub { hub_of port.new ≡ hub_of port.old }
{
    match port.take(GroupNo(0), 1) {
        Take::Granted { change: _, held } => {
            let _opened = port.enter(held, PathNo(0), entered, 7, 1);
            entered + 1
        }
        Take::Overflow { change: _, free: _ } => entered,
    }
}

/// One look for the next session of path 0 by its first destination; and how many are joined then.
fn join_one(port: &mut SharedPort, joined: u32) -> u32
    requires group { 0 < length (port_state port.old).means.groups }
    requires acts { (port_state port.old).means.reads 0 0 ≡ true }
    requires joined { length ((port_state port.old).view.readings 0 0) ≡ joined }
    requires few { joined < 4000 }
    ensures number { length ((port_state port.new).view.readings 0 0) ≡ result }
    ensures few { result ≤ joined + 1 }
    ensures onward { IsOnward (port_state port.old) (port_state port.new) }
    ensures hub { hub_of port.new ≡ hub_of port.old }
{
    match port.next(GroupNo(0), PathNo(0), DestNo(0), joined) {
        Some(_token) => joined + 1,
        None => joined,
    }
}

/// Takes and sessions, so often; and how many sessions were entered.
fn enter_often(hub: &SharedHub, seat: HubSeat, times: u32) -> (HubSeat, u32)
    requires seat { CanEnter hub.now seat times }
    requires few { times ≤ 1000 }
    ensures { IsSeatAgain hub.now result.0 seat }
{
    let mut port = SharedPort::new(hub, seat);
    let mut entered = 0;
    for _done in 0..times {
        entered = enter_one(&mut port, entered);
    }
    (port.give_back(), entered)
}

/// Looks for sessions, so often, where so many were joined before; and how many are joined then.
fn join_often(hub: &SharedHub, seat: HubSeat, before: u32, times: u32) -> (HubSeat, u32)
    requires seat { CanJoin hub.now seat before }
    requires few { before + times ≤ 4000 }
    ensures seat { CanJoin hub.now result.0 result.1 }
    ensures again { IsSeatAgain hub.now result.0 seat }
    ensures few { result.1 ≤ before + times }
{
    let mut port = SharedPort::new(hub, seat);
    let mut joined = before;
    for _done in 0..times {
        joined = join_one(&mut port, joined);
    }
    (port.give_back(), joined)
}

/// The first destination of path 0, and no take.
fn first_destination() -> HubPart
    ensures takes { result.takes ≡ 0 }
    ensures writes { (part_of result).writes 0 ≡ false }
    ensures reads { (part_of result).reads 0 0 ≡ true }
{
    let mut dests = [0; 64];
    dests[0] = 1;
    HubPart {
        writers: 0,
        dests,
        takes: 0,
    }
}

/// A seat enters sessions while another joins them, in threads of their own; and then the other looks again, and both
/// are joined.
pub fn enter_and_join<R: Threads + Sync>(
    rt: &R,
    alloc: Global,
    cells: &[u32],
    counts: &[u8],
    times: u32,
) -> Result<Meeting, Memory>
    requires hub { IsPool cells.now counts.now }
    requires few { times ≤ 1000 }
{
    let (hub, mut seat) = SharedHub::new(alloc, cells, counts)?;
    let other = hub.split(&mut seat, &first_destination());
    let line = &hub;
    let ((mut seat, entered), (other, joined)) = thread::join(
        rt,
        move ||
            requires { CanEnter line.now seat times × (times ≤ 1000) }
            ensures { IsSeatAgain line.entry.now result.0 seat }
        { enter_often(line, seat, times) },
        move ||
            requires { CanJoin line.now other 0 × (times ≤ 1000) }
            ensures { CanJoin line.entry.now result.0 result.1
                × IsSeatAgain line.entry.now result.0 other
                × (result.1 ≤ times) }
        { join_often(line, other, 0, times) },
    );
    let (other, later) = join_often(line, other, joined, times);
    hub.join(&mut seat, other);
    hub.close(seat);
    Ok(Meeting {
        entered,
        joined,
        later,
    })
}
