//! Seats that take in threads of their own.
ghost use Rattle.std.specs.Prelude.{◌≡◌, ◌≤◌};
ghost use Rattle.std.specs.Thread.{IsSync};
ghost use Rattle.hub_layout.specs.Pool.{IsPool};
ghost use Rattle.hub_shared_tests.specs.Takers.{CanTake, IsAgain};

use gw_base::{GroupNo, Memory};
use hub_core::Take;
use hub_shared::{HubPart, HubSeat, SharedHub, SharedPort};
use std::alloc::Global;
use std::thread;
use std::thread::Threads;

/// What came of it: the pool word of the first group at the end, and how many takes each seat was granted.
#[derive(Clone, Copy, Debug, PartialEq, Eq)]
pub struct Outcome {
    pub word: u64,
    pub granted: [u32; 4],
}

/// Takes of one cell from the first group, so often; and how many were granted.
fn take_often(hub: &SharedHub, seat: HubSeat, times: u32) -> (HubSeat, u32)
    requires { CanTake hub.now seat times }
    ensures { IsAgain hub.now result.0 seat }
{
    let mut port = SharedPort::new(hub, seat);
    let mut granted = 0;
    for _done in 0..times {
        if let Take::Granted { .. } = port.take(GroupNo(0), 1) {
            granted += 1;
        }
    }
    (port.give_back(), granted)
}

/// No party, and so many takes.
fn takes_alone(takes: u64) -> HubPart
    ensures { result.takes ≡ takes }
{
    HubPart {
        writers: 0,
        dests: [0; 64],
        takes,
    }
}

/// Two seats take in threads of their own, each so often.
fn take_in_two<R: Threads + Sync>(
    rt: &R,
    hub: &SharedHub,
    seat: HubSeat,
    other: HubSeat,
    times: u32,
) -> ((HubSeat, u32), (HubSeat, u32))
    requires seat { CanTake hub.now seat times }
    requires other { CanTake hub.now other times }
    ensures seat { IsAgain hub.now result.0.0 seat }
    ensures other { IsAgain hub.now result.1.0 other }
{
    thread::join(
        rt,
        move ||
            requires { CanTake hub.now seat times }
            ensures { IsAgain hub.entry.now result.0 seat }
        { take_often(hub, seat, times) },
        move ||
            requires { CanTake hub.now other times }
            ensures { IsAgain hub.entry.now result.0 other }
        { take_often(hub, other, times) },
    )
}

/// Two seats of a hub take in threads of their own, each so often, and are joined.
pub fn two_takers<R: Threads + Sync>(
    rt: &R,
    alloc: Global,
    cells: &[u32],
    counts: &[u8],
    times: u32,
) -> Result<Outcome, Memory>
    requires hub { IsPool cells.now counts.now }
    requires few { times ≤ 1000 }
{
    let (hub, mut seat) = SharedHub::new(alloc, cells, counts)?;
    let other = hub.split(&mut seat, &takes_alone(u64::from(times)));
    let ((mut seat, first), (other, second)) = take_in_two(rt, &hub, seat, other, times);
    hub.join(&mut seat, other);
    let words = hub.close(seat);
    Ok(Outcome {
        word: words[0],
        granted: [first, second, 0, 0],
    })
}

/// Four seats of a hub take in threads of their own, each so often, and are joined.
pub fn four_takers<R: Threads + Sync>(
    rt: &R,
    alloc: Global,
    cells: &[u32],
    counts: &[u8],
    times: u32,
) -> Result<Outcome, Memory>
    requires hub { IsPool cells.now counts.now }
    requires few { times ≤ 1000 }
{
    let (hub, mut seat) = SharedHub::new(alloc, cells, counts)?;
    let part = takes_alone(u64::from(times));
    let b = hub.split(&mut seat, &part);
    let c = hub.split(&mut seat, &part);
    let d = hub.split(&mut seat, &part);
    let line = &hub;
    let (((mut seat, first), (b, second)), ((c, third), (d, fourth))) = thread::join(
        rt,
        move ||
            requires { IsSync R.row × CanTake line.now seat times × CanTake line.now b times }
            ensures { IsAgain line.entry.now result.0.0 seat × IsAgain line.entry.now result.1.0 b }
        { take_in_two(rt, line, seat, b, times) },
        move ||
            requires { IsSync R.row × CanTake line.now c times × CanTake line.now d times }
            ensures { IsAgain line.entry.now result.0.0 c × IsAgain line.entry.now result.1.0 d }
        { take_in_two(rt, line, c, d, times) },
    );
    hub.join(&mut seat, b);
    hub.join(&mut seat, c);
    hub.join(&mut seat, d);
    let words = hub.close(seat);
    Ok(Outcome {
        word: words[0],
        granted: [first, second, third, fourth],
    })
}
