ghost use Rattle.std.specs.Prelude.{◌≡◌, ◌+◌, ◌<◌, ◌≤◌, true, length};

use can_frame::Frame;
use gw_base::PathNo;
use if_core::{IfUnit, Lanes, Offer, PlainLanes};
use std::alloc::Global;
use std::collections::VecDeque;
use std::test::Fail;

/// Queues by their depth and whether they keep what they have; a queue of the last unit is one of depth 1.
const KINDS: [(u32, bool); 6] = [
    (1, false),
    (2, false),
    (3, false),
    (1, true),
    (2, true),
    (3, true),
];

/// The calls of one order: each bit is an offer, or a take where it is set.
const CALLS: u64 = 8;

/// All orders.
const ORDERS: u64 = 256;

/// The numbers that a queue holds by the words of its rule alone.
#[derive(Drop)]
struct Listed {
    numbers: VecDeque<u64>,
    /// The units that were offered, those of them that were queued, and of these how many left.
    offered: u64,
    count: u64,
    position: u64,
}

impl Listed {
    ghost use Rattle.std.specs.Prelude.{◌≡◌};

    fn offer(&mut self, kind: (u32, bool), number: u64) -> Result<Offer, Fail>
        ensures { self.new.offered ≡ self.old.offered }
    {
        let full = self.numbers.len() >= kind.0 as usize;
        if full && kind.1 {
            return Ok(Offer::Refused {
                count: self.count,
                position: self.position,
            });
        }
        let from = self.position;
        if full {
            self.numbers.clear();
            self.position = self.count;
        }
        self.numbers.push_back(number)?;
        let to = self.count.saturating_sub(1);
        self.count = self.count.saturating_add(1);
        if full {
            return Ok(Offer::Flushed { from, to });
        }
        Ok(Offer::Queued)
    }

    fn take(&mut self) -> Option<(u64, u64)>
        ensures { self.new.offered ≡ self.old.offered }
    {
        let number = self.numbers.pop_front()?;
        let position = self.position;
        self.position = position.saturating_add(1);
        Some((position, number))
    }
}

/// Whether one call is answered as by the list: an offer of the next unit, or a take.
fn agrees<L: Lanes>(
    lanes: &mut L,
    listed: &mut Listed,
    kind: (u32, bool),
    takes: bool,
) -> Result<bool, Fail>
    requires may { ((L.means lanes.old).offers 0 ≡ true) × ((L.means lanes.old).takes 0 ≡ true) }
    requires number { length ((L.view lanes.old) 0).offers ≡ listed.old.offered }
    requires few { listed.old.offered < 8 }
    ensures means { L.means lanes.new ≡ L.means lanes.old }
    ensures number { length ((L.view lanes.new) 0).offers ≡ listed.new.offered }
    ensures few { listed.new.offered ≤ listed.old.offered + 1 }
{
    if takes {
        return match lanes.take(PathNo(0)) {
            Some((position, unit)) => Ok(listed.take() == Some((position, unit.number()))),
            None => Ok(listed.take() == None),
        };
    }
    let unit = IfUnit::new(listed.offered, &Frame::default());
    let answer = lanes.offer(PathNo(0), &unit);
    listed.offered += 1;
    Ok(answer == listed.offer(kind, unit.number())?)
}

/// Whether all answers to one order of calls are those of the list.
fn all_agree<L: Lanes>(
    lanes: &mut L,
    listed: &mut Listed,
    kind: (u32, bool),
    order: u64,
) -> Result<bool, Fail>
    requires may { ((L.means lanes.old).offers 0 ≡ true) × ((L.means lanes.old).takes 0 ≡ true) }
    requires number { (length ((L.view lanes.old) 0).offers ≡ listed.old.offered) × (listed.old.offered ≡ 0) }
{
    for call in 0..CALLS {
        if !agrees(lanes, listed, kind, order >> call & 1 == 1)? {
            return Ok(false);
        }
        if lanes.held(PathNo(0)) != listed.numbers.len() as u64 {
            return Ok(false);
        }
    }
    Ok(true)
}

/// Whether a queue of the kind answers one order of calls as the list does.
fn follows_rule(alloc: Global, kind: (u32, bool), order: u64) -> Result<bool, Fail>
    requires { (1 ≤ kind.0) × (kind.0 ≤ 64) }
{
    let mut lanes = PlainLanes::new(alloc, &[kind])?;
    let mut listed = Listed {
        numbers: VecDeque::new(alloc),
        offered: 0,
        count: 0,
        position: 0,
    };
    all_agree(&mut lanes, &mut listed, kind, order)
}

#[test]
fn offers_and_takes_in_every_order(rt: HostRuntime) -> Result<(), Fail> {
    for kind in KINDS {
        for order in 0..ORDERS {
            assert!(rt; follows_rule(rt.alloc(), kind, order)?, "{kind:?} {order}");
        }
    }
    Ok(())
}
