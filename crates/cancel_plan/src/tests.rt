//! A plan over several buses and ticks, asked for each.
use super::*;
use gw_base::{BusNo, DestNo, PathNo, Tick};
use std::test::*;

/// Cancellations in configuration order: the bus, the tick, the path and perhaps a destination.
const ENTRIES: [(u8, u64, u8, Option<u8>); 7] = [
    (1, 5, 0, Some(1)),
    (0, 5, 0, None),
    (0, 2, 1, None),
    (1, 5, 0, Some(0)),
    (0, 5, 2, None),
    (0, 10_000_000, 0, None),
    (0, 5, 0, None),
];

/// Buses and ticks, each with the places of its cancellations in the table above.
const DUE: [(u8, u64, [Option<usize>; 4]); 7] = [
    (0, 5, [Some(1), Some(4), Some(6), None]),
    (1, 5, [Some(0), Some(3), None, None]),
    (0, 2, [Some(2), None, None, None]),
    (1, 2, [None, None, None, None]),
    (0, 10_000_000, [Some(5), None, None, None]),
    (0, 3, [None, None, None, None]),
    (2, 5, [None, None, None, None]),
];

/// The cancellation of a row.
fn entry(row: (u8, u64, u8, Option<u8>)) -> CancelEntry {
    let (bus, tick, path, dest) = row;
    CancelEntry {
        bus: BusNo(bus),
        tick: Tick(tick),
        path: PathNo(path),
        dest: match dest {
            Some(dest) => Some(DestNo(dest)),
            None => None,
        },
    }
}

#[test]
fn each_tick_has_its_cancellations_in_order(rt: HostRuntime) -> Result<(), Fail> {
    let mut entries = Vec::new(rt.alloc());
    for row in ENTRIES {
        entries.push(entry(row))?;
    }
    let plan = CancelPlan::new(rt.alloc(), entries.as_slice())?;
    for (bus, tick, places) in DUE {
        for (at, place) in places.into_iter().enumerate() {
            let wanted = match place {
                Some(place) => entries.get(place).copied(),
                None => None,
            };
            assert_eq!(rt; plan.due(BusNo(bus), Tick(tick), at), wanted);
        }
    }
    Ok(())
}
