use crate::{ChanEntry, IfEntry, Table};
use can_frame::CanId;
use gw_base::{BusNo, ChanNo, PathNo};
use std::test::Fail;

const CAN0: BusNo = BusNo(0);

const CAN1: BusNo = BusNo(1);

const CAN2: BusNo = BusNo(2);

/// Two buses with one identifier, two addresses on one identifier, and two formats of one number.
const CHANNELS: [ChanEntry; 5] = [
    ChanEntry {
        chan: ChanNo(0),
        bus: CAN1,
        id: CanId::Std(0x700),
        address: None,
    },
    ChanEntry {
        chan: ChanNo(1),
        bus: CAN0,
        id: CanId::Std(0x700),
        address: None,
    },
    ChanEntry {
        chan: ChanNo(2),
        bus: CAN0,
        id: CanId::Std(0x6F1),
        address: Some(0x10),
    },
    ChanEntry {
        chan: ChanNo(3),
        bus: CAN0,
        id: CanId::Std(0x6F1),
        address: Some(0x12),
    },
    ChanEntry {
        chan: ChanNo(4),
        bus: CAN0,
        id: CanId::Ext(0x700),
        address: None,
    },
];

/// Frames, by bus, identifier and first byte, and their channels.
const FRAMES: [(BusNo, CanId, Option<u8>, Option<ChanNo>); 10] = [
    (CAN0, CanId::Std(0x700), Some(0x02), Some(ChanNo(1))),
    (CAN1, CanId::Std(0x700), Some(0x02), Some(ChanNo(0))),
    (CAN0, CanId::Ext(0x700), Some(0x02), Some(ChanNo(4))),
    (CAN1, CanId::Ext(0x700), Some(0x02), None),
    (CAN0, CanId::Std(0x700), None, Some(ChanNo(1))),
    (CAN0, CanId::Std(0x6F1), Some(0x10), Some(ChanNo(2))),
    (CAN0, CanId::Std(0x6F1), Some(0x12), Some(ChanNo(3))),
    (CAN0, CanId::Std(0x6F1), Some(0x11), None),
    (CAN0, CanId::Std(0x6F1), None, None),
    (CAN2, CanId::Std(0x700), Some(0x02), None),
];

#[test]
fn each_frame_has_its_channel(rt: HostRuntime) -> Result<(), Fail> {
    let table = Table::build(rt.alloc(), &CHANNELS, &[])?;
    for (bus, id, first, chan) in FRAMES {
        assert_eq!(rt;
            table.channel_of(bus, id, first),
            chan,
            "{bus:?} {id:?} {first:?}"
        );
    }
    Ok(())
}

/// Two interface paths that take one identifier, with another between them.
const PATHS: [IfEntry; 4] = [
    IfEntry {
        path: PathNo(0),
        bus: CAN1,
        id: CanId::Std(0x100),
    },
    IfEntry {
        path: PathNo(1),
        bus: CAN0,
        id: CanId::Std(0x100),
    },
    IfEntry {
        path: PathNo(2),
        bus: CAN0,
        id: CanId::Ext(0x100),
    },
    IfEntry {
        path: PathNo(3),
        bus: CAN0,
        id: CanId::Std(0x100),
    },
];

/// Matches, by bus, identifier and number, and their interface paths.
const MATCHES: [(BusNo, CanId, usize, Option<PathNo>); 7] = [
    (CAN0, CanId::Std(0x100), 0, Some(PathNo(1))),
    (CAN0, CanId::Std(0x100), 1, Some(PathNo(3))),
    (CAN0, CanId::Std(0x100), 2, None),
    (CAN0, CanId::Ext(0x100), 0, Some(PathNo(2))),
    (CAN0, CanId::Ext(0x100), 1, None),
    (CAN1, CanId::Std(0x100), 0, Some(PathNo(0))),
    (CAN2, CanId::Std(0x100), 0, None),
];

#[test]
fn interface_paths_come_in_list_order(rt: HostRuntime) -> Result<(), Fail> {
    let table = Table::build(rt.alloc(), &[], &PATHS)?;
    for (bus, id, at, path) in MATCHES {
        assert_eq!(rt; table.if_path_of(bus, id, at), path, "{bus:?} {id:?} {at}");
    }
    Ok(())
}
