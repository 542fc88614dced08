use crate::readdress;
use can_frame::{CanId, Frame};
use if_core::IfUnit;
use std::test::Fail;

/// The identifiers of the frames that come, and of those that leave.
const IDS: [(CanId, CanId); 4] = [
    (CanId::Std(0x100), CanId::Std(0x7FF)),
    (CanId::Std(0x100), CanId::Ext(0x1FFF_FFFF)),
    (CanId::Ext(0x100), CanId::Std(0)),
    (CanId::Ext(0x100), CanId::Ext(0x101)),
];

/// Frames by their kind and their length; then the kind that leaves on a classic bus, where one does. On an FD bus
/// every frame keeps its kind.
const FRAMES: [(bool, usize, Option<bool>); 9] = [
    (false, 0, Some(false)),
    (false, 1, Some(false)),
    (false, 8, Some(false)),
    (true, 0, Some(false)),
    (true, 7, Some(false)),
    (true, 8, Some(false)),
    (true, 12, None),
    (true, 48, None),
    (true, 64, None),
];

/// The data of every frame: its first bytes are taken.
const DATA: [u8; 64] = [0xA5; 64];

/// The kind of the frame that a frame of this kind and length becomes on a bus that takes FD frames or doesn't, `None`
/// inside where it becomes none; nothing where its data, its identifier or its bit rate switch isn't the wanted one.
fn kind_of(from: CanId, to: CanId, fd: bool, len: usize, fd_bus: bool) -> Option<Option<bool>> {
    let data = DATA.get(..len)?;
    let frame = Frame::new(from, fd, true, data).ok()?;
    if !to.is_in_range() {
        return None;
    }
    let unit = IfUnit::new(5, &frame);
    let Some(frame) = readdress(&unit, to, fd_bus, fd) else {
        return Some(None);
    };
    if frame.id() != to || frame.bytes() != data || frame.brs() != frame.fd() {
        return None;
    }
    Some(Some(frame.fd()))
}

#[test]
fn every_kind_of_frame_is_readdressed(rt: HostRuntime) -> Result<(), Fail> {
    for (from, to) in IDS {
        for (fd, len, classic) in FRAMES {
            assert_eq!(rt;
                kind_of(from, to, fd, len, false),
                Some(classic),
                "{fd} {len}"
            );
            assert_eq!(rt;
                kind_of(from, to, fd, len, true),
                Some(Some(fd)),
                "{fd} {len}"
            );
        }
    }
    Ok(())
}
