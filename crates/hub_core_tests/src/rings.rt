//! A session that is longer than its buffer, and the last of eight destinations.
ghost use Rattle.std.specs.Prelude.{◌≡◌, ◌<◌, ◌≤◌, [], true, length};
ghost use Rattle.gw_base.specs.Cell.{IsCell};

use gw_base::{BufNo, DestNo, GroupNo, PathNo};
use hub_core::{End, Left, PlainHub, Port, Room, Seen, Take};
use std::test::Fail;

/// A full cell, of the bytes 1 to 7.
const CELL: u64 = 0x0706_0504_0302_0107;

/// What the parties were told: the looks at the room and at the count, what was read last, and the leaves.
#[derive(Clone, Copy, Debug, PartialEq, Eq)]
struct Told {
    rooms: [Room; 3],
    looks: [Seen; 3],
    read: u64,
    left: [Left; 2],
}

/// Carries nine cells through a buffer of four over any port.
#[tactic(auto, using(hub_core::proofs::Growing::writes_kept, hub_core::proofs::Growing::reads_kept))]
fn carry_nine<P: Port>(port: &mut P, cell: u64) -> Option<Told>
    requires group { 0 < length (P.state port.old).means.groups }
    requires takes { 0 < (P.state port.old).means.takes }
    requires spare { 8 < (P.state port.old).means.spare }
    requires writes { (P.state port.old).means.writes 0 ≡ true }
    requires reads { (P.state port.old).means.reads 0 0 ≡ true }
    requires most { 1 ≤ (P.state port.old).means.most }
    requires sessions { (P.state port.old).view.sessions 0 ≡ [] }
    requires readings { (P.state port.old).view.readings 0 0 ≡ [] }
    requires cell { IsCell cell }
{
    let Take::Granted { change: _, held } = port.take(GroupNo(0), 4) else {
        return None;
    };
    let mut writer = port.enter(held, PathNo(0), 0, 63, 1);
    port.put(&mut writer, cell);
    port.put(&mut writer, cell);
    port.put(&mut writer, cell);
    port.put(&mut writer, cell);
    let bytes = writer.given;
    port.publish(&mut writer, bytes);
    let full = port.room(&mut writer);
    let mut reader = port.next(GroupNo(0), PathNo(0), DestNo(0), 0)?;
    let first = port.seen(&mut reader);
    if first.cells < 4 {
        return None;
    }
    port.read(&mut reader);
    port.read(&mut reader);
    port.read(&mut reader);
    port.read(&mut reader);
    let again = port.room(&mut writer);
    if again.cells < 4 {
        return None;
    }
    port.put(&mut writer, cell);
    port.put(&mut writer, cell);
    port.put(&mut writer, cell);
    port.put(&mut writer, cell);
    let more = writer.given - writer.told;
    port.publish(&mut writer, more);
    let second = port.seen(&mut reader);
    if second.cells < 8 {
        return None;
    }
    port.read(&mut reader);
    port.read(&mut reader);
    port.read(&mut reader);
    let last = port.room(&mut writer);
    if last.cells < 1 {
        return None;
    }
    port.put(&mut writer, cell);
    let rest = writer.given - writer.told;
    port.publish(&mut writer, rest);
    let writer_left = port.leave(End::Write(writer));
    let third = port.seen(&mut reader);
    if third.cells < 9 {
        return None;
    }
    port.read(&mut reader);
    let read = port.read(&mut reader);
    let reader_left = port.leave(End::Read(reader));
    Some(Told {
        rooms: [full, again, last],
        looks: [first, second, third],
        read,
        left: [writer_left, reader_left],
    })
}

#[test]
fn nine_cells_go_round_a_buffer_of_four(rt: HostRuntime) -> Result<(), Fail> {
    let mut hub = PlainHub::new(rt.alloc(), &[4], &[1])?;
    let room = |cells: u32| Room { cells, readers: 1 };
    let seen = |cells: u32, writer: bool| Seen {
        cells,
        bytes: cells * 7,
        writer,
    };
    let last = Left::Last {
        change: 2,
        buf: BufNo(0),
    };
    assert_eq!(rt;
        carry_nine(&mut hub, CELL),
        Some(Told {
            rooms: [room(0), room(4), room(3)],
            looks: [seen(4, true), seen(8, true), seen(9, false)],
            read: CELL,
            left: [Left::Others, last],
        })
    );
    Ok(())
}

/// Hands one cell to the last of eight destinations over any port.
#[tactic(auto, using(hub_core::proofs::Growing::writes_kept, hub_core::proofs::Growing::reads_kept))]
fn hand_to_last<P: Port>(port: &mut P, cell: u64) -> Option<Told>
    requires group { 0 < length (P.state port.old).means.groups }
    requires takes { 0 < (P.state port.old).means.takes }
    requires spare { 0 < (P.state port.old).means.spare }
    requires writes { (P.state port.old).means.writes 0 ≡ true }
    requires reads { (P.state port.old).means.reads 0 7 ≡ true }
    requires most { 8 ≤ (P.state port.old).means.most }
    requires sessions { (P.state port.old).view.sessions 0 ≡ [] }
    requires readings { (P.state port.old).view.readings 0 7 ≡ [] }
    requires cell { IsCell cell }
{
    let Take::Granted { change: _, held } = port.take(GroupNo(0), 4) else {
        return None;
    };
    let mut writer = port.enter(held, PathNo(0), 0, 7, 8);
    let begun = port.room(&mut writer);
    port.put(&mut writer, cell);
    let bytes = writer.given;
    port.publish(&mut writer, bytes);
    let mut reader = port.next(GroupNo(0), PathNo(0), DestNo(7), 0)?;
    let first = port.seen(&mut reader);
    if first.cells < 1 {
        return None;
    }
    let read = port.read(&mut reader);
    let again = port.room(&mut writer);
    let second = port.seen(&mut reader);
    let reader_left = port.leave(End::Read(reader));
    let last = port.room(&mut writer);
    let writer_left = port.leave(End::Write(writer));
    Some(Told {
        rooms: [begun, again, last],
        looks: [first, second, second],
        read,
        left: [reader_left, writer_left],
    })
}

#[test]
fn the_eighth_destination_reads_and_leaves(rt: HostRuntime) -> Result<(), Fail> {
    let mut hub = PlainHub::new(rt.alloc(), &[4], &[1])?;
    let seen = Seen {
        cells: 1,
        bytes: 7,
        writer: true,
    };
    assert_eq!(rt;
        hand_to_last(&mut hub, CELL),
        Some(Told {
            rooms: [
                Room {
                    cells: 4,
                    readers: 8,
                },
                Room {
                    cells: 3,
                    readers: 8,
                },
                Room {
                    cells: 3,
                    readers: 7,
                },
            ],
            looks: [seen, seen, seen],
            read: CELL,
            left: [Left::Others, Left::Others],
        })
    );
    Ok(())
}
