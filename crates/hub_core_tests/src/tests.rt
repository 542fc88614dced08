ghost use Rattle.std.specs.Prelude.{◌≡◌, ◌<◌, ◌≤◌, [], true, length};
ghost use Rattle.gw_base.specs.Cell.{IsCell};

use gw_base::{BufNo, ChanNo, DestNo, GroupNo, PathNo, Tick};
use hub_core::{
    DestRecord, DestResult, End, Left, Move, OpenedAt, PlainHub, Port, Room, Seen, SessionRecord,
    SessionResult, Take,
};
use std::test::Fail;

/// Four full cells, of the bytes 1 to 28.
const FIRST: u64 = 0x0706_0504_0302_0107;

const SECOND: u64 = 0x0e0d_0c0b_0a09_0807;

const THIRD: u64 = 0x1514_1312_1110_0f07;

const FOURTH: u64 = 0x1c1b_1a19_1817_1607;

/// What the parties of a session were told while they carried four cells through a buffer of two.
#[derive(Clone, Copy, Debug, PartialEq, Eq)]
struct Carried {
    /// A second take while the buffer was taken: its word's number of changes and its free set.
    overflow: (u32, u32),
    /// The room at the beginning, after two puts, and after two reads.
    rooms: [Room; 3],
    /// The looks after each publish, the second one after the writer left.
    looks: [Seen; 2],
    read: [u64; 4],
    writer_left: Left,
    reader_left: Left,
}

/// Carries four cells of seven bytes through a session of any port whose buffer has room for two of them at a time.
#[tactic(auto, using(hub_core::proofs::Growing::writes_kept, hub_core::proofs::Growing::reads_kept))]
fn carry_four<P: Port>(port: &mut P, cells: (u64, u64, u64, u64)) -> Option<Carried>
    requires group { 0 < length (P.state port.old).means.groups }
    requires takes { 1 < (P.state port.old).means.takes }
    requires spare { 3 < (P.state port.old).means.spare }
    requires writes { (P.state port.old).means.writes 0 ≡ true }
    requires reads { (P.state port.old).means.reads 0 0 ≡ true }
    requires most { 1 ≤ (P.state port.old).means.most }
    requires sessions { (P.state port.old).view.sessions 0 ≡ [] }
    requires readings { (P.state port.old).view.readings 0 0 ≡ [] }
    requires first { IsCell cells.0 }
    requires second { IsCell cells.1 }
    requires third { IsCell cells.2 }
    requires fourth { IsCell cells.3 }
{
    let Take::Granted { change: _, held } = port.take(GroupNo(0), 2) else {
        return None;
    };
    let mut writer = port.enter(held, PathNo(0), 0, 28, 1);
    let Take::Overflow { change, free } = port.take(GroupNo(0), 1) else {
        return None;
    };
    let begun = port.room(&mut writer);
    port.put(&mut writer, cells.0);
    port.put(&mut writer, cells.1);
    let full = port.room(&mut writer);
    let bytes = writer.given;
    port.publish(&mut writer, bytes);
    let mut reader = port.next(GroupNo(0), PathNo(0), DestNo(0), 0)?;
    let early = port.seen(&mut reader);
    if early.cells < 2 {
        return None;
    }
    let first = port.read(&mut reader);
    let second = port.read(&mut reader);
    let again = port.room(&mut writer);
    if again.cells < 2 {
        return None;
    }
    port.put(&mut writer, cells.2);
    port.put(&mut writer, cells.3);
    let more = writer.given - writer.told;
    port.publish(&mut writer, more);
    let writer_left = port.leave(End::Write(writer));
    let late = port.seen(&mut reader);
    if late.cells < 4 {
        return None;
    }
    let third = port.read(&mut reader);
    let fourth = port.read(&mut reader);
    let reader_left = port.leave(End::Read(reader));
    Some(Carried {
        overflow: (change, free),
        rooms: [begun, full, again],
        looks: [early, late],
        read: [first, second, third, fourth],
        writer_left,
        reader_left,
    })
}

#[test]
fn four_cells_go_through_a_buffer_of_two(rt: HostRuntime) -> Result<(), Fail> {
    let mut hub = PlainHub::new(rt.alloc(), &[2], &[1])?;
    let empty = Room {
        cells: 2,
        readers: 1,
    };
    let full = Room {
        cells: 0,
        readers: 1,
    };
    let half = Seen {
        cells: 2,
        bytes: 14,
        writer: true,
    };
    let whole = Seen {
        cells: 4,
        bytes: 28,
        writer: false,
    };
    assert_eq!(rt;
        carry_four(&mut hub, (FIRST, SECOND, THIRD, FOURTH)),
        Some(Carried {
            overflow: (1, 0),
            rooms: [empty, full, empty],
            looks: [half, whole],
            read: [FIRST, SECOND, THIRD, FOURTH],
            writer_left: Left::Others,
            reader_left: Left::Last {
                change: 2,
                buf: BufNo(0)
            },
        })
    );
    Ok(())
}

/// What the parties of two paths were told: a session for three destinations, and one whose destination never joins.
#[derive(Clone, Copy, Debug, PartialEq, Eq)]
struct Shared {
    /// The buffers of takes for three cells and for four.
    taken: [BufNo; 2],
    /// The word of a take for nine cells.
    overflow: (u32, u32),
    /// The room after one put, before and after the third destination left.
    rooms: [Room; 2],
    /// What the third destination saw and read.
    seen: Seen,
    read: u64,
    /// The leaves: the third destination, the writer, the first and the second destination, the other path's writer.
    left: [Left; 5],
}

/// Shares one cell among three destinations over any port, beside a session of another path.
#[tactic(auto, using(hub_core::proofs::Growing::writes_kept, hub_core::proofs::Growing::reads_kept))]
fn share_one<P: Port>(port: &mut P, cell: u64) -> Option<Shared>
    requires group { 0 < length (P.state port.old).means.groups }
    requires takes { 2 < (P.state port.old).means.takes }
    requires spare { 0 < (P.state port.old).means.spare }
    requires writes { ((P.state port.old).means.writes 0 ≡ true) × ((P.state port.old).means.writes 1 ≡ true) }
    requires first { (P.state port.old).means.reads 1 0 ≡ true }
    requires second { (P.state port.old).means.reads 1 1 ≡ true }
    requires third { (P.state port.old).means.reads 1 2 ≡ true }
    requires most { 3 ≤ (P.state port.old).means.most }
    requires sessions { ((P.state port.old).view.sessions 0 ≡ []) × ((P.state port.old).view.sessions 1 ≡ []) }
    requires first_none { (P.state port.old).view.readings 1 0 ≡ [] }
    requires second_none { (P.state port.old).view.readings 1 1 ≡ [] }
    requires third_none { (P.state port.old).view.readings 1 2 ≡ [] }
    requires cell { IsCell cell }
{
    let Take::Granted { change: _, held } = port.take(GroupNo(0), 3) else {
        return None;
    };
    let small = held.buf;
    let mut writer = port.enter(held, PathNo(1), 0, 7, 3);
    let Take::Granted { change: _, held } = port.take(GroupNo(0), 4) else {
        return None;
    };
    let equal = held.buf;
    let other = port.enter(held, PathNo(0), 0, 7, 1);
    let Take::Overflow { change, free } = port.take(GroupNo(0), 9) else {
        return None;
    };
    port.put(&mut writer, cell);
    let bytes = writer.given;
    port.publish(&mut writer, bytes);
    let mut third = port.next(GroupNo(0), PathNo(1), DestNo(2), 0)?;
    let seen = port.seen(&mut third);
    if seen.cells < 1 {
        return None;
    }
    let read = port.read(&mut third);
    let before = port.room(&mut writer);
    let third_left = port.leave(End::Read(third));
    let after = port.room(&mut writer);
    let writer_left = port.leave(End::Write(writer));
    let first = port.next(GroupNo(0), PathNo(1), DestNo(0), 0)?;
    let first_left = port.leave(End::Read(first));
    let second = port.next(GroupNo(0), PathNo(1), DestNo(1), 0)?;
    let second_left = port.leave(End::Read(second));
    let other_left = port.leave(End::Write(other));
    Some(Shared {
        taken: [small, equal],
        overflow: (change, free),
        rooms: [before, after],
        seen,
        read,
        left: [third_left, writer_left, first_left, second_left, other_left],
    })
}

#[test]
fn three_destinations_share_the_smallest_of_equal_buffers(rt: HostRuntime) -> Result<(), Fail> {
    let mut hub = PlainHub::new(rt.alloc(), &[8, 4, 4], &[3])?;
    let seen = Seen {
        cells: 1,
        bytes: 7,
        writer: true,
    };
    let all = Room {
        cells: 3,
        readers: 3,
    };
    let fewer = Room {
        cells: 3,
        readers: 2,
    };
    let last = Left::Last {
        change: 3,
        buf: BufNo(1),
    };
    assert_eq!(rt;
        share_one(&mut hub, FIRST),
        Some(Shared {
            taken: [BufNo(1), BufNo(2)],
            overflow: (2, 1),
            rooms: [all, fewer],
            seen,
            read: FIRST,
            left: [Left::Others, Left::Others, Left::Others, last, Left::Others],
        })
    );
    Ok(())
}

#[test]
fn records_name_what_came_of_a_session(rt: HostRuntime) -> Result<(), Fail> {
    let taken = Move {
        change: 1,
        took: true,
        buf: BufNo(0),
    };
    let session = SessionRecord {
        chan: ChanNo(3),
        n: 5,
        len: 28,
        begin: Tick(7),
        bytes: 14,
        end: Tick(9),
        opened: Some(OpenedAt {
            seq: 4,
            buf: taken.buf,
            change: taken.change,
        }),
        result: SessionResult::NoReaders,
    };
    let dest = DestRecord {
        path: PathNo(2),
        dest: DestNo(1),
        seq: 4,
        begin: session.begin,
        sent: session.bytes,
        end: session.end,
        result: DestResult::FcOverflow,
    };
    assert_eq!(rt;
        session.opened.map(|at| (at.seq, at.buf, at.change)),
        Some((dest.seq, BufNo(0), 1))
    );
    assert_eq!(rt; (session.chan, session.n, session.len), (ChanNo(3), 5, 28));
    assert_eq!(rt;
        (dest.path, dest.dest, dest.begin, dest.sent, dest.end),
        (PathNo(2), DestNo(1), Tick(7), 14, Tick(9))
    );
    assert!(rt;
        taken.took
            && session.result == SessionResult::NoReaders
            && dest.result == DestResult::FcOverflow
    );
    Ok(())
}
