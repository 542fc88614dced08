//! Two groups of buffers over one hub, call by call.
ghost use Rattle.std.specs.Prelude.{◌≡◌, ◌<◌, ◌≤◌, [], true, length};

use gw_base::{BufNo, DestNo, GroupNo, PathNo};
use hub_core::{End, Left, PlainHub, Port, Take};
use std::test::Fail;

/// A call, and what it answered.
#[derive(Clone, Copy, Debug, PartialEq, Eq)]
enum Told {
    /// A take of the group's smallest buffer that has so many cells: its change, and its buffer.
    Taken {
        group: u8,
        need: u64,
        change: u32,
        buf: u8,
    },
    /// A take that found none in the group: the word's number of changes and its free set.
    Full {
        group: u8,
        need: u64,
        change: u32,
        free: u32,
    },
    /// A look for the session among the group's buffers: the one that has it.
    Joined {
        group: u8,
        buf: Option<u8>,
    },
    Parted(Left),
}

/// The row of a take.
fn row_of(group: u8, need: u64, take: &Take) -> Told {
    match take {
        Take::Granted { change, held } => Told::Taken {
            group,
            need,
            change: *change,
            buf: held.buf.0,
        },
        Take::Overflow { change, free } => Told::Full {
            group,
            need,
            change: *change,
            free: *free,
        },
    }
}

/// Has a session in the second group of any port, and takes from both.
#[tactic(auto, using(hub_core::proofs::Growing::writes_kept, hub_core::proofs::Growing::reads_kept))]
fn use_groups<P: Port>(port: &mut P) -> Option<[Told; 8]>
    requires groups { 1 < length (P.state port.old).means.groups }
    requires takes { 3 < (P.state port.old).means.takes }
    requires writes { (P.state port.old).means.writes 0 ≡ true }
    requires reads { (P.state port.old).means.reads 0 0 ≡ true }
    requires most { 1 ≤ (P.state port.old).means.most }
    requires sessions { (P.state port.old).view.sessions 0 ≡ [] }
    requires readings { (P.state port.old).view.readings 0 0 ≡ [] }
{
    let Take::Granted { change, held } = port.take(GroupNo(1), 3) else {
        return None;
    };
    let second = Told::Taken {
        group: 1,
        need: 3,
        change,
        buf: held.buf.0,
    };
    let writer = port.enter(held, PathNo(0), 0, 7, 1);
    let first = row_of(0, 5, &port.take(GroupNo(0), 5));
    let full = row_of(0, 5, &port.take(GroupNo(0), 5));
    let other = row_of(1, 9, &port.take(GroupNo(1), 9));
    let missed = port.next(GroupNo(0), PathNo(0), DestNo(0), 0);
    if missed.is_some() {
        return None;
    }
    let reader = port.next(GroupNo(1), PathNo(0), DestNo(0), 0)?;
    let joined = Told::Joined {
        group: 1,
        buf: Some(reader.buf.0),
    };
    let writer_left = port.leave(End::Write(writer));
    let reader_left = port.leave(End::Read(reader));
    Some([
        second,
        first,
        full,
        other,
        Told::Joined {
            group: 0,
            buf: None,
        },
        joined,
        Told::Parted(writer_left),
        Told::Parted(reader_left),
    ])
}

/// The second group's buffers are numbered on from the first one's, and they stay free while the first group has none
/// that fits.
#[test]
fn a_group_is_full_while_another_has_a_buffer_that_fits(rt: HostRuntime) -> Result<(), Fail> {
    let mut hub = PlainHub::new(rt.alloc(), &[4, 8, 8, 4, 4], &[2, 3])?;
    let last = Left::Last {
        change: 2,
        buf: BufNo(3),
    };
    assert_eq!(rt;
        use_groups(&mut hub),
        Some([
            Told::Taken {
                group: 1,
                need: 3,
                change: 1,
                buf: 3
            },
            Told::Taken {
                group: 0,
                need: 5,
                change: 1,
                buf: 1
            },
            Told::Full {
                group: 0,
                need: 5,
                change: 1,
                free: 0b01
            },
            Told::Full {
                group: 1,
                need: 9,
                change: 1,
                free: 0b101
            },
            Told::Joined {
                group: 0,
                buf: None
            },
            Told::Joined {
                group: 1,
                buf: Some(3)
            },
            Told::Parted(Left::Others),
            Told::Parted(last),
        ])
    );
    Ok(())
}
