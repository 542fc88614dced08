//! Messages through small buffers, by rows: blocks, waits and limits, and long messages.
use crate::granting::{Configured, Row, through};
use gw_base::Tick;
use hub_core::{RxLimit, SessionResult};
use std::test::Fail;

/// A tick that doesn't come.
const NEVER: u64 = 1_000_000;

/// No block size, and limits that no message reaches.
const USUAL: Configured = Configured {
    bs: 0,
    wft_max: 16,
    n_ar: 1000,
    n_br: 10,
    n_cr: 1000,
};

/// A message of 63 bytes in nine consecutive frames, that are read at once, on a bus that has a place.
const PLAIN: Row = Row {
    len: 63,
    frames: 9,
    pause: 1,
    reads: (0, NEVER),
    free: 0,
    set: USUAL,
    controls: &[],
};

/// Messages through a buffer of four cells, the bytes and the tick of their end, and their results.
const ROWS: [(Row, u32, u64, SessionResult); 15] = [
    // each block has the room of three cells, and the last one is all that remains
    (
        Row {
            controls: &[(0, 0, 3), (4, 0, 3), (7, 0, 0)],
            ..PLAIN
        },
        63,
        10,
        SessionResult::Whole,
    ),
    // sequence numbers go on from 15 with 0
    (
        Row {
            len: 120,
            frames: 17,
            controls: &[
                (0, 0, 3),
                (4, 0, 3),
                (7, 0, 3),
                (10, 0, 3),
                (13, 0, 3),
                (16, 0, 0),
            ],
            ..PLAIN
        },
        120,
        18,
        SessionResult::Whole,
    ),
    // the configured block size is less than the room, also where all that remains has room
    (
        Row {
            frames: 9,
            set: Configured { bs: 2, ..USUAL },
            controls: &[(0, 0, 2), (3, 0, 2), (5, 0, 2), (7, 0, 2), (9, 0, 1)],
            ..PLAIN
        },
        63,
        10,
        SessionResult::Whole,
    ),
    // the destination reads the first frame alone: a block of one, a wait, and then a frame without room
    (
        Row {
            frames: 5,
            reads: (0, 1),
            controls: &[(0, 0, 3), (4, 0, 1), (5, 1, 0)],
            ..PLAIN
        },
        34,
        6,
        SessionResult::NoRoom { room: 0, need: 1 },
    ),
    // two waits are configured: a further one comes after the time between two of them, and no third
    (
        Row {
            frames: 4,
            reads: (0, 1),
            set: Configured {
                wft_max: 2,
                ..USUAL
            },
            controls: &[(0, 0, 3), (4, 0, 1), (5, 1, 0), (15, 1, 0)],
            ..PLAIN
        },
        34,
        25,
        SessionResult::WaitOver,
    ),
    // no wait is configured
    (
        Row {
            frames: 4,
            reads: (0, 1),
            set: Configured {
                wft_max: 0,
                ..USUAL
            },
            controls: &[(0, 0, 3), (4, 0, 1)],
            ..PLAIN
        },
        34,
        5,
        SessionResult::WaitOver,
    ),
    // a frame that comes while room is awaited, and has room, ends the waits that follow one another
    (
        Row {
            frames: 4,
            reads: (4, 5),
            set: Configured {
                wft_max: 1,
                ..USUAL
            },
            controls: &[(0, 0, 3), (4, 1, 0), (14, 1, 0)],
            ..PLAIN
        },
        34,
        24,
        SessionResult::WaitOver,
    ),
    // a cell is read one tick before room is looked for again: a block of one
    (
        Row {
            frames: 3,
            reads: (13, 14),
            set: Configured { n_cr: 20, ..USUAL },
            controls: &[(0, 0, 3), (4, 1, 0), (14, 0, 1)],
            ..PLAIN
        },
        27,
        34,
        SessionResult::RxTimeout(RxLimit::Cf),
    ),
    // it is read in the tick of the look, and seen by the next one
    (
        Row {
            frames: 3,
            reads: (14, 15),
            set: Configured { n_cr: 20, ..USUAL },
            controls: &[(0, 0, 3), (4, 1, 0), (14, 1, 0), (24, 0, 1)],
            ..PLAIN
        },
        27,
        44,
        SessionResult::RxTimeout(RxLimit::Cf),
    ),
    // the first consecutive frame comes one tick before the limit, and the next ones in time
    (
        Row {
            frames: 9,
            pause: 6,
            set: Configured { n_cr: 8, ..USUAL },
            controls: &[(0, 0, 3), (9, 0, 3), (12, 0, 0)],
            ..PLAIN
        },
        63,
        15,
        SessionResult::Whole,
    ),
    // in its tick, before the timer
    (
        Row {
            frames: 9,
            pause: 7,
            set: Configured { n_cr: 8, ..USUAL },
            controls: &[(0, 0, 3), (10, 0, 3), (13, 0, 0)],
            ..PLAIN
        },
        63,
        16,
        SessionResult::Whole,
    ),
    // one tick later
    (
        Row {
            frames: 9,
            pause: 8,
            set: Configured { n_cr: 8, ..USUAL },
            controls: &[(0, 0, 3)],
            ..PLAIN
        },
        6,
        8,
        SessionResult::RxTimeout(RxLimit::Cf),
    ),
    // the bus has a place one tick before the flow control's limit
    (
        Row {
            free: 4,
            pause: 5,
            set: Configured { n_ar: 5, ..USUAL },
            controls: &[(4, 0, 3), (8, 0, 3), (11, 0, 0)],
            ..PLAIN
        },
        63,
        14,
        SessionResult::Whole,
    ),
    // in its tick, and one later
    (
        Row {
            free: 5,
            pause: 5,
            set: Configured { n_ar: 5, ..USUAL },
            ..PLAIN
        },
        6,
        5,
        SessionResult::RxTimeout(RxLimit::Box),
    ),
    (
        Row {
            free: 6,
            pause: 6,
            set: Configured { n_ar: 5, ..USUAL },
            ..PLAIN
        },
        6,
        5,
        SessionResult::RxTimeout(RxLimit::Box),
    ),
];

#[test]
fn messages_are_granted_the_room_of_a_small_buffer(rt: HostRuntime) -> Result<(), Fail> {
    for (row, bytes, end, result) in &ROWS {
        assert_eq!(rt;
            through(rt.alloc(), 4, row)?,
            Some((row.controls.len(), *bytes, Tick(*end), *result))
        );
    }
    Ok(())
}

/// Messages of the longest short length and of 100,000 bytes, whose frames come one a tick through nine cells: their consecutive
/// frames, and the flow controls that leave, one for each eight of these and a last one for the rest.
const LONG: [(u32, u64, usize); 2] = [(4095, 585, 74), (100_000, 14_286, 1786)];

#[test]
fn long_messages_go_through_nine_cells(rt: HostRuntime) -> Result<(), Fail> {
    for (len, frames, controls) in LONG {
        let row = Row {
            len,
            frames,
            pause: 0,
            ..PLAIN
        };
        assert_eq!(rt;
            through(rt.alloc(), 9, &row)?,
            Some((controls, len, Tick(frames), SessionResult::Whole))
        );
    }
    Ok(())
}
