//! Reports printed and read, and each line of one changed.
ghost use Rattle.std.specs.Prelude.{◌^◌, ◌<◌, length};

use gw_base::{BufNo, Bytes, ChanNo, DestNo, Memory, Micros, PathNo, Tick};
use hub_core::{
    DestRecord, DestResult, Move, OpenedAt, RxLimit, RxWait, SessionRecord, SessionResult, TxWait,
};
use if_core::{IfKind, IfRecord};
use session_report::{
    DestLines, GroupMoveLines, GroupPoolLines, IfLines, MoveLines, PoolLine, Report, ReportFault,
    SessionLines, print_report, read_report,
};
use std::alloc::Global;
use std::test::Fail;
use tick_clock::Clock;

/// Sessions of a channel, each with how it ended.
const SESSIONS: [(u32, Option<OpenedAt>, SessionResult); 3] = [
    (
        20,
        Some(OpenedAt {
            seq: 0,
            buf: BufNo(0),
            change: 1,
        }),
        SessionResult::Whole,
    ),
    (
        0,
        None,
        SessionResult::Overflow {
            change: 1,
            free: 0xA0B1_C2DF,
            need: 18_446_744_073_709_551_615,
        },
    ),
    (6, None, SessionResult::RxTimeout(RxLimit::Cf)),
];

/// How transmissions ended.
const RESULTS: [DestResult; 2] = [DestResult::Sent, DestResult::InvalidFs(5)];

const TEXT: &str = "report 1
clock 1000000 1000
session 0 0 63 0 20 3 0/0/1 whole
session 0 1 63 0 0 3 - overflow 1 A0B1C2DF 18446744073709551615
session 0 2 63 0 6 3 - rx-timeout cf
dest 1 2 0 0 20 3 sent
dest 1 2 1 0 20 3 invalid-fs 5
iface 0 0 1 flushed
move 1 take 0
move 2 free 0
pool 31 2 7FFFFFFA
";

/// The report of the records above.
fn made(alloc: Global) -> Result<Report, Memory> {
    let mut sessions = SessionLines::new(alloc);
    for (n, (bytes, opened, result)) in SESSIONS.into_iter().enumerate() {
        sessions.push(SessionRecord {
            chan: ChanNo(0),
            n: n as u32,
            len: 63,
            begin: Tick(0),
            bytes,
            end: Tick(3),
            opened,
            result,
        })?;
    }
    let mut dests = DestLines::new(alloc);
    for (seq, result) in RESULTS.into_iter().enumerate() {
        dests.push(DestRecord {
            path: PathNo(1),
            dest: DestNo(2),
            seq: seq as u32,
            begin: Tick(0),
            sent: 20,
            end: Tick(3),
            result,
        })?;
    }
    let mut ifs = IfLines::new(alloc);
    ifs.push(IfRecord {
        path: PathNo(0),
        from: 0,
        to: 1,
        kind: IfKind::Flushed,
    })?;
    let mut moves = MoveLines::new(alloc);
    for (change, took) in [(1, true), (2, false)] {
        moves.push(Move {
            change,
            took,
            buf: BufNo(0),
        })?;
    }
    Ok(Report {
        version: 1,
        clock: Clock {
            start: Micros(1_000_000),
            period: 1000,
        },
        sessions,
        dests,
        ifs,
        moves,
        pool: PoolLine {
            buffers: 31,
            changes: 2,
            free: 0x7FFF_FFFA,
        },
        other_moves: GroupMoveLines::new(alloc),
        other_pools: GroupPoolLines::new(alloc),
    })
}

#[test]
fn each_line_has_its_text(rt: HostRuntime) -> Result<(), Fail> {
    let report = made(rt.alloc())?;
    assert_eq!(rt; print_report(rt.alloc(), &report)?.items(), TEXT.as_bytes());
    Ok(())
}

/// A report of a run without frames.
const EMPTY: &str = "report 1
clock 0 1000
pool 1 0 00000001
";

/// Every kind of line with every result, in version 1: the words are those of the formats' tables.
const EACH: &str = "report 1
clock 18446744073709551615 4294967295
session 0 0 2 0 2 0 0/0/1 whole
session 0 1 2 0 0 0 - overflow 1 00000000 1
session 0 2 20 0 6 2 1/0/3 wrong-sn 3 4
session 0 3 20 0 6 2 - rx-timeout box
session 0 4 20 0 6 2 - rx-timeout cf
session 0 5 20 0 6 2 - restarted
session 0 6 20 0 6 2 - no-room 0 1
session 0 7 20 0 6 2 - wait-over
session 0 8 20 0 6 2 - no-readers
session 0 9 20 0 6 2 - cancelled
session 1 0 20 0 6 2 - run-end box 0
session 1 1 20 0 6 2 - run-end room 1
session 255 4294967295 4294967295 18446744073709551615 0 0 - run-end cf 2
dest 0 0 0 0 2 0 sent
dest 0 0 1 0 2 0 source-ended
dest 0 0 2 0 2 0 bs-timeout
dest 0 0 3 0 2 0 fc-overflow
dest 0 0 4 0 2 0 invalid-fs 3
dest 0 1 0 0 2 0 cs-timeout 12
dest 0 1 1 0 2 0 as-timeout
dest 0 1 2 0 2 0 cancelled
dest 1 0 0 0 2 0 run-end start 0
dest 1 0 1 0 2 0 run-end turn 1
dest 1 0 2 0 2 0 run-end fc 2
dest 1 0 3 0 2 0 run-end gap 3
dest 1 0 4 0 2 0 run-end bytes 4
dest 1 0 5 0 2 0 run-end bus 5
iface 0 0 1 flushed
iface 0 2 4 sent
iface 1 0 0 boxed
iface 1 1 18446744073709551615 left
move 1 take 255
move 2 free 255
pool 4294967295 4294967295 0123ABCF
";

/// Groups and refused units, in version 2.
const GROUPS: &str = "report 2
clock 1000000 1000
iface 0 0 1 sent
iface 0 2 2 refused
move 0 1 take 0
move 0 2 free 0
move 1 1 take 1
move 3 1 take 1
move 3 2 free 1
pool 0 1 2 00000001
pool 1 1 2 00000001
";

/// The text that is printed of what is read.
fn again(alloc: Global, text: &str) -> Result<Bytes, ReportFault>
    requires { length text.now < 2 ^ 32 }
{
    let report = read_report(alloc, text.as_bytes())?;
    match print_report(alloc, &report) {
        Ok(printed) => Ok(printed),
        Err(_) => Err(ReportFault::Memory),
    }
}

#[test]
fn what_is_read_is_printed_again(rt: HostRuntime) -> Result<(), Fail> {
    for text in [EMPTY, EACH, GROUPS, TEXT] {
        assert!(rt; text.len() < 4_294_967_296);
        let printed = again(rt.alloc(), text).ok().ok_or("it is a report")?;
        assert_eq!(rt; printed.items(), text.as_bytes());
    }
    Ok(())
}

/// The lines of a small report.
const LINES: [&str; 10] = [
    "report 1\n",
    "clock 0 1000\n",
    "session 0 0 2 0 2 0 0/0/1 whole\n",
    "session 0 1 2 5 2 5 - wait-over\n",
    "dest 0 0 0 0 2 0 sent\n",
    "iface 0 0 1 flushed\n",
    "iface 0 2 4 sent\n",
    "move 1 take 0\n",
    "move 2 free 0\n",
    "pool 1 2 00000001\n",
];

/// Which of these lines stands changed (counted from 0), as what, and which line is then told, counted from 1; 0 where the text is a
/// report.
const CHANGED: [(usize, &str, u32); 62] = [
    (0, "", 1),
    (0, "report 1\nreport 1\n", 2),
    (0, "report 3\n", 1),
    (0, "report  1\n", 1),
    (0, "report 01\n", 1),
    (0, "report 1", 1),
    (0, "report 2\n", 8),
    (1, "", 2),
    (1, "clock 0 1000\nclock 0 1000\n", 3),
    (1, "clock 0 0\n", 2),
    (1, "clock 0 4294967296\n", 2),
    (1, "clock 18446744073709551616 1\n", 2),
    (1, "clock 0 01000\n", 2),
    (1, "clock  0 1000\n", 2),
    (1, "clock 0 1000 \n", 2),
    (1, "clock 0 1000\r\n", 2),
    (2, "", 0),
    (
        2,
        "session 0 0 2 0 2 0 - whole\nsession 0 0 2 0 2 0 - whole\n",
        4,
    ),
    (2, "session 0 1 2 0 2 0 0/0/1 whole\n", 4),
    (2, "session 1 0 2 0 2 0 0/0/1 whole\n", 4),
    (2, "session 256 0 2 0 2 0 - whole\n", 3),
    (2, "session 0 4294967296 2 0 2 0 - whole\n", 3),
    (2, "session 0 0 2 0 2 18446744073709551616 - whole\n", 3),
    (2, "session 0 0 2 0 2 0 0/256/1 whole\n", 3),
    (2, "session 0 0 2 0 2 0 0/0/ whole\n", 3),
    (2, "session 0 0 2 0 2 0 whole\n", 3),
    (2, "session 0 0 2 0 2 0 - Whole\n", 3),
    (2, "session 0 0 2 0 2 0 - overflow 1 0000000a 1\n", 3),
    (2, "session 0 0 2 0 2 0 - wrong-sn 256 0\n", 3),
    (2, "session 0 0 2 0 2 0 - rx-timeout room\n", 3),
    (2, "session 0 0 2 0 2 0 - run-end gap 0\n", 3),
    (2, "session 0 0 2 0 2 0 - sent\n", 3),
    (3, "session 0 0 2 0 2 0 - whole\n", 4),
    (4, "", 0),
    (4, "dest 0 0 0 0 2 0 sent\ndest 0 0 0 0 2 0 sent\n", 6),
    (4, "dest 0 0 0 0 2 0 whole\n", 5),
    (4, "dest 0 0 0 0 2 0 invalid-fs 256\n", 5),
    (4, "dest 0 0 0 0 2 0 cs-timeout -1\n", 5),
    (4, "dest 0 0 0 0 2 0 run-end cf 0\n", 5),
    (4, "dest 0 0 0 0 2 0 sent\nsession 0 2 2 5 2 5 - whole\n", 6),
    (5, "", 0),
    (5, "iface 0 0 1 sent\n", 7),
    (5, "iface 0 0 2 flushed\n", 7),
    (5, "iface 0 1 0 flushed\n", 6),
    (5, "iface 0 0 1 refused\n", 6),
    (5, "iface 1 0 1 flushed\n", 7),
    (6, "iface 0 2 4 flushed\n", 7),
    (6, "iface 0 3 4 flushed\n", 0),
    (7, "", 8),
    (7, "move 2 take 0\n", 8),
    (7, "move 0 1 take 0\n", 8),
    (7, "move 1 keep 0\n", 8),
    (7, "move 1 take 256\n", 8),
    (8, "", 0),
    (8, "move 2 free 0\nmove 2 free 0\n", 10),
    (8, "move 3 free 0\n", 9),
    (9, "", 10),
    (9, "pool 1 2 00000001\npool 1 2 00000001\n", 11),
    (9, "pool 1 2 0000001\n", 10),
    (9, "pool 1 2 000000001\n", 10),
    (9, "pool 1 2 00000001", 10),
    (9, "pool 1 2 00000001\n\n", 11),
];

/// The lines above with one of them changed.
fn with_change(alloc: Global, place: usize, change: &str) -> Result<Bytes, Memory> {
    let mut text = Bytes::new(alloc);
    for (at, line) in LINES.into_iter().enumerate() {
        let line = if at == place { change } else { line };
        text.append(line.as_bytes())?;
    }
    Ok(text)
}

/// The line that is told of the text, or 0.
fn told(alloc: Global, text: &[u8]) -> Result<u32, Memory>
    requires { length text.now < 2 ^ 32 }
{
    match read_report(alloc, text) {
        Ok(_) => Ok(0),
        Err(ReportFault::Bad { line }) => Ok(line),
        Err(ReportFault::Memory) => Err(Memory),
    }
}

#[test]
fn the_first_bad_line_is_told(rt: HostRuntime) -> Result<(), Fail> {
    for (place, change, line) in CHANGED {
        let text = with_change(rt.alloc(), place, change)?;
        assert!(rt; text.items().len() < 4_294_967_296);
        assert_eq!(rt; told(rt.alloc(), text.items())?, line);
    }
    Ok(())
}

/// Texts of version 2, each with the line that is told.
const VERSION_2: [(&str, u32); 9] = [
    ("", 1),
    ("report 1\n", 2),
    ("report 2\nclock 0 1\n", 3),
    ("report 2\nclock 0 1\npool 1 1 0 00000001\n", 3),
    (
        "report 2\nclock 0 1\npool 0 1 0 00000001\npool 2 1 0 00000001\n",
        4,
    ),
    (
        "report 2\nclock 0 1\npool 0 1 0 00000001\npool 0 1 0 00000001\n",
        4,
    ),
    (
        "report 2\nclock 0 1\nmove 1 1 take 0\nmove 0 1 take 0\npool 0 1 0 00000001\n",
        4,
    ),
    (
        "report 2\nclock 0 1\nmove 0 1 take 0\nmove 1 2 take 0\npool 0 1 0 00000001\n",
        4,
    ),
    (
        "report 2\nclock 0 1\niface 0 0 0 refused\npool 0 1 0 00000001\n",
        0,
    ),
];

#[test]
fn groups_stand_in_their_order(rt: HostRuntime) -> Result<(), Fail> {
    for (text, line) in VERSION_2 {
        assert!(rt; text.len() < 4_294_967_296);
        assert_eq!(rt; told(rt.alloc(), text.as_bytes())?, line);
    }
    Ok(())
}
