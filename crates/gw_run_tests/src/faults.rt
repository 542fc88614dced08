//! Faults of the outside, each call failing in turn.

use crate::base::{
    CHECK, CONFIGURATION, CONTROL, DONE, EMPTY, IN_TIME, MESSAGE, MESSAGE_REPORT, MESSAGE_SENT,
    NOTHING, Outcome, RESULTS, RUN, SHORT, depot_with, expect,
};
use gw_depot::{CallKind, MemDepot, MemSink};
use std::test::Fail;

/// Whether one call takes seven bytes at most, a kind of call and which call of it fails, the exit code, what is said,
/// and the outputs on can0 and can1 and the report, where they are there.
///
/// Where a call takes as many bytes as it is asked to, the configuration and each log are read in two calls each, and
/// each result is written in one.
const FAILURES: [(bool, CallKind, u32, u8, &[u8], [Option<&[u8]>; 3]); 16] = [
    (
        false,
        CallKind::Read,
        1,
        4,
        b"read config\n",
        [None, None, None],
    ),
    (
        false,
        CallKind::Read,
        2,
        4,
        b"read config\n",
        [None, None, None],
    ),
    (
        false,
        CallKind::Read,
        3,
        4,
        b"read log 0\n",
        [None, None, None],
    ),
    (
        false,
        CallKind::Read,
        4,
        4,
        b"read log 0\n",
        [None, None, None],
    ),
    (
        false,
        CallKind::Read,
        5,
        4,
        b"read log 1\n",
        [None, None, None],
    ),
    (
        false,
        CallKind::Read,
        6,
        4,
        b"read log 1\n",
        [None, None, None],
    ),
    (
        false,
        CallKind::Read,
        7,
        0,
        DONE,
        [Some(CONTROL), Some(MESSAGE_SENT), Some(MESSAGE_REPORT)],
    ),
    (
        false,
        CallKind::Create,
        1,
        5,
        b"write out 0\n",
        [None, None, None],
    ),
    (
        false,
        CallKind::Create,
        2,
        5,
        b"write out 1\n",
        [Some(EMPTY), None, None],
    ),
    (
        false,
        CallKind::Create,
        3,
        5,
        b"write report\n",
        [Some(CONTROL), Some(MESSAGE_SENT), None],
    ),
    (
        false,
        CallKind::Create,
        4,
        0,
        DONE,
        [Some(CONTROL), Some(MESSAGE_SENT), Some(MESSAGE_REPORT)],
    ),
    (
        false,
        CallKind::Append,
        1,
        5,
        b"write out 0\n",
        [Some(EMPTY), Some(EMPTY), None],
    ),
    (
        false,
        CallKind::Append,
        2,
        5,
        b"write out 1\n",
        [Some(CONTROL), Some(EMPTY), None],
    ),
    (
        false,
        CallKind::Append,
        3,
        5,
        b"write report\n",
        [Some(CONTROL), Some(MESSAGE_SENT), Some(EMPTY)],
    ),
    (
        false,
        CallKind::Append,
        4,
        0,
        DONE,
        [Some(CONTROL), Some(MESSAGE_SENT), Some(MESSAGE_REPORT)],
    ),
    (
        true,
        CallKind::Append,
        3,
        5,
        b"write out 0\n",
        [Some(b"(0000000001.00"), Some(EMPTY), None],
    ),
];

#[test]
fn the_call_that_was_set_to_fail_is_blamed(rt: HostRuntime) -> Result<(), Fail> {
    for (in_pieces, kind, nth, code, said, left) in FAILURES {
        let mut depot = depot_with(rt.alloc(), CONFIGURATION, [MESSAGE, IN_TIME])?;
        if in_pieces {
            depot.at_most(7);
        }
        depot.fail(kind, nth);
        let mut say = MemSink::new(rt.alloc());
        let wanted = Outcome {
            code,
            said,
            names: RESULTS,
            left,
        };
        expect(&rt, rt.alloc(), RUN, &mut depot, &mut say, wanted)?;
    }
    Ok(())
}

/// A file that isn't there, and what is said.
const MISSING: [(&str, &[u8]); 3] = [
    ("gw.toml", b"read config\n"),
    ("can0.log", b"read log 0\n"),
    ("can1.log", b"read log 1\n"),
];

#[test]
fn a_file_that_is_not_there_is_a_fault(rt: HostRuntime) -> Result<(), Fail> {
    for (missing, said) in MISSING {
        let mut depot = MemDepot::new(rt.alloc());
        for (name, content) in [
            ("gw.toml", CONFIGURATION.as_bytes()),
            ("can0.log", SHORT),
            ("can1.log", EMPTY),
        ] {
            if name != missing {
                depot.set(name, content)?;
            }
        }
        let mut say = MemSink::new(rt.alloc());
        let wanted = Outcome {
            code: 4,
            said,
            names: RESULTS,
            left: NOTHING,
        };
        expect(&rt, rt.alloc(), RUN, &mut depot, &mut say, wanted)?;
    }
    Ok(())
}

#[test]
fn a_run_that_can_not_be_said_is_a_fault(rt: HostRuntime) -> Result<(), Fail> {
    let mut depot = depot_with(rt.alloc(), CONFIGURATION, [MESSAGE, IN_TIME])?;
    let mut say = MemSink::new(rt.alloc());
    say.fail(1);
    let wanted = Outcome {
        code: 5,
        said: EMPTY,
        names: RESULTS,
        left: [Some(CONTROL), Some(MESSAGE_SENT), Some(MESSAGE_REPORT)],
    };
    expect(&rt, rt.alloc(), RUN, &mut depot, &mut say, wanted)
}

#[test]
fn a_check_that_can_not_be_read_or_said_is_a_fault(rt: HostRuntime) -> Result<(), Fail> {
    let mut say = MemSink::new(rt.alloc());
    let mut depot = MemDepot::new(rt.alloc());
    let unread = Outcome {
        code: 4,
        said: b"read config\n",
        names: RESULTS,
        left: NOTHING,
    };
    expect(&rt, rt.alloc(), CHECK, &mut depot, &mut say, unread)?;
    depot.set("gw.toml", CONFIGURATION.as_bytes())?;
    say.fail(1);
    let unsaid = Outcome {
        code: 5,
        said: b"read config\n",
        names: RESULTS,
        left: NOTHING,
    };
    expect(&rt, rt.alloc(), CHECK, &mut depot, &mut say, unsaid)
}
