//! Runs of the same form with other names, files, identifiers, ticks and timers.

use crate::base::{DONE, EMPTY, Outcome, RUN, expect};
use gw_depot::{MemDepot, MemSink};
use std::test::Fail;

/// The same form with other names, files, identifiers, period, linger and timers; those of each channel that the other
/// one has to be used for differ.
const OTHER: &str = r#"period = 500
linger = 20
buffers = [4]
[[bus]]
name = "vcan0"
log = "in.log"
out = "in.sent"
[[bus]]
name = "body"
log = "body.log"
out = "body.out"
[[channel]]
name = "tester"
bus = "vcan0"
rx = "7E0"
tx = "7e8"
n_as = 1
n_ar = 9
n_bs = 4
n_br = 1
n_cs = 1
n_cr = 5
[[channel]]
name = "engine"
bus = "body"
rx = "12a"
tx = "12B"
n_as = 9
n_ar = 1
n_bs = 7
n_br = 1
n_cs = 3
n_cr = 2
[[path]]
name = "request"
from = "tester"
to = ["engine"]
"#;

/// The first frame as it comes on vcan0, what answers it there, and as it leaves on body.
const TESTER_FIRST: &[u8] = b"(0000000001.000000) vcan0 7E0#1014000102030405\n";

const TESTER_CONTROL: &[u8] = b"(0000000001.000500) vcan0 7E8#300000\n";

const ENGINE_FIRST: &[u8] = b"(0000000001.000500) body 12B#1014000102030405\n";

/// The logs of vcan0 and body, the exit code, what is said, and both outputs and the report, where they are there.
const OTHER_RUNS: [([&[u8]; 2], u8, &[u8], [Option<&[u8]>; 3]); 4] = [
    // Both consecutive frames come in tick 2, and leave in ticks 2 and 3.
    (
        [
            b"(0000000001.000000) vcan0 7E0#1014000102030405
(0000000001.001000) vcan0 7E0#21060708090A0B0C
(0000000001.001499) vcan0 7E0#220D0E0F10111213
",
            b"(0000000001.000500) body 12A#300000\n",
        ],
        0,
        DONE,
        [
            Some(TESTER_CONTROL),
            Some(
                b"(0000000001.000500) body 12B#1014000102030405
(0000000001.001500) body 12B#21060708090A0B0C
(0000000001.002000) body 12B#220D0E0F10111213
",
            ),
            Some(
                b"report 1
clock 1000000 500
session 0 0 20 0 20 2 0/0/1 whole
dest 0 0 0 0 20 3 sent
move 1 take 0
move 2 free 0
pool 1 2 00000001
",
            ),
        ],
    ),
    // Neither a consecutive frame nor a flow control comes.
    (
        [TESTER_FIRST, EMPTY],
        0,
        b"done 1 0 1 0 2\n",
        [
            Some(TESTER_CONTROL),
            Some(ENGINE_FIRST),
            Some(
                b"report 1
clock 1000000 500
session 0 0 20 0 6 5 0/0/1 rx-timeout cf
dest 0 0 0 0 6 7 bs-timeout
move 1 take 0
move 2 free 0
pool 1 2 00000001
",
            ),
        ],
    ),
    // The flow control comes alone.
    (
        [TESTER_FIRST, b"(0000000001.000500) body 12A#300000\n"],
        0,
        b"done 1 0 1 0 2\n",
        [
            Some(TESTER_CONTROL),
            Some(ENGINE_FIRST),
            Some(
                b"report 1
clock 1000000 500
session 0 0 20 0 6 5 0/0/1 rx-timeout cf
dest 0 0 0 0 6 4 cs-timeout 6
move 1 take 0
move 2 free 0
pool 1 2 00000001
",
            ),
        ],
    ),
    // A bad line of another interface, which is passed over, and one of the bus's.
    (
        [
            b"(0000000001.000000) can0 7E0#02112\n(0000000001.000000) vcan0 7E0#02112\n",
            EMPTY,
        ],
        3,
        b"log vcan0 line 2 byte 34: bad data\n",
        [None, None, None],
    ),
];

/// The names of both outputs and of the report.
const OTHER_RESULTS: [&str; 3] = ["in.sent", "body.out", "gw.report"];

#[test]
fn another_configuration_has_its_names_and_timers(rt: HostRuntime) -> Result<(), Fail> {
    for (logs, code, said, left) in OTHER_RUNS {
        let [source, destination] = logs;
        let mut depot = MemDepot::new(rt.alloc());
        depot.set("gw.toml", OTHER.as_bytes())?;
        depot.set("in.log", source)?;
        depot.set("body.log", destination)?;
        let mut say = MemSink::new(rt.alloc());
        let wanted = Outcome {
            code,
            said,
            names: OTHER_RESULTS,
            left,
        };
        expect(&rt, rt.alloc(), RUN, &mut depot, &mut say, wanted)?;
    }
    Ok(())
}
