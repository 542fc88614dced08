//! Runs of the base configuration: whole outputs, reports and what is said.

use crate::base::{
    AS_IT_IS, CONTROL, Change, DONE, EMPTY, FIRST, FIRST_SENT, IN_TIME, MESSAGE, MESSAGE_REPORT,
    MESSAGE_SENT, Outcome, RESULTS, RUN, SHORT, SHORT_REPORT, SHORT_SENT, changed, depot_with,
    expect,
};
use gw_depot::MemSink;
use std::alloc::Global;
use std::test::Fail;
use std::thread::Threads;

/// A change of the configuration, the logs of can0 and can1, both outputs, the report, and what is said.
pub(crate) type Row = (
    Change,
    [&'static [u8]; 2],
    [&'static [u8]; 2],
    &'static [u8],
    &'static [u8],
);

const RUNS: [Row; 24] = [
    // No frame, and defaults that are written out.
    (
        (
            "",
            "period = 1000\nwindow = 1\nlinger = 3000\nmode = \"serial\"\n",
        ),
        [EMPTY, EMPTY],
        [EMPTY, EMPTY],
        b"report 1\nclock 0 1000\npool 1 0 00000001\n",
        b"done 0 0 0 0 0\n",
    ),
    // Lines that give no frame: an error frame, two blank ones, one of another interface, a remote frame and a CAN FD frame. Then a
    // first frame in the long form that has too small a length.
    (
        AS_IT_IS,
        [
            b"(1.000000) can0 20000004#0000000000000000\n\n   \r\n(1.000000) can1 700#021122\n(1.000000) can0 700#R\n(1.000000) can0 700##0021122 R",
            EMPTY,
        ],
        [EMPTY, EMPTY],
        b"report 1\nclock 0 1000\npool 1 0 00000001\n",
        b"done 0 0 0 0 0\n",
    ),
    (
        AS_IT_IS,
        [b"(0.000000) can0 700#100000000FFFAABB", EMPTY],
        [EMPTY, EMPTY],
        b"report 1\nclock 0 1000\npool 1 0 00000001\n",
        b"done 0 0 0 0 0\n",
    ),
    // A single frame, as python-can writes it; both buses have one log.
    (
        ("can1.log", "can0.log"),
        [b"(1.000000) can0 700#021122 R\n", EMPTY],
        [EMPTY, SHORT_SENT],
        SHORT_REPORT,
        DONE,
    ),
    // A single frame.
    (
        AS_IT_IS,
        [SHORT, EMPTY],
        [EMPTY, SHORT_SENT],
        SHORT_REPORT,
        DONE,
    ),
    // The same, with the one group by its key.
    (
        ("buffers = [4]", "groups = [[4]]"),
        [SHORT, EMPTY],
        [EMPTY, SHORT_SENT],
        SHORT_REPORT,
        DONE,
    ),
    // The most ticks.
    (
        AS_IT_IS,
        [
            b"(0000000001.000000) can0 700#021122\n(0000009997.999000) can0 7E0#01BB\n",
            EMPTY,
        ],
        [EMPTY, SHORT_SENT],
        SHORT_REPORT,
        DONE,
    ),
    // Two single frames, and the clock begins on can1. A frame without data and one of another identifier stand
    // between the two; one line has a carriage return, and the last one no line feed.
    (
        AS_IT_IS,
        [
            b"(0000000001.002500) can0 700#0711223344556677\r
(0000000001.002999) can0 700#00
(0000000001.003000) can0 7E0#0111
(0000000001.004000) can0 700#01AA",
            b"(0000000000.999000) can1 718#300000\n",
        ],
        [
            EMPTY,
            b"(0000000001.003000) can1 710#0711223344556677\n(0000000001.005000) can1 710#01AA\n",
        ],
        b"report 1
clock 999000 1000
session 0 0 7 3 7 3 0/0/1 whole
session 0 1 1 5 1 5 1/0/3 whole
dest 0 0 0 3 7 3 sent
dest 0 0 1 5 1 5 sent
move 1 take 0
move 2 free 0
move 3 take 0
move 4 free 0
pool 1 4 00000001
",
        b"done 2 2 2 2 4\n",
    ),
    // Two single frames of one tick.
    (
        AS_IT_IS,
        [
            b"(0000000001.000000) can0 700#021122\n(0000000001.000000) can0 700#021122\n",
            EMPTY,
        ],
        [EMPTY, SHORT_SENT],
        b"report 1
clock 1000000 1000
session 0 0 2 0 2 0 0/0/1 whole
session 0 1 2 0 0 0 - overflow 1 00000000 1
dest 0 0 0 0 2 0 sent
move 1 take 0
move 2 free 0
pool 1 2 00000001
",
        b"done 2 1 1 1 2\n",
    ),
    // A stamp that is earlier than the one before it.
    (
        AS_IT_IS,
        [
            b"(0000000001.002000) can0 700#0155\n(0000000001.000000) can0 700#0166\n",
            EMPTY,
        ],
        [EMPTY, b"(0000000001.003000) can1 710#0155\n"],
        b"report 1
clock 1000000 1000
session 0 0 1 2 1 2 0/0/1 whole
session 0 1 1 2 0 2 - overflow 1 00000000 1
dest 0 0 0 2 1 2 sent
move 1 take 0
move 2 free 0
pool 1 2 00000001
",
        b"done 2 1 1 1 2\n",
    ),
    // A message with its flow control in time.
    (
        AS_IT_IS,
        [MESSAGE, IN_TIME],
        [CONTROL, MESSAGE_SENT],
        MESSAGE_REPORT,
        DONE,
    ),
    // The same among frames without effect: a flow control of the source, both channels' identifiers on the other bus,
    // its own answer, an unknown kind of unit, a consecutive frame that is too short and one too many; a single frame
    // and a short flow control of the destination, and a flow control that isn't awaited.
    (
        AS_IT_IS,
        [
            b"(0000000001.000000) can0 700#300000
(0000000001.000000) can0 718#310000
(0000000001.000000) can0 700#1014000102030405
(0000000001.001000) can0 708#21060708090A0B0C
(0000000001.002000) can0 700#4106
(0000000001.002000) can0 700#2106
(0000000001.002000) can0 700#21060708090A0B0C
(0000000001.003000) can0 700#220D0E0F10111213
(0000000001.003000) can0 700#2314151617181920
",
            b"(0000000001.001500) can1 718#021122
(0000000001.001500) can1 700#021122
(0000000001.001500) can1 718#300000
(0000000001.002000) can1 718#3000
(0000000001.002500) can1 718#300000
",
        ],
        [CONTROL, MESSAGE_SENT],
        MESSAGE_REPORT,
        DONE,
    ),
    // A message that fills the buffer, with its flow control once it is whole.
    (
        AS_IT_IS,
        [
            b"(0000000001.000000) can0 700#101B000102030405
(0000000001.001000) can0 700#21060708090A0B0C
(0000000001.002000) can0 700#220D0E0F10111213
(0000000001.003000) can0 700#231415161718191A
",
            b"(0000000001.004500) can1 718#300000\n",
        ],
        [
            CONTROL,
            b"(0000000001.001000) can1 710#101B000102030405
(0000000001.005000) can1 710#21060708090A0B0C
(0000000001.006000) can1 710#220D0E0F10111213
(0000000001.007000) can1 710#231415161718191A
",
        ],
        b"report 1
clock 1000000 1000
session 0 0 27 0 27 3 0/0/1 whole
dest 0 0 0 0 27 6 sent
move 1 take 0
move 2 free 0
pool 1 2 00000001
",
        DONE,
    ),
    // A message without its flow control.
    (
        AS_IT_IS,
        [MESSAGE, EMPTY],
        [CONTROL, FIRST_SENT],
        b"report 1
clock 1000000 1000
session 0 0 20 0 20 3 0/0/1 whole
dest 0 0 0 0 6 1000 bs-timeout
move 1 take 0
move 2 free 0
pool 1 2 00000001
",
        b"done 1 1 1 0 2\n",
    ),
    // The same, and the run ends with its last frame.
    (
        ("", "linger = 0\n"),
        [MESSAGE, EMPTY],
        [CONTROL, FIRST_SENT],
        b"report 1
clock 1000000 1000
session 0 0 20 0 20 3 0/0/1 whole
dest 0 0 0 0 6 3 run-end fc 0
move 1 take 0
move 2 free 0
pool 1 2 00000001
",
        b"done 1 1 1 0 2\n",
    ),
    // The same with a shorter timer, and a flow control that comes too early.
    (
        ("tx = \"710\"\n", "tx = \"710\"\nn_bs = 7\n"),
        [MESSAGE, b"(0000000001.000500) can1 718#300000\n"],
        [CONTROL, FIRST_SENT],
        b"report 1
clock 1000000 1000
session 0 0 20 0 20 3 0/0/1 whole
dest 0 0 0 0 6 7 bs-timeout
move 1 take 0
move 2 free 0
pool 1 2 00000001
",
        b"done 1 1 1 0 2\n",
    ),
    // A first frame alone, and the run ends with it.
    (
        ("", "linger = 0\n"),
        [FIRST, EMPTY],
        [CONTROL, FIRST_SENT],
        b"report 1
clock 1000000 1000
session 0 0 20 0 6 0 0/0/1 run-end cf 0
dest 0 0 0 0 6 0 run-end fc 0
move 1 take 0
move 2 free 0
pool 1 2 00000001
",
        b"done 1 0 1 0 2\n",
    ),
    // The run ends while bytes are awaited.
    (
        ("", "linger = 0\n"),
        [FIRST, IN_TIME],
        [CONTROL, FIRST_SENT],
        b"report 1
clock 1000000 1000
session 0 0 20 0 6 1 0/0/1 run-end cf 0
dest 0 0 0 0 6 1 run-end bytes 1
move 1 take 0
move 2 free 0
pool 1 2 00000001
",
        b"done 1 0 1 0 2\n",
    ),
    // The run ends in the tick of a consecutive frame.
    (
        ("", "linger = 0\n"),
        [
            b"(0000000001.000000) can0 700#1014000102030405
(0000000001.002000) can0 700#21060708090A0B0C
",
            IN_TIME,
        ],
        [
            CONTROL,
            b"(0000000001.001000) can1 710#1014000102030405\n(0000000001.003000) can1 710#21060708090A0B0C\n",
        ],
        b"report 1
clock 1000000 1000
session 0 0 20 0 13 2 0/0/1 run-end cf 2
dest 0 0 0 0 13 2 run-end gap 2
move 1 take 0
move 2 free 0
pool 1 2 00000001
",
        b"done 1 0 1 0 2\n",
    ),
    // A consecutive frame comes when the destination has given up.
    (
        ("tx = \"710\"\n", "tx = \"710\"\nn_bs = 7\n"),
        [
            b"(0000000001.000000) can0 700#1014000102030405
(0000000001.009000) can0 700#21060708090A0B0C
",
            EMPTY,
        ],
        [CONTROL, FIRST_SENT],
        b"report 1
clock 1000000 1000
session 0 0 20 0 6 9 0/0/1 no-readers
dest 0 0 0 0 6 7 bs-timeout
move 1 take 0
move 2 free 0
pool 1 2 00000001
",
        b"done 1 0 1 0 2\n",
    ),
    // A message that ends after its first frame.
    (
        AS_IT_IS,
        [FIRST, IN_TIME],
        [CONTROL, FIRST_SENT],
        b"report 1
clock 1000000 1000
session 0 0 20 0 6 1000 0/0/1 rx-timeout cf
dest 0 0 0 0 6 1000 source-ended
move 1 take 0
move 2 free 0
pool 1 2 00000001
",
        b"done 1 0 1 0 2\n",
    ),
    // A wrong sequence number.
    (
        AS_IT_IS,
        [
            b"(0000000001.000000) can0 700#1014000102030405
(0000000001.002000) can0 700#21060708090A0B0C
(0000000001.003000) can0 700#230D0E0F10111213
",
            IN_TIME,
        ],
        [
            CONTROL,
            b"(0000000001.001000) can1 710#1014000102030405\n(0000000001.003000) can1 710#21060708090A0B0C\n",
        ],
        b"report 1
clock 1000000 1000
session 0 0 20 0 13 3 0/0/1 wrong-sn 2 3
dest 0 0 0 0 13 3 source-ended
move 1 take 0
move 2 free 0
pool 1 2 00000001
",
        b"done 1 0 1 0 2\n",
    ),
    // A single frame that ends a message.
    (
        AS_IT_IS,
        [
            b"(0000000001.000000) can0 700#1014000102030405\n(0000000001.002000) can0 700#03AABBCC\n",
            IN_TIME,
        ],
        [CONTROL, FIRST_SENT],
        b"report 1
clock 1000000 1000
session 0 0 20 0 6 2 0/0/1 restarted
session 0 1 3 2 0 2 - overflow 1 00000000 1
dest 0 0 0 0 6 2 source-ended
move 1 take 0
move 2 free 0
pool 1 2 00000001
",
        b"done 2 0 1 0 2\n",
    ),
    // A first frame that ends a message.
    (
        AS_IT_IS,
        [
            b"(0000000001.000000) can0 700#1014000102030405\n(0000000001.002000) can0 700#1014000102030405\n",
            EMPTY,
        ],
        [
            b"(0000000001.001000) can0 708#300000\n(0000000001.003000) can0 708#320000\n",
            FIRST_SENT,
        ],
        b"report 1
clock 1000000 1000
session 0 0 20 0 6 2 0/0/1 restarted
session 0 1 20 2 0 2 - overflow 1 00000000 1
dest 0 0 0 0 6 1000 bs-timeout
move 1 take 0
move 2 free 0
pool 1 2 00000001
",
        b"done 2 0 1 0 2\n",
    ),
];

/// Fails unless the row's run has its results, over files that hand out seven bytes a call.
pub(crate) fn try_row<R: Threads + Sync>(rt: &R, alloc: Global, row: Row) -> Result<(), Fail> {
    let (change, logs, [controls, frames], report, said) = row;
    let configuration = changed(alloc, change)?;
    let mut depot = depot_with(alloc, configuration.as_str(), logs)?;
    depot.at_most(7);
    let mut say = MemSink::new(alloc);
    let wanted = Outcome {
        code: 0,
        said,
        names: RESULTS,
        left: [Some(controls), Some(frames), Some(report)],
    };
    expect(rt, alloc, RUN, &mut depot, &mut say, wanted)
}

#[test]
fn each_run_has_its_results(rt: HostRuntime) -> Result<(), Fail> {
    for row in RUNS {
        try_row(&rt, rt.alloc(), row)?;
    }
    Ok(())
}
