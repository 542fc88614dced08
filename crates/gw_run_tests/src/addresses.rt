//! Runs whose channels have identifiers of 29 bits, address bytes, filled frames, or a functional source.

use crate::base::{CONTROL, Change, DONE, EMPTY, IN_TIME, SHORT_SENT};
use crate::runs::{Row, try_row};
use std::test::Fail;

/// The source's channel with address bytes, whose frames are filled.
pub(crate) const ADDRESSED_SOURCE: Change = (
    "tx = \"708\"\n",
    "tx = \"708\"\naddressing = \"extended\"\nrx_address = 0x51\ntx_address = 0x52\npad = true\n",
);

/// The destination's channel with identifiers of 29 bits and address bytes, whose frames are filled with another byte.
const ADDRESSED_DESTINATION: Change = (
    "rx = \"718\"\ntx = \"710\"\n",
    "rx = \"18DAF155\"\ntx = \"18DA55F1\"\naddressing = \"mixed\"\nrx_address = 0xF1\ntx_address = 0x55\npad = true\nfill = 0xAA\n",
);

/// A functional source with an identifier of 29 bits.
const FUNCTIONAL_SOURCE: Change = (
    "rx = \"700\"\ntx = \"708\"\n",
    "rx = \"00000700\"\ntx = \"708\"\nfunctional = true\n",
);

const ADDRESSED_RUNS: [Row; 4] = [
    // Two messages of one identifier and two address bytes, interleaved: the source's own is forwarded. Its first frame
    // carries a byte less than the destination's, which leaves with the next frame's bytes.
    (
        ADDRESSED_SOURCE,
        [
            b"(0000000001.000000) can0 700#5110140001020304
(0000000001.000000) can0 700#5310140001020304
(0000000001.001000) can0 700#5321AABBCCDDEEFF
(0000000001.002000) can0 700#512105060708090A
(0000000001.002000) can0 700#5322AABBCCDDEEFF
(0000000001.003000) can0 700#51220B0C0D0E0F10
(0000000001.003000) can0 700#53021122
(0000000001.003000) can0 700#
(0000000001.004000) can0 700#5123111213
",
            b"(0000000001.003500) can1 718#300000\n",
        ],
        [
            b"(0000000001.001000) can0 708#52300000CCCCCCCC\n",
            b"(0000000001.003000) can1 710#1014000102030405
(0000000001.004000) can1 710#21060708090A0B0C
(0000000001.005000) can1 710#220D0E0F10111213
",
        ],
        b"report 1
clock 1000000 1000
session 0 0 20 0 20 4 0/0/1 whole
dest 0 0 0 0 20 4 sent
move 1 take 0
move 2 free 0
pool 1 2 00000001
",
        DONE,
    ),
    // The longest message that four cells hold with an address byte; one of 24 bytes is another channel's.
    (
        ADDRESSED_SOURCE,
        [
            b"(0000000001.000000) can0 700#5310180001020304
(0000000001.000000) can0 700#5110170001020304
",
            EMPTY,
        ],
        [b"(0000000001.001000) can0 708#52300000CCCCCCCC\n", EMPTY],
        b"report 1
clock 1000000 1000
session 0 0 23 0 5 1000 0/0/1 rx-timeout cf
dest 0 0 0 0 0 1000 source-ended
move 1 take 0
move 2 free 0
pool 1 2 00000001
",
        b"done 1 0 1 0 2\n",
    ),
    // The destination's first frame carries a byte less than the source's; a flow control with another address byte isn't
    // the destination's.
    (
        ADDRESSED_DESTINATION,
        [
            b"(0000000001.000000) can0 700#1014000102030405
(0000000001.002000) can0 700#21060708090A0B0C
(0000000001.003000) can0 700#220D0E0F10111213
",
            b"(0000000001.001100) can1 18DAF155#F2310000
(0000000001.001500) can1 18DAF155#F1300000
",
        ],
        [
            CONTROL,
            b"(0000000001.001000) can1 18DA55F1#5510140001020304
(0000000001.003000) can1 18DA55F1#552105060708090A
(0000000001.004000) can1 18DA55F1#55220B0C0D0E0F10
(0000000001.005000) can1 18DA55F1#5523111213AAAAAA
",
        ],
        b"report 1
clock 1000000 1000
session 0 0 20 0 20 3 0/0/1 whole
dest 0 0 0 0 20 4 sent
move 1 take 0
move 2 free 0
pool 1 2 00000001
",
        DONE,
    ),
    // A functional source: its single frames alone are received, and a first frame of any length has no effect; nor has
    // the same number as an identifier of 11 bits.
    (
        FUNCTIONAL_SOURCE,
        [
            b"(0000000001.000000) can0 700#03AABBCC
(0000000001.000000) can0 00000700#021122
(0000000001.001000) can0 00000700#1014000102030405
(0000000001.002000) can0 00000700#101C000102030405
(0000000001.003000) can0 00000700#21060708090A0B0C
",
            IN_TIME,
        ],
        [EMPTY, SHORT_SENT],
        b"report 1
clock 1000000 1000
session 0 0 2 0 2 0 0/0/1 whole
dest 0 0 0 0 2 0 sent
move 1 take 0
move 2 free 0
pool 1 2 00000001
",
        DONE,
    ),
];

#[test]
fn each_channel_has_its_address_and_filling(rt: HostRuntime) -> Result<(), Fail> {
    for row in ADDRESSED_RUNS {
        try_row(&rt, rt.alloc(), row)?;
    }
    Ok(())
}
