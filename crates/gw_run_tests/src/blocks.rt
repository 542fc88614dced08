//! Runs whose messages come in blocks, wait for room, are stored whole, or come or leave in CAN FD frames.

use crate::base::{AS_IT_IS, Change, EMPTY};
use crate::runs::{Row, try_row};
use std::test::Fail;

/// A path whose messages are stored whole before they are sent.
const STORED: Change = ("to = [\"B\"]\n", "to = [\"B\"]\nstore = true\n");

/// A source channel that asks to wait at most twice in a row.
const TWO_WAITS: Change = ("tx = \"708\"\n", "tx = \"708\"\nwft_max = 2\n");

/// A bus of the source with CAN FD, and a buffer of nine cells, which the longest frame takes.
const FD_SOURCE: Change = (
    "buffers = [4]\n[[bus]]\nname = \"can0\"\n",
    "buffers = [9]\n[[bus]]\nfd = true\nname = \"can0\"\n",
);

/// A bus of the destination with CAN FD at the higher bit rate, whose channel has frames of up to 64 bytes.
const FD_DESTINATION: Change = (
    "out = \"can1.out\"\n[[channel]]\nname = \"A\"\nbus = \"can0\"\nrx = \"700\"\ntx = \"708\"\n[[channel]]\n",
    "out = \"can1.out\"\nfd = true\nbrs = true\n[[channel]]\nname = \"A\"\nbus = \"can0\"\nrx = \"700\"\ntx = \"708\"\n[[channel]]\ndl = 64\n",
);

const RUNS_IN_BLOCKS: [Row; 10] = [
    // 63 bytes in blocks of three: the ring of four cells goes round twice.
    (
        AS_IT_IS,
        [
            b"(0000000001.000000) can0 700#103F000102030405
(0000000001.002000) can0 700#21060708090A0B0C
(0000000001.003000) can0 700#220D0E0F10111213
(0000000001.004000) can0 700#231415161718191A
(0000000001.005000) can0 700#241B1C1D1E1F2021
(0000000001.006000) can0 700#2522232425262728
(0000000001.007000) can0 700#26292A2B2C2D2E2F
(0000000001.008000) can0 700#2730313233343536
(0000000001.009000) can0 700#283738393A3B3C3D
(0000000001.010000) can0 700#293E
",
            b"(0000000001.001500) can1 718#300000
",
        ],
        [
            b"(0000000001.001000) can0 708#300300
(0000000001.005000) can0 708#300300
(0000000001.008000) can0 708#300000
",
            b"(0000000001.001000) can1 710#103F000102030405
(0000000001.003000) can1 710#21060708090A0B0C
(0000000001.004000) can1 710#220D0E0F10111213
(0000000001.005000) can1 710#231415161718191A
(0000000001.006000) can1 710#241B1C1D1E1F2021
(0000000001.007000) can1 710#2522232425262728
(0000000001.008000) can1 710#26292A2B2C2D2E2F
(0000000001.009000) can1 710#2730313233343536
(0000000001.010000) can1 710#283738393A3B3C3D
(0000000001.011000) can1 710#293E
",
        ],
        b"report 1
clock 1000000 1000
session 0 0 63 0 63 10 0/0/1 whole
dest 0 0 0 0 63 10 sent
move 1 take 0
move 2 free 0
pool 1 2 00000001
",
        b"done 1 1 1 1 2\n",
    ),
    // 120 bytes: the sequence number goes from 15 to 0.
    (
        AS_IT_IS,
        [
            b"(0000000001.000000) can0 700#1078000102030405
(0000000001.002000) can0 700#21060708090A0B0C
(0000000001.003000) can0 700#220D0E0F10111213
(0000000001.004000) can0 700#231415161718191A
(0000000001.005000) can0 700#241B1C1D1E1F2021
(0000000001.006000) can0 700#2522232425262728
(0000000001.007000) can0 700#26292A2B2C2D2E2F
(0000000001.008000) can0 700#2730313233343536
(0000000001.009000) can0 700#283738393A3B3C3D
(0000000001.010000) can0 700#293E3F4041424344
(0000000001.011000) can0 700#2A45464748494A4B
(0000000001.012000) can0 700#2B4C4D4E4F505152
(0000000001.013000) can0 700#2C53545556575859
(0000000001.014000) can0 700#2D5A5B5C5D5E5F60
(0000000001.015000) can0 700#2E61626364656667
(0000000001.016000) can0 700#2F68696A6B6C6D6E
(0000000001.017000) can0 700#206F707172737475
(0000000001.018000) can0 700#217677
",
            b"(0000000001.001500) can1 718#300000
",
        ],
        [
            b"(0000000001.001000) can0 708#300300
(0000000001.005000) can0 708#300300
(0000000001.008000) can0 708#300300
(0000000001.011000) can0 708#300300
(0000000001.014000) can0 708#300300
(0000000001.017000) can0 708#300000
",
            b"(0000000001.001000) can1 710#1078000102030405
(0000000001.003000) can1 710#21060708090A0B0C
(0000000001.004000) can1 710#220D0E0F10111213
(0000000001.005000) can1 710#231415161718191A
(0000000001.006000) can1 710#241B1C1D1E1F2021
(0000000001.007000) can1 710#2522232425262728
(0000000001.008000) can1 710#26292A2B2C2D2E2F
(0000000001.009000) can1 710#2730313233343536
(0000000001.010000) can1 710#283738393A3B3C3D
(0000000001.011000) can1 710#293E3F4041424344
(0000000001.012000) can1 710#2A45464748494A4B
(0000000001.013000) can1 710#2B4C4D4E4F505152
(0000000001.014000) can1 710#2C53545556575859
(0000000001.015000) can1 710#2D5A5B5C5D5E5F60
(0000000001.016000) can1 710#2E61626364656667
(0000000001.017000) can1 710#2F68696A6B6C6D6E
(0000000001.018000) can1 710#206F707172737475
(0000000001.019000) can1 710#217677
",
        ],
        b"report 1
clock 1000000 1000
session 0 0 120 0 120 18 0/0/1 whole
dest 0 0 0 0 120 18 sent
move 1 take 0
move 2 free 0
pool 1 2 00000001
",
        b"done 1 1 1 1 2\n",
    ),
    // A sequence number is left out; the destination sends what came.
    (
        AS_IT_IS,
        [
            b"(0000000001.000000) can0 700#101E000102030405
(0000000001.002000) can0 700#21060708090A0B0C
(0000000001.003000) can0 700#220D0E0F10111213
(0000000001.004000) can0 700#241415161718191A
",
            b"(0000000001.001500) can1 718#300000
",
        ],
        [
            b"(0000000001.001000) can0 708#300300
",
            b"(0000000001.001000) can1 710#101E000102030405
(0000000001.003000) can1 710#21060708090A0B0C
(0000000001.004000) can1 710#220D0E0F10111213
",
        ],
        b"report 1
clock 1000000 1000
session 0 0 30 0 20 4 0/0/1 wrong-sn 3 4
dest 0 0 0 0 20 4 source-ended
move 1 take 0
move 2 free 0
pool 1 2 00000001
",
        b"done 1 0 1 0 2\n",
    ),
    // The least message with a length of 32 bits, of which two bytes come.
    (
        AS_IT_IS,
        [
            b"(0000000001.000000) can0 700#100000001000AABB
",
            EMPTY,
        ],
        [
            b"(0000000001.001000) can0 708#300300
",
            b"(0000000001.001000) can1 710#100000001000AABB
",
        ],
        b"report 1
clock 1000000 1000
session 0 0 4096 0 2 1000 0/0/1 rx-timeout cf
dest 0 0 0 0 2 1000 bs-timeout
move 1 take 0
move 2 free 0
pool 1 2 00000001
",
        b"done 1 0 1 0 2\n",
    ),
    // A message that is stored whole doesn't fit: an overflow, and no session.
    (
        STORED,
        [
            b"(0000000001.000000) can0 700#1022000102030405
(0000000001.002000) can0 700#21060708090A0B0C
(0000000001.003000) can0 700#220D0E0F10111213
(0000000001.004000) can0 700#231415161718191A
(0000000001.005000) can0 700#241B1C1D1E1F2021
",
            b"(0000000001.001500) can1 718#300000
",
        ],
        [
            b"(0000000001.001000) can0 708#320000
",
            EMPTY,
        ],
        b"report 1
clock 1000000 1000
session 0 0 34 0 0 0 - overflow 0 00000001 5
pool 1 0 00000001
",
        b"done 1 0 0 0 0\n",
    ),
    // The same message, forwarded as it comes.
    (
        AS_IT_IS,
        [
            b"(0000000001.000000) can0 700#1022000102030405
(0000000001.002000) can0 700#21060708090A0B0C
(0000000001.003000) can0 700#220D0E0F10111213
(0000000001.004000) can0 700#231415161718191A
(0000000001.005000) can0 700#241B1C1D1E1F2021
",
            b"(0000000001.001500) can1 718#300000
",
        ],
        [
            b"(0000000001.001000) can0 708#300300
(0000000001.005000) can0 708#300000
",
            b"(0000000001.001000) can1 710#1022000102030405
(0000000001.003000) can1 710#21060708090A0B0C
(0000000001.004000) can1 710#220D0E0F10111213
(0000000001.005000) can1 710#231415161718191A
(0000000001.006000) can1 710#241B1C1D1E1F2021
",
        ],
        b"report 1
clock 1000000 1000
session 0 0 34 0 34 5 0/0/1 whole
dest 0 0 0 0 34 5 sent
move 1 take 0
move 2 free 0
pool 1 2 00000001
",
        b"done 1 1 1 1 2\n",
    ),
    // The destination doesn't go on, and the source doesn't wait: no room.
    (
        AS_IT_IS,
        [
            b"(0000000001.000000) can0 700#103F000102030405
(0000000001.002000) can0 700#21060708090A0B0C
(0000000001.003000) can0 700#220D0E0F10111213
(0000000001.004000) can0 700#231415161718191A
(0000000001.005000) can0 700#241B1C1D1E1F2021
(0000000001.006000) can0 700#2522232425262728
",
            EMPTY,
        ],
        [
            b"(0000000001.001000) can0 708#300300
(0000000001.005000) can0 708#300100
(0000000001.006000) can0 708#310000
",
            b"(0000000001.001000) can1 710#103F000102030405
",
        ],
        b"report 1
clock 1000000 1000
session 0 0 63 0 34 6 0/0/1 no-room 0 1
dest 0 0 0 0 6 1000 bs-timeout
move 1 take 0
move 2 free 0
pool 1 2 00000001
",
        b"done 1 0 1 0 2\n",
    ),
    // The source waits twice, which is as often as it may.
    (
        TWO_WAITS,
        [
            b"(0000000001.000000) can0 700#103F000102030405
(0000000001.002000) can0 700#21060708090A0B0C
(0000000001.003000) can0 700#220D0E0F10111213
(0000000001.004000) can0 700#231415161718191A
(0000000001.005000) can0 700#241B1C1D1E1F2021
",
            EMPTY,
        ],
        [
            b"(0000000001.001000) can0 708#300300
(0000000001.005000) can0 708#300100
(0000000001.006000) can0 708#310000
(0000000001.016000) can0 708#310000
",
            b"(0000000001.001000) can1 710#103F000102030405
",
        ],
        b"report 1
clock 1000000 1000
session 0 0 63 0 34 25 0/0/1 wait-over
dest 0 0 0 0 6 1000 bs-timeout
move 1 take 0
move 2 free 0
pool 1 2 00000001
",
        b"done 1 0 1 0 2\n",
    ),
    // An FD single frame of 62 bytes becomes nine classic frames.
    (
        FD_SOURCE,
        [
            b"(0000000001.000000) can0 700##0003E000102030405060708090A0B0C0D0E0F101112131415161718191A1B1C1D1E1F202122232425262728292A2B2C2D2E2F303132333435363738393A3B3C3D
",
            b"(0000000001.001500) can1 718#300000
",
        ],
        [
            EMPTY,
            b"(0000000001.001000) can1 710#103E000102030405
(0000000001.002000) can1 710#21060708090A0B0C
(0000000001.003000) can1 710#220D0E0F10111213
(0000000001.004000) can1 710#231415161718191A
(0000000001.005000) can1 710#241B1C1D1E1F2021
(0000000001.006000) can1 710#2522232425262728
(0000000001.007000) can1 710#26292A2B2C2D2E2F
(0000000001.008000) can1 710#2730313233343536
(0000000001.009000) can1 710#283738393A3B3C3D
",
        ],
        b"report 1
clock 1000000 1000
session 0 0 62 0 62 0 0/0/1 whole
dest 0 0 0 0 62 8 sent
move 1 take 0
move 2 free 0
pool 1 2 00000001
",
        b"done 1 1 1 1 2\n",
    ),
    // Three classic frames become an FD single frame, which switches the bit rate and is filled up to 24 bytes.
    (
        FD_DESTINATION,
        [
            b"(0000000001.000000) can0 700#1014000102030405
(0000000001.002000) can0 700#21060708090A0B0C
(0000000001.003000) can0 700#220D0E0F10111213
",
            EMPTY,
        ],
        [
            b"(0000000001.001000) can0 708#300000
",
            b"(0000000001.004000) can1 710##10014000102030405060708090A0B0C0D0E0F10111213CCCC
",
        ],
        b"report 1
clock 1000000 1000
session 0 0 20 0 20 3 0/0/1 whole
dest 0 0 0 0 20 3 sent
move 1 take 0
move 2 free 0
pool 1 2 00000001
",
        b"done 1 1 1 1 2\n",
    ),
];

#[test]
fn messages_come_in_blocks(rt: HostRuntime) -> Result<(), Fail> {
    for row in RUNS_IN_BLOCKS {
        try_row(&rt, rt.alloc(), row)?;
    }
    Ok(())
}
