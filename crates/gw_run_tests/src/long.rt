//! Messages that are much longer than the buffer that they go through, whole.

use crate::base::{Change, DONE, IN_TIME, Outcome, RUN, changed, depot_with, expect};
use can_frame::{CanId, Frame};
use candump_line::write_line;
use gw_base::{Bytes, Micros};
use gw_depot::MemSink;
use std::alloc::Global;
use std::test::Fail;
use std::thread::Threads;

/// A buffer of nine cells.
const NINE_CELLS: Change = ("[4]", "[9]");

/// A message whose byte at each place is the place's: its length, the data of its first frame, how many bytes of it stand
/// there, its consecutive frames, and its report.
type LongRow = (u32, &'static [u8], u32, u32, &'static [u8]);

const LONG_RUNS: [LongRow; 2] = [
    (
        4095,
        &[0x1F, 0xFF, 0, 1, 2, 3, 4, 5],
        6,
        585,
        b"report 1
clock 1000000 1000
session 0 0 4095 0 4095 586 0/0/1 whole
dest 0 0 0 0 4095 586 sent
move 1 take 0
move 2 free 0
pool 1 2 00000001
",
    ),
    (
        100_000,
        &[0x10, 0x00, 0x00, 0x01, 0x86, 0xA0, 0, 1],
        2,
        14_286,
        b"report 1
clock 1000000 1000
session 0 0 100000 0 100000 14287 0/0/1 whole
dest 0 0 0 0 100000 14287 sent
move 1 take 0
move 2 free 0
pool 1 2 00000001
",
    ),
];

/// Appends the line of a frame in the log of can0, or of the one that leaves on can1 for it a tick later.
fn push_frame(text: &mut Bytes, leaves: bool, tick: u32, data: &[u8]) -> Result<(), Fail> {
    let at = Micros(1_000_000 + 1_000 * u64::from(tick));
    if leaves {
        let frame = Frame::new(CanId::Std(0x710), false, false, data)?;
        write_line(Micros(at.0 + 1_000), b"can1", &frame, text)?;
    } else {
        let frame = Frame::new(CanId::Std(0x700), false, false, data)?;
        write_line(at, b"can0", &frame, text)?;
    }
    Ok(())
}

/// The data of a consecutive frame, with so many bytes of the message from that place on.
fn consecutive(alloc: Global, number: u32, from: u32, count: u32) -> Result<Bytes, Fail> {
    let mut data = Bytes::new(alloc);
    data.push(0x20 | (number % 16) as u8)?;
    for at in 0..count {
        data.push((from.wrapping_add(at) % 256) as u8)?;
    }
    Ok(data)
}

/// The lines of a message, in the log of can0 or in the output of can1: its first frame, and two ticks later one
/// consecutive frame in each.
fn message_text(alloc: Global, row: LongRow, leaves: bool) -> Result<Bytes, Fail> {
    let (len, start, first, count, _) = row;
    let mut text = Bytes::new(alloc);
    push_frame(&mut text, leaves, 0, start)?;
    for place in 0..count {
        let from = first.wrapping_add(place.wrapping_mul(7));
        let number = place.wrapping_add(1);
        let data = consecutive(alloc, number, from, len.wrapping_sub(from).min(7))?;
        push_frame(&mut text, leaves, place.wrapping_add(2), data.items())?;
    }
    Ok(text)
}

/// Fails unless a run over this log of can0 gives this output of can1 and this report.
fn expect_run<'a, R: Threads + Sync>(
    rt: &R,
    alloc: Global,
    log: &'a [u8],
    output: &'a [u8],
    report: &'a [u8],
) -> Result<(), Fail> {
    let configuration = changed(alloc, NINE_CELLS)?;
    let mut depot = depot_with(alloc, configuration.as_str(), [log, IN_TIME])?;
    let mut say = MemSink::new(alloc);
    let wanted = Outcome {
        code: 0,
        said: DONE,
        names: ["can1.out", "gw.report", "can2.out"],
        left: [Some(output), Some(report), None],
    };
    expect(rt, alloc, RUN, &mut depot, &mut say, wanted)
}

/// Fails unless the message comes whole and is sent whole.
fn try_long<R: Threads + Sync>(rt: &R, alloc: Global, row: LongRow) -> Result<(), Fail> {
    let (_, _, _, _, report) = row;
    let log = message_text(alloc, row, false)?;
    let output = message_text(alloc, row, true)?;
    expect_run(rt, alloc, log.items(), output.items(), report)
}

#[test]
fn a_long_message_goes_through_a_small_buffer(rt: HostRuntime) -> Result<(), Fail> {
    for row in LONG_RUNS {
        try_long(&rt, rt.alloc(), row)?;
    }
    Ok(())
}
