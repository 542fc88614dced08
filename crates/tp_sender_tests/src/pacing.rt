//! Sessions over a plain hub whose cells come tick by tick, with the flow controls of a list: in which ticks their frames leave.
ghost use Rattle.std.specs.Prelude.{◌≡◌, ◌+◌, ◌*◌, ◌<◌, ◌≤◌, Option, None, true, length};
ghost use Rattle.tp_sender.specs.Port.{ActsFor, Knows};
ghost use Rattle.hub_core.specs.Tokens.{Writes};
ghost use Rattle.tp_sender.specs.State.{state_of, set_of};
ghost use Rattle.tp_sender.specs.declared.event.TxEvent.TheVariants.{Left as FrameLeft};

use crate::tests::{full_after, still_full};
use can_frame::CanId;
use gw_base::{DestNo, GroupNo, PathNo, Tick};
use hub_core::{DestRecord, DestResult, Opened, PlainHub, Port, Take};
use std::test::Fail;
use tp_sender::*;
use tp_unit::{BoxAct, Shape, Unit};

/// A cell of seven bytes.
const CELL: u64 = 0x0C0B_0A09_0807_0607;

/// The ticks after which a session that is still being sent is given up.
const LAST: u64 = 1400;

const SET: TxSet = TxSet {
    group: GroupNo(0),
    path: PathNo(0),
    dest: DestNo(0),
    shape: Shape {
        id: CanId::Std(0x710),
        fd: false,
        brs: false,
        address: None,
        dl: 8,
        pad: false,
        fill: 204,
    },
    threshold: 1,
    store: false,
    n_as: 5,
    n_bs: 10,
    n_cs: 20,
    period: 1000,
};

/// A flow control that comes: its tick, its status, its block size, its separation time.
type Control = (u64, u8, u8, u8);

/// A session, and how it is sent.
#[derive(Clone, Copy, Debug)]
struct Row<'a> {
    /// Its cells, of seven bytes each, and every how many ticks one comes, from tick 0 on.
    cells: u32,
    every: u64,
    /// The tick from which on the bus has a place.
    free: u64,
    /// The cells from which on it is sent, or whether only once it is whole, and a tick in microseconds.
    threshold: u32,
    store: bool,
    period: u32,
    controls: &'a [Control],
    /// The ticks in which its frames leave.
    ticks: &'a [u64],
}

/// Puts and publishes the session's next cell, where one is left.
#[tactic(auto, using(hub_core::proofs::Growing::writes_kept, hub_core::proofs::Growing::reads_kept))]
fn put_cell<P: Port>(port: &mut P, writer: &mut Opened)
    requires writes { Writes (P.state port.old).view writer.old }
    requires spare { 0 < (P.state port.old).means.spare }
    ensures writes { Writes (P.state port.new).view writer.new }
    ensures readings { (P.state port.new).view.readings ≡ (P.state port.old).view.readings }
    ensures reads { (P.state port.new).means.reads ≡ (P.state port.old).means.reads }
    ensures groups { (P.state port.new).means.groups ≡ (P.state port.old).means.groups }
    ensures spare { (P.state port.old).means.spare ≤ (P.state port.new).means.spare + 1 }
{
    if writer.room == 0 || writer.told != writer.given || writer.len - writer.given < 7 {
        return;
    }
    port.put(writer, CELL);
    port.publish(writer, 7);
}

/// The flow control of a tick, and a turn where none comes.
fn control_at(controls: &[Control], tick: u64) -> TxEvent
    ensures { result ≡ FrameLeft → ⊥ }
{
    for (at, fs, bs, st) in controls {
        if *at == tick {
            return TxEvent::Fc {
                fs: *fs,
                bs: *bs,
                st: *st,
            };
        }
    }
    TxEvent::Turn
}

/// What comes to a sender in a step, of three in a tick: the tick's flow control, its turn, and that its frame left, where
/// the bus has a place for it.
fn event_at(row: &Row, step: u64, full: bool) -> TxEvent
    ensures { result ≡ FrameLeft → full ≡ true }
{
    match step % 3 {
        0 => control_at(row.controls, step / 3),
        1 => TxEvent::Turn,
        _ => left_at(full && row.free <= step / 3),
    }
}

/// The frame left, or it didn't.
fn left_at(gone: bool) -> TxEvent
    ensures { result ≡ FrameLeft → gone ≡ true }
{
    if gone {
        return TxEvent::Left;
    }
    TxEvent::Turn
}

/// Whether what is offered after so many frames has its place in the sequence numbers, from 15 on with 0.
fn is_next(boxed: &BoxAct, left: usize) -> bool {
    match boxed {
        BoxAct::Offer(Unit::Cf { sn, bytes: _ }) => *sn as usize == left % 16,
        _ => true,
    }
}

/// Puts the session's next cell where one comes, and tells how many are still to come.
fn feed<P: Port>(port: &mut P, writer: &mut Opened, wanted: u32, comes: bool) -> u32
    requires writes { Writes (P.state port.old).view writer.old }
    requires spare { wanted ≤ (P.state port.old).means.spare }
    ensures writes { Writes (P.state port.new).view writer.new }
    ensures readings { (P.state port.new).view.readings ≡ (P.state port.old).view.readings }
    ensures reads { (P.state port.new).means.reads ≡ (P.state port.old).means.reads }
    ensures groups { (P.state port.new).means.groups ≡ (P.state port.old).means.groups }
    ensures spare { result ≤ (P.state port.new).means.spare }
{
    if !comes || wanted == 0 {
        return wanted;
    }
    put_cell(port, writer);
    wanted - 1
}

/// Sends a session while its cells come: how many frames left, each in the tick that the row has for it, and the record.
#[tactic(auto, using(crate::proofs::Knowing::knows_kept, crate::proofs::Knowing::acts_kept, crate::proofs::Knowing::still_writes))]
fn send<P: Port>(
    port: &mut P,
    sender: &mut Sender,
    writer: &mut Opened,
    row: &Row,
) -> Option<(usize, DestRecord)>
    requires knows { Knows (P.state port.old).view sender.old }
    requires acts { ActsFor (P.state port.old).means sender.old }
    requires idle { (state_of sender.old).live ≡ None }
    requires writes { Writes (P.state port.old).view writer.old }
    requires spare { row.now.cells ≤ (P.state port.old).means.spare }
{
    let mut full = false;
    let mut left = 0;
    let mut wanted = row.cells;
    let mut now = 0;
    for step in 0..3 * LAST {
        let tick = step / 3;
        if tick < now {
            return None;
        }
        wanted = feed(
            port,
            writer,
            wanted,
            step % 3 == 0 && tick.checked_rem(row.every) == Some(0),
        );
        let event = event_at(row, step, full);
        if event == TxEvent::Left {
            if row.ticks.get(left) != Some(&tick) {
                return None;
            }
            left += 1;
        }
        let acts = sender.step(event, Tick(tick), port);
        if let Some(told) = acts.ended {
            return Some((left, told));
        }
        if !is_next(&acts.boxed, left) {
            return None;
        }
        full = full_after(&acts.boxed, still_full(event, full));
        now = tick;
    }
    None
}

/// How many frames of a session leave in their ticks, the tick of its end, and its result.
fn told<P: Port>(port: &mut P, row: &Row) -> Option<(usize, Tick, DestResult)>
    requires group { 0 < length (P.state port.old).means.groups }
    requires takes { 0 < (P.state port.old).means.takes }
    requires spare { 20 ≤ (P.state port.old).means.spare }
    requires writes { (P.state port.old).means.writes 0 ≡ true }
    requires reads { (P.state port.old).means.reads 0 0 ≡ true }
    requires most { 1 ≤ (P.state port.old).means.most }
    requires sessions { length ((P.state port.old).view.sessions 0) ≡ 0 }
    requires readings { length ((P.state port.old).view.readings 0 0) ≡ 0 }
{
    if row.cells == 0 || row.cells > 20 || row.period == 0 {
        return None;
    }
    let Take::Granted { change: _, held } = port.take(GroupNo(0), 20) else {
        return None;
    };
    let mut writer = port.enter(held, PathNo(0), 0, row.cells * 7, 1);
    let mut sender = Sender::new(TxSet {
        threshold: row.threshold,
        store: row.store,
        period: row.period,
        ..SET
    });
    let (left, record) = send(port, &mut sender, &mut writer, row)?;
    Some((left, record.end, record.result))
}

/// A session whose cells come tick by tick, on a bus that has a place.
const PLAIN: Row = Row {
    cells: 2,
    every: 1,
    free: 0,
    threshold: 1,
    store: false,
    period: 1000,
    controls: &[],
    ticks: &[],
};

/// What comes of each flow status.
fn of_status(fs: u8) -> (usize, Tick, DestResult) {
    match fs {
        0 => (3, Tick(2), DestResult::Sent),
        1 => (1, Tick(11), DestResult::BsTimeout),
        2 => (1, Tick(1), DestResult::FcOverflow),
        _ => (1, Tick(1), DestResult::InvalidFs(fs)),
    }
}

#[test]
fn each_flow_status_is_obeyed(rt: HostRuntime) -> Result<(), Fail> {
    for fs in 0..16 {
        let mut hub = PlainHub::new(rt.alloc(), &[20], &[1])?;
        let row = Row {
            controls: &[(1, fs, 0, 0)],
            ticks: &[0, 1, 2],
            ..PLAIN
        };
        assert_eq!(rt; told(&mut hub, &row), Some(of_status(fs)));
    }
    Ok(())
}

/// Separation times, periods in microseconds, and the ticks between two frames.
const GAPS: [(u8, u32, u64); 27] = [
    (0, 100, 1),
    (0, 500, 1),
    (0, 1000, 1),
    (1, 100, 10),
    (1, 500, 2),
    (1, 1000, 1),
    (127, 100, 1270),
    (127, 500, 254),
    (127, 1000, 127),
    (0xF1, 100, 1),
    (0xF1, 500, 1),
    (0xF1, 1000, 1),
    (0xF5, 100, 5),
    (0xF5, 500, 1),
    (0xF6, 500, 2),
    (0xF9, 100, 9),
    (0xF9, 500, 2),
    (0xF9, 1000, 1),
    (0x80, 100, 1270),
    (0x80, 500, 254),
    (0x80, 1000, 127),
    (0xF0, 1000, 127),
    (0xF0, 500, 254),
    (0xFA, 100, 1270),
    (0xFA, 1000, 127),
    (0xFF, 500, 254),
    (0xFF, 1000, 127),
];

#[test]
fn separation_times_are_gaps(rt: HostRuntime) -> Result<(), Fail> {
    for (st, period, gap) in GAPS {
        let last = gap.saturating_add(1);
        let mut hub = PlainHub::new(rt.alloc(), &[20], &[1])?;
        let row = Row {
            period,
            controls: &[(1, 0, 0, st)],
            ticks: &[0, 1, last],
            ..PLAIN
        };
        assert_eq!(rt;
            told(&mut hub, &row),
            Some((3, Tick(last), DestResult::Sent))
        );
    }
    Ok(())
}

/// Sessions by their rows, the tick of their end, and their results.
const ROWS: [(Row, u64, DestResult); 9] = [
    // a block of two frames, and after the second flow control all others, two ticks apart
    (
        Row {
            cells: 5,
            controls: &[(1, 0, 2, 0), (4, 0, 0, 2)],
            ticks: &[0, 1, 2, 4, 6, 8],
            ..PLAIN
        },
        8,
        DestResult::Sent,
    ),
    // a flow control in the tick in which a block's last frame leaves comes before it, and isn't counted
    (
        Row {
            cells: 5,
            controls: &[(1, 0, 2, 0), (2, 0, 0, 0)],
            ticks: &[0, 1, 2],
            ..PLAIN
        },
        12,
        DestResult::BsTimeout,
    ),
    // a gap ends in the tick of a flow control, which isn't counted
    (
        Row {
            cells: 3,
            controls: &[(1, 0, 0, 5), (6, 0, 1, 127)],
            ticks: &[0, 1, 6, 11],
            ..PLAIN
        },
        11,
        DestResult::Sent,
    ),
    // bytes come one cell at a time, every second tick
    (
        Row {
            cells: 3,
            every: 2,
            controls: &[(1, 0, 0, 0)],
            ticks: &[0, 2, 4, 5],
            ..PLAIN
        },
        5,
        DestResult::Sent,
    ),
    // a block of fifteen frames, and the sequence number goes on from 15 with 0
    (
        Row {
            cells: 17,
            controls: &[(1, 0, 15, 0), (17, 0, 0, 0)],
            ticks: &[0, 1, 2, 3, 4, 5, 6, 7, 8, 9, 10, 11, 12, 13, 14, 15, 17, 18],
            ..PLAIN
        },
        18,
        DestResult::Sent,
    ),
    // the first frame waits for the threshold
    (
        Row {
            cells: 4,
            threshold: 3,
            controls: &[(3, 0, 0, 0)],
            ticks: &[2, 3, 4, 5, 6],
            ..PLAIN
        },
        6,
        DestResult::Sent,
    ),
    // or for the whole unit
    (
        Row {
            cells: 4,
            store: true,
            controls: &[(4, 0, 0, 0)],
            ticks: &[3, 4, 5, 6, 7],
            ..PLAIN
        },
        7,
        DestResult::Sent,
    ),
    // a frame leaves as soon as the bus has a place, and the limit of a flow control begins then
    (
        Row {
            free: 4,
            ticks: &[4],
            ..PLAIN
        },
        14,
        DestResult::BsTimeout,
    ),
    // a frame that lies in its box for its limit
    (Row { free: 6, ..PLAIN }, 5, DestResult::AsTimeout),
];

#[test]
fn frames_leave_in_their_ticks(rt: HostRuntime) -> Result<(), Fail> {
    for (row, end, result) in &ROWS {
        let mut hub = PlainHub::new(rt.alloc(), &[20], &[1])?;
        assert_eq!(rt;
            told(&mut hub, row),
            Some((row.ticks.len(), Tick(*end), *result))
        );
    }
    Ok(())
}
