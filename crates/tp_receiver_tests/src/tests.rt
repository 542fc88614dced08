//! Receptions in blocks over a plain hub, step by step.
ghost use Rattle.std.specs.Prelude.{◌≡◌, ◌<◌, ◌≤◌, ℕ, true, [], IfOk, length};
ghost use Rattle.tp_receiver.specs.Port.{CanTake, IsServed};
ghost use Rattle.tp_receiver.specs.State.{event_of};
ghost use Rattle.hub_core.specs.Calls.{Means};
ghost use Rattle.tp_receiver.specs.Set.{IsRxSet};
ghost use Rattle.tp_receiver.specs.declared.set.RxSet.{RxSet};

use can_frame::{CanId, Frame, FrameFault};
use gw_base::{BufNo, ChanNo, GroupNo, PathNo, Tick};
use hub_core::{OpenedAt, PlainHub, Port, RxLimit, RxWait, SessionRecord, SessionResult};
use std::alloc::Global;
use std::process::Abort;
use std::test::Fail;
use tp_receiver::*;
use tp_unit::{BoxAct, Unit, read_unit};

/// A channel with normal addressing, and a path to one destination.
pub const SET: RxSet = RxSet {
    chan: ChanNo(0),
    path: PathNo(0),
    group: GroupNo(0),
    readers: 1,
    a: 0,
    functional: false,
    bs: 0,
    st: 0,
    wft_max: 16,
    n_ar: 1000,
    n_br: 10,
    n_cr: 1000,
    threshold: 1,
    store: false,
};

/// A first frame of 20 bytes, its two consecutive frames, and a single frame.
pub const FIRST: [u8; 8] = [0x10, 0x14, 0, 1, 2, 3, 4, 5];

pub const NEXT: [u8; 8] = [0x21, 6, 7, 8, 9, 10, 11, 12];

pub const LAST: [u8; 8] = [0x22, 13, 14, 15, 16, 17, 18, 19];

pub const SINGLE: [u8; 4] = [3, 0xAA, 0xBB, 0xCC];

/// The first session, in the one buffer.
const OPENED: OpenedAt = OpenedAt {
    seq: 0,
    buf: BufNo(0),
    change: 1,
};

/// What a receiver is told in a row.
#[derive(Clone, Copy)]
pub enum Told {
    Frame(&'static [u8]),
    Timer,
    Left,
    End,
}

/// What is done with its box.
#[derive(Clone, Copy, Debug, PartialEq, Eq)]
pub enum Boxed {
    Keep,
    Offer { fs: u8, bs: u8, st: u8 },
    Other,
    Revoke,
}

/// A step: its tick, what is told, what is done with the box, and the records that it makes.
#[derive(Clone, Copy)]
pub struct Row {
    pub tick: u64,
    pub told: Told,
    pub fc: Boxed,
    pub records: [Option<SessionRecord>; 2],
}

/// The flow control that lets the sender go on, and the one that refuses a message.
pub const CONTINUE: Boxed = Boxed::Offer {
    fs: 0,
    bs: 0,
    st: 0,
};

pub const OVERFLOW: Boxed = Boxed::Offer {
    fs: 2,
    bs: 0,
    st: 0,
};

/// A row that makes no record.
pub fn silent(tick: u64, told: Told, fc: Boxed) -> Row {
    Row {
        tick,
        told,
        fc,
        records: [None, None],
    }
}

/// The record of the first start, of 20 bytes in tick 0, in the first session.
pub fn first_ended(bytes: u32, end: u64, how: SessionResult) -> SessionRecord {
    SessionRecord {
        chan: ChanNo(0),
        n: 0,
        len: 20,
        begin: Tick(0),
        bytes,
        end: Tick(end),
        opened: Some(OPENED),
        result: how,
    }
}

/// The record of a start that finds the one buffer taken.
pub fn refused(n: u32, len: u32, tick: u64) -> SessionRecord {
    SessionRecord {
        chan: ChanNo(0),
        n,
        len,
        begin: Tick(tick),
        bytes: 0,
        end: Tick(tick),
        opened: None,
        result: SessionResult::Overflow {
            change: 1,
            free: 0,
            need: 1,
        },
    }
}

/// The unit of a frame with these data.
pub fn unit_of(a: u8, bytes: &[u8]) -> Result<RxEvent, FrameFault>
    requires { a ≤ 1 }
    ensures { IfOk result (λ event. (set : RxSet) (means : Means) (next : ℕ) → set.a ≡ a → IsServed means next → CanTake set means next (event_of event)) }
{
    let frame = Frame::new(CanId::Std(0x700), false, false, bytes)?;
    let unit = read_unit(a, &frame);
    let dl = frame.bytes().len() as u8;
    Ok(RxEvent::Unit { unit, dl })
}

/// What is told, as the receiver takes it.
fn event_of(a: u8, told: Told) -> Result<RxEvent, FrameFault>
    requires { a ≤ 1 }
    ensures { IfOk result (λ event. (set : RxSet) (means : Means) (next : ℕ) → set.a ≡ a → IsServed means next → CanTake set means next (event_of event)) }
{
    match told {
        Told::Frame(bytes) => unit_of(a, bytes),
        Told::Timer => Ok(RxEvent::Timer),
        Told::Left => Ok(RxEvent::FcLeft),
        Told::End => Ok(RxEvent::RunEnd),
    }
}

/// What an act does.
fn done_by(act: &BoxAct) -> Boxed {
    match act {
        BoxAct::Keep => Boxed::Keep,
        BoxAct::Offer(Unit::Fc { fs, bs, st }) => Boxed::Offer {
            fs: *fs,
            bs: *bs,
            st: *st,
        },
        BoxAct::Offer(_) => Boxed::Other,
        BoxAct::Revoke => Boxed::Revoke,
    }
}

/// Plays the rows on a receiver, configured so, and a port.
fn play_on<P: Port>(rt: &impl Abort, port: &mut P, set: RxSet, rows: &[Row]) -> Result<(), Fail>
    requires path { (set.path.0 ≡ 0) × (set.group.0 ≡ 0) }
    requires set { (set.readers ≡ 1) × (set.a ≡ 0) }
    requires rows { length rows.now ≤ 16 }
    requires group { 0 < length (P.state port.old).means.groups }
    requires takes { 16 ≤ (P.state port.old).means.takes }
    requires spare { 144 ≤ (P.state port.old).means.spare }
    requires writes { (P.state port.old).means.writes 0 ≡ true }
    requires most { 1 ≤ (P.state port.old).means.most }
    requires sessions { (P.state port.old).view.sessions 0 ≡ [] }
{
    let mut receiver = Receiver::new(set);
    let mut now = 0;
    for row in rows {
        let Row {
            tick,
            told,
            fc,
            records: [first, second],
        } = *row;
        assert!(rt; now <= tick);
        now = tick;
        let event = event_of(0, told)?;
        let acts = receiver.step(event, Tick(now), port);
        assert_eq!(rt; done_by(&acts.fc), fc);
        assert_eq!(rt; acts.records.first().copied(), first);
        assert_eq!(rt; acts.records.get(1).copied(), second);
    }
    Ok(())
}

/// Plays the rows on a hub of one buffer of four cells, whose destination never joins.
pub fn play(rt: &impl Abort, alloc: Global, rows: &[Row]) -> Result<(), Fail>
    requires { length rows.now ≤ 16 }
{
    let mut hub = PlainHub::new(alloc, &[4], &[1])?;
    play_on(rt, &mut hub, SET, rows)
}

/// The same with a flow control that lies in its box for five ticks at most.
pub fn play_boxed(rt: &impl Abort, alloc: Global, rows: &[Row]) -> Result<(), Fail>
    requires { length rows.now ≤ 16 }
{
    let mut hub = PlainHub::new(alloc, &[4], &[1])?;
    play_on(rt, &mut hub, RxSet { n_ar: 5, ..SET }, rows)
}

#[test]
fn a_message_is_whole(rt: HostRuntime) -> Result<(), Fail> {
    let whole = first_ended(20, 3, SessionResult::Whole);
    let rows = [
        silent(0, Told::Frame(&FIRST), CONTINUE),
        silent(0, Told::Left, Boxed::Keep),
        silent(2, Told::Frame(&NEXT), Boxed::Keep),
        silent(2, Told::Timer, Boxed::Keep),
        Row {
            tick: 3,
            told: Told::Frame(&LAST),
            fc: Boxed::Keep,
            records: [Some(whole), None],
        },
        silent(3, Told::End, Boxed::Keep),
    ];
    play(&rt, rt.alloc(), &rows)
}

#[test]
fn a_start_ends_the_reception_and_finds_no_buffer(rt: HostRuntime) -> Result<(), Fail> {
    let restarted = first_ended(6, 2, SessionResult::Restarted);
    let rows = [
        silent(0, Told::Frame(&FIRST), CONTINUE),
        silent(0, Told::Left, Boxed::Keep),
        Row {
            tick: 2,
            told: Told::Frame(&SINGLE),
            fc: Boxed::Keep,
            records: [Some(restarted), Some(refused(1, 3, 2))],
        },
        Row {
            tick: 4,
            told: Told::Frame(&FIRST),
            fc: OVERFLOW,
            records: [Some(refused(2, 20, 4)), None],
        },
    ];
    play(&rt, rt.alloc(), &rows)
}

#[test]
fn a_wrong_number_and_a_late_frame_end_a_reception(rt: HostRuntime) -> Result<(), Fail> {
    let wrong = first_ended(6, 1, SessionResult::WrongSn { want: 1, got: 2 });
    play(
        &rt,
        rt.alloc(),
        &[
            silent(0, Told::Frame(&FIRST), CONTINUE),
            Row {
                tick: 1,
                told: Told::Frame(&LAST),
                fc: Boxed::Revoke,
                records: [Some(wrong), None],
            },
        ],
    )?;
    let late = first_ended(13, 1002, SessionResult::RxTimeout(RxLimit::Cf));
    play(
        &rt,
        rt.alloc(),
        &[
            silent(0, Told::Frame(&FIRST), CONTINUE),
            silent(1, Told::Left, Boxed::Keep),
            silent(2, Told::Frame(&NEXT), Boxed::Keep),
            silent(1001, Told::Timer, Boxed::Keep),
            Row {
                tick: 1002,
                told: Told::Timer,
                fc: Boxed::Keep,
                records: [Some(late), None],
            },
            silent(1003, Told::Frame(&LAST), Boxed::Keep),
        ],
    )?;
    let ended = first_ended(
        6,
        5,
        SessionResult::RunEnd {
            wait: RxWait::Box,
            since: Tick(0),
        },
    );
    play(
        &rt,
        rt.alloc(),
        &[
            silent(0, Told::Frame(&FIRST), CONTINUE),
            Row {
                tick: 5,
                told: Told::End,
                fc: Boxed::Revoke,
                records: [Some(ended), None],
            },
        ],
    )
}
