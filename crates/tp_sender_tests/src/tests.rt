ghost use Rattle.std.specs.Prelude.{◌≡◌, ◌+◌, ◌<◌, ◌≤◌, Option, None, true, length};
ghost use Rattle.tp_sender.specs.Port.{ActsFor, Knows};
ghost use Rattle.hub_core.specs.Tokens.{Writes};
ghost use Rattle.tp_unit.specs.Unit.{box_meaning_of};
ghost use Rattle.tp_sender.specs.State.{HasFrame, IsInBox, StillHasFrame, state_of, Transmission};
ghost use Rattle.tp_sender.specs.declared.event.TxEvent.{TxEvent as Came};
ghost use Rattle.tp_sender.specs.declared.event.TxEvent.TheVariants.{Left as FrameLeft};

use can_frame::CanId;
use gw_base::{DestNo, GroupNo, PathNo, Tick};
use hub_core::{DestRecord, DestResult, End, PlainHub, Port, Take, TxWait};
use std::test::Fail;
use tp_sender::*;
use tp_unit::{BoxAct, Shape};

/// The bytes 00 to 13 in the cells of a first frame and two consecutive frames, and the bytes 11 22 in one cell.
const FIRST: u64 = 0x0005_0403_0201_0006;

const SECOND: u64 = 0x0C0B_0A09_0807_0607;

const THIRD: u64 = 0x1312_1110_0F0E_0D07;

const SHORT: u64 = 0x0022_1102;

/// The flow control that lets all frames come.
const CONTINUE: TxEvent = TxEvent::Fc {
    fs: 0,
    bs: 0,
    st: 0,
};

const SET: TxSet = TxSet {
    path: PathNo(0),
    group: GroupNo(0),
    dest: DestNo(0),
    shape: Shape {
        id: CanId::Std(0x710),
        fd: false,
        brs: false,
        address: None,
        dl: 8,
        pad: false,
        fill: 204,
    },
    threshold: 1,
    store: false,
    n_as: 1000,
    n_bs: 1000,
    n_cs: 1000,
    period: 1000,
};

/// What the writer of a session writes before it leaves.
#[derive(Clone, Copy, Debug)]
enum Source {
    /// A unit of 2 bytes.
    Short,
    /// The first 6 bytes of a unit of 20.
    Begun,
    /// A unit of 20 bytes.
    Whole,
}

/// Writes a session on path 0 and leaves it.
#[tactic(auto, using(hub_core::proofs::Growing::writes_kept, hub_core::proofs::Growing::reads_kept))]
fn write<P: Port>(port: &mut P, source: Source) -> bool
    requires group { 0 < length (P.state port.old).means.groups }
    requires takes { 0 < (P.state port.old).means.takes }
    requires spare { 2 < (P.state port.old).means.spare }
    requires writes { (P.state port.old).means.writes 0 ≡ true }
    requires most { 1 ≤ (P.state port.old).means.most }
    requires sessions { length ((P.state port.old).view.sessions 0) ≡ 0 }
    ensures readings { (P.state port.new).view.readings ≡ (P.state port.old).view.readings }
    ensures reads { (P.state port.new).means.reads ≡ (P.state port.old).means.reads }
    ensures groups { (P.state port.new).means.groups ≡ (P.state port.old).means.groups }
{
    let Take::Granted { change: _, held } = port.take(GroupNo(0), 1) else {
        return false;
    };
    match source {
        Source::Short => {
            let mut writer = port.enter(held, PathNo(0), 0, 2, 1);
            port.put(&mut writer, SHORT);
            port.publish(&mut writer, 2);
            port.leave(End::Write(writer));
        }
        Source::Begun => {
            let mut writer = port.enter(held, PathNo(0), 0, 20, 1);
            port.put(&mut writer, FIRST);
            port.publish(&mut writer, 6);
            port.leave(End::Write(writer));
        }
        Source::Whole => {
            let mut writer = port.enter(held, PathNo(0), 0, 20, 1);
            if writer.room < 3 {
                port.leave(End::Write(writer));
                return false;
            }
            port.put(&mut writer, FIRST);
            port.put(&mut writer, SECOND);
            port.put(&mut writer, THIRD);
            port.publish(&mut writer, 20);
            port.leave(End::Write(writer));
        }
    }
    true
}

/// Whether the event may come to a sender with a frame in its box, or without.
fn may_come(event: TxEvent, full: bool) -> bool
    ensures left { result ≡ true → event ≡ FrameLeft → full ≡ true }
{
    match event {
        TxEvent::Turn => true,
        TxEvent::Fc {
            fs: _,
            bs: _,
            st: _,
        } => true,
        TxEvent::Left => full,
        TxEvent::RunEnd => true,
    }
}

/// Whether the box still holds a frame once the event came.
pub fn still_full(event: TxEvent, full: bool) -> bool
    ensures { (live : Option Transmission) → (full ≡ true → HasFrame live) → result ≡ true → StillHasFrame event live }
{
    match event {
        TxEvent::Turn => full,
        TxEvent::Fc {
            fs: _,
            bs: _,
            st: _,
        } => full,
        TxEvent::Left => false,
        TxEvent::RunEnd => full,
    }
}

/// Whether the box holds a frame after the act.
pub fn full_after(boxed: &BoxAct, still: bool) -> bool
    ensures { (event : Came) (old new : Option Transmission) → (still ≡ true → StillHasFrame event old) → IsInBox (box_meaning_of boxed.now) (StillHasFrame event old) new → result ≡ true → HasFrame new }
{
    match boxed {
        BoxAct::Keep => still,
        BoxAct::Offer(_) => true,
        BoxAct::Revoke => false,
    }
}

/// Plays events to a sender, and answers the record of the first session that it ends.
fn play<P: Port>(port: &mut P, sender: &mut Sender, events: &[(TxEvent, u64)]) -> Option<DestRecord>
    requires knows { Knows (P.state port.old).view sender.old }
    requires acts { ActsFor (P.state port.old).means sender.old }
    requires idle { (state_of sender.old).live ≡ None }
{
    let mut full = false;
    let mut now = 0;
    for (event, tick) in events {
        let (event, tick) = (*event, *tick);
        if tick < now || tick > 10_000_000 || !may_come(event, full) {
            return None;
        }
        let acts = sender.step(event, Tick(tick), port);
        if acts.ended.is_some() {
            return acts.ended;
        }
        full = full_after(&acts.boxed, still_full(event, full));
        now = tick;
    }
    None
}

/// The record of a session that is written and then sent as the events come.
fn outcome<P: Port>(port: &mut P, source: Source, events: &[(TxEvent, u64)]) -> Option<DestRecord>
    requires group { 0 < length (P.state port.old).means.groups }
    requires takes { 0 < (P.state port.old).means.takes }
    requires spare { 2 < (P.state port.old).means.spare }
    requires writes { (P.state port.old).means.writes 0 ≡ true }
    requires reads { (P.state port.old).means.reads 0 0 ≡ true }
    requires most { 1 ≤ (P.state port.old).means.most }
    requires sessions { length ((P.state port.old).view.sessions 0) ≡ 0 }
    requires readings { length ((P.state port.old).view.readings 0 0) ≡ 0 }
{
    if !write(port, source) {
        return None;
    }
    let mut sender = Sender::new(SET);
    play(port, &mut sender, events)
}

/// A source, the events with their ticks, and the record: the bytes sent, its end, its result.
type Row<'a> = (Source, &'a [(TxEvent, u64)], u32, u64, DestResult);

const ROWS: [Row; 6] = [
    (
        Source::Short,
        &[(TxEvent::Turn, 0), (TxEvent::Left, 0)],
        2,
        0,
        DestResult::Sent,
    ),
    (
        Source::Whole,
        &[
            (TxEvent::Turn, 0),
            (TxEvent::Left, 0),
            (CONTINUE, 1),
            (TxEvent::Turn, 2),
            (TxEvent::Left, 2),
            (TxEvent::Turn, 3),
            (TxEvent::Left, 3),
        ],
        20,
        3,
        DestResult::Sent,
    ),
    (
        Source::Whole,
        &[
            (TxEvent::Turn, 0),
            (TxEvent::Left, 0),
            (TxEvent::Turn, 999),
            (TxEvent::Turn, 1000),
        ],
        6,
        1000,
        DestResult::BsTimeout,
    ),
    (
        Source::Begun,
        &[
            (TxEvent::Turn, 0),
            (TxEvent::Left, 0),
            (CONTINUE, 1),
            (TxEvent::Turn, 2),
        ],
        6,
        2,
        DestResult::SourceEnded,
    ),
    (
        Source::Whole,
        &[(TxEvent::Turn, 0), (TxEvent::Left, 0), (TxEvent::RunEnd, 3)],
        6,
        3,
        DestResult::RunEnd {
            wait: TxWait::Fc,
            since: Tick(0),
        },
    ),
    (
        Source::Short,
        &[(TxEvent::RunEnd, 3)],
        0,
        3,
        DestResult::RunEnd {
            wait: TxWait::Turn,
            since: Tick(3),
        },
    ),
];

#[test]
fn sessions_end_as_their_rows_say(rt: HostRuntime) -> Result<(), Fail> {
    for (source, events, sent, end, result) in ROWS {
        let mut hub = PlainHub::new(rt.alloc(), &[4], &[1])?;
        let told = outcome(&mut hub, source, events);
        assert_eq!(rt;
            told.map(|r| (r.sent, r.end, r.result)),
            Some((sent, Tick(end), result))
        );
    }
    Ok(())
}
