//! Messages through a small buffer whose destination reads in some ticks: which flow controls leave, and how the reception ends.
ghost use Rattle.std.specs.Prelude.{◌≡◌, ◌+◌, ◌*◌, ◌<◌, ◌≤◌, ℕ, [], IfOk, IfSome, true, length};
ghost use Rattle.tp_receiver.specs.Port.{ActsFor, CanTake, IsServed, Knows};
ghost use Rattle.tp_receiver.specs.State.{WaitsBy, event_of as told_event};
ghost use Rattle.tp_receiver.specs.declared.set.RxSet.{RxSet};
ghost use Rattle.hub_core.specs.Calls.{Means, SameMeans};
ghost use Rattle.hub_core.specs.Tokens.{Reads};

use crate::tests::{SET, unit_of};
use gw_base::{DestNo, GroupNo, PathNo, Tick};
use hub_core::{Joined, PlainHub, Port, SessionRecord, SessionResult};
use std::alloc::Global;
use std::test::Fail;
use tp_receiver::*;
use tp_unit::{BoxAct, Unit};

/// The steps after which a reception that goes on is given up: four in a tick.
const STEPS: u32 = 80_000;

/// A flow control that leaves: its tick, its status, its block size.
pub type Control = (u64, u8, u8);

/// A message, how its frames come, and how its destination reads.
#[derive(Clone, Copy, Debug)]
pub struct Row<'a> {
    /// Its length in bytes, how many consecutive frames come, and how many ticks lie between the first frame, which comes in tick
    /// 0, and the first of them, beside the one; then one comes in each tick.
    pub len: u32,
    pub frames: u64,
    pub pause: u64,
    /// The ticks in which its destination reads a cell, where one is there: from the first on, below the second.
    pub reads: (u64, u64),
    /// The tick from which on the bus has a place for a flow control.
    pub free: u64,
    pub set: Configured,
    /// The flow controls that leave.
    pub controls: &'a [Control],
}

/// How the receiver is configured: its block size, its limits of waits and of ticks.
#[derive(Clone, Copy, Debug)]
pub struct Configured {
    pub bs: u8,
    pub wft_max: u8,
    pub n_ar: u32,
    pub n_br: u32,
    pub n_cr: u32,
}

/// The data of a message's first frame, of 4,095 bytes at most or of more.
fn first_frame(len: u32) -> [u8; 8] {
    let [b3, b2, b1, b0] = len.to_be_bytes();
    if len <= 4095 {
        return [0x10 + b1 % 16, b0, 0, 1, 2, 3, 4, 5];
    }
    [0x10, 0, b3, b2, b1, b0, 0, 1]
}

/// The data of its k-th consecutive frame.
fn next_frame(k: u64) -> [u8; 8] {
    [0x20 + (k % 16) as u8, 6, 7, 8, 9, 10, 11, 12]
}

/// What comes to a receiver in a step: the tick's frame, its timer, and that its flow control left, where one lies in the box
/// and the bus has a place for it.
fn event_at(row: &Row, step: u64, boxed: bool) -> Option<RxEvent>
    ensures { IfSome result (λ event. (set : RxSet) (means : Means) (next : ℕ) → set.a ≡ 0 → IsServed means next → CanTake set means next (told_event event)) }
{
    let tick = step / 4;
    match step % 4 {
        0 => frame_at(row, tick),
        1 => Some(RxEvent::Timer),
        3 if boxed && row.free <= tick => Some(RxEvent::FcLeft),
        _ => None,
    }
}

/// The consecutive frame that comes in a tick.
fn frame_at(row: &Row, tick: u64) -> Option<RxEvent>
    ensures { IfSome result (λ event. (set : RxSet) (means : Means) (next : ℕ) → set.a ≡ 0 → IsServed means next → CanTake set means next (told_event event)) }
{
    let k = tick.saturating_sub(row.pause);
    if k == 0 || k > row.frames {
        return None;
    }
    unit_of(0, &next_frame(k)).ok()
}

/// The flow control that lies in the box after an act.
fn boxed_after(act: &BoxAct, before: Option<(u8, u8)>) -> Option<(u8, u8)> {
    match act {
        BoxAct::Keep => before,
        BoxAct::Offer(Unit::Fc { fs, bs, st: _ }) => Some((*fs, *bs)),
        BoxAct::Offer(_) => None,
        BoxAct::Revoke => None,
    }
}

/// Whether this flow control is the one that leaves next; where none is listed, each is.
fn leaves_next(row: &Row, left: u32, tick: u64, boxed: Option<(u8, u8)>) -> bool {
    let Some((fs, bs)) = boxed else {
        return false;
    };
    row.controls.is_empty() || row.controls.get(left as usize) == Some(&(tick, fs, bs))
}

/// How many flow controls left with an event, each in the tick that the row has for it.
fn left_after(
    row: &Row,
    event: &RxEvent,
    left: u32,
    tick: u64,
    boxed: Option<(u8, u8)>,
) -> Option<u32>
    requires { left < 80000 }
    ensures { IfSome result (λ now. now ≤ left + 1) }
{
    if !matches!(event, RxEvent::FcLeft) {
        return Some(left);
    }
    if !leaves_next(row, left, tick, boxed) {
        return None;
    }
    Some(left + 1)
}

/// The flow control that lies in the box still, once an event came.
fn still_boxed(event: &RxEvent, boxed: Option<(u8, u8)>) -> Option<(u8, u8)> {
    match event {
        RxEvent::FcLeft => None,
        _ => boxed,
    }
}

/// Whether the destination reads in a step.
fn reads_in(row: &Row, step: u64) -> bool {
    let (from, to) = row.reads;
    step % 4 == 2 && from <= step / 4 && step / 4 < to
}

/// The destination reads a cell, where it reads and one is there.
#[tactic(auto, using(hub_core::proofs::Growing::reads_kept))]
fn read_cell<P: Port>(port: &mut P, reader: &mut Joined, reads: bool)
    requires reads { Reads (P.state port.old).view reader.old }
    ensures reads { Reads (P.state port.new).view reader.new }
    ensures sessions { (P.state port.new).view.sessions ≡ (P.state port.old).view.sessions }
    ensures means { SameMeans (P.state port.old).means (P.state port.new).means }
{
    if !reads {
        return;
    }
    let seen = port.seen(reader);
    if reader.at < seen.cells {
        port.read(reader);
    }
}

/// The record that a step made.
fn told_by(acts: &RxActs) -> Option<SessionRecord> {
    acts.records.first().copied()
}

/// Receives the frames of a message whose first one was received, while its destination reads: how many flow controls left, each
/// in the tick that the row has for it, and the record.
#[tactic(auto, using(crate::proofs::Playing::knows_kept, crate::proofs::Playing::reads_on))]
fn receive<P: Port>(
    port: &mut P,
    receiver: &mut Receiver,
    reader: &mut Joined,
    first: Option<(u8, u8)>,
    row: &Row,
) -> Option<(u32, SessionRecord)>
    requires acts { ActsFor receiver.old.set (P.state port.old).means }
    requires knows { Knows (P.state port.old).view receiver.old }
    requires tick { WaitsBy receiver.old 0 }
    requires address { receiver.old.set.a ≡ 0 }
    requires number { receiver.old.next_n ≤ 1 }
    requires reads { Reads (P.state port.old).view reader.old }
    requires takes { 80000 ≤ (P.state port.old).means.takes }
    requires spare { 720000 ≤ (P.state port.old).means.spare }
{
    let mut boxed = first;
    let mut left = 0;
    let mut steps = STEPS;
    let mut now = 0;
    for step in 1..u64::from(STEPS) {
        let tick = step / 4;
        if tick < now || steps == 0 {
            return None;
        }
        read_cell(port, reader, reads_in(row, step));
        let Some(event) = event_at(row, step, boxed.is_some()) else {
            continue;
        };
        left = left_after(row, &event, left, tick, boxed)?;
        boxed = still_boxed(&event, boxed);
        let acts = receiver.step(event, Tick(tick), port);
        if let Some(told) = told_by(&acts) {
            return Some((left, told));
        }
        boxed = boxed_after(&acts.fc, boxed);
        steps -= 1;
        now = tick;
    }
    None
}

/// How many flow controls of a message leave in their ticks, and the bytes, the tick and the result of its record.
fn told<P: Port>(port: &mut P, row: &Row) -> Option<(usize, u32, Tick, SessionResult)>
    requires group { 0 < length (P.state port.old).means.groups }
    requires takes { 80001 ≤ (P.state port.old).means.takes }
    requires spare { 720009 ≤ (P.state port.old).means.spare }
    requires writes { (P.state port.old).means.writes 0 ≡ true }
    requires reads { (P.state port.old).means.reads 0 0 ≡ true }
    requires most { 1 ≤ (P.state port.old).means.most }
    requires sessions { (P.state port.old).view.sessions 0 ≡ [] }
    requires readings { (P.state port.old).view.readings 0 0 ≡ [] }
{
    let Configured {
        bs,
        wft_max,
        n_ar,
        n_br,
        n_cr,
    } = row.set;
    let mut receiver = Receiver::new(RxSet {
        bs,
        wft_max,
        n_ar,
        n_br,
        n_cr,
        ..SET
    });
    let Ok(event) = unit_of(0, &first_frame(row.len)) else {
        return None;
    };
    let acts = receiver.step(event, Tick(0), port);
    let boxed = boxed_after(&acts.fc, None);
    let mut reader = port.next(GroupNo(0), PathNo(0), DestNo(0), 0)?;
    let (left, record) = receive(port, &mut receiver, &mut reader, boxed, row)?;
    Some((left as usize, record.bytes, record.end, record.result))
}

/// What comes of a message through a buffer of so many cells.
pub fn through(
    alloc: Global,
    cells: u32,
    row: &Row,
) -> Result<Option<(usize, u32, Tick, SessionResult)>, Fail>
    requires { (1 ≤ cells) × (cells ≤ 8192) }
{
    let mut hub = PlainHub::new(alloc, &[cells], &[1])?;
    Ok(told(&mut hub, row))
}
