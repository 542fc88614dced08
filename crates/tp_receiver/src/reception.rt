//! What a receiver is at: idle, or a reception with what it awaits.
ghost use Rattle.std.specs.Prelude.{◌≡◌, ◌≢◌, ◌+◌, ◌-◌, ◌%◌, ◌<◌, ◌≤◌, true, IsTrue, Some, ◌↔◌};
ghost use Rattle.tp_receiver.specs.Grant.{full_part, grant_in};
ghost use Rattle.tp_receiver.specs.Table.{awaited_after, awaited_since, ended, due, limit_of, one_less, revoking};
ghost use Rattle.tp_receiver.specs.State.{reception_of};
ghost use Rattle.tp_unit.specs.Unit.{box_meaning_of};

use crate::RxSet;
use flow_plan::{Grant, cells_of, grant, whole_cells};
use gw_base::Tick;
use hub_core::{Move, Opened, OpenedAt, RxWait, SessionRecord, SessionResult};
use tick_clock::Timer;
use tp_unit::BoxAct;

/// The number of sequence numbers.
const NUMBERS: u8 = 16;

/// Whether so many ticks are over since then.
pub(crate) fn is_over(since: Tick, limit: u32, tick: Tick) -> bool
    requires { since.0 ≤ tick.0 }
    ensures { IsTrue result ↔ (since.0 + limit ≤ tick.0) }
{
    let timer = Timer {
        since,
        limit: u64::from(limit),
    };
    timer.due(tick)
}

/// The bytes of a full consecutive frame, where the start's frame has `size` bytes and a frame `a` address bytes.
pub(crate) fn full_part(a: u8, size: u8) -> u32
    requires { a + 1 < size }
    ensures { result ≡ full_part a size }
{
    u32::from(size) - 1 - u32::from(a)
}

/// A reception in progress.
#[derive(Debug, Drop)]
pub(crate) struct Reception {
    /// The start's number on its channel, from 0.
    pub(crate) n: u32,
    /// The bytes of the start's frame.
    pub(crate) size: u8,
    pub(crate) begin: Tick,
    /// The sequence number that is due.
    pub(crate) number: u8,
    /// What is waited for, and since when.
    pub(crate) wait: RxWait,
    pub(crate) since: Tick,
    /// The frames that its last flow control lets come yet, where that sets a limit.
    pub(crate) left: Option<u8>,
    /// How many flow controls that ask to wait followed one another.
    pub(crate) waits: u8,
    /// The change that took the session's buffer.
    pub(crate) change: u32,
    pub(crate) writer: Opened,
}

/// What a receiver is at.
#[derive(Debug, Drop)]
pub(crate) enum State {
    Idle,
    Busy(Reception),
}

impl Reception {
    /// The bytes that the next consecutive frame must carry: a whole frame's, or what remains.
    pub(crate) fn due(&self, a: u8) -> usize
        ensures { result ≡ due a (reception_of self.now) }
    {
        let whole = usize::from(self.size)
            .saturating_sub(1)
            .saturating_sub(usize::from(a));
        let left = (self.writer.len as usize).saturating_sub(self.writer.given as usize);
        whole.min(left)
    }

    /// What becomes of its flow control where it ends: one that still lies in the box doesn't leave.
    pub(crate) fn revoking(&self) -> BoxAct
        ensures { box_meaning_of result ≡ revoking self.now.wait }
    {
        match self.wait {
            RxWait::Box => BoxAct::Revoke,
            RxWait::Room | RxWait::Cf => BoxAct::Keep,
        }
    }

    /// Its record, where it ends so in this tick.
    pub(crate) fn ended(&self, set: &RxSet, how: SessionResult, tick: Tick) -> SessionRecord
        ensures { result ≡ ended set.now (reception_of self.now) how tick.0 }
    {
        SessionRecord {
            chan: set.chan,
            n: self.n,
            len: self.writer.len,
            begin: self.begin,
            bytes: self.writer.given,
            end: tick,
            opened: Some(OpenedAt {
                seq: self.writer.seq,
                buf: self.writer.buf,
                change: self.change,
            }),
            result: how,
        }
    }

    /// The move of its buffer's take.
    pub(crate) fn taken(&self) -> Move
        ensures { result ≡ record { change = self.now.change; took = true; buf = self.now.writer.buf } }
    {
        Move {
            change: self.change,
            took: true,
            buf: self.writer.buf,
        }
    }

    /// Whether what it waits for was waited for as long as is configured.
    pub(crate) fn is_due(&self, set: &RxSet, tick: Tick) -> bool
        requires { self.now.since.0 ≤ tick.0 }
        ensures { IsTrue result ↔ (self.now.since.0 + limit_of set.now self.now.wait ≤ tick.0) }
    {
        let limit = match self.wait {
            RxWait::Box => set.n_ar,
            RxWait::Room => set.n_br,
            RxWait::Cf => set.n_cr,
        };
        is_over(self.since, limit, tick)
    }

    /// What is granted of what remains, where so many cells have room.
    pub(crate) fn granted(&self, set: &RxSet, room: u32) -> Grant
        requires size { set.now.a + 1 < self.now.size }
        requires len { self.now.writer.given ≤ self.now.writer.len }
        ensures { result ≡ grant_in set.now (reception_of self.now) room }
    {
        let part = full_part(set.a, self.size);
        let left = self.writer.len - self.writer.given;
        grant(
            set.bs,
            room,
            cells_of(part),
            whole_cells(left, 0, part),
            left.div_ceil(part),
        )
    }

    /// Whether the next frame is the last one that its flow control lets come.
    pub(crate) fn ends_block(&self) -> bool
        ensures { IsTrue result ↔ (self.now.left ≡ Some 1) }
    {
        matches!(self.left, Some(1))
    }

    /// What is waited for once its flow control left.
    pub(crate) fn awaited(&self) -> RxWait
        ensures { result ≡ awaited_after self.now.left }
    {
        match self.left {
            Some(0) => RxWait::Room,
            Some(_) | None => RxWait::Cf,
        }
    }

    /// Its flow control left in this tick, where it lay in the box.
    pub(crate) fn leave_box(&mut self, tick: Tick)
        ensures boxed { self.old.wait ≡ RxWait.Box → self.new ≡ record self.old { wait = awaited_after self.old.left; since = tick } }
        ensures stays { self.old.wait ≢ RxWait.Box → self.new ≡ self.old }
    {
        if matches!(self.wait, RxWait::Box) {
            self.wait = self.awaited();
            self.since = tick;
        }
    }

    /// The reception after a consecutive frame in this tick, whose bytes were put.
    pub(crate) fn gone_on(self, tick: Tick) -> Reception
        requires { self.number < 16 }
        ensures writer { result.writer ≡ self.writer }
        ensures number { result.number < 16 }
        ensures size { result.size ≡ self.size }
        ensures busy { reception_of result ≡ record (reception_of self) { number = (self.number + 1) % 16; since = awaited_since self.wait self.since.0 tick.0; left = one_less self.left; waits = 0 } }
    {
        let since = match self.wait {
            RxWait::Cf => tick,
            RxWait::Box | RxWait::Room => self.since,
        };
        Reception {
            number: (self.number + 1) % NUMBERS,
            since,
            left: self.left.map(|frames| frames.saturating_sub(1)),
            waits: 0,
            ..self
        }
    }
}
