//! What a receiver does with a single frame and a first frame.
use crate::granting::overflow;
use crate::putting::put_all;
use crate::reception::{Reception, State, full_part};
use crate::{Receiver, RxActs};
use cell_stream::pack;
use flow_plan::{cells_of, need, whole_cells};
use gw_base::Tick;
use hub_core::{Port, RxWait, SessionRecord, SessionResult, Take};
use std::mem;
use tp_unit::BoxAct;

impl Receiver {
    ghost use Rattle.std.specs.Prelude.{◌≡◌, ◌+◌, ◌<◌, ◌≤◌, [], None, IfOk, IfErr, MatchResult, length, take};
    ghost use Rattle.tp_receiver.specs.Port.{ActsFor, HasOpened, IsServed, Kept, Knows, KnowsReception, did_by, Refuses};
    ghost use Rattle.tp_receiver.specs.State.{WaitsBy, reception_of, reception_in, idle, state_of};
    ghost use Rattle.hub_core.specs.Turns.{OverPort};
    ghost use Rattle.tp_receiver.specs.Grant.{need_of};
    ghost use Rattle.tp_receiver.specs.Table.{Interrupts, Starts, after_opening};
    ghost use Rattle.hub_core.specs.Stays.{IsSamePort};
    ghost use Rattle.tp_unit.specs.Unit.{SingleFrame, FirstFrame};

    /// A single frame.
    pub(crate) fn single_frame<P: Port>(
        &mut self,
        bytes: &[u8],
        size: u8,
        tick: Tick,
        port: &mut P,
    ) -> RxActs
        requires acts { ActsFor self.old.set (P.state port.old).means }
        requires knows { Knows (P.state port.old).view self.old }
        requires served { IsServed (P.state port.old).means self.old.next_n }
        requires some { 0 < length bytes.now }
        requires most { length bytes.now ≤ 62 }
        requires size { self.old.set.a + length bytes.now < size }
        ensures over { OverPort (P.state port.old) (P.state port.new) result.moves.items (λ calls. Starts self.old.set (state_of self.old) size (SingleFrame bytes.now) (did_by tick.0 calls result (state_of self.new))) }
        ensures set { self.new.set ≡ self.old.set }
        ensures knows { Knows (P.state port.new).view self.new }
        ensures tick { WaitsBy self.old tick.0 → WaitsBy self.new tick.0 }
        ensures count { self.new.next_n ≡ self.old.next_n + 1 }
        ensures kept { Kept self.old.set.path.0 1 9 (P.state port.old).view (P.state port.new).view (P.state port.old).means (P.state port.new).means }
        ensures home { IsSamePort (P.state port.old) (P.state port.new) }
    {
        let acts = self.interrupt(tick, port);
        match self.open(bytes.len() as u32, size, bytes, tick, port) {
            Err(record) => {
                let told = RxActs::told(BoxAct::Keep, record);
                acts.then(told)
            }
            Ok(reception) => {
                let take = reception.taken();
                let left = self.end(reception, SessionResult::Whole, tick, port);
                let begun = left.after(take);
                acts.then(begun)
            }
        }
    }

    /// A first frame.
    pub(crate) fn first_frame<P: Port>(
        &mut self,
        len: u32,
        bytes: &[u8],
        size: u8,
        tick: Tick,
        port: &mut P,
    ) -> RxActs
        requires acts { ActsFor self.old.set (P.state port.old).means }
        requires knows { Knows (P.state port.old).view self.old }
        requires served { IsServed (P.state port.old).means self.old.next_n }
        requires more { length bytes.now < len }
        requires most { length bytes.now ≤ 62 }
        requires size { 8 ≤ size }
        ensures over { OverPort (P.state port.old) (P.state port.new) result.moves.items (λ calls. Starts self.old.set (state_of self.old) size (FirstFrame len bytes.now) (did_by tick.0 calls result (state_of self.new))) }
        ensures set { self.new.set ≡ self.old.set }
        ensures knows { Knows (P.state port.new).view self.new }
        ensures tick { WaitsBy self.old tick.0 → WaitsBy self.new tick.0 }
        ensures count { self.new.next_n ≡ self.old.next_n + 1 }
        ensures kept { Kept self.old.set.path.0 1 9 (P.state port.old).view (P.state port.new).view (P.state port.old).means (P.state port.new).means }
        ensures home { IsSamePort (P.state port.old) (P.state port.new) }
    {
        let acts = self.interrupt(tick, port);
        match self.open(len, size, bytes, tick, port) {
            Err(record) => {
                self.refusing = Some(tick);
                let told = RxActs::told(BoxAct::Offer(overflow()), record);
                acts.then(told)
            }
            Ok(reception) => {
                let take = reception.taken();
                let granted = self.grant(reception, tick, port);
                let begun = granted.after(take);
                acts.then(begun)
            }
        }
    }

    /// Ends a reception that another start interrupts.
    fn interrupt<P: Port>(&mut self, tick: Tick, port: &mut P) -> RxActs
        requires knows { Knows (P.state port.old).view self.old }
        ensures over { OverPort (P.state port.old) (P.state port.new) result.moves.items (λ calls. Interrupts self.old.set (state_of self.old) (reception_in self.old.state) (did_by tick.0 calls result (idle (state_of self.old)))) }
        ensures receiver { self.new ≡ record self.old { state = State.Idle } }
        ensures number { length ((P.state port.new).view.sessions self.old.set.path.0) ≡ self.old.next_seq }
        ensures records { length result.records.items ≤ 1 }
        ensures moves { length result.moves.items ≤ 1 }
        ensures kept { Kept self.old.set.path.0 0 0 (P.state port.old).view (P.state port.new).view (P.state port.old).means (P.state port.new).means }
        ensures home { IsSamePort (P.state port.old) (P.state port.new) }
    {
        match mem::replace(&mut self.state, State::Idle) {
            State::Idle => RxActs::nothing(),
            State::Busy(reception) => self.end(reception, SessionResult::Restarted, tick, port),
        }
    }

    /// Opens a session for a start and puts its bytes, or answers the record of the overflow.
    fn open<P: Port>(
        &mut self,
        len: u32,
        size: u8,
        bytes: &[u8],
        tick: Tick,
        port: &mut P,
    ) -> Result<Reception, SessionRecord>
        requires acts { ActsFor self.old.set (P.state port.old).means }
        requires state { self.old.state ≡ State.Idle }
        requires number { length ((P.state port.old).view.sessions self.old.set.path.0) ≡ self.old.next_seq }
        requires served { IsServed (P.state port.old).means self.old.next_n }
        requires some { 0 < len }
        requires within { length bytes.now ≤ len }
        requires most { length bytes.now ≤ 62 }
        requires size { self.old.set.a + 1 < size }
        ensures opened { IfOk result (λ r. HasOpened self.old.set self.old.next_n self.old.next_seq len size tick.0 bytes.now (P.state port.old).floors (P.state port.old).view (P.state port.new).view r) }
        ensures refused { IfErr result (λ told. OverPort (P.state port.old) (P.state port.new) [] (Refuses self.old.set self.old.next_n size len tick.0 bytes.now told)) }
        ensures set { self.new.set ≡ self.old.set }
        ensures state { self.new.state ≡ State.Idle }
        ensures next_n { self.new.next_n ≡ self.old.next_n + 1 }
        ensures numbers { MatchResult result (λ r. state_of self.new ≡ after_opening (state_of self.old)) (λ told. state_of self.new ≡ record (state_of self.old) { next = self.old.next_n + 1 }) }
        ensures number { length ((P.state port.new).view.sessions self.new.set.path.0) ≡ self.new.next_seq }
        ensures kept { Kept self.old.set.path.0 1 9 (P.state port.old).view (P.state port.new).view (P.state port.old).means (P.state port.new).means }
        ensures home { IsSamePort (P.state port.old) (P.state port.new) }
    {
        let n = self.next_n;
        self.next_n += 1;
        let cells = pack(bytes);
        let need = self.need(size, len, bytes.len() as u32);
        match port.take(self.set.group, need) {
            Take::Overflow { change, free } => Err(SessionRecord {
                chan: self.set.chan,
                n,
                len,
                begin: tick,
                bytes: 0,
                end: tick,
                opened: None,
                result: SessionResult::Overflow { change, free, need },
            }),
            Take::Granted { change, held } => {
                let seq = self.next_seq;
                let mut writer = port.enter(held, self.set.path, seq, len, self.set.readers);
                self.next_seq += 1;
                put_all(port, &mut writer, cells.as_slice());
                Ok(Reception {
                    n,
                    size,
                    begin: tick,
                    number: 1,
                    wait: RxWait::Cf,
                    since: tick,
                    left: None,
                    waits: 0,
                    change,
                    writer,
                })
            }
        }
    }

    /// The cells that a buffer must have for a message of `len` bytes, whose start carries `bytes` in a frame of `size`.
    fn need(&self, size: u8, len: u32, bytes: u32) -> u64
        requires size { self.now.set.a + 1 < size }
        requires within { bytes ≤ len }
        ensures { result ≡ need_of self.now.set size len bytes }
    {
        let part = full_part(self.set.a, size);
        need(
            cells_of(bytes),
            whole_cells(len, bytes, part),
            self.set.threshold,
            cells_of(part),
            self.set.store,
        )
    }
}
