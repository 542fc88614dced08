//! What a receiver does with a consecutive frame.
use crate::putting::put_all;
use crate::reception::{Reception, State};
use crate::{Receiver, RxActs};
use cell_stream::pack;
use gw_base::Tick;
use hub_core::{Port, SessionResult};
use std::mem;

impl Receiver {
    ghost use Rattle.std.specs.Prelude.{◌≡◌, ◌+◌, ◌<◌, ◌≤◌, length};
    ghost use Rattle.tp_receiver.specs.Port.{Kept, Knows, KnowsReception, did_by};
    ghost use Rattle.tp_receiver.specs.State.{WaitsBy, idle, reception_of, reception_in, state_of};
    ghost use Rattle.hub_core.specs.Turns.{OverPort};
    ghost use Rattle.tp_receiver.specs.Table.{Continues, Carries, ConsecutiveRow};
    ghost use Rattle.hub_core.specs.Stays.{IsSamePort};

    /// A consecutive frame.
    pub(crate) fn consecutive_frame<P: Port>(
        &mut self,
        sn: u8,
        bytes: &[u8],
        size: u8,
        tick: Tick,
        port: &mut P,
    ) -> RxActs
        requires knows { Knows (P.state port.old).view self.old }
        requires spare { 9 ≤ (P.state port.old).means.spare }
        requires most { length bytes.now ≤ 63 }
        ensures over { OverPort (P.state port.old) (P.state port.new) result.moves.items (λ calls. ConsecutiveRow self.old.set (state_of self.old) size sn bytes.now (reception_in self.old.state) (did_by tick.0 calls result (state_of self.new))) }
        ensures set { self.new.set ≡ self.old.set }
        ensures next_n { self.new.next_n ≡ self.old.next_n }
        ensures knows { Knows (P.state port.new).view self.new }
        ensures tick { WaitsBy self.old tick.0 → WaitsBy self.new tick.0 }
        ensures kept { Kept self.old.set.path.0 0 9 (P.state port.old).view (P.state port.new).view (P.state port.old).means (P.state port.new).means }
        ensures home { IsSamePort (P.state port.old) (P.state port.new) }
    {
        match mem::replace(&mut self.state, State::Idle) {
            State::Idle => RxActs::nothing(),
            State::Busy(reception) => self.look_at(reception, sn, bytes, size, tick, port),
        }
    }

    /// A consecutive frame of a reception.
    fn look_at<P: Port>(
        &mut self,
        reception: Reception,
        sn: u8,
        bytes: &[u8],
        size: u8,
        tick: Tick,
        port: &mut P,
    ) -> RxActs
        requires state { self.old.state ≡ State.Idle }
        requires number { length ((P.state port.old).view.sessions self.old.set.path.0) ≡ self.old.next_seq }
        requires knows { KnowsReception (P.state port.old).view self.old.set.path.0 reception }
        requires spare { 9 ≤ (P.state port.old).means.spare }
        requires most { length bytes.now ≤ 63 }
        ensures over { OverPort (P.state port.old) (P.state port.new) result.moves.items (λ calls. Continues self.old.set (idle (state_of self.old)) (reception_of reception) size sn bytes.now (did_by tick.0 calls result (state_of self.new))) }
        ensures set { self.new.set ≡ self.old.set }
        ensures next_n { self.new.next_n ≡ self.old.next_n }
        ensures knows { Knows (P.state port.new).view self.new }
        ensures tick { WaitsBy self.old tick.0 → reception.since.0 ≤ tick.0 → WaitsBy self.new tick.0 }
        ensures kept { Kept self.old.set.path.0 0 9 (P.state port.old).view (P.state port.new).view (P.state port.old).means (P.state port.new).means }
        ensures home { IsSamePort (P.state port.old) (P.state port.new) }
    {
        let due = reception.due(self.set.a);
        if size > reception.size {
            self.state = State::Busy(reception);
            return RxActs::nothing();
        }
        if bytes.len() < due {
            self.state = State::Busy(reception);
            return RxActs::nothing();
        }
        if sn != reception.number {
            let wrong = SessionResult::WrongSn {
                want: reception.number,
                got: sn,
            };
            return self.end(reception, wrong, tick, port);
        }
        self.carry(reception, &bytes[..due], tick, port)
    }

    /// The bytes that are due.
    fn carry<P: Port>(
        &mut self,
        mut reception: Reception,
        bytes: &[u8],
        tick: Tick,
        port: &mut P,
    ) -> RxActs
        requires state { self.old.state ≡ State.Idle }
        requires number { length ((P.state port.old).view.sessions self.old.set.path.0) ≡ self.old.next_seq }
        requires knows { KnowsReception (P.state port.old).view self.old.set.path.0 reception }
        requires spare { 9 ≤ (P.state port.old).means.spare }
        requires most { length bytes.now ≤ 63 }
        requires within { reception.writer.given + length bytes.now ≤ reception.writer.len }
        ensures over { OverPort (P.state port.old) (P.state port.new) result.moves.items (λ calls. Carries self.old.set (idle (state_of self.old)) (reception_of reception) bytes.now (did_by tick.0 calls result (state_of self.new))) }
        ensures set { self.new.set ≡ self.old.set }
        ensures next_n { self.new.next_n ≡ self.old.next_n }
        ensures knows { Knows (P.state port.new).view self.new }
        ensures tick { WaitsBy self.old tick.0 → reception.since.0 ≤ tick.0 → WaitsBy self.new tick.0 }
        ensures kept { Kept self.old.set.path.0 0 9 (P.state port.old).view (P.state port.new).view (P.state port.old).means (P.state port.new).means }
        ensures home { IsSamePort (P.state port.old) (P.state port.new) }
    {
        let room = port.room(&mut reception.writer);
        if room.readers == 0 {
            return self.end(reception, SessionResult::NoReaders, tick, port);
        }
        let cells = pack(bytes);
        let need = cells.len() as u32;
        if room.cells < need {
            let room = room.cells;
            return self.end(reception, SessionResult::NoRoom { room, need }, tick, port);
        }
        put_all(port, &mut reception.writer, cells.as_slice());
        let ends_block = reception.ends_block();
        let reception = reception.gone_on(tick);
        if reception.writer.given == reception.writer.len {
            return self.end(reception, SessionResult::Whole, tick, port);
        }
        if ends_block {
            return self.grant(reception, tick, port);
        }
        self.state = State::Busy(reception);
        RxActs::nothing()
    }
}
