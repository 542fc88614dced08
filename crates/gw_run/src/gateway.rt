//! The receiver of the source channel and the sender of the destination at work over one hub, step by step.
ghost use Rattle.std.specs.Prelude.{◌≡◌, ◌⊎◌, ◌+◌, ◌<◌, ◌≤◌, [], ◌∷◌, ◌++◌, List, ℕ, false, length, IfOk, OnOk};
ghost use Rattle.tp_unit.specs.Box.{Answer};
ghost use Rattle.tp_sender.specs.State.{TxTurn};
ghost use Rattle.tp_receiver.specs.State.{FcLeft, event_of, RxTurn};
ghost use Rattle.std.specs.Bool.{MatchBool};
ghost use Rattle.hub_core.specs.View.{View};
ghost use Rattle.tp_attempts.specs.Seen.{Seen};
ghost use Rattle.tp_sender.specs.declared.event.TxEvent.TheVariants.{Left, RunEnd};
ghost use Rattle.gw_law.specs.Channels.{answer_in, bytes_of_address};
ghost use Rattle.gw_run.specs.Frames.{address_of, seen_by, unit_for};
ghost use Rattle.gw_run.specs.Standing.{AtBarrier, Finishes, FitsIn, InDestination, InSource, IsQuiet, Lies, Stands, lying};
ghost use Rattle.gw_run.specs.Telling.{CanTell, CanTellSender, EndsTelling, IsOver, LeavesControl, LeavesFrame, Tells, TellsReceiver, TellsSender};

use crate::address::Address;
use crate::boxes::{leave, put};
use crate::machines::Machines;
use crate::notes::{note, note_all};
use crate::played::{Played, Sent};
use can_frame::Frame;
use gw_base::{GroupNo, ListOf, Memory, Tick};
use hub_core::PlainHub;
use session_report::{
    DestLines, GroupMoveLines, GroupPoolLines, IfLines, MoveLines, PoolLine, Report, SessionLines,
};
use std::alloc::Global;
use tick_clock::Clock;
use tp_receiver::{Receiver, RxActs, RxEvent};
use tp_sender::{Sender, TxActs, TxEvent};
use tp_unit::Unit;

/// The version of a report of one group, in which no unit was refused.
const REPORT_VERSION: u8 = 1;

/// The free set of a pool whose one buffer is free.
const ALL_FREE: u64 = 1;

/// The place of the number of changes in the pool word; the free set stands below it.
const ONE_CHANGE: u64 = 0x1_0000_0000;

/// The two machines over one hub, with what lies in their boxes, what left and what is told.
#[derive(Drop)]
pub(crate) struct Gateway {
    machines: Machines,
    hub: PlainHub,
    receiver: Receiver,
    /// The box of the source channel's flow controls.
    control: Option<Unit>,
    sender: Sender,
    /// The box of the destination's frames.
    frame: Option<Unit>,
    controls: ListOf<Sent>,
    frames: ListOf<Sent>,
    sessions: SessionLines,
    dests: DestLines,
    moves: MoveLines,
}

impl Gateway {
    /// A gateway at the barrier before tick 0.
    pub(crate) fn new(alloc: Global, machines: &Machines) -> Result<Gateway, Memory>
        ensures machines { IfOk result (λ g. g.machines ≡ machines.now) }
        ensures barrier { IfOk result (λ g. AtBarrier (machines.now.cells ∷ []) g [] [] 0) }
    {
        Ok(Gateway {
            machines: *machines,
            hub: PlainHub::new(alloc, &[machines.cells], &[1])?,
            receiver: Receiver::new(machines.rx),
            control: None,
            sender: Sender::new(machines.tx),
            frame: None,
            controls: ListOf::new(alloc),
            frames: ListOf::new(alloc),
            sessions: ListOf::new(alloc),
            dests: ListOf::new(alloc),
            moves: ListOf::new(alloc),
        })
    }

    /// Whether anything goes on: then no tick may be left out.
    pub(crate) fn is_live(&self) -> bool
        ensures { result ≡ false → IsQuiet self.now }
    {
        if self.receiver.busy() {
            return true;
        }
        if self.sender.live() {
            return true;
        }
        if self.control.is_some() || self.frame.is_some() {
            return true;
        }
        self.hub.word(GroupNo(0)) % ONE_CHANGE != ALL_FREE
    }

    /// A frame of the source channel, which has that address, came.
    pub(crate) fn receive(
        &mut self,
        tick: Tick,
        address: Address,
        frame: &Frame,
    ) -> Result<(), Memory>
        requires address { self.old.machines.rx.a ≡ bytes_of_address address.byte }
        requires at { (seen : List Seen) × (answers : List Answer) × (length seen < 1_000_000) × (sizes : List ℕ) × InSource sizes self.old seen answers tick.0 }
        ensures machines { OnOk result (self.new.machines ≡ self.old.machines) }
        ensures step { OnOk result ((sizes : List ℕ) (seen : List Seen) (answers : List Answer) → InSource sizes self.old seen answers tick.0 → InSource sizes self.new (seen ++ seen_by (address_of address) tick.0 frame.now ∷ []) answers tick.0) }
    {
        let event = RxEvent::Unit {
            unit: address.unit(frame),
            dl: frame.bytes().len() as u8,
        };
        self.tell_receiver(event, tick)?;
        Ok(())
    }

    /// The end of the source's part of a tick: the receiver's timer, and the flow control in its box leaves.
    pub(crate) fn end_source(&mut self, tick: Tick) -> Result<(), Memory>
        requires { (seen : List Seen) × (answers : List Answer) × (sizes : List ℕ) × InSource sizes self.old seen answers tick.0 }
        ensures machines { OnOk result (self.new.machines ≡ self.old.machines) }
        ensures step { OnOk result ((sizes : List ℕ) (seen : List Seen) (answers : List Answer) → InSource sizes self.old seen answers tick.0 → InDestination sizes self.new seen answers tick.0) }
    {
        self.tell_receiver(RxEvent::Timer, tick)?;
        self.leave_control(tick)?;
        Ok(())
    }

    /// A frame of the destination's channel, which has that address, came: a flow control goes to the sender.
    pub(crate) fn answer(
        &mut self,
        tick: Tick,
        address: Address,
        frame: &Frame,
    ) -> Result<(), Memory>
        requires tick { tick.0 ≤ 10_000_000 }
        requires at { (seen : List Seen) × (answers : List Answer) × (sizes : List ℕ) × InDestination sizes self.old seen answers tick.0 }
        ensures machines { OnOk result (self.new.machines ≡ self.old.machines) }
        ensures step { OnOk result ((sizes : List ℕ) (seen : List Seen) (answers : List Answer) → InDestination sizes self.old seen answers tick.0 → InDestination sizes self.new seen (answers ++ answer_in tick.0 (unit_for (address_of address) frame.now)) tick.0) }
    {
        match address.unit(frame) {
            Unit::Fc { fs, bs, st } => {
                self.tell_sender(TxEvent::Fc { fs, bs, st }, tick)?;
                Ok(())
            }
            Unit::Sf { .. } | Unit::Ff { .. } | Unit::Cf { .. } | Unit::Ignored(_) => Ok(()),
        }
    }

    /// The end of a tick: the sender's turn, and the frame in its box leaves.
    pub(crate) fn end_destination(&mut self, tick: Tick) -> Result<(), Memory>
        requires tick { tick.0 ≤ 10_000_000 }
        requires at { (seen : List Seen) × (answers : List Answer) × (sizes : List ℕ) × InDestination sizes self.old seen answers tick.0 }
        ensures machines { OnOk result (self.new.machines ≡ self.old.machines) }
        ensures step { OnOk result ((sizes : List ℕ) (seen : List Seen) (answers : List Answer) → InDestination sizes self.old seen answers tick.0 → AtBarrier sizes self.new seen answers (tick.0 + 1)) }
    {
        self.tell_sender(TxEvent::Turn, tick)?;
        self.leave_frame(tick)?;
        Ok(())
    }

    /// The run's end in its last tick: both machines are told, and this is what the run tells.
    pub(crate) fn finish(
        mut self,
        alloc: Global,
        clock: &Clock,
        last: Tick,
    ) -> Result<Played, Memory>
        requires tick { last.0 ≤ 10_000_000 }
        requires at { (seen : List Seen) × (answers : List Answer) × (next : ℕ) × (next ≤ last.0 + 1) × (IsQuiet self ⊎ (next ≡ last.0 + 1)) × (sizes : List ℕ) × AtBarrier sizes self seen answers next }
        ensures { IfOk result (λ told. (sizes : List ℕ) (seen : List Seen) (answers : List Answer) (next : ℕ) → next ≤ last.0 + 1 → IsQuiet self ⊎ (next ≡ last.0 + 1) → AtBarrier sizes self seen answers next → Finishes sizes self.machines clock.now last.0 seen answers told) }
    {
        self.tell_receiver(RxEvent::RunEnd, last)?;
        self.end_sender(last)?;
        Ok(self.told(alloc, clock))
    }
}

impl Gateway {
    /// A step of the receiver, and what it tells is noted.
    fn tell_receiver(&mut self, event: RxEvent, tick: Tick) -> Result<(), Memory>
        requires { CanTell self.old.receiver self.old.hub (event_of event) tick.0 }
        ensures { OnOk result (TellsReceiver self.old self.new (event_of event) tick.0 (lying self.old.control) self.old.controls) }
    {
        let RxActs { fc, records, moves } = self.receiver.step(event, tick, &mut self.hub);
        put(&mut self.control, fc);
        note_all(&mut self.sessions, records.as_slice())?;
        note_all(&mut self.moves, moves.as_slice())?;
        Ok(())
    }

    /// The flow control that lies in the box leaves, and the receiver is told.
    fn leave_control(&mut self, tick: Tick) -> Result<(), Memory>
        requires ready { CanTell self.old.receiver self.old.hub FcLeft tick.0 }
        requires fits { FitsIn self.old.machines.shape (lying self.old.control) }
        ensures { OnOk result (LeavesControl (lying self.old.control) self.old self.new tick.0) }
    {
        if self.control.is_none() {
            return Ok(());
        }
        let shape = self.machines.shape;
        leave(&mut self.control, &shape, tick, &mut self.controls)?;
        self.tell_receiver(RxEvent::FcLeft, tick)?;
        Ok(())
    }

    /// A step of the sender, and what it tells is noted.
    fn tell_sender(&mut self, event: TxEvent, tick: Tick) -> Result<(), Memory>
        requires { CanTellSender self.old.sender self.old.hub event tick.0 }
        ensures { OnOk result (TellsSender self.old self.new event tick.0 (lying self.old.frame) self.old.frames) }
    {
        let TxActs {
            boxed,
            ended,
            moved,
        } = self.sender.step(event, tick, &mut self.hub);
        put(&mut self.frame, boxed);
        note(&mut self.dests, ended)?;
        note(&mut self.moves, moved)?;
        Ok(())
    }

    /// The frame that lies in the box leaves, and the sender is told.
    fn leave_frame(&mut self, tick: Tick) -> Result<(), Memory>
        requires ready { Lies (lying self.old.frame) → CanTellSender self.old.sender self.old.hub Left tick.0 }
        requires fits { FitsIn self.old.machines.tx.shape (lying self.old.frame) }
        ensures { OnOk result (LeavesFrame (lying self.old.frame) self.old self.new tick.0) }
    {
        if self.frame.is_none() {
            return Ok(());
        }
        let shape = self.machines.tx.shape;
        leave(&mut self.frame, &shape, tick, &mut self.frames)?;
        self.tell_sender(TxEvent::Left, tick)?;
        Ok(())
    }

    /// The sender is told of the run's end. The answer is whether it made a record.
    fn end_once(&mut self, last: Tick) -> Result<bool, Memory>
        requires { CanTellSender self.old.sender self.old.hub RunEnd last.0 }
        ensures told { OnOk result (TellsSender self.old self.new RunEnd last.0 (lying self.old.frame) self.old.frames) }
        ensures more { IfOk result (λ some. MatchBool some (length self.old.dests < length self.new.dests) (length self.new.dests ≤ length self.old.dests)) }
    {
        let before = self.dests.items().len();
        self.tell_sender(TxEvent::RunEnd, last)?;
        Ok(before < self.dests.items().len())
    }

    /// The sender is told of the run's end until it makes no record.
    fn end_sender(&mut self, last: Tick) -> Result<(), Memory>
        requires tick { last.0 ≤ 10_000_000 }
        requires at { (turns : List RxTurn) × (moments : List TxTurn) × (view : View) × (sizes : List ℕ) × Stands sizes self.old last.0 turns moments view }
        ensures machines { OnOk result (self.new.machines ≡ self.old.machines) }
        ensures ends { OnOk result ((sizes : List ℕ) (turns : List RxTurn) (moments : List TxTurn) (view : View) → Stands sizes self.old last.0 turns moments view → EndsTelling sizes self.new last.0 turns moments view) }
        ensures over { OnOk result (IsOver self.new) }
    {
        while self.end_once(last)? {}
        Ok(())
    }

    /// What the run tells.
    fn told(self, alloc: Global, clock: &Clock) -> Played
        ensures { Tells self clock.now result }
    {
        let word = self.hub.word(GroupNo(0));
        Played {
            controls: self.controls,
            frames: self.frames,
            report: Report {
                version: REPORT_VERSION,
                clock: *clock,
                sessions: self.sessions,
                dests: self.dests,
                ifs: IfLines::new(alloc),
                moves: self.moves,
                pool: PoolLine {
                    buffers: 1,
                    changes: (word / ONE_CHANGE) as u32,
                    free: (word % ONE_CHANGE) as u32,
                },
                other_moves: GroupMoveLines::new(alloc),
                other_pools: GroupPoolLines::new(alloc),
            },
        }
    }
}
