ghost use Rattle.std.specs.Prelude.{◌≡◌, ◌+◌, ◌<◌, ◌≤◌};
ghost use Rattle.tp_sender.specs.Port.{KnowsToken, KeepsPort, RowOver, did_of};
ghost use Rattle.hub_core.specs.Stays.{IsSamePort};
ghost use Rattle.tp_unit.specs.Shape.{IsShape};
ghost use Rattle.tp_sender.specs.State.{in_box, transmission_of};
ghost use Rattle.tp_sender.specs.Table.{Answered, Ends, FrameLeft, InAnswer, LiveRow, all_sent, revoked, wait_of};
ghost use Rattle.hub_core.specs.declared.record.DestResult.TheVariants.{RunEnd as EndOfRun, Sent};
ghost use Rattle.tp_unit.specs.Unit.{Keeps};
ghost use Rattle.tp_sender.specs.declared.event.TxEvent.TheVariants.{Left};

use crate::ending::{awaited, end, go_on, leave, revoke};
use crate::frame::next_part;
use crate::transmission::{Outcome, Phase, Transmission};
use crate::turn::take_turn;
use crate::{TxEvent, TxSet};
use flow_plan::gap_ticks;
use gw_base::Tick;
use hub_core::{DestRecord, DestResult, Port};
use tp_unit::BoxAct;

/// The number of sequence numbers (ISO 15765-2, sequence number).
const SEQUENCE_NUMBERS: u8 = 16;

/// The flow status by which a receiver lets frames come.
const CONTINUE: u8 = 0;

/// The flow status by which a receiver asks for a pause.
const WAIT: u8 = 1;

/// The flow status by which a receiver refuses a message.
const OVERFLOW: u8 = 2;

/// A flow control: its status, block size and separation time.
#[derive(Clone, Copy, Debug, PartialEq, Eq)]
pub struct Control {
    pub fs: u8,
    pub bs: u8,
    pub st: u8,
}

/// The frame in the box left.
pub fn frame_left<P: Port>(set: &TxSet, mut live: Transmission, tick: Tick, port: &mut P) -> Outcome
    requires shape { IsShape set.now.shape }
    requires knows { KnowsToken (P.state port.old).view set.now (live.at.seq + 1) live }
    requires tick { tick.0 ≤ 10000000 }
    ensures step { RowOver (FrameLeft set.now (transmission_of live)) (P.state port.old) (P.state port.new) tick.0 (live.at.seq + 1) result }
    ensures port { KeepsPort set.now (live.at.seq + 1) result.live (P.state port.old).view (P.state port.new).view (P.state port.old).means (P.state port.new).means }
    ensures home { IsSamePort (P.state port.old) (P.state port.new) }
{
    let first = live.sent == 0;
    let sent = live.sent + next_part(&set.shape, live.at.len, live.sent) as u32;
    if sent == live.at.len {
        return all_left(set, live, tick, port);
    }
    live.sent = sent;
    live.since = tick;
    if first {
        live.phase = Phase::Fc;
        return go_on(live, BoxAct::Keep);
    }
    live.number = (live.number + 1) % SEQUENCE_NUMBERS;
    if live.block == 1 {
        live.block = 0;
        live.phase = Phase::Fc;
        return go_on(live, BoxAct::Keep);
    }
    live.block = live.block.saturating_sub(1);
    live.phase = Phase::Gap {
        until: Tick(tick.0 + live.gap),
    };
    go_on(live, BoxAct::Keep)
}

/// The unit's last frame left.
fn all_left<P: Port>(set: &TxSet, live: Transmission, tick: Tick, port: &mut P) -> Outcome
    requires knows { KnowsToken (P.state port.old).view set.now (live.at.seq + 1) live }
    ensures step { RowOver (Ends set.now (all_sent (transmission_of live)) Keeps Sent) (P.state port.old) (P.state port.new) tick.0 (live.at.seq + 1) result }
    ensures port { KeepsPort set.now (live.at.seq + 1) result.live (P.state port.old).view (P.state port.new).view (P.state port.old).means (P.state port.new).means }
    ensures home { IsSamePort (P.state port.old) (P.state port.new) }
{
    let ended = DestRecord {
        path: set.path,
        dest: set.dest,
        seq: live.at.seq,
        begin: live.begin,
        sent: live.at.len,
        end: tick,
        result: DestResult::Sent,
    };
    leave(live.at, BoxAct::Keep, ended, port)
}

/// A flow control came: in every phase but Fc it is ignored.
pub fn answer<P: Port>(
    set: &TxSet,
    live: Transmission,
    control: Control,
    tick: Tick,
    port: &mut P,
) -> Outcome
    requires period { 0 < set.now.period }
    requires knows { KnowsToken (P.state port.old).view set.now (live.at.seq + 1) live }
    ensures step { RowOver (InAnswer set.now (transmission_of live) live.phase control.fs control.bs control.st) (P.state port.old) (P.state port.new) tick.0 (live.at.seq + 1) result }
    ensures port { KeepsPort set.now (live.at.seq + 1) result.live (P.state port.old).view (P.state port.new).view (P.state port.old).means (P.state port.new).means }
    ensures home { IsSamePort (P.state port.old) (P.state port.new) }
{
    match live.phase {
        Phase::Fc => obey(set, live, control, tick, port),
        Phase::Start | Phase::Bytes | Phase::Box | Phase::Gap { until: _ } => {
            go_on(live, BoxAct::Keep)
        }
    }
}

/// A flow control came that is awaited.
fn obey<P: Port>(
    set: &TxSet,
    mut live: Transmission,
    control: Control,
    tick: Tick,
    port: &mut P,
) -> Outcome
    requires period { 0 < set.now.period }
    requires knows { KnowsToken (P.state port.old).view set.now (live.at.seq + 1) live }
    ensures step { RowOver (Answered set.now (transmission_of live) control.fs control.bs control.st) (P.state port.old) (P.state port.new) tick.0 (live.at.seq + 1) result }
    ensures port { KeepsPort set.now (live.at.seq + 1) result.live (P.state port.old).view (P.state port.new).view (P.state port.old).means (P.state port.new).means }
    ensures home { IsSamePort (P.state port.old) (P.state port.new) }
{
    match control.fs {
        CONTINUE => {
            live.block = control.bs;
            live.gap = gap_ticks(control.st, set.period);
            live.phase = Phase::Bytes;
            live.since = tick;
            go_on(live, BoxAct::Keep)
        }
        WAIT => {
            live.phase = Phase::Fc;
            live.since = tick;
            go_on(live, BoxAct::Keep)
        }
        OVERFLOW => end(set, live, BoxAct::Keep, DestResult::FcOverflow, tick, port),
        _ => end(
            set,
            live,
            BoxAct::Keep,
            DestResult::InvalidFs(control.fs),
            tick,
            port,
        ),
    }
}

/// The run ends.
pub fn run_out<P: Port>(set: &TxSet, live: Transmission, tick: Tick, port: &mut P) -> Outcome
    requires knows { KnowsToken (P.state port.old).view set.now (live.at.seq + 1) live }
    ensures step { RowOver (Ends set.now (transmission_of live) (revoked live.phase) (EndOfRun (wait_of live.phase) live.since)) (P.state port.old) (P.state port.new) tick.0 (live.at.seq + 1) result }
    ensures port { KeepsPort set.now (live.at.seq + 1) result.live (P.state port.old).view (P.state port.new).view (P.state port.old).means (P.state port.new).means }
    ensures home { IsSamePort (P.state port.old) (P.state port.new) }
{
    let boxed = revoke(live.phase);
    let cause = DestResult::RunEnd {
        wait: awaited(live.phase),
        since: live.since,
    };
    end(set, live, boxed, cause, tick, port)
}

/// What happens to a session.
pub fn step_live<P: Port>(
    set: &TxSet,
    live: Transmission,
    event: TxEvent,
    tick: Tick,
    port: &mut P,
) -> Outcome
    requires shape { IsShape set.now.shape }
    requires period { 0 < set.now.period }
    requires knows { KnowsToken (P.state port.old).view set.now (live.at.seq + 1) live }
    requires since { live.since.0 ≤ tick.0 }
    requires tick { tick.0 ≤ 10000000 }
    requires left { event ≡ Left → in_box live.phase }
    ensures step { RowOver (LiveRow set.now (transmission_of live) event) (P.state port.old) (P.state port.new) tick.0 (live.at.seq + 1) result }
    ensures port { KeepsPort set.now (live.at.seq + 1) result.live (P.state port.old).view (P.state port.new).view (P.state port.old).means (P.state port.new).means }
    ensures home { IsSamePort (P.state port.old) (P.state port.new) }
{
    match event {
        TxEvent::Turn => take_turn(set, live, tick, port),
        TxEvent::Fc { fs, bs, st } => answer(set, live, Control { fs, bs, st }, tick, port),
        TxEvent::Left => frame_left(set, live, tick, port),
        TxEvent::RunEnd => run_out(set, live, tick, port),
    }
}
