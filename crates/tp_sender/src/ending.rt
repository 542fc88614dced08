ghost use Rattle.std.specs.Prelude.{◌≡◌, ◌+◌, None, Some};
ghost use Rattle.tp_sender.specs.Port.{left_by, KnowsToken, IsFree, KeepsPort, RowOver};
ghost use Rattle.hub_core.specs.Calls.{ByReader, SameMeans, freed_by};
ghost use Rattle.hub_core.specs.Stays.{IsSamePort};
ghost use Rattle.hub_core.specs.Tokens.{Reads};
ghost use Rattle.hub_core.specs.View.{grow, Parted};
ghost use Rattle.tp_unit.specs.Unit.{box_meaning_of};
ghost use Rattle.tp_sender.specs.State.{transmission_of};
ghost use Rattle.tp_sender.specs.Table.{Ends, revoked, wait_of};

use crate::transmission::{Outcome, Phase, Transmission};
use crate::{TxActs, TxSet};
use gw_base::Tick;
use hub_core::{DestRecord, DestResult, End, Joined, Left, Move, Port, TxWait};
use tp_unit::BoxAct;

/// The session goes on.
pub fn go_on(live: Transmission, boxed: BoxAct) -> Outcome
    ensures live { result.live ≡ Some live }
    ensures boxed { result.acts.boxed ≡ boxed }
    ensures ended { result.acts.ended ≡ None }
    ensures moved { result.acts.moved ≡ None }
{
    Outcome {
        live: Some(live),
        acts: TxActs {
            boxed,
            ended: None,
            moved: None,
        },
    }
}

/// The session ends with that cause in this tick.
pub fn end<P: Port>(
    set: &TxSet,
    live: Transmission,
    boxed: BoxAct,
    cause: DestResult,
    tick: Tick,
    port: &mut P,
) -> Outcome
    requires { KnowsToken (P.state port.old).view set.now (live.at.seq + 1) live }
    ensures step { RowOver (Ends set.now (transmission_of live) (box_meaning_of boxed) cause) (P.state port.old) (P.state port.new) tick.0 (live.at.seq + 1) result }
    ensures port { KeepsPort set.now (live.at.seq + 1) result.live (P.state port.old).view (P.state port.new).view (P.state port.old).means (P.state port.new).means }
    ensures home { IsSamePort (P.state port.old) (P.state port.new) }
{
    let ended = DestRecord {
        path: set.path,
        dest: set.dest,
        seq: live.at.seq,
        begin: live.begin,
        sent: live.sent,
        end: tick,
        result: cause,
    };
    leave(live.at, boxed, ended, port)
}

/// The destination leaves the session that is told of.
pub fn leave<P: Port>(at: Joined, boxed: BoxAct, told: DestRecord, port: &mut P) -> Outcome
    requires { Reads (P.state port.old).view at }
    ensures view { (P.state port.new).view ≡ grow (Parted at.path.0 at.dest.0 at.seq (freed_by (left_by result.acts.moved))) (P.state port.old).view }
    ensures by { ByReader at.path.0 at.dest.0 0 (P.state port.old).view (P.state port.new).view }
    ensures means { SameMeans (P.state port.old).means (P.state port.new).means }
    ensures home { IsSamePort (P.state port.old) (P.state port.new) }
    ensures live { result.live ≡ None }
    ensures boxed { result.acts.boxed ≡ boxed }
    ensures ended { result.acts.ended ≡ Some told }
    ensures free { IsFree result.acts.moved }
{
    match port.leave(End::Read(at)) {
        Left::Last { change, buf } => ended_by(
            boxed,
            told,
            Some(Move {
                change,
                took: false,
                buf,
            }),
        ),
        Left::Others => ended_by(boxed, told, None),
    }
}

/// What ends a session.
fn ended_by(boxed: BoxAct, told: DestRecord, moved: Option<Move>) -> Outcome
    ensures live { result.live ≡ None }
    ensures boxed { result.acts.boxed ≡ boxed }
    ensures ended { result.acts.ended ≡ Some told }
    ensures moved { result.acts.moved ≡ moved }
{
    Outcome {
        live: None,
        acts: TxActs {
            boxed,
            ended: Some(told),
            moved,
        },
    }
}

/// What is done with the box of a session that ends: a frame that lies in it is revoked.
pub fn revoke(phase: Phase) -> BoxAct
    ensures { box_meaning_of result ≡ revoked phase }
{
    match phase {
        Phase::Box => BoxAct::Revoke,
        Phase::Start | Phase::Bytes | Phase::Fc | Phase::Gap { until: _ } => BoxAct::Keep,
    }
}

/// What a phase waits for.
pub fn awaited(phase: Phase) -> TxWait
    ensures { result ≡ wait_of phase }
{
    match phase {
        Phase::Start => TxWait::Start,
        Phase::Bytes => TxWait::Bytes,
        Phase::Box => TxWait::Bus,
        Phase::Fc => TxWait::Fc,
        Phase::Gap { until: _ } => TxWait::Gap,
    }
}
