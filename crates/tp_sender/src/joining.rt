ghost use Rattle.std.specs.Prelude.{◌≡◌, ◌<◌, length, true, None};
ghost use Rattle.tp_sender.specs.Port.{ActsForSet, JoinsOver};
ghost use Rattle.hub_core.specs.Calls.{SameMeans};
ghost use Rattle.hub_core.specs.Stays.{IsSamePort};
ghost use Rattle.tp_sender.specs.State.{transmission_of};
ghost use Rattle.tp_sender.specs.Table.{joined_in};
ghost use Rattle.tp_unit.specs.Unit.{Keeps, box_meaning_of};

use crate::transmission::{Phase, Transmission};
use crate::{TxActs, TxSet};
use cell_stream::Carry;
use gw_base::Tick;
use hub_core::{Joined, Port};
use tp_unit::BoxAct;

/// The sequence number of a unit's first consecutive frame (ISO 15765-2, sequence number).
const FIRST_NUMBER: u8 = 1;

/// Joins the destination's next session, where one stands.
pub fn join<P: Port>(set: &TxSet, next: u32, tick: Tick, port: &mut P) -> Option<Transmission>
    requires acts { ActsForSet (P.state port.old).means set.now }
    requires next { length ((P.state port.old).view.readings set.now.path.0 set.now.dest.0) ≡ next }
    ensures joins { JoinsOver set.now next tick.0 (P.state port.old).floors (P.state port.old).view (P.state port.new).view result }
    ensures means { SameMeans (P.state port.old).means (P.state port.new).means }
    ensures home { IsSamePort (P.state port.old) (P.state port.new) }
{
    let at = port.next(set.group, set.path, set.dest, next)?;
    Some(live_of(at, tick))
}

/// A session as it is joined.
fn live_of(at: Joined, tick: Tick) -> Transmission
    requires { 0 < at.len }
    ensures at { result.at ≡ at }
    ensures state { transmission_of result ≡ record (joined_in tick.0 at.seq at.len) { at = at.at } }
{
    Transmission {
        at,
        carry: Carry::new(),
        begin: tick,
        sent: 0,
        number: FIRST_NUMBER,
        block: 0,
        gap: 0,
        phase: Phase::Start,
        since: tick,
    }
}

/// Nothing is done.
pub fn nothing() -> TxActs
    ensures boxed { box_meaning_of result.boxed ≡ Keeps }
    ensures ended { result.ended ≡ None }
    ensures moved { result.moved ≡ None }
{
    TxActs {
        boxed: BoxAct::Keep,
        ended: None,
        moved: None,
    }
}
