ghost use Rattle.std.specs.Prelude.{◌≡◌, ◌+◌, ◌<◌, ◌≤◌, ◌↔◌, IfSome, IsTrue, List, None, length};
ghost use Rattle.hub_core.specs.View.{Event};
ghost use Rattle.tp_sender.specs.Port.{KnowsToken, KeepsPort, RowOver, ReadsEnough, did_of};
ghost use Rattle.hub_core.specs.Stays.{IsSamePort};
ghost use Rattle.hub_core.specs.Tokens.{Reads};
ghost use Rattle.tp_unit.specs.Shape.{IsShape};
ghost use Rattle.tp_sender.specs.Frame.{part_after};
ghost use Rattle.tp_sender.specs.State.{transmission_of};
ghost use Rattle.tp_sender.specs.Table.{InBytes, InGap, InStart, InTurn, InWait, Lacks, OffersNext, in_phase, is_reached};
ghost use Rattle.tp_sender.specs.declared.transmission.Phase.TheVariants.{Bytes};

use crate::TxSet;
use crate::ending::{end, go_on, revoke};
use crate::frame::{next_part, next_unit};
use crate::transmission::{Outcome, Phase, Transmission};
use arrayvec::ArrayVec;
use gw_base::Tick;
use hub_core::{DestResult, Port, Seen};
use tick_clock::Timer;
use tp_unit::BoxAct;

/// A turn of a session, by its phase.
pub fn take_turn<P: Port>(set: &TxSet, live: Transmission, tick: Tick, port: &mut P) -> Outcome
    requires shape { IsShape set.now.shape }
    requires knows { KnowsToken (P.state port.old).view set.now (live.at.seq + 1) live }
    requires since { live.since.0 ≤ tick.0 }
    ensures step { RowOver (InTurn set.now (transmission_of live) live.phase) (P.state port.old) (P.state port.new) tick.0 (live.at.seq + 1) result }
    ensures port { KeepsPort set.now (live.at.seq + 1) result.live (P.state port.old).view (P.state port.new).view (P.state port.old).means (P.state port.new).means }
    ensures home { IsSamePort (P.state port.old) (P.state port.new) }
{
    match live.phase {
        Phase::Start => begin(set, live, tick, port),
        Phase::Bytes => fill(set, live, tick, port),
        Phase::Box => wait(set, live, set.n_as, DestResult::AsTimeout, tick, port),
        Phase::Fc => wait(set, live, set.n_bs, DestResult::BsTimeout, tick, port),
        Phase::Gap { until } => pause(set, live, until, tick, port),
    }
}

/// A turn in phase Start: the first frame's bytes are collected once enough of the session is published.
pub fn begin<P: Port>(set: &TxSet, mut live: Transmission, tick: Tick, port: &mut P) -> Outcome
    requires shape { IsShape set.now.shape }
    requires knows { KnowsToken (P.state port.old).view set.now (live.at.seq + 1) live }
    ensures step { RowOver (InStart set.now (transmission_of live)) (P.state port.old) (P.state port.new) tick.0 (live.at.seq + 1) result }
    ensures port { KeepsPort set.now (live.at.seq + 1) result.live (P.state port.old).view (P.state port.new).view (P.state port.old).means (P.state port.new).means }
    ensures home { IsSamePort (P.state port.old) (P.state port.new) }
{
    let seen = port.seen(&mut live.at);
    if reaches(set, &live, seen) {
        return fill_from(set, live, tick, port);
    }
    if !seen.writer {
        return end(set, live, BoxAct::Keep, DestResult::SourceEnded, tick, port);
    }
    go_on(live, BoxAct::Keep)
}

/// Whether enough is published to begin with: all bytes or, unless whole units are stored, as many cells as the
/// threshold.
fn reaches(set: &TxSet, live: &Transmission, seen: Seen) -> bool
    ensures { result ≡ is_reached set.now (transmission_of live.now) seen }
{
    seen.bytes == live.at.len || !set.store && set.threshold <= seen.cells
}

/// Phase Bytes begins in this tick, with a turn.
fn fill_from<P: Port>(set: &TxSet, mut live: Transmission, tick: Tick, port: &mut P) -> Outcome
    requires shape { IsShape set.now.shape }
    requires knows { KnowsToken (P.state port.old).view set.now (live.at.seq + 1) live }
    ensures step { RowOver (InBytes set.now (in_phase Bytes tick.0 (transmission_of live))) (P.state port.old) (P.state port.new) tick.0 (live.at.seq + 1) result }
    ensures port { KeepsPort set.now (live.at.seq + 1) result.live (P.state port.old).view (P.state port.new).view (P.state port.old).means (P.state port.new).means }
    ensures home { IsSamePort (P.state port.old) (P.state port.new) }
{
    live.phase = Phase::Bytes;
    live.since = tick;
    fill(set, live, tick, port)
}

/// A turn in phase Bytes: the next frame is offered once its bytes are there.
fn fill<P: Port>(set: &TxSet, mut live: Transmission, tick: Tick, port: &mut P) -> Outcome
    requires shape { IsShape set.now.shape }
    requires knows { KnowsToken (P.state port.old).view set.now (live.at.seq + 1) live }
    requires since { live.since.0 ≤ tick.0 }
    ensures step { RowOver (InBytes set.now (transmission_of live)) (P.state port.old) (P.state port.new) tick.0 (live.at.seq + 1) result }
    ensures port { KeepsPort set.now (live.at.seq + 1) result.live (P.state port.old).view (P.state port.new).view (P.state port.old).means (P.state port.new).means }
    ensures home { IsSamePort (P.state port.old) (P.state port.new) }
{
    let part = next_part(&set.shape, live.at.len, live.sent);
    let seen = port.seen(&mut live.at);
    read_cells(&mut live, part, port);
    if live.carry.len() >= part {
        return offer(set, live, tick);
    }
    lack(set, live, seen, tick, port)
}

/// Reads cells while fewer bytes than `wanted` are carried, and cells are left of those that were seen.
fn read_cells<P: Port>(live: &mut Transmission, wanted: usize, port: &mut P)
    requires reads { Reads (P.state port.old).view live.old.at }
    requires wanted { wanted ≤ 63 }
    ensures cells { ReadsEnough wanted live.old live.new (P.state port.old).view (P.state port.new).view (P.state port.old).means (P.state port.new).means }
    ensures home { IsSamePort (P.state port.old) (P.state port.new) }
{
    while live.carry.len() < wanted && live.at.at < live.at.seen {
        let cell = port.read(&mut live.at);
        live.carry.add(cell);
    }
}

/// The next frame is offered into the box.
fn offer(set: &TxSet, mut live: Transmission, tick: Tick) -> Outcome
    requires shape { IsShape set.now.shape }
    requires enough { part_after set.now.shape live.at.len live.sent ≤ length live.carry }
    ensures offers { (all : List Event) → OffersNext set.now (transmission_of live) (did_of tick.0 (live.at.seq + 1) all result) }
    ensures moved { result.acts.moved ≡ None }
    ensures token { IfSome result.live (λ offered. offered.at ≡ live.at) }
{
    let part = next_part(&set.shape, live.at.len, live.sent);
    let mut bytes = ArrayVec::new();
    live.carry.take(part, &mut bytes);
    let unit = next_unit(
        &set.shape,
        live.at.len,
        live.sent,
        live.number,
        bytes.as_slice(),
    );
    live.phase = Phase::Box;
    live.since = tick;
    go_on(live, BoxAct::Offer(unit))
}

/// The next frame's bytes aren't there: they never will be, or are late, or may still come.
fn lack<P: Port>(set: &TxSet, live: Transmission, seen: Seen, tick: Tick, port: &mut P) -> Outcome
    requires knows { KnowsToken (P.state port.old).view set.now (live.at.seq + 1) live }
    requires since { live.since.0 ≤ tick.0 }
    ensures step { RowOver (Lacks set.now (transmission_of live) seen) (P.state port.old) (P.state port.new) tick.0 (live.at.seq + 1) result }
    ensures port { KeepsPort set.now (live.at.seq + 1) result.live (P.state port.old).view (P.state port.new).view (P.state port.old).means (P.state port.new).means }
    ensures home { IsSamePort (P.state port.old) (P.state port.new) }
{
    if !seen.writer {
        return end(set, live, BoxAct::Keep, DestResult::SourceEnded, tick, port);
    }
    if is_due(live.since, set.n_cs, tick) {
        let late = DestResult::CsTimeout { seen: seen.bytes };
        return end(set, live, BoxAct::Keep, late, tick, port);
    }
    go_on(live, BoxAct::Keep)
}

/// A turn in a phase that waits for something else: the session ends once the limit, in ticks, is over.
fn wait<P: Port>(
    set: &TxSet,
    live: Transmission,
    limit: u32,
    cause: DestResult,
    tick: Tick,
    port: &mut P,
) -> Outcome
    requires knows { KnowsToken (P.state port.old).view set.now (live.at.seq + 1) live }
    requires since { live.since.0 ≤ tick.0 }
    ensures step { RowOver (InWait set.now (transmission_of live) limit cause) (P.state port.old) (P.state port.new) tick.0 (live.at.seq + 1) result }
    ensures port { KeepsPort set.now (live.at.seq + 1) result.live (P.state port.old).view (P.state port.new).view (P.state port.old).means (P.state port.new).means }
    ensures home { IsSamePort (P.state port.old) (P.state port.new) }
{
    if is_due(live.since, limit, tick) {
        let boxed = revoke(live.phase);
        return end(set, live, boxed, cause, tick, port);
    }
    go_on(live, BoxAct::Keep)
}

/// A turn in phase Gap: from the tick `until` on the next frame's bytes are collected.
fn pause<P: Port>(set: &TxSet, live: Transmission, until: Tick, tick: Tick, port: &mut P) -> Outcome
    requires shape { IsShape set.now.shape }
    requires knows { KnowsToken (P.state port.old).view set.now (live.at.seq + 1) live }
    ensures step { RowOver (InGap set.now (transmission_of live) until.0) (P.state port.old) (P.state port.new) tick.0 (live.at.seq + 1) result }
    ensures port { KeepsPort set.now (live.at.seq + 1) result.live (P.state port.old).view (P.state port.new).view (P.state port.old).means (P.state port.new).means }
    ensures home { IsSamePort (P.state port.old) (P.state port.new) }
{
    if tick.0 < until.0 {
        return go_on(live, BoxAct::Keep);
    }
    fill_from(set, live, tick, port)
}

/// Whether a limit in ticks is over.
fn is_due(since: Tick, limit: u32, tick: Tick) -> bool
    requires { since.0 ≤ tick.0 }
    ensures { IsTrue result ↔ (since.0 + limit ≤ tick.0) }
{
    let timer = Timer {
        since,
        limit: limit as u64,
    };
    timer.due(tick)
}
