//! A run over the frames of two logs, tick by tick.
ghost use Rattle.std.specs.Prelude.{◌≡◌, ◌≤◌, ◌<◌, ◌+◌, List, ℕ, length, IfOk, OnOk};
ghost use Rattle.gw_run.specs.Feed.{ComeWithin};
ghost use Rattle.gw_law.specs.Channels.{bytes_of_address};
ghost use Rattle.gw_run.specs.Frames.{address_of, greatest_tick};
ghost use Rattle.gw_run.specs.Played.{Plays};
ghost use Rattle.gw_run.specs.Playing.{IsNext, MayWorkOnDestination, MayWorkOnSource, WorksOnDestination, WorksOnSource};

use crate::address::Address;
use crate::feed::Feed;
use crate::gateway::Gateway;
use crate::machines::Machines;
use crate::played::Played;
use candump_log::Stamped;
use gw_base::{Memory, Tick};
use std::alloc::Global;
use tick_clock::Clock;

/// A tick's work on the source's bus: the frames of that address come.
fn work_on_source(
    gateway: &mut Gateway,
    address: Address,
    tick: Tick,
    coming: &mut Feed,
) -> Result<(), Memory>
    requires address { gateway.old.machines.rx.a ≡ bytes_of_address address.byte }
    requires at { (sizes : List ℕ) × MayWorkOnSource sizes (address_of address) tick.0 gateway.old coming.old }
    ensures machines { OnOk result (gateway.new.machines ≡ gateway.old.machines) }
    ensures works { OnOk result ((sizes : List ℕ) → WorksOnSource sizes (address_of address) tick.0 gateway.old coming.old gateway.new coming.new) }
{
    while let Some(frame) = coming.take_by(tick) {
        if address.is_of(frame) {
            gateway.receive(tick, address, frame)?;
        }
    }
    gateway.end_source(tick)
}

/// A tick's work on the destination's bus: the flow controls of that address come.
fn work_on_destination(
    gateway: &mut Gateway,
    address: Address,
    tick: Tick,
    coming: &mut Feed,
) -> Result<(), Memory>
    requires limit { tick.0 ≤ 10_000_000 }
    requires at { (sizes : List ℕ) × MayWorkOnDestination sizes (address_of address) tick.0 gateway.old coming.old }
    ensures machines { OnOk result (gateway.new.machines ≡ gateway.old.machines) }
    ensures works { OnOk result ((sizes : List ℕ) → WorksOnDestination sizes (address_of address) tick.0 gateway.old coming.old gateway.new coming.new) }
{
    while let Some(frame) = coming.take_by(tick) {
        if address.is_of(frame) {
            gateway.answer(tick, address, frame)?;
        }
    }
    gateway.end_destination(tick)
}

/// The tick to go on with: the next one where something goes on, else that of the next frame, or the one after the last.
fn next_tick(live: bool, tick: Tick, last: Tick, source: &Feed, destination: &Feed) -> Tick
    requires limit { last.0 < 10_000_000 }
    requires tick { tick.0 ≤ last.0 }
    ensures { ComeWithin (tick.0 + 1) last.0 source.now → ComeWithin (tick.0 + 1) last.0 destination.now → IsNext live tick.0 last.0 source.now destination.now result.0 }
{
    if live {
        return Tick(tick.0 + 1);
    }
    let end = Tick(last.0 + 1);
    let on_source = source.next_tick().unwrap_or(end);
    let on_destination = destination.next_tick().unwrap_or(end);
    Tick(on_source.0.min(on_destination.0))
}

/// Runs the machines over both logs' frames, from tick 0 to the last one, which no frame's tick is above.
pub(crate) fn play(
    alloc: Global,
    machines: &Machines,
    clock: &Clock,
    last: Tick,
    source: &[Stamped],
    destination: &[Stamped],
) -> Result<Played, Memory>
    requires few { length source.now + length destination.now ≤ 1_000_000 }
    requires source { greatest_tick clock.now.start.0 clock.now.period source.now ≤ last.0 }
    requires destination { greatest_tick clock.now.start.0 clock.now.period destination.now ≤ last.0 }
    requires limit { last.0 < 10_000_000 }
    ensures { IfOk result (Plays machines.now clock.now last.0 source.now destination.now) }
{
    let mut gateway = Gateway::new(alloc, machines)?;
    let mut source_coming = Feed::new(source, clock);
    let mut destination_coming = Feed::new(destination, clock);
    let mut tick = Tick(0);
    while tick.0 <= last.0 {
        work_on_source(&mut gateway, machines.source, tick, &mut source_coming)?;
        work_on_destination(
            &mut gateway,
            machines.destination,
            tick,
            &mut destination_coming,
        )?;
        tick = next_tick(
            gateway.is_live(),
            tick,
            last,
            &source_coming,
            &destination_coming,
        );
    }
    gateway.finish(alloc, clock, last)
}
